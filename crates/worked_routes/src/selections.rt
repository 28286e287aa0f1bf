// Selection around failed links.
use crate::routes::answered;
use room::Shape;
use std::io;

fn select_row(
    rt: &impl Print,
    shape: Shape,
    table: &[u8],
    source: usize,
    destination: usize,
) -> io::Result<()> {
    print::question(rt, b"select", shape)?;
    print::bytes(rt, table)?;
    print::all(rt, &[source, destination])?;
    answered(rt, select::select_routes(shape, table, source, destination))
}

// A healthy room, a dead server, a dead switch, a dead end, and the refusals, in a room of sixteen servers.
pub(crate) fn sixteen(rt: &impl Print) -> io::Result<()> {
    let shape = Shape::full(4, 1);
    let healthy = [0u8; 16];
    select_row(rt, shape, &healthy, 0, 7)?;
    select_row(rt, shape, &healthy, 0, 3)?;
    let server = [0u8, 0, 0, 3, 0, 0, 0, 0, 0, 0, 0, 0, 0, 0, 0, 0];
    select_row(rt, shape, &server, 0, 7)?;
    select_row(rt, shape, &server, 0, 3)?;
    let switch = [1u8, 1, 1, 1, 0, 0, 0, 0, 0, 0, 0, 0, 0, 0, 0, 0];
    select_row(rt, shape, &switch, 0, 7)?;
    select_row(rt, shape, &switch, 0, 3)?;
    let end = [0u8, 0, 0, 0, 0, 0, 0, 3, 0, 0, 0, 0, 0, 0, 0, 0];
    select_row(rt, shape, &end, 0, 7)?;
    select_row(rt, shape, &end, 7, 0)?;
    select_row(rt, shape, &end, 7, 7)?;
    select_row(rt, shape, &end, 0, 16)?;
    let high = [0u8, 0, 0, 0, 0, 0, 0, 4, 0, 0, 0, 0, 0, 0, 0, 0];
    select_row(rt, shape, &high, 0, 7)?;
    select_row(rt, Shape::full(4, 0), &healthy, 0, 1)?;
    select_row(rt, Shape::full(9, 3), &healthy, 0, 0)
}

// A room whose live links are one line: eight hops are found, nine are not; and a room cut in two.
pub(crate) fn far(rt: &impl Print) -> io::Result<()> {
    let shape = Shape::full(2, 3);
    let line = [
        14u8, 12, 10, 12, 6, 12, 10, 12, 15, 15, 15, 15, 6, 14, 15, 15,
    ];
    select_row(rt, shape, &line, 0, 12)?;
    select_row(rt, shape, &line, 0, 13)?;
    select_row(rt, shape, &line, 1, 13)?;
    select_row(rt, shape, &line, 0, 8)?;
    let cut = Shape::full(2, 1);
    let halves = [2u8, 2, 2, 2];
    select_row(rt, cut, &halves, 0, 1)?;
    select_row(rt, cut, &halves, 0, 2)?;
    let wide = Shape::full(3, 2);
    let some = [
        0u8, 1, 0, 0, 2, 0, 4, 0, 0, 7, 0, 0, 1, 0, 0, 0, 3, 0, 0, 0, 5, 0, 0, 0, 2, 0, 0,
    ];
    select_row(rt, wide, &some, 0, 26)?;
    select_row(rt, wide, &some, 1, 25)?;
    select_row(rt, wide, &some, 9, 17)
}

// Half-filled rooms of one level and of two: an alternate over level k keeps below m, so there may be none.
pub(crate) fn half_filled(rt: &impl Print) -> io::Result<()> {
    let half = Shape::new(4, 1, 2);
    let healthy = [0u8; 8];
    select_row(rt, half, &healthy, 0, 7)?;
    select_row(rt, half, &healthy, 4, 7)?;
    let dead = [0u8, 0, 0, 3, 0, 0, 0, 0];
    select_row(rt, half, &dead, 0, 7)?;
    select_row(rt, half, &dead, 0, 3)?;
    select_row(rt, half, &[0; 16], 0, 7)?;
    select_row(rt, half, &healthy, 0, 8)?;
    select_row(rt, Shape::new(4, 1, 5), &healthy, 8, 8)?;
    let most = Shape::new(4, 1, 3);
    let link = [0u8, 0, 0, 2, 0, 0, 0, 0, 0, 0, 0, 0];
    select_row(rt, most, &link, 11, 8)?;
    let server = [0u8, 0, 0, 3, 0, 0, 0, 0, 0, 0, 0, 0];
    select_row(rt, most, &server, 0, 7)?;
    let pair = Shape::new(64, 0, 2);
    select_row(rt, pair, &[0; 2], 1, 0)?;
    select_row(rt, pair, &[1, 0], 1, 0)
}

// Half-filled rooms of three levels and of four, each with a failed link or a dead server.
pub(crate) fn half_filled_deep(rt: &impl Print) -> io::Result<()> {
    let three = Shape::new(3, 2, 2);
    let mut link = [0u8; 18];
    link[12] = 1;
    select_row(rt, three, &link, 5, 3)?;
    let mut servers = [0u8; 18];
    servers[11] = 7;
    servers[16] = 7;
    select_row(rt, three, &servers, 13, 15)?;
    let mut server = [0u8; 54];
    server[15] = 15;
    select_row(rt, Shape::new(3, 3, 2), &server, 39, 44)
}
