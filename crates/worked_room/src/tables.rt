// The failed-link table, asked.
use refusals::Refused;
use room::Shape;
use std::io;

fn failed_row(
    rt: &impl Print,
    shape: Shape,
    table: &[u8],
    server: usize,
    level: usize,
) -> io::Result<()> {
    print::question(rt, b"failed", shape)?;
    print::bytes(rt, table)?;
    print::item(rt, server)?;
    print::item(rt, level)?;
    match links::failed_link(shape, table, server, level) {
        Ok(true) => print::text(rt, b" = yes\n"),
        Ok(false) => print::text(rt, b" = no\n"),
        Err(reason) => print::refused(rt, Refused::from(reason)),
    }
}

// Links that are failed and links that are not, in a room of four servers.
pub(crate) fn asked(rt: &impl Print) -> io::Result<()> {
    let shape = Shape::full(2, 1);
    failed_row(rt, shape, &[0, 0, 3, 1], 2, 1)?;
    failed_row(rt, shape, &[0, 0, 3, 1], 2, 0)?;
    failed_row(rt, shape, &[0, 0, 3, 1], 3, 1)?;
    failed_row(rt, shape, &[0, 0, 3, 1], 3, 0)?;
    failed_row(rt, shape, &[0, 0, 3, 1], 1, 0)?;
    failed_row(rt, shape, &[0, 0, 1, 1], 2, 1)?;
    failed_row(rt, shape, &[0, 0, 1, 1], 2, 0)
}

// The edges of 4, 20 and 6, in that order.
pub(crate) fn refusals(rt: &impl Print) -> io::Result<()> {
    let shape = Shape::full(2, 1);
    failed_row(rt, shape, &[1, 2, 3, 0], 4, 2)?;
    failed_row(rt, shape, &[1, 2, 3, 0], 3, 2)?;
    failed_row(rt, shape, &[1, 2, 3], 2, 1)?;
    let high = [1u8, 4, 3, 0];
    failed_row(rt, shape, &high, 2, 1)?;
    failed_row(rt, Shape::full(1, 1), &high, 9, 9)?;
    failed_row(rt, Shape::full(2, 0), &high, 2, 1)?;
    failed_row(rt, Shape::full(2, 0), &high, 1, 0)
}

// A half-filled room's table has m n^k bytes; 6 for that of the full room, 26 before it, and the last server's links.
pub(crate) fn half_filled(rt: &impl Print) -> io::Result<()> {
    let shape = Shape::new(4, 1, 2);
    failed_row(rt, shape, &[0, 0, 0, 0, 0, 0, 0, 3], 7, 1)?;
    failed_row(rt, shape, &[0, 0, 0, 0, 0, 0, 0, 1], 7, 1)?;
    failed_row(rt, shape, &[0, 0, 0, 0, 0, 0, 0, 1], 7, 0)?;
    failed_row(rt, shape, &[0, 0, 0, 0, 0, 0, 0, 1], 8, 2)?;
    failed_row(rt, shape, &[0, 0, 0, 0, 0, 0, 0, 1], 7, 2)?;
    let full = [0u8; 16];
    failed_row(rt, shape, &full, 7, 1)?;
    failed_row(rt, Shape::new(4, 1, 5), &full, 16, 2)?;
    failed_row(rt, Shape::new(64, 0, 2), &[1, 0], 0, 0)
}
