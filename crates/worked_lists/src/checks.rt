// Lists of arrays: checked.
use room::Shape;
use std::io;

pub(crate) fn check_row(
    rt: &impl Print,
    shape: Shape,
    table: &[u8],
    source: usize,
    destination: usize,
    list: &[u8],
) -> io::Result<()> {
    print::question(rt, b"check", shape)?;
    print::bytes(rt, table)?;
    print::all(rt, &[source, destination])?;
    print::bytes(rt, list)?;
    match verdict::check_list(shape, table, source, destination, list) {
        Ok(()) => print::text(rt, b" = accepted\n"),
        Err(refused) => print::refused(rt, refused),
    }
}

// A row for each of some lists, between the same two servers.
pub(crate) fn check_rows(
    rt: &impl Print,
    shape: Shape,
    table: &[u8],
    source: usize,
    destination: usize,
    lists: &[&[u8]],
) -> io::Result<()> {
    for &list in lists {
        check_row(rt, shape, table, source, destination, list)?;
    }
    Ok(())
}

// Lists in a room of sixteen servers with no failed link.
pub(crate) fn healthy(rt: &impl Print) -> io::Result<()> {
    let shape = Shape::full(4, 1);
    let table = [0u8; 16];
    let both = b"\x41\x03\0\0\0\0\0\0\x03\x41\0\0\0\0\0\0";
    check_row(rt, shape, &table, 0, 7, both)?;
    check_rows(
        rt,
        shape,
        &table,
        0,
        3,
        &[
            b"\x03\0\0\0\0\0\0\0\x03\0\0\0\0\0\0\0",
            b"\x03\0\0\0\0\0\0\0\x41\x03\x40\0\0\0\0\0",
        ],
    )?;
    check_rows(
        rt,
        shape,
        &table,
        0,
        7,
        &[
            b"\x41\x03\0\0\0\0\0\0\x01\x42\x03\x41\0\0\0\0",
            b"\x41\x03\0\0\0\0\0\0\x01\x41\x03\0\0\0\0\0",
            b"",
            b"\x41\x03\0\0\0\0\0\0\x03\x41\0\0\0\0\0",
            b"\x41\x03\0\0\0\0\0\0\x03\x41\0\0\0\0\0\0\x41\x03\0\0\0\0\0\0",
            b"\x41\x43\0\0\0\0\0\0\x84\x41\0\0\0\0\0\0",
            b"\x84\x41\0\0\0\0\0\0\x41\x43\0\0\0\0\0\0",
            b"\x41\x03\0\0\0\0\0\0\x84\x41\0\0\0\0\0\0",
        ],
    )?;
    check_row(rt, shape, &table, 0, 0, b"")?;
    check_row(rt, shape, &table, 16, 0, b"")?;
    check_row(rt, Shape::full(4, 0), &table, 0, 1, b"")
}

// A server met again and a switch used again, by the first array and by the second; 11 comes before both.
pub(crate) fn repeats(rt: &impl Print) -> io::Result<()> {
    let shape = Shape::full(4, 1);
    let table = [0u8; 16];
    let round = b"\x01\x41\0\x40\0\0\0\0";
    check_row(rt, shape, &table, 0, 7, round)?;
    check_rows(
        rt,
        shape,
        &table,
        0,
        15,
        &[
            b"\x03\x43\0\0\0\0\0\0\x01\x41\x02\x40\x01\0\0\0",
            b"\x03\x43\0\0\0\0\0\0\x01\x41\x02\x40\x03\0\0\0",
        ],
    )?;
    let source = [2u8, 0, 0, 0, 0, 0, 0, 0, 0, 0, 0, 0, 0, 0, 0, 0];
    check_row(rt, shape, &source, 0, 7, round)?;
    let new = [0u8, 0, 0, 1, 0, 0, 0, 0, 0, 0, 0, 0, 0, 0, 0, 0];
    check_row(rt, shape, &new, 0, 15, b"\x01\x41\x02\x40\x03\0\0\0")
}

// Failed links: the sender's, the receiver's, a link beside the route; and tables that are refused.
pub(crate) fn failed(rt: &impl Print) -> io::Result<()> {
    let shape = Shape::full(4, 1);
    let sender = [2u8, 0, 0, 0, 0, 0, 0, 0, 0, 0, 0, 0, 0, 0, 0, 0];
    check_row(rt, shape, &sender, 0, 7, b"\x41\x03\0\0\0\0\0\0")?;
    check_row(rt, shape, &sender, 0, 7, b"\x03\x41\0\0\0\0\0\0")?;
    let receiver = [0u8, 0, 0, 0, 2, 0, 0, 0, 0, 0, 0, 0, 0, 0, 0, 0];
    check_row(rt, shape, &receiver, 0, 7, b"\x41\x03\0\0\0\0\0\0")?;
    let beside = [0u8, 3, 3, 2, 0, 3, 3, 0, 3, 3, 3, 3, 3, 3, 3, 3];
    check_row(rt, shape, &beside, 0, 7, b"\x41\x03\0\0\0\0\0\0")?;
    let high = [0u8, 0, 0, 0, 0, 0, 0, 0, 0, 0, 0, 0, 0, 0, 0, 4];
    check_row(rt, shape, &high, 0, 7, b"\x41")?;
    let short = [0u8; 15];
    check_row(rt, shape, &short, 0, 7, b"\x41\x03\0\0\0\0\0\0")
}

// A half-filled room: two routes, the table of the full room, failed links at level k, and a value of m.
pub(crate) fn half_filled(rt: &impl Print) -> io::Result<()> {
    let shape = Shape::new(4, 1, 2);
    let table = [0u8; 8];
    let both = b"\x41\x03\0\0\0\0\0\0\x03\x41\0\0\0\0\0\0";
    check_row(rt, shape, &table, 0, 7, both)?;
    check_row(rt, shape, &[0; 16], 0, 7, both)?;
    check_row(rt, shape, &[0; 7], 0, 7, both)?;
    check_row(rt, shape, &[0, 0, 0, 0, 0, 0, 0, 4], 0, 7, both)?;
    check_row(rt, shape, &[0, 0, 0, 0, 2, 0, 0, 0], 0, 7, both)?;
    check_row(rt, shape, &[0, 0, 0, 2, 0, 0, 0, 0], 0, 7, both)?;
    check_rows(
        rt,
        shape,
        &table,
        0,
        7,
        &[
            b"\x41\x03\0\0\0\0\0\0\x01\x42\x03\x41\0\0\0\0",
            b"\x03\x41\0\0\0\0\0\0\x01\x41\x03\0\0\0\0\0",
        ],
    )?;
    check_row(rt, shape, &table, 0, 8, both)?;
    check_row(rt, Shape::new(4, 1, 5), &table, 8, 8, b"")
}

// Half-filled rooms of one level and of three.
pub(crate) fn half_filled_levels(rt: &impl Print) -> io::Result<()> {
    let pair = Shape::new(64, 0, 2);
    check_row(rt, pair, &[0; 2], 1, 0, b"\0\0\0\0\0\0\0\0")?;
    check_row(rt, pair, &[0; 3], 1, 0, b"\0\0\0\0\0\0\0\0")?;
    check_row(rt, pair, &[0; 2], 0, 1, b"\x02\x01\0\0\0\0\0\0")?;
    let deep = Shape::new(3, 2, 2);
    let healthy = [0u8; 18];
    check_rows(
        rt,
        deep,
        &healthy,
        9,
        10,
        &[
            b"\x80\x01\x81\0\0\0\0\0\x41\x01\x40\0\0\0\0\0\x01\0\0\0\0\0\0\0",
            b"\x82\x01\x81\0\0\0\0\0\x41\x01\x40\0\0\0\0\0\x01\0\0\0\0\0\0\0",
        ],
    )
}
