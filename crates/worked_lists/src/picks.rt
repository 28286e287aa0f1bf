// Picking a usable route.
use refusals::Refused;
use room::Shape;
use std::io;

fn pick_row(
    rt: &impl Print,
    shape: Shape,
    table: &[u8],
    source: usize,
    destination: usize,
    fresh: &[u8],
    kept: &[u8],
) -> io::Result<()> {
    print::question(rt, b"picked", shape)?;
    print::bytes(rt, table)?;
    print::all(rt, &[source, destination])?;
    print::bytes(rt, fresh)?;
    print::bytes(rt, kept)?;
    if let Err(reason) = pick::pick_refusal(shape, table, source, destination, fresh, kept) {
        return print::refused(rt, Refused::from(reason));
    }
    print::text(rt, b" =")?;
    print::bytes(
        rt,
        pick::pick_route(shape, table, source, destination, fresh, kept),
    )?;
    print::end(rt)
}

// A row for each of some pairs of lists, a fresh one and a kept one, between the same two servers.
fn pick_rows(
    rt: &impl Print,
    shape: Shape,
    table: &[u8],
    source: usize,
    destination: usize,
    lists: &[(&[u8], &[u8])],
) -> io::Result<()> {
    for &(fresh, kept) in lists {
        pick_row(rt, shape, table, source, destination, fresh, kept)?;
    }
    Ok(())
}

// Fresh before kept, the first that is usable, either list empty, lists that meet servers or switches again, which say no more
// than 16, and every refusal in its order.
pub(crate) fn picks(rt: &impl Print) -> io::Result<()> {
    let shape = Shape::full(4, 1);
    let table = [0u8; 16];
    let falling: &[u8] = b"\x41\x03\0\0\0\0\0\0";
    let rising: &[u8] = b"\x03\x41\0\0\0\0\0\0";
    pick_rows(
        rt,
        shape,
        &table,
        0,
        7,
        &[
            (falling, rising),
            (b"\x41\x43\0\0\0\0\0\0\x01\x41\x03\0\0\0\0\0", rising),
            (b"\x41\x43\0\0\0\0\0\0\x03\x41\0\0\0\0\0\0", falling),
            (b"", b"\x41\x43\0\0\0\0\0\0\x03\x41\0\0\0\0\0\0"),
            (falling, b""),
            (b"", b""),
            (b"\x41\x43\0\0\0\0\0\0", b"\x41\x43\0\0\0\0\0\0"),
            (b"\x01\0\x03\x41\0\0\0\0", b"\x41\x43\x03\x41\0\0\0\0"),
            (
                b"\x01\0\x03\x41\0\0\0\0",
                b"\x03\x41\0\0\0\0\0\0\x03\x41\0\0\0\0\0\0",
            ),
            (b"\x41\x03\0\0\0\0\0", b""),
            (falling, b"\x41\x03\0\0\0\0\0\0\x41"),
        ],
    )?;
    pick_row(rt, shape, &table, 7, 7, b"\0", b"\0")?;
    let dead = [0u8, 0, 0, 3, 0, 0, 0, 0, 0, 0, 0, 0, 0, 0, 0, 0];
    pick_row(rt, shape, &dead, 0, 7, rising, falling)?;
    let high = [4u8, 0, 0, 0, 0, 0, 0, 0, 0, 0, 0, 0, 0, 0, 0, 0];
    pick_row(rt, shape, &high, 0, 7, b"\x03", b"")
}

// A half-filled room: a value of m is not usable, and the table of the full room is refused.
pub(crate) fn half_filled(rt: &impl Print) -> io::Result<()> {
    let shape = Shape::new(4, 1, 2);
    let table = [0u8; 8];
    let beyond = b"\x42\x03\x41\0\0\0\0\0";
    let within = b"\x41\x03\0\0\0\0\0\0";
    pick_row(rt, shape, &table, 0, 7, beyond, within)?;
    pick_row(rt, shape, &table, 0, 7, within, beyond)?;
    pick_row(rt, shape, &table, 0, 7, beyond, beyond)?;
    pick_row(rt, shape, &[0; 16], 0, 7, within, within)?;
    pick_row(rt, shape, &table, 0, 8, within, within)?;
    pick_row(rt, Shape::new(4, 1, 1), &table, 8, 8, within, within)
}
