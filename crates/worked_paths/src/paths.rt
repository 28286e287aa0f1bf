// Path bytes: read, written, reversed.
use refusals::Refused;
use room::Shape;
use std::io;

fn read_row(
    rt: &impl Print,
    shape: Shape,
    source: usize,
    destination: usize,
    path: &[u8],
) -> io::Result<()> {
    print::question(rt, b"read", shape)?;
    print::item(rt, source)?;
    print::item(rt, destination)?;
    print::bytes(rt, path)?;
    match path::read_path(shape, source, destination, path) {
        Ok(reading) => {
            print::text(rt, b" =")?;
            print::items(rt, reading.servers, reading.count)?;
            print::end(rt)
        }
        Err(refused) => print::refused(rt, refused),
    }
}

// A row for each of the arrays, which stand one behind the other: a call for each would take the check longer.
fn read_rows(
    rt: &impl Print,
    shape: Shape,
    source: usize,
    destination: usize,
    arrays: &[u8],
) -> io::Result<()> {
    for path in arrays.chunks_exact(8) {
        read_row(rt, shape, source, destination, path)?;
    }
    Ok(())
}

fn writing(rt: &impl Print, answer: Result<[u8; 8], Refused>) -> io::Result<()> {
    match answer {
        Ok(bytes) => {
            print::text(rt, b" =")?;
            print::bytes(rt, &bytes)?;
            print::end(rt)
        }
        Err(refused) => print::refused(rt, refused),
    }
}

fn reverse_row(
    rt: &impl Print,
    shape: Shape,
    source: usize,
    destination: usize,
    path: &[u8],
) -> io::Result<()> {
    print::question(rt, b"reverse", shape)?;
    print::item(rt, source)?;
    print::item(rt, destination)?;
    print::bytes(rt, path)?;
    writing(rt, path::reverse_path(shape, source, destination, path))
}

fn write_row(rt: &impl Print, shape: Shape, servers: &[usize]) -> io::Result<()> {
    print::question(rt, b"write", shape)?;
    print::all(rt, servers)?;
    writing(rt, path::write_path(shape, servers))
}

// The rows of the rules, and an array of zeros that is a route.
pub(crate) fn readings(rt: &impl Print) -> io::Result<()> {
    let eight = Shape::full(8, 3);
    let four = Shape::full(4, 1);
    let two = Shape::full(2, 0);
    read_row(rt, eight, 1, 521, b"\xc1\x41\0\0\0\0\0\0")?;
    read_row(rt, eight, 1, 521, b"\x81\x41\xc1\x80\0\0\0\0")?;
    read_row(rt, two, 1, 0, b"\0\0\0\0\0\0\0\0")?;
    read_row(rt, two, 0, 1, b"\0\0\0\0\0\0\0\0")?;
    read_row(rt, four, 0, 3, b"\x01\x03\0\0\0\0\0\0")?;
    read_row(rt, four, 0, 7, b"\x01\x42\x03\x41\0\0\0\0")?;
    read_row(rt, eight, 1, 521, b"\x08\0\0\0\0\0\0\0")?;
    read_row(rt, four, 0, 3, b"\x80\0\0\0\0\0\0\0")?;
    read_row(rt, eight, 0, 512, b"\x01\x41\0\0\xc1\x40\0\0")?;
    read_row(rt, Shape::full(4, 0), 0, 3, b"\x03\0\0\0\0\0\0\0")
}

// Every refusal that reading can give, in its order.
pub(crate) fn refused_readings(rt: &impl Print) -> io::Result<()> {
    let eight = Shape::full(8, 3);
    let four = Shape::full(4, 1);
    read_row(rt, Shape::full(9, 3), 0, 0, b"\0")?;
    read_row(rt, four, 16, 16, b"\0")?;
    read_row(rt, four, 0, 16, b"\0")?;
    read_row(rt, four, 5, 5, b"\0")?;
    read_row(rt, four, 0, 5, b"\0\0\0\0\0\0\0")?;
    read_row(rt, four, 0, 5, b"\0\0\0\0\0\0\0\0\0")?;
    read_row(rt, four, 0, 5, b"")?;
    read_rows(
        rt,
        four,
        0,
        5,
        b"\xff\0\0\0\0\0\0\0\x44\0\0\0\0\0\0\0\x40\0\0\0\0\0\0\0\x41\x41\0\0\0\0\0\0",
    )?;
    read_rows(
        rt,
        four,
        0,
        5,
        b"\x41\x40\0\0\0\0\0\0\x41\x42\0\0\0\0\0\0\x41\x01\x02\0\0\0\0\0\x41\x01\0\0\0\0\0\x01",
    )?;
    read_rows(
        rt,
        eight,
        0,
        4095,
        b"\x01\x41\x81\xc1\x02\x42\x82\xc2\x01\x41\x81\xc1\x02\x42\x82\x83",
    )
}

// A server met again: the source over its own switch and over a fresh one, and a later server. A switch used again by a hop
// to a new server, which may be the destination. Bytes behind the hop are not looked at. Both in a room of one switch. Then at
// hop 8 the source over a fresh switch, the servers of hops 1 and 2, and the destination, over the switch of hop 2.
pub(crate) fn repeats(rt: &impl Print) -> io::Result<()> {
    let four = Shape::full(4, 1);
    let one = Shape::full(4, 0);
    read_rows(
        rt,
        four,
        0,
        3,
        b"\x01\0\0\0\0\0\0\0\x01\x41\0\x40\0\0\0\0\x01\x41\x02\x40\x03\0\0\0\x01\x41\0\x40\x84\xff\xff\xff",
    )?;
    read_rows(
        rt,
        four,
        0,
        15,
        b"\x01\x41\x02\x40\x01\0\0\0\x01\x41\x02\x40\x03\0\0\0",
    )?;
    read_rows(rt, one, 0, 3, b"\x01\0\x03\0\0\0\0\0\x01\x02\x03\0\0\0\0\0")?;
    read_rows(
        rt,
        four,
        0,
        7,
        b"\x01\x41\x02\x42\x03\x43\0\x40\x01\x41\x02\x42\x03\x43\x01\x40\x01\x41\x02\x42\x03\x43\x01\x41",
    )?;
    read_rows(rt, four, 0, 9, b"\x01\x41\x02\x42\x03\x43\x01\x42")
}

// A route from 1 to 521 and back, one of eight hops, and every refusal of the writer.
pub(crate) fn writings(rt: &impl Print) -> io::Result<()> {
    let eight = Shape::full(8, 3);
    let four = Shape::full(4, 1);
    let two = Shape::full(2, 0);
    reverse_row(rt, eight, 1, 521, b"\xc1\x41\0\0\0\0\0\0")?;
    reverse_row(rt, eight, 521, 1, b"\x40\xc0\0\0\0\0\0\0")?;
    reverse_row(rt, eight, 4095, 585, b"\xc0\x82\x42\x02\xc1\x81\x41\x01")?;
    reverse_row(rt, two, 1, 0, b"\0\0\0\0\0\0\0\0")?;
    reverse_row(rt, four, 0, 3, b"\x01\x03\0\0\0\0\0\0")?;
    reverse_row(rt, four, 0, 3, b"\x03\0\0")?;
    write_row(rt, eight, &[1, 513, 521])?;
    write_row(rt, four, &[0, 1, 9, 11, 7])?;
    write_row(rt, two, &[1, 0])?;
    write_row(rt, Shape::full(65, 0), &[1])?;
    write_row(rt, four, &[1])?;
    write_row(rt, four, &[0, 1, 5, 6, 10, 11, 15, 12, 8, 9])?;
    write_row(rt, four, &[0, 99, 0])?;
    write_row(rt, four, &[0, 1, 0])?;
    write_row(rt, four, &[0, 1, 6])?;
    write_row(rt, four, &[0, 1, 1, 2])?;
    write_row(rt, four, &[0, 1, 5, 1, 2])?;
    write_row(rt, four, &[0, 1, 3])?;
    write_row(rt, eight, &[0, 1, 9, 73, 585, 586, 594, 658, 1170])
}

// The writer and reversal: the first server met again over a fresh switch and over its own, a later one, and a switch used
// again, at hop 8 too; 23 comes before both.
pub(crate) fn repeated_writings(rt: &impl Print) -> io::Result<()> {
    let four = Shape::full(4, 1);
    let half = Shape::new(4, 1, 2);
    write_row(rt, four, &[0, 1, 5, 4, 0, 3])?;
    write_row(rt, four, &[0, 1, 0, 4])?;
    write_row(rt, four, &[0, 1, 5, 0, 4])?;
    write_row(rt, four, &[0, 1, 5, 6, 10, 11, 15, 13, 1])?;
    write_row(rt, four, &[0, 1, 5, 6, 10, 11, 15, 13, 9])?;
    write_row(rt, half, &[0, 4, 5, 1, 0, 3])?;
    write_row(rt, Shape::new(4, 1, 3), &[0, 4, 8])?;
    reverse_row(rt, four, 0, 3, b"\x01\x41\0\x40\0\0\0\0")?;
    reverse_row(rt, four, 0, 3, b"\x01\x41\x02\x40\x03\0\0\0")
}

// A value at level k is below m, at the others below n, and every server is below m n^k; 28 and 29 there.
pub(crate) fn half_filled_readings(rt: &impl Print) -> io::Result<()> {
    let half = Shape::new(4, 1, 2);
    let eight = Shape::new(8, 3, 4);
    let pair = Shape::new(64, 0, 2);
    read_row(rt, half, 0, 3, b"\x42\x03\x40\0\0\0\0\0")?;
    read_row(rt, Shape::new(4, 1, 4), 0, 3, b"\x42\x03\x40\0\0\0\0\0")?;
    read_row(rt, half, 0, 3, b"\x41\x03\x40\0\0\0\0\0")?;
    read_row(rt, half, 0, 3, b"\x43\0\0\0\0\0\0\0")?;
    read_row(rt, half, 0, 3, b"\x44\0\0\0\0\0\0\0")?;
    read_row(rt, half, 0, 3, b"\x04\0\0\0\0\0\0\0")?;
    read_row(rt, half, 4, 7, b"\x02\x43\0\0\0\0\0\0")?;
    read_rows(
        rt,
        half,
        0,
        7,
        b"\x41\x40\0\0\0\0\0\0\x01\x41\0\x40\x03\0\0\0\x01\x41\x02\x40\x03\x41\0\0",
    )?;
    read_row(rt, half, 0, 8, b"\x42\0\0\0\0\0\0\0")?;
    read_row(rt, Shape::new(4, 1, 5), 16, 16, b"\0")?;
    read_rows(
        rt,
        eight,
        1537,
        1545,
        b"\xc0\x41\xc3\0\0\0\0\0\xc4\x41\xc3\0\0\0\0\0\xc0\xc3\x41\0\0\0\0\0\xc0\xc1\x41\xc3\0\0\0\0",
    )?;
    read_row(rt, Shape::new(64, 0, 3), 0, 2, b"\x01\x02\0\0\0\0\0\0")?;
    read_rows(
        rt,
        pair,
        0,
        1,
        b"\x01\0\0\0\0\0\0\0\x02\x01\0\0\0\0\0\0\x3f\x01\0\0\0\0\0\0\x41\0\0\0\0\0\0\0",
    )
}

// Routes over level k and back, and the edges of 4, 23 and 26.
pub(crate) fn half_filled_writings(rt: &impl Print) -> io::Result<()> {
    let half = Shape::new(4, 1, 2);
    let eight = Shape::new(8, 3, 4);
    reverse_row(rt, half, 0, 3, b"\x41\x03\x40\0\0\0\0\0")?;
    reverse_row(rt, half, 3, 0, b"\x41\0\x40\0\0\0\0\0")?;
    reverse_row(rt, half, 0, 3, b"\x42\x03\x40\0\0\0\0\0")?;
    reverse_row(rt, eight, 1537, 1545, b"\xc0\x41\xc3\0\0\0\0\0")?;
    reverse_row(rt, Shape::new(4, 1, 5), 16, 16, b"\0")?;
    write_row(rt, half, &[0, 4, 7, 3])?;
    write_row(rt, half, &[0, 8, 11, 3])?;
    write_row(rt, eight, &[1537, 1, 9, 1545])?;
    write_row(rt, eight, &[0, 1536, 1537, 2047])?;
    write_row(rt, Shape::new(64, 0, 2), &[1, 0])?;
    write_row(rt, Shape::new(8, 3, 1), &[1])
}
