// One hop by itself: where it leads, its level and the old value; and the hop of its way back.
use path::Hop;
use refusals::Refused;
use room::Shape;
use std::io;

// The largest number that a call can be given.
const MOST: usize = 18446744073709551615;

// What a hop tells.
fn told(rt: &impl Print, hop: Hop) -> io::Result<()> {
    print::text(rt, b" next")?;
    print::item(rt, hop.next)?;
    print::text(rt, b" level")?;
    print::item(rt, hop.level)?;
    print::text(rt, b" old")?;
    print::item(rt, hop.old)?;
    print::end(rt)
}

// A hop, or the refusal and zeros.
fn hop_row(rt: &impl Print, shape: Shape, server: usize, byte: usize) -> io::Result<()> {
    print::question(rt, b"hop", shape)?;
    print::item(rt, server)?;
    print::item(rt, byte)?;
    print::text(rt, b" =")?;
    match path::hop_of(shape, server, byte) {
        Ok(hop) => told(rt, hop),
        Err(refused) => {
            print::refused_item(rt, refused)?;
            print::text(rt, b" next 0 level 0 old 0\n")
        }
    }
}

// The next server of a hop, and the path byte of its way back.
fn turned(shape: Shape, server: usize, byte: usize) -> Result<(usize, usize), Refused> {
    let hop = path::hop_of(shape, server, byte)?;
    let back = path::byte_of(shape, hop.level, hop.old)?;
    Ok((hop.next, back))
}

// The same of a hop, and then of the hop by its byte of the way back.
fn turned_twice(shape: Shape, server: usize, byte: usize) -> Result<[(usize, usize); 2], Refused> {
    let there = turned(shape, server, byte)?;
    let again = turned(shape, there.0, there.1)?;
    Ok([there, again])
}

// A hop, and the hop by its byte of the way back: it leads to the first server, and its own is the first byte.
fn back_row(rt: &impl Print, shape: Shape, server: usize, byte: usize) -> io::Result<()> {
    print::question(rt, b"back", shape)?;
    print::item(rt, server)?;
    print::item(rt, byte)?;
    let hops = match turned_twice(shape, server, byte) {
        Ok(hops) => hops,
        Err(refused) => return print::refused(rt, refused),
    };
    print::text(rt, b" =")?;
    for (next, back) in hops {
        print::text(rt, b" next")?;
        print::item(rt, next)?;
        print::text(rt, b" byte")?;
        print::item(rt, back)?;
    }
    print::end(rt)
}

// Each level of a room from the server 1234, and the values at both ends of the widest digits.
pub(crate) fn full(rt: &impl Print) -> io::Result<()> {
    let eight = Shape::full(8, 3);
    let wide = Shape::full(64, 1);
    hop_row(rt, eight, 1, 193)?;
    hop_row(rt, Shape::full(2, 0), 1, 0)?;
    hop_row(rt, eight, 668, 7)?;
    hop_row(rt, eight, 668, 64)?;
    hop_row(rt, eight, 668, 135)?;
    hop_row(rt, eight, 668, 192)?;
    hop_row(rt, wide, 0, 127)?;
    hop_row(rt, wide, 4095, 64)?;
    hop_row(rt, wide, 4095, 0)?;
    hop_row(rt, wide, 4032, 63)
}

// The values at both ends of a digit, and the first past it: below m at level k, below n at the others.
pub(crate) fn half_filled(rt: &impl Print) -> io::Result<()> {
    let eight = Shape::new(8, 3, 4);
    let four = Shape::new(4, 1, 2);
    let pair = Shape::new(64, 0, 2);
    hop_row(rt, eight, 2047, 192)?;
    hop_row(rt, eight, 0, 195)?;
    hop_row(rt, eight, 2047, 196)?;
    hop_row(rt, eight, 2047, 255)?;
    hop_row(rt, eight, 2047, 128)?;
    hop_row(rt, eight, 0, 135)?;
    hop_row(rt, eight, 0, 136)?;
    hop_row(rt, four, 7, 64)?;
    hop_row(rt, four, 3, 65)?;
    hop_row(rt, four, 3, 66)?;
    hop_row(rt, four, 3, 67)?;
    hop_row(rt, four, 7, 0)?;
    hop_row(rt, four, 4, 3)?;
    hop_row(rt, four, 4, 4)?;
    hop_row(rt, pair, 0, 1)?;
    hop_row(rt, pair, 1, 0)?;
    hop_row(rt, pair, 0, 2)?;
    hop_row(rt, pair, 0, 63)?;
    hop_row(rt, pair, 0, 64)?;
    hop_row(rt, Shape::new(12, 3, 2), 3455, 192)
}

// The refusals of the whole call, each with all that comes after it: 1, 2, 26, 3, 4.
pub(crate) fn refused(rt: &impl Print) -> io::Result<()> {
    hop_row(rt, Shape::new(1, 4, 0), MOST, MOST)?;
    hop_row(rt, Shape::new(65, 4, 0), MOST, MOST)?;
    hop_row(rt, Shape::new(2, 4, 0), MOST, MOST)?;
    hop_row(rt, Shape::new(64, 3, 65), MOST, MOST)?;
    hop_row(rt, Shape::new(8, 3, 1), 0, 256)?;
    hop_row(rt, Shape::full(9, 3), MOST, MOST)?;
    hop_row(rt, Shape::full(8, 3), MOST, MOST)?;
    hop_row(rt, Shape::full(8, 3), 4096, 256)?;
    hop_row(rt, Shape::new(8, 3, 4), 2048, 196)?;
    hop_row(rt, Shape::full(2, 0), 2, 0)
}

// The refusals of the hop, 8, 9, 10: a level above k, and a number above 255, which is no byte; a value past its bound;
// the own value at each level.
pub(crate) fn refused_bytes(rt: &impl Print) -> io::Result<()> {
    let eight = Shape::full(8, 3);
    let four = Shape::full(4, 1);
    hop_row(rt, four, 0, 128)?;
    hop_row(rt, four, 0, 191)?;
    hop_row(rt, four, 0, 255)?;
    hop_row(rt, eight, 1, 256)?;
    hop_row(rt, eight, 1, 449)?;
    hop_row(rt, eight, 1, MOST)?;
    hop_row(rt, Shape::full(2, 0), 0, 64)?;
    hop_row(rt, Shape::full(2, 0), 0, 63)?;
    hop_row(rt, eight, 4095, 200)?;
    hop_row(rt, eight, 1, 8)?;
    hop_row(rt, four, 0, 68)?;
    hop_row(rt, four, 7, 65)?;
    hop_row(rt, four, 0, 0)?;
    hop_row(rt, eight, 668, 4)?;
    hop_row(rt, eight, 668, 67)?;
    hop_row(rt, eight, 668, 130)?;
    hop_row(rt, eight, 668, 193)?;
    hop_row(rt, eight, 4095, 199)?;
    hop_row(rt, Shape::new(8, 3, 4), 2047, 195)
}

// Hops of every level, and back.
pub(crate) fn back(rt: &impl Print) -> io::Result<()> {
    let eight = Shape::full(8, 3);
    back_row(rt, eight, 1, 193)?;
    back_row(rt, eight, 513, 192)?;
    back_row(rt, eight, 668, 7)?;
    back_row(rt, eight, 668, 64)?;
    back_row(rt, eight, 668, 135)?;
    back_row(rt, eight, 668, 192)?;
    back_row(rt, Shape::new(8, 3, 4), 2047, 192)?;
    back_row(rt, Shape::full(2, 0), 1, 0)?;
    back_row(rt, Shape::full(64, 1), 4095, 64)?;
    back_row(rt, Shape::full(64, 1), 0, 63)?;
    back_row(rt, Shape::new(4, 1, 2), 3, 65)?;
    back_row(rt, Shape::new(64, 0, 2), 0, 1)?;
    back_row(rt, Shape::new(12, 3, 2), 3455, 192)
}
