// One path byte by itself: made, and taken apart.
use room::Shape;
use std::io;

fn byte_row(rt: &impl Print, shape: Shape, level: usize, value: usize) -> io::Result<()> {
    print::question(rt, b"byte", shape)?;
    print::item(rt, level)?;
    print::item(rt, value)?;
    print::answer(rt, path::byte_of(shape, level, value))
}

fn parts_row(rt: &impl Print, shape: Shape, byte: usize) -> io::Result<()> {
    print::question(rt, b"parts", shape)?;
    print::item(rt, byte)?;
    match path::parts_of(shape, byte) {
        Ok(parts) => {
            print::text(rt, b" = level")?;
            print::item(rt, parts.level)?;
            print::text(rt, b" value")?;
            print::item(rt, parts.value)?;
            print::end(rt)
        }
        Err(refused) => print::refused(rt, refused),
    }
}

// The last values of a level, and the edges of 20 and 21, in a full and in half-filled rooms.
pub(crate) fn made(rt: &impl Print) -> io::Result<()> {
    let four = Shape::full(4, 1);
    let half = Shape::new(4, 1, 2);
    let pair = Shape::new(64, 0, 2);
    byte_row(rt, four, 1, 3)?;
    byte_row(rt, four, 1, 4)?;
    byte_row(rt, four, 2, 4)?;
    byte_row(rt, half, 1, 1)?;
    byte_row(rt, half, 1, 2)?;
    byte_row(rt, half, 1, 3)?;
    byte_row(rt, half, 0, 3)?;
    byte_row(rt, half, 0, 4)?;
    byte_row(rt, pair, 0, 1)?;
    byte_row(rt, pair, 0, 2)?;
    byte_row(rt, Shape::new(4, 1, 5), 2, 4)
}

// The same bytes, and the edges of 8 and 9.
pub(crate) fn parted(rt: &impl Print) -> io::Result<()> {
    let four = Shape::full(4, 1);
    let half = Shape::new(4, 1, 2);
    let pair = Shape::new(64, 0, 2);
    parts_row(rt, four, 67)?;
    parts_row(rt, four, 68)?;
    parts_row(rt, four, 132)?;
    parts_row(rt, four, 256)?;
    parts_row(rt, half, 65)?;
    parts_row(rt, half, 66)?;
    parts_row(rt, half, 67)?;
    parts_row(rt, half, 3)?;
    parts_row(rt, half, 4)?;
    parts_row(rt, pair, 1)?;
    parts_row(rt, pair, 2)?;
    parts_row(rt, pair, 65)?;
    parts_row(rt, Shape::new(4, 1, 5), 256)
}
