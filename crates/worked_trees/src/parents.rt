// The parent of a server in a tree.
use room::Shape;
use std::io;

// The largest number that a call can be given.
pub(crate) const MOST: usize = 18446744073709551615;

// One server's parent in one tree.
fn parent_row(
    rt: &impl Print,
    shape: Shape,
    source: usize,
    tree: usize,
    server: usize,
) -> io::Result<()> {
    print::question(rt, b"parent", shape)?;
    print::item(rt, source)?;
    print::item(rt, tree)?;
    print::item(rt, server)?;
    print::answer(rt, trees::parent_of(shape, source, tree, server))
}

// A row for each tree that a room of four levels has, and for the one after them.
fn tree_rows(rt: &impl Print, shape: Shape, source: usize, server: usize) -> io::Result<()> {
    for tree in 0..5 {
        parent_row(rt, shape, source, tree, server)?;
    }
    Ok(())
}

// Four trees, four levels; a source whose digits are not all 0, in a half-filled room; a server that differs at each level.
pub(crate) fn levels(rt: &impl Print) -> io::Result<()> {
    tree_rows(rt, Shape::full(2, 3), 0, 10)?;
    tree_rows(rt, Shape::new(8, 3, 4), 1, 521)?;
    tree_rows(rt, Shape::new(3, 2, 2), 17, 4)
}

// Before 0 comes the greatest value of the level, which is below m at level k. A tree's root, also where its digit is 0 after
// the greatest. Two pairs of servers in both directions, in different trees. Rooms of one switch.
pub(crate) fn bounds(rt: &impl Print) -> io::Result<()> {
    let half = Shape::new(8, 3, 4);
    let four = Shape::full(2, 1);
    let three = Shape::new(64, 0, 3);
    let switch = Shape::full(64, 0);
    parent_row(rt, Shape::full(8, 3), 0, 3, 1)?;
    parent_row(rt, half, 0, 3, 1)?;
    parent_row(rt, half, 0, 3, 512)?;
    parent_row(rt, half, 0, 3, 1536)?;
    parent_row(rt, half, 0, 3, 2047)?;
    parent_row(rt, half, 2047, 3, 511)?;
    parent_row(rt, half, 2047, 3, 1023)?;
    parent_row(rt, half, 2047, 3, 2046)?;
    parent_row(rt, half, 2047, 3, 0)?;
    parent_row(rt, half, 2047, 0, 2040)?;
    parent_row(rt, half, 2047, 0, 2046)?;
    parent_row(rt, half, 2047, 0, 511)?;
    parent_row(rt, half, 2047, 0, 0)?;
    parent_row(rt, four, 0, 0, 3)?;
    parent_row(rt, four, 0, 1, 1)?;
    parent_row(rt, four, 0, 0, 2)?;
    parent_row(rt, four, 0, 1, 3)?;
    parent_row(rt, Shape::full(2, 0), 1, 0, 0)?;
    parent_row(rt, three, 2, 0, 0)?;
    parent_row(rt, three, 2, 0, 1)?;
    parent_row(rt, switch, 2, 0, 0)?;
    parent_row(rt, switch, 2, 0, 1)?;
    parent_row(rt, switch, 2, 0, 3)
}

// With all that can be refused, then with less and less: 1, 2, 26, 3, 4, 20, 5.
pub(crate) fn refused(rt: &impl Print) -> io::Result<()> {
    let four = Shape::full(4, 1);
    parent_row(rt, Shape::new(1, 4, 0), MOST, MOST, MOST)?;
    parent_row(rt, Shape::new(2, 4, 0), MOST, MOST, MOST)?;
    parent_row(rt, Shape::new(64, 3, 65), MOST, MOST, MOST)?;
    parent_row(rt, Shape::full(64, 3), MOST, MOST, MOST)?;
    parent_row(rt, four, MOST, MOST, MOST)?;
    parent_row(rt, four, 3, MOST, 3)?;
    parent_row(rt, four, 16, 2, 16)?;
    parent_row(rt, four, 3, 2, 3)?;
    parent_row(rt, four, 3, 1, 3)?;
    parent_row(rt, four, 3, 1, 2)?;
    parent_row(rt, Shape::new(4, 1, 1), 16, 2, 16)?;
    parent_row(rt, Shape::new(4, 1, 1), 3, 2, 3)?;
    parent_row(rt, Shape::new(4, 1, 1), 3, 1, 3)
}

// The edges: of a shape's numbers, of the server and of the source, of a room's trees; 4 before 20, by either.
pub(crate) fn edges(rt: &impl Print) -> io::Result<()> {
    let half = Shape::new(4, 1, 2);
    parent_row(rt, Shape::new(65, 0, 2), 0, 0, 1)?;
    parent_row(rt, Shape::new(4, 1, 5), 0, 0, 1)?;
    parent_row(rt, Shape::new(9, 3, 6), 0, 0, 1)?;
    parent_row(rt, Shape::new(9, 3, 5), 3644, 3, 0)?;
    parent_row(rt, half, 7, 1, 7)?;
    parent_row(rt, half, 7, 1, 8)?;
    parent_row(rt, half, 7, 1, MOST)?;
    parent_row(rt, half, 8, 1, 0)?;
    parent_row(rt, half, 8, 1, 8)?;
    parent_row(rt, half, 8, 2, 7)?;
    parent_row(rt, half, 7, 2, 8)?;
    parent_row(rt, half, 7, 2, 6)?;
    parent_row(rt, Shape::full(2, 0), 0, 1, 0)?;
    parent_row(rt, Shape::full(2, 0), 0, 1, 1)
}
