// Trees written whole, into numbers that are all 7 before.
use crate::parents::MOST;
use refusals::Refused;
use room::Shape;
use std::io;

// A number of a tree, as a server is numbered.
pub(crate) fn wide(x: u32) -> usize {
    x as usize
}

// The numbers from one place to before another, each with a space before it.
fn numbers(rt: &impl Print, parents: [u32; 4096], from: usize, to: usize) -> io::Result<()> {
    for &number in parents.iter().take(to).skip(from) {
        print::item(rt, wide(number))?;
    }
    Ok(())
}

// How many of the numbers from a place on are a given one.
fn holding(parents: [u32; 4096], from: usize, number: u32) -> usize {
    parents
        .iter()
        .skip(from)
        .filter(|&&held| held == number)
        .count()
}

// The servers of the room, the numbers from one place to before another, and how many zeros are past the last server.
// Where the tree is refused, how many numbers are still 7.
fn tree_row(
    rt: &impl Print,
    shape: Shape,
    source: usize,
    tree: usize,
    from: usize,
    to: usize,
) -> io::Result<()> {
    print::question(rt, b"tree", shape)?;
    print::item(rt, source)?;
    print::item(rt, tree)?;
    print::item(rt, from)?;
    print::item(rt, to)?;
    print::text(rt, b" =")?;
    let mut parents = [7u32; 4096];
    match trees::write_tree(shape, source, tree, &mut parents) {
        Ok(count) => {
            print::item(rt, count)?;
            print::text(rt, b" numbers")?;
            numbers(rt, parents, from, to)?;
            print::text(rt, b" zeros")?;
            print::item(rt, holding(parents, count, 0))?;
        }
        Err(reason) => {
            print::refused_item(rt, Refused::from(reason))?;
            print::text(rt, b" kept")?;
            print::item(rt, holding(parents, 0, 7))?;
        }
    }
    print::end(rt)
}

// A row for each tree of a source, its numbers from the first to before a place.
fn all_trees(rt: &impl Print, shape: Shape, source: usize, to: usize) -> io::Result<()> {
    for tree in 0..=shape.k {
        tree_row(rt, shape, source, tree, 0, to)?;
    }
    Ok(())
}

// Small rooms, with two numbers past the last server. In (2,1) two pairs of servers are in both trees, once in each direction.
pub(crate) fn small(rt: &impl Print) -> io::Result<()> {
    all_trees(rt, Shape::full(4, 1), 0, 18)?;
    all_trees(rt, Shape::new(4, 1, 2), 5, 10)?;
    all_trees(rt, Shape::full(2, 1), 0, 6)?;
    all_trees(rt, Shape::full(2, 3), 0, 18)?;
    all_trees(rt, Shape::new(3, 2, 2), 17, 20)?;
    all_trees(rt, Shape::new(64, 0, 3), 2, 5)
}

// The first and the last servers of large rooms, and what is past them.
pub(crate) fn large(rt: &impl Print) -> io::Result<()> {
    tree_row(rt, Shape::new(8, 3, 4), 2047, 3, 2040, 2050)?;
    tree_row(rt, Shape::new(12, 3, 2), 3455, 2, 3450, 3458)?;
    tree_row(rt, Shape::full(8, 3), 0, 1, 0, 20)?;
    tree_row(rt, Shape::full(8, 3), 4095, 0, 4080, 4096)?;
    tree_row(rt, Shape::full(64, 1), 4032, 1, 4030, 4034)?;
    tree_row(rt, Shape::full(64, 0), 63, 0, 60, 66)
}

// With all that can be refused, then with less and less: 1, 2, 26, 3, 4, 20. The numbers stay as they were lent.
pub(crate) fn refused(rt: &impl Print) -> io::Result<()> {
    let four = Shape::full(4, 1);
    tree_row(rt, Shape::new(1, 4, 0), MOST, MOST, 0, 0)?;
    tree_row(rt, Shape::new(2, 4, 0), MOST, MOST, 0, 0)?;
    tree_row(rt, Shape::new(64, 3, 65), MOST, MOST, 0, 0)?;
    tree_row(rt, Shape::full(64, 3), MOST, MOST, 0, 0)?;
    tree_row(rt, four, MOST, MOST, 0, 0)?;
    tree_row(rt, four, 15, MOST, 0, 0)?;
    tree_row(rt, four, 16, 2, 0, 0)?;
    tree_row(rt, four, 15, 2, 0, 0)?;
    tree_row(rt, Shape::new(4, 1, 2), 8, 1, 0, 0)?;
    tree_row(rt, Shape::new(4, 1, 1), 0, 0, 0, 0)?;
    tree_row(rt, Shape::full(2, 0), 1, 1, 0, 0)
}
