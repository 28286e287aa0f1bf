// Ways from parent to parent, up to the source.
use crate::whole::wide;
use room::Shape;
use std::io;

// The parents from a server on, each with a space before it, until none is answered; how many they are.
fn climbed(
    rt: &impl Print,
    shape: Shape,
    source: usize,
    tree: usize,
    server: usize,
) -> io::Result<usize> {
    let mut at = server;
    for steps in 0..4096 {
        let Ok(parent) = trees::parent_of(shape, source, tree, at) else {
            return Ok(steps);
        };
        at = parent;
        print::item(rt, at)?;
    }
    Ok(4096)
}

// The way of one server.
fn way_row(
    rt: &impl Print,
    shape: Shape,
    source: usize,
    tree: usize,
    server: usize,
) -> io::Result<()> {
    print::question(rt, b"way", shape)?;
    print::item(rt, source)?;
    print::item(rt, tree)?;
    print::item(rt, server)?;
    print::text(rt, b" =")?;
    let steps = climbed(rt, shape, source, tree, server)?;
    print::text(rt, b" steps")?;
    print::item(rt, steps)?;
    print::end(rt)
}

// Ways of the most steps that each room has, and the source's own.
pub(crate) fn farthest(rt: &impl Print) -> io::Result<()> {
    way_row(rt, Shape::full(4, 1), 0, 0, 12)?;
    way_row(rt, Shape::full(8, 3), 0, 0, 4088)?;
    way_row(rt, Shape::new(8, 3, 4), 0, 0, 2040)?;
    way_row(rt, Shape::new(8, 3, 4), 0, 3, 511)?;
    way_row(rt, Shape::full(2, 1), 0, 0, 2)?;
    way_row(rt, Shape::full(2, 3), 0, 0, 14)?;
    way_row(rt, Shape::full(64, 0), 0, 0, 63)?;
    way_row(rt, Shape::new(64, 0, 3), 2, 0, 1)?;
    way_row(rt, Shape::new(4, 1, 2), 5, 1, 5)
}

// The steps by the numbers of a tree, from one of them on until one is no place: the source's.
fn steps_from(parents: &[u32], first: usize) -> usize {
    let mut at = first;
    for steps in 0..4096 {
        let Some(&parent) = parents.get(at) else {
            return steps;
        };
        at = wide(parent);
    }
    4096
}

// The most steps from any server of the room.
fn most_steps(parents: [u32; 4096], count: usize) -> usize {
    parents
        .iter()
        .take(count)
        .map(|&first| steps_from(&parents, wide(first)))
        .max()
        .unwrap_or(0)
}

// The most steps in one tree, if the room has it.
fn most_item(rt: &impl Print, shape: Shape, source: usize, tree: usize) -> io::Result<()> {
    let mut parents = [0u32; 4096];
    if let Ok(count) = trees::write_tree(shape, source, tree, &mut parents) {
        print::item(rt, most_steps(parents, count))?;
    }
    Ok(())
}

// The most steps in each tree of a source.
fn most_row(rt: &impl Print, shape: Shape, source: usize) -> io::Result<()> {
    print::question(rt, b"most", shape)?;
    print::item(rt, source)?;
    print::text(rt, b" =")?;
    for tree in 0..4 {
        most_item(rt, shape, source, tree)?;
    }
    print::end(rt)
}

// Whole rooms, by their trees written whole.
pub(crate) fn greatest(rt: &impl Print) -> io::Result<()> {
    most_row(rt, Shape::full(4, 1), 0)?;
    most_row(rt, Shape::full(8, 3), 0)?;
    most_row(rt, Shape::new(8, 3, 4), 1537)?;
    most_row(rt, Shape::full(64, 1), 4095)?;
    most_row(rt, Shape::full(2, 1), 3)?;
    most_row(rt, Shape::full(2, 3), 5)?;
    most_row(rt, Shape::full(64, 0), 63)?;
    most_row(rt, Shape::new(64, 0, 3), 2)?;
    most_row(rt, Shape::new(4, 1, 2), 5)?;
    most_row(rt, Shape::new(3, 2, 2), 17)?;
    most_row(rt, Shape::full(2, 0), 1)
}
