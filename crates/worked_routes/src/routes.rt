// Built routes.
use build::RouteSet;
use refusals::{Reason, Refused};
use room::Shape;
use std::io;

// "=" and the arrays of a set, each with a space before it; or the refusal.
pub(crate) fn answered(rt: &impl Print, answer: Result<RouteSet, Reason>) -> io::Result<()> {
    let set = match answer {
        Ok(set) => set,
        Err(reason) => return print::refused(rt, Refused::from(reason)),
    };
    print::text(rt, b" =")?;
    for path in set.bytes.chunks_exact(8).take(set.count) {
        print::bytes(rt, path)?;
    }
    print::end(rt)
}

fn build_row(rt: &impl Print, shape: Shape, source: usize, destination: usize) -> io::Result<()> {
    print::question(rt, b"build", shape)?;
    print::all(rt, &[source, destination])?;
    answered(rt, build::build_routes(shape, source, destination))
}

// Figure 4's four routes, the testbed's two, the smallest room, a detour past the last value, and refusals.
pub(crate) fn built(rt: &impl Print) -> io::Result<()> {
    build_row(rt, Shape::full(8, 3), 1, 521)?;
    build_row(rt, Shape::full(4, 1), 0, 7)?;
    build_row(rt, Shape::full(2, 0), 1, 0)?;
    build_row(rt, Shape::full(2, 0), 0, 0)?;
    build_row(rt, Shape::full(4, 1), 3, 15)?;
    build_row(rt, Shape::full(8, 3), 4095, 4094)?;
    build_row(rt, Shape::full(16, 2), 0, 4095)?;
    build_row(rt, Shape::full(64, 1), 63, 4032)?;
    build_row(rt, Shape::full(3, 2), 26, 8)?;
    build_row(rt, Shape::full(9, 3), 0, 0)?;
    build_row(rt, Shape::full(2, 4), 0, 0)?;
    build_row(rt, Shape::full(8, 3), 4096, 4096)?;
    build_row(rt, Shape::full(8, 3), 0, 4096)
}

// The detour at level k goes below m: from the last value to 0, and with m = 2 to the other half and back.
pub(crate) fn half_filled(rt: &impl Print) -> io::Result<()> {
    let half = Shape::new(8, 3, 4);
    let pair = Shape::new(64, 0, 2);
    build_row(rt, half, 1537, 1545)?;
    build_row(rt, half, 2047, 2046)?;
    build_row(rt, half, 0, 2047)?;
    build_row(rt, half, 2047, 1536)?;
    build_row(rt, half, 448, 0)?;
    build_row(rt, Shape::new(8, 3, 2), 513, 514)?;
    build_row(rt, Shape::new(8, 3, 2), 1, 2)?;
    build_row(rt, Shape::new(4, 1, 3), 11, 8)?;
    build_row(rt, Shape::new(12, 3, 2), 3455, 3454)?;
    build_row(rt, Shape::new(45, 2, 2), 4049, 2025)?;
    build_row(rt, pair, 0, 1)?;
    build_row(rt, pair, 1, 0)?;
    build_row(rt, pair, 0, 2)?;
    build_row(rt, half, 2048, 2048)?;
    build_row(rt, Shape::new(9, 3, 6), 0, 0)?;
    build_row(rt, Shape::new(9, 3, 10), 0, 0)
}

// Whether the built list of two servers is accepted; where there is none, the empty list.
fn is_accepted(shape: Shape, table: &[u8], source: usize, destination: usize) -> bool {
    let set = build::build_routes(shape, source, destination).unwrap_or(RouteSet::new());
    if RouteSet::MOST_ROUTES < set.count {
        return false;
    }
    let list = &set.bytes[..8 * set.count];
    verdict::check_list(shape, table, source, destination, list).is_ok()
}

// How many destinations of a server have a built list that is accepted.
fn accepted_from(shape: Shape, table: &[u8], source: usize) -> usize {
    (0..table.len())
        .filter(|&destination| is_accepted(shape, table, source, destination))
        .count()
}

// For every server of a room with a healthy table, how many of its built lists are accepted.
fn accepted_row(rt: &impl Print, shape: Shape, table: &[u8]) -> io::Result<()> {
    print::question(rt, b"accepted", shape)?;
    print::text(rt, b" =")?;
    for source in 0..table.len() {
        print::item(rt, accepted_from(shape, table, source))?;
    }
    print::end(rt)
}

// Every pair of several small rooms.
pub(crate) fn pairs(rt: &impl Print) -> io::Result<()> {
    accepted_row(rt, Shape::full(2, 0), &[0; 2])?;
    accepted_row(rt, Shape::full(2, 1), &[0; 4])?;
    accepted_row(rt, Shape::full(3, 1), &[0; 9])?;
    accepted_row(rt, Shape::full(4, 1), &[0; 16])?;
    accepted_row(rt, Shape::full(2, 2), &[0; 8])?;
    accepted_row(rt, Shape::full(3, 2), &[0; 27])?;
    accepted_row(rt, Shape::full(2, 3), &[0; 16])
}

// Every pair of several small half-filled rooms.
pub(crate) fn half_filled_pairs(rt: &impl Print) -> io::Result<()> {
    accepted_row(rt, Shape::new(64, 0, 2), &[0; 2])?;
    accepted_row(rt, Shape::new(3, 1, 2), &[0; 6])?;
    accepted_row(rt, Shape::new(4, 1, 2), &[0; 8])?;
    accepted_row(rt, Shape::new(4, 1, 3), &[0; 12])?;
    accepted_row(rt, Shape::new(3, 2, 2), &[0; 18])?;
    accepted_row(rt, Shape::new(3, 3, 2), &[0; 54])
}
