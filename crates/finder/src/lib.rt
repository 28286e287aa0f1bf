// The search for the alternate: the least route over the live links of a failed-link table. Every
// call takes every input: it answers, or refuses with a reason.
#![tactic(auto)]

// finding.rt: the call, and what it refuses
mod finding;
// scan.rt: breadth first from the source, until the destination is met
mod scan;
// trace.rt: the way back from the destination
mod trace;

pub use finding::find_route;

// A route by its count of hops, one at least, and its eight path bytes.
#[derive(Clone, Copy, PartialEq, Eq)]
pub struct Found {
    pub hops: usize,
    pub bytes: [u8; 8],
}
