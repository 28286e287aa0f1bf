// Path bytes: one hop, and whole arrays read, written and reversed.
#![tactic(auto)]

// bytes.rt: one path byte by itself
mod bytes;
// faults.rt: why a hop is not taken
mod faults;
// hops.rt: one hop, by its byte
mod hops;
// readings.rt: plain reading
mod readings;
// repeats.rt: servers and switches already on the route
mod repeats;
// reversals.rt: reversal
mod reversals;
// walks.rt: walking an array, hop after hop
mod walks;
// writings.rt: the bytes of servers in turn
mod writings;

pub use bytes::{byte_of, parts_of};
pub use hops::{hop_of, level_of, value_of};
pub use readings::read_path;
pub use repeats::place_in;
pub use reversals::reverse_path;
pub use walks::walk;
pub use writings::write_path;

// The level and the value of a path byte.
#[derive(Clone, Copy, PartialEq, Eq)]
pub struct Parts {
    pub level: usize,
    pub value: usize,
}

// Where a hop leads, its level, and the value that it replaces there.
#[derive(Clone, Copy, PartialEq, Eq)]
pub struct Hop {
    pub next: usize,
    pub level: usize,
    pub old: usize,
}

// The number of hops that an array makes, and the path bytes of its way back as one number, the first
// byte lowest.
#[derive(Clone, Copy)]
pub(crate) struct Way {
    pub(crate) hops: usize,
    pub(crate) back: u64,
}

// The servers that an array meets, source first, and the switches that it uses, with zeros past them. A switch is
// one number, 4096 times its level plus its number there. Fixed arrays and a count, since there is no heap.
#[derive(Clone, Copy)]
pub struct Walked {
    pub count: usize,
    pub servers: [usize; 9],
    pub switches: [usize; 8],
}

// The servers that an array meets, source first, with their count and zeros past them. A fixed array and a count, since
// there is no heap.
#[derive(Clone, Copy)]
pub struct Reading {
    pub count: usize,
    pub servers: [usize; 9],
}
