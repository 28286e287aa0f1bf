// One forwarding step: where a packet goes next, by its path bytes and its server's neighbour table.
#![tactic(auto)]

// next.rt: the next hop
mod next;
// steps.rt: the step
mod steps;
// tests.rt: what is tested before a step answers
mod tests;

pub use steps::step_once;

// What a step comes to: the packet is delivered here, or it goes on.
#[derive(Clone, Copy, PartialEq, Eq)]
pub enum Step {
    Delivered,
    Onward(Onward),
}

// Where a packet goes next: the next server, the next hop index, the MAC and OutPort as stored, and the
// level of the hop with the value that it replaces there.
#[derive(Clone, Copy, PartialEq, Eq)]
pub struct Onward {
    pub next: usize,
    pub index: usize,
    pub mac: [u8; 6],
    pub port: u8,
    pub level: usize,
    pub old: usize,
}

impl Step {
    // A neighbour table has this many bytes.
    pub const TABLE_BYTES: usize = 2048;

    // An entry of a neighbour table has this many bytes.
    pub const ENTRY_BYTES: usize = 8;

    // The OutPort stands at this byte of an entry, after the six bytes of the MAC.
    pub const PORT: usize = 6;

    // The StatusFlag stands at this byte of an entry.
    pub const FLAG: usize = 7;

    // The StatusFlag of an available neighbour; every other value says that it is not.
    pub const AVAILABLE: u8 = 1;
}
