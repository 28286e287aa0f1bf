// Picking a usable route from a fresh list and a kept one.
#![tactic(auto)]

// lengths.rt: what is tested before any reading
mod lengths;
// picks.rt: the route picked, its place, and the companion question
mod picks;
// usable.rt: what is usable between two servers of a tested room
mod usable;

pub use picks::{pick_place, pick_refusal, pick_route};

// The list that holds the picked route.
#[derive(Clone, Copy, PartialEq, Eq)]
pub enum List {
    // The fresh list.
    Fresh = 1,
    // The kept list.
    Kept = 2,
}

// Where the picked route stands: in which list, and at which place there, counted from 1.
#[derive(Clone, Copy, PartialEq, Eq)]
pub struct Place {
    pub list: List,
    pub route: usize,
}
