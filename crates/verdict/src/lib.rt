// Checking a list of routes from any maker.
// checks.rt: a list checked
#![tactic(auto)]

mod checks;
// pairs.rt: every two routes held against each other
mod pairs;

pub use checks::check_list;

// The hops where two walked arrays first meet, counted from 1.
#[derive(Clone, Copy, PartialEq, Eq)]
pub(crate) struct Meeting {
    pub(crate) first: usize,
    pub(crate) later: usize,
}
