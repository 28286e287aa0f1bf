// The spanning trees of a source: k+1 ways to bring one file to all servers, with no directed hop in two
// of them. Every call takes every input.
// levels.rt: the level at which a server hangs in a tree
#![tactic(auto)]

mod levels;
// parents.rt: the parent of a server in a tree
mod parents;
// whole.rt: a tree written whole
mod whole;

pub use parents::parent_of;
pub use whole::write_tree;
