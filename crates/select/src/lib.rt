// Selection: the built routes that no failed link breaks, and alternates for the others.
#![tactic(auto)]

// alternates.rt: the alternate for a slot
mod alternates;
// arrays.rt: the arrays of a route set, and their routes laid into a copy of the failed-link table
mod arrays;
// selecting.rt: selection
mod selecting;
// slots.rt: the slots, one after another
mod slots;

pub use selecting::select_routes;
