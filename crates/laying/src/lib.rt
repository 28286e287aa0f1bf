// Routes laid into a failed-link table: the links that they take up are marked, so that a search over
// the table keeps away from them. Every call takes every input: it answers, or refuses by number.
// marks.rt: the links of servers, to switches and of a whole route marked
#![tactic(auto)]

mod marks;
// routes.rt: the call, and what it refuses
mod routes;

pub use routes::lay_route;
