// The static library for C, libbcube.a: each call of `driver` under its own name, with the same clauses. A slice is
// passed as a pointer and a length, an array as a pointer, a struct by value in one register or two; usize is C's
// uint64_t. No call has a `requires`, so nothing is asked of a caller in C but that its pointers are what they say.
#![tactic(auto)]

// marks.rt: the failed-link table, marked and cleared with its summary
mod marks;
// parents.rt: the parent of a server in a spanning tree, and a tree whole
mod parents;
// paths.rt: one hop; path bytes read, written and reversed; lists checked
mod paths;
// picks.rt: picking a usable route
mod picks;
// rooms.rt: addresses, switches, neighbours
mod rooms;
// routes.rt: built routes, the alternate, and selection
mod routes;
// shapes.rt: a room as one number, and the version
mod shapes;
// steps.rt: one forwarding step
mod steps;
// switches.rt: the summary, asked and counted afresh
mod switches;
