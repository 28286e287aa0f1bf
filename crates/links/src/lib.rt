// The failed-link table: asked, tested, and one link of it changed. One byte for each server, whose bit of a
// level says that the server's link there is failed. Every call takes every input. What a driver marks and
// clears it does by `summary`, which keeps the count of each switch beside it.
#![tactic(auto)]

// bits.rt: the bits of a byte
mod bits;
// changes.rt: one link changed, with no test of a room
mod changes;
// links.rt: one link, asked for
mod links;
// tables.rt: a whole table, and the links of a hop
mod tables;

pub use changes::{clear, mark, put};
pub use links::failed_link;
pub use tables::{
    is_failed, is_live, room_refusal, table_link_refusal, table_refusal, table_server_refusal,
};
