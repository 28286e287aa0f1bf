// The calls for the driver in C, which the static library `driver_c` exports: a room, numbers and buffers in, numbers out.
// Every call takes every input: it answers, or refuses by number and leaves every buffer as it was lent.
// marks.rt: the failed-link table, marked and cleared with its summary
#![tactic(auto)]

mod marks;
// parents.rt: the parent of a server in a spanning tree, and a tree whole
mod parents;
// paths.rt: one hop; path bytes read, written and reversed; lists checked
mod paths;
// picks.rt: picking a usable route
mod picks;
// rooms.rt: addresses, switches, neighbours
mod rooms;
// routes.rt: built routes, the alternate, and selection
mod routes;
// shapes.rt: a room as one number, and the version
mod shapes;
// steps.rt: one forwarding step
mod steps;
// switches.rt: the summary, asked and counted afresh
mod switches;
// words.rt: the result word
mod words;

pub use marks::{bcube_clear, bcube_clear_all, bcube_failed_link, bcube_mark, bcube_mark_all};
pub use parents::{bcube_parent, bcube_tree};
pub use paths::{
    bcube_check, bcube_hop_of, bcube_path_byte, bcube_path_byte_parts, bcube_read, bcube_reverse,
    bcube_write,
};
pub use picks::bcube_pick;
pub use rooms::{
    bcube_address, bcube_between, bcube_bound, bcube_digit, bcube_digits, bcube_neighbour,
    bcube_server_at, bcube_servers, bcube_shape, bcube_switch, bcube_switches,
};
pub use routes::{bcube_build, bcube_find, bcube_select};
pub use shapes::{bcube_filled_room, bcube_room_of, bcube_version};
pub use steps::bcube_step;
pub use switches::{bcube_dead_switch, bcube_summarize};

// A room, as the driver holds it: n plus 256 times k plus 65,536 times m. Whatever the number, a call
// takes it.
#[repr(C)]
#[derive(Clone, Copy)]
pub struct Room {
    pub number: u64,
}

// The answer of a call: the refusal, which is its number, route, hop, and earlier route and hop, and a value, in one word.
#[repr(C)]
#[derive(Clone, Copy)]
pub struct Answer {
    pub word: u64,
}

// The answer of a step: one word, and the MAC as one number, its first byte highest.
#[repr(C)]
#[derive(Clone, Copy)]
pub struct Stepped {
    pub word: u64,
    pub mac: u64,
}
