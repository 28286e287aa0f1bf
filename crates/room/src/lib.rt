// The room: shapes, addresses and switches of a BCube room. Every call takes every input: it
// answers, or refuses by number.
#![tactic(auto)]

ghost use Rattle.std.specs.Prelude.{◌≡◌, Some};
ghost use Rattle.room.specs.Shapes.{shape_of, full_room};
ghost use Rattle.room.specs.ShapeText.{shape_text};

use std::fmt;

// addresses.rt: the digits of an address, and the address of digits
mod addresses;
// measures.rt: how many servers a room has, and how many values a digit
mod measures;
// neighbours.rt: servers that differ in one digit
mod neighbours;
// shapes.rt: what a shape comes to, with no test of it
mod shapes;
// sides.rt: the servers at a switch
mod sides;
// switches.rt: the switch of a link
mod switches;
// tests.rt: what is tested before a call answers
mod tests;
// wiring.rt: switches and their ports
mod wiring;

pub use addresses::{address_of, digit_of, digits_of};
pub use measures::{bound_of, servers_of};
pub use neighbours::{level_between, neighbour_of};
pub use shapes::{digit_bound, power, server_count};
pub use sides::{side_at, side_of};
pub use switches::switch_of;
pub use tests::{ends_refusal, link_refusal, pair_refusal, server_refusal, shape_refusal};
pub use wiring::{server_at, switches_of};

// The shape of a room: n ports a switch, levels 0 to k, and m values of digit k.
#[derive(Clone, Copy)]
pub struct Shape {
    pub n: usize,
    pub k: usize,
    pub m: usize,
}

impl Shape {
    // A switch has at least this many ports.
    pub const FEWEST_PORTS: usize = 2;

    // A switch has at most this many ports.
    pub const MOST_PORTS: usize = 64;

    // The highest level of a room is at most this.
    pub const MOST_LEVEL: usize = 3;

    // Digit k has at least this many values.
    pub const LEAST_FILL: usize = 2;

    // A room has at most this many servers.
    pub const MOST_SERVERS: usize = 4096;

    // A route has at most this many hops.
    pub const MOST_HOPS: usize = 8;

    // The room of n ports and levels 0 to k whose digit k has m values; no call takes it for granted
    // that there is one.
    pub fn new(n: usize, k: usize, m: usize) -> Self
        ensures { result ≡ shape_of n k m }
    {
        Self { n, k, m }
    }

    // The full room of n ports and levels 0 to k: digit k has n values, as the others.
    pub fn full(n: usize, k: usize) -> Self
        ensures { result ≡ full_room n k }
    {
        Self { n, k, m: n }
    }
}

// "(n,k)" of a full room, "(n,k,m)" of any other.
impl fmt::Display for Shape {
    ghost output = { λ s. Some (shape_text s) };

    fn fmt<W: fmt::Write>(&self, f: &mut fmt::Formatter<W>) -> fmt::Result {
        if self.m == self.n {
            write!(f, "({},{})", self.n, self.k)
        } else {
            write!(f, "({},{},{})", self.n, self.k, self.m)
        }
    }
}

// A switch: its level, and its number there.
#[derive(Clone, Copy, PartialEq, Eq)]
pub struct Switch {
    pub level: usize,
    pub number: usize,
}

// The servers at a switch: the first, the way from one to the next, and how many they are.
#[derive(Clone, Copy)]
pub struct Side {
    pub first: usize,
    pub stride: usize,
    pub count: usize,
}
