// The built routes of two servers, and the set that holds routes.
#![tactic(auto)]

ghost use Rattle.std.specs.Prelude.{◌≡◌};
ghost use Rattle.build.specs.Sets.{empty_set, added};

use crate::places::placed_at;
// routes.rt: all the built routes of two servers
mod routes;
// hops.rt: digits, bounds and hops of a room that has been tested
mod hops;
// places.rt: eight bytes put among thirty-two
mod places;
// slots.rt: the built route of one slot
mod slots;

pub use routes::build_routes;

// Room for four arrays of path bytes, one after another, and how many it holds. A flat array and a count are the rules'
// own form.
#[derive(Clone, Copy)]
pub struct RouteSet {
    pub bytes: [u8; 32],
    pub count: usize,
}

impl RouteSet {
    // A set has room for this many arrays.
    pub const MOST_ROUTES: usize = 4;

    // The set that holds no array.
    pub fn new() -> Self
        ensures { result ≡ empty_set }
    {
        Self {
            bytes: [0; 32],
            count: 0,
        }
    }

    // The set with an array put after the last; a set whose count is 4 or more comes back unchanged.
    pub fn with_route(mut self, route: [u8; 8]) -> Self
        ensures { result ≡ added self route }
    {
        let count = self.count;
        if Self::MOST_ROUTES <= count {
            return self;
        }
        let held = self.bytes;
        let bytes = placed_at(held, 8 * count, route);
        self.bytes = bytes;
        self.count = count + 1;
        self
    }
}
