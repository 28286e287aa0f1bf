// Digits, bounds and hops of a room that has been tested.
ghost use Rattle.std.specs.Prelude.{◌≡◌, ◌≤◌, ◌<◌};
ghost use Rattle.lists.specs.Lists.{filled};
ghost use Rattle.room.specs.Shapes.{Valid, Server};
ghost use Rattle.room.specs.Addresses.{digits};
ghost use Rattle.path.specs.Routes.{byte_of};
ghost use Rattle.build.specs.Built.{next, plus_one};

use room::{Shape, digit_bound, digits_of};

// The digits of a server in four places, digit 0 at place 0.
pub(crate) fn places_of(shape: Shape, server: usize) -> [usize; 4]
    requires { Server shape server }
    ensures { result ≡ filled 4 (digits shape server) }
{
    match digits_of(shape, server) {
        Ok(places) => places,
        Err(_) => unreachable!(),
    }
}

// The value after a value of a level, and 0 after the last that the level has.
pub(crate) fn value_after(shape: Shape, level: usize, value: usize) -> usize
    requires { Valid shape × (level ≤ shape.k) × (value < 64) }
    ensures { result ≡ plus_one shape level value }
{
    let most = digit_bound(shape, level);
    let after = value + 1;
    if after < most {
        return after;
    }
    after % most
}

// The level after a level in the order of correcting: the next lower one, and k after 0.
pub(crate) fn level_after(k: usize, level: usize) -> usize
    ensures { result ≡ next k level }
{
    if level == 0 {
        return k;
    }
    level - 1
}

// The path byte of a hop.
pub(crate) fn byte_of(level: usize, value: usize) -> u8
    requires { (level ≤ 3) × (value < 64) }
    ensures { result ≡ byte_of level value }
{
    (64 * level + value) as u8
}
