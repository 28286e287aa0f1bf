// The servers at a switch.
ghost use Rattle.std.specs.Prelude.{◌≡◌};
ghost use Rattle.room.specs.Sides.{no_side, side_of, side_at};

use crate::shapes::{digit_bound, power};
use crate::{Shape, Side};

// No servers: there is no such switch. Zeros and no `None`, for the contracts of `side_of` and `side_at` say zeros, and a
// loop over the servers of a switch then passes over none.
fn no_side() -> Side
    ensures { result ≡ no_side }
{
    Side {
        first: 0,
        stride: 0,
        count: 0,
    }
}

// The servers at the switch of a server at a level: with v from 0 up to `count`, the one that has the
// value v there is `first` plus v times `stride`. Zeros where n is not among 1 to 64 or the level is
// above 3; of a link of a room nothing else is tested.
pub fn side_of(shape: Shape, server: usize, level: usize) -> Side
    ensures { result ≡ side_of shape server level }
{
    let stride = power(shape.n, level);
    if stride == 0 {
        return no_side();
    }
    let own = server / stride % shape.n;
    Side {
        first: server - own * stride,
        stride,
        count: digit_bound(shape, level),
    }
}

// The servers at a switch of a level, by its number: with v from 0 up to `count`, the one at port v is
// `first` plus v times `stride`. Zeros where n is not among 1 to 64, the level is above 3 or the number is
// not below 4,096; of a switch of a room nothing else is tested.
pub fn side_at(shape: Shape, level: usize, number: usize) -> Side
    ensures { result ≡ side_at shape level number }
{
    let stride = power(shape.n, level);
    if stride == 0 {
        return no_side();
    }
    if Shape::MOST_SERVERS <= number {
        return no_side();
    }
    let above = number / stride;
    Side {
        first: number % stride + stride * shape.n * above,
        stride,
        count: digit_bound(shape, level),
    }
}
