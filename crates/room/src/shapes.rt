// What a shape comes to, with no test of it: powers of n, the number of servers, what a digit is below.
ghost use Rattle.std.specs.Prelude.{◌≡◌, cond};
ghost use Rattle.room.specs.Shapes.{bound, power_of, server_count};

use crate::Shape;

// A factor where it is wanted, else 1.
fn factor(x: usize, wanted: bool) -> usize
    ensures { result ≡ cond wanted x 1 }
{
    if wanted {
        return x;
    }
    1
}

// n to the power of a level, where n is among 1 to 64 and the level is at most 3; else 0. It has no
// loop and no choice of a way, so that the compiler sees where it has the same power already.
// The 0 stays a number and no `None`: the contract says so, and it is the stride of a switch that is not there.
pub fn power(n: usize, level: usize) -> usize
    ensures { result ≡ power_of n level }
{
    if n < 1 {
        return 0;
    }
    if Shape::MOST_PORTS < n {
        return 0;
    }
    if Shape::MOST_LEVEL < level {
        return 0;
    }
    let root = factor(n, 2 <= level);
    root * root * factor(n, level % 2 == 1)
}

// The number of servers, where n is among 1 to 64, k is at most 3 and m is at most n; else 0.
// The 0 stays a number and no `None`: the contract says so, and a room with no server then has none to be asked for.
pub fn server_count(shape: Shape) -> usize
    ensures { result ≡ server_count shape }
{
    if shape.n < shape.m {
        return 0;
    }
    shape.m * power(shape.n, shape.k)
}

// The digit of a level is below this.
#[tactic(auto, unfolding(crate::specs::Shapes::bound))]
pub fn digit_bound(shape: Shape, level: usize) -> usize
    ensures { result ≡ bound shape level }
{
    if level == shape.k {
        return shape.m;
    }
    shape.n
}
