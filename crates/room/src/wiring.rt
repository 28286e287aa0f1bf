// Switches and their ports.
ghost use Rattle.std.specs.Prelude.{◌≡◌, ◌*◌, ◌≤◌, ◌&&◌, ltb, leb};
ghost use Rattle.refusals.specs.Reasons.{tells, told};
ghost use Rattle.room.specs.Answers.{no_number, a_number};
ghost use Rattle.room.specs.Wiring.{port_refusal, switches_answer, server_at_answer};

use crate::Shape;
use crate::shapes::{digit_bound, power, server_count};
use crate::tests::{level_refusal, shape_refusal};
use refusals::Reason;

// How many switches a level has. Refusals 1, 2, 26, 3, 20.
pub fn switches_of(shape: Shape, level: usize) -> Result<usize, Reason>
    ensures { tells no_number a_number result ≡ switches_answer shape level }
{
    level_refusal(shape, level)?;
    Ok(server_count(shape) / digit_bound(shape, level))
}

// Whether a level up to k has this switch and the switch this port, in one go: of `count` servers, `bound` at each
// switch, whose number is below 4,096, so that the product fits.
fn is_port(k: usize, level: usize, switch: usize, count: usize, port: usize, bound: usize) -> bool
    requires { bound ≤ 64 }
    ensures { result ≡ (ltb switch 4096 && (ltb (switch * bound) count && (ltb port bound && leb level k))) }
{
    switch < Shape::MOST_SERVERS && (switch * bound < count && (port < bound && level <= k))
}

// The first of 1, 2, 26, 3, 20, 21 that refuses a port of a switch.
fn port_refusal(shape: Shape, level: usize, switch: usize, port: usize) -> Result<(), Reason>
    ensures { told result ≡ port_refusal shape level switch port }
{
    shape_refusal(shape)?;
    let count = server_count(shape);
    let bound = digit_bound(shape, level);
    if is_port(shape.k, level, switch, count, port, bound) {
        return Ok(());
    }
    if shape.k < level {
        return Err(Reason::Level);
    }
    Err(Reason::Digit)
}

// The server at a port of a switch of a level: its digit there is the port, and its other digits are the switch's.
// Refusals 1, 2, 26, 3, 20, 21.
pub fn server_at(shape: Shape, level: usize, switch: usize, port: usize) -> Result<usize, Reason>
    ensures { tells no_number a_number result ≡ server_at_answer shape level switch port }
{
    port_refusal(shape, level, switch, port)?;
    let weight = power(shape.n, level);
    let above = switch / weight;
    let upper = port + shape.n * above;
    Ok(switch % weight + weight * upper)
}
