// One path byte by itself.
ghost use Rattle.std.specs.Prelude.{◌≡◌, ◌&&◌, ltb, leb};
ghost use Rattle.refusals.specs.Reasons.{told, tells, tells_where};
ghost use Rattle.room.specs.Answers.{no_number, a_number};
ghost use Rattle.path.specs.Bytes.{made_refusal, byte_answer, no_parts, the_parts, parts_answer};

use crate::Parts;
use crate::hops::{level_of, value_of};
use refusals::{Reason, Refused};
use room::{Shape, digit_bound, shape_refusal};

// Whether a level is at most k and a value below its bound.
fn is_value(k: usize, level: usize, value: usize, bound: usize) -> bool
    ensures { result ≡ (leb level k && ltb value bound) }
{
    level <= k && value < bound
}

// The first of 1, 2, 26, 3, 20, 21 that refuses a level and a value.
fn made_refusal(shape: Shape, level: usize, value: usize) -> Result<(), Reason>
    ensures { told result ≡ made_refusal shape level value }
{
    shape_refusal(shape)?;
    if is_value(shape.k, level, value, digit_bound(shape, level)) {
        return Ok(());
    }
    if shape.k < level {
        return Err(Reason::Level);
    }
    Err(Reason::Digit)
}

// The path byte of a level and a value. Refusals 1, 2, 26, 3, 20, 21.
#[tactic(auto, using(crate::proofs::ByteLaws::made_bytes))]
pub fn byte_of(shape: Shape, level: usize, value: usize) -> Result<usize, Reason>
    ensures { tells no_number a_number result ≡ byte_answer shape level value }
{
    made_refusal(shape, level, value)?;
    Ok(64 * level + value)
}

// The level and the value of a path byte. Refusals 1, 2, 26, 3; then, as at hop 1 of route 1, 8 and 9.
pub fn parts_of(shape: Shape, byte: usize) -> Result<Parts, Refused>
    ensures { tells_where no_parts the_parts result ≡ parts_answer shape byte }
{
    shape_refusal(shape)?;
    let level = level_of(byte);
    if shape.k < level {
        return Err(Refused::at(Reason::Position, 1, 1));
    }
    let value = value_of(byte);
    if digit_bound(shape, level) <= value {
        return Err(Refused::at(Reason::Value, 1, 1));
    }
    Ok(Parts { level, value })
}
