// Servers that differ in one digit.
ghost use Rattle.std.specs.Prelude.{◌≡◌};
ghost use Rattle.refusals.specs.Reasons.{tells};
ghost use Rattle.room.specs.Digits.{differ_from};
ghost use Rattle.room.specs.Answers.{no_number, a_number, no_between, between, neighbour_answer, between_answer, only_level};

use crate::Shape;
use crate::addresses::digit_places;
use crate::sides::side_of;
use crate::tests::{pair_refusal, value_refusal};
use refusals::Reason;

// The neighbour of a server at a level that has the value there; the server itself where the value
// is its own. It is one of the servers at their switch. Refusals 1, 2, 26, 3, 4, 20, 21.
pub fn neighbour_of(
    shape: Shape,
    server: usize,
    level: usize,
    value: usize,
) -> Result<usize, Reason>
    ensures { tells no_number a_number result ≡ neighbour_answer shape server level value }
{
    value_refusal(shape, server, level, value)?;
    let side = side_of(shape, server, level);
    Ok(side.first + value * side.stride)
}

// Whether four places differ from four others in one place alone, and in which.
fn only_place(one: [usize; 4], other: [usize; 4]) -> Option<usize>
    ensures { between result ≡ only_level (differ_from 0 one other) }
{
    let mut count: usize = 0;
    let mut level: usize = 0;
    for (i, digit) in one.iter().enumerate() {
        if *digit != other[i] {
            count += 1;
            level = i;
        }
    }
    if count != 1 {
        return None;
    }
    Some(level)
}

// Whether two servers are neighbours, and at which level. Refusals 1, 2, 26, 3, 4.
pub fn level_between(shape: Shape, one: usize, other: usize) -> Result<Option<usize>, Reason>
    ensures { tells no_between between result ≡ between_answer shape one other }
{
    pair_refusal(shape, one, other)?;
    Ok(only_place(digit_places(shape, one), digit_places(shape, other)))
}
