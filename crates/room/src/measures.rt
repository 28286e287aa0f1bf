// How many servers a room has, and how many values a digit.
ghost use Rattle.std.specs.Prelude.{◌≡◌};
ghost use Rattle.refusals.specs.Reasons.{tells};
ghost use Rattle.room.specs.Answers.{no_number, a_number, servers_answer, bound_answer};

use crate::Shape;
use crate::shapes::{digit_bound, server_count};
use crate::tests::{level_refusal, shape_refusal};
use refusals::Reason;

// N, the number of servers. Refusals 1, 2, 26, 3.
pub fn servers_of(shape: Shape) -> Result<usize, Reason>
    ensures { tells no_number a_number result ≡ servers_answer shape }
{
    shape_refusal(shape)?;
    Ok(server_count(shape))
}

// The bound of the digit of a level: the digit runs below it. Refusals 1, 2, 26, 3, 20.
pub fn bound_of(shape: Shape, level: usize) -> Result<usize, Reason>
    ensures { tells no_number a_number result ≡ bound_answer shape level }
{
    level_refusal(shape, level)?;
    Ok(digit_bound(shape, level))
}
