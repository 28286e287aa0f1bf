// What is tested before a step answers.
ghost use Rattle.std.specs.Prelude.{◌≡◌};
ghost use Rattle.refusals.specs.Reasons.{told};
ghost use Rattle.step.specs.Steps.{given_refusal};

use crate::Step;
use refusals::Reason;
use room::{Shape, pair_refusal};

// The first of 1, 2, 26, 3, 4, 17, 7 that refuses what a step is given.
pub(crate) fn given_refusal(
    shape: Shape,
    here: usize,
    destination: usize,
    path: &[u8],
    table: &[u8],
) -> Result<(), Reason>
    ensures { told result ≡ given_refusal shape here destination path.now table.now }
{
    pair_refusal(shape, here, destination)?;
    if table.len() != Step::TABLE_BYTES {
        return Err(Reason::NeighbourTable);
    }
    if path.len() != Shape::MOST_HOPS {
        return Err(Reason::List);
    }
    Ok(())
}
