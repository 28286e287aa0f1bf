// The call, and what it refuses. Shape, table and ends are apart in the public call, as C passes them
// and as `wrong` names its arguments.
ghost use Rattle.refusals.specs.Reasons.{tells};
ghost use Rattle.finder.specs.Answers.{no_route, what_found, HasHops, Finding};

use crate::Found;
use crate::scan::search;
use links::room_refusal;
use refusals::Reason;
use room::Shape;

// The alternate: the least route of at most eight hops over the live links of the table, or none where
// there is no route. Refusals 1, 2, 26, 3, 4, 5, 6.
pub fn find_route(
    shape: Shape,
    table: &[u8],
    source: usize,
    destination: usize,
) -> Result<Option<Found>, Reason>
    ensures { Finding shape table.now source destination (tells no_route what_found result) × HasHops result }
{
    room_refusal(shape, table, source, destination)?;
    Ok(search(shape, table, source, destination))
}
