// The call, and what it refuses.
ghost use Rattle.refusals.specs.Reasons.{told_where};
ghost use Rattle.laying.specs.Answers.{Lays};

use crate::marks::mark_route;
use links::room_refusal;
use refusals::Refused;
use room::Shape;

// Lays the route of an array into a failed-link table: marks each link of its middle servers, and each
// link to a switch that it uses. Refusals 1, 2, 26, 3, 4, 5, 6, 7, 8, 9, 10, 28, 29, 13, 14; the table then
// keeps its bytes.
pub fn lay_route(
    shape: Shape,
    table: &mut [u8],
    source: usize,
    destination: usize,
    path: &[u8],
) -> Result<(), Refused>
    ensures { Lays shape table.old source destination path.now (told_where result) table.new }
{
    room_refusal(shape, &*table, source, destination)?;
    let reading = path::read_path(shape, source, destination, path)?;
    mark_route(shape, &mut *table, &reading.servers[..reading.count]);
    Ok(())
}
