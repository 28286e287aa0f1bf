// Selection. Shape, table and ends are apart in the public call, as C passes them
// and as `wrong` names its arguments.
ghost use Rattle.refusals.specs.Reasons.{tells};
ghost use Rattle.select.specs.Selection.{no_selection, a_selection, Selecting};

use crate::slots::Slots;
use build::RouteSet;
use links::room_refusal;
use refusals::Reason;
use room::Shape;

// The routes from one server to another for slots k down to 0, closed up: the built ones that no
// failed link breaks, and alternates for the others. Refusals 1, 2, 26, 3, 4, 5, 6, 16.
pub fn select_routes(
    shape: Shape,
    table: &[u8],
    source: usize,
    destination: usize,
) -> Result<RouteSet, Reason>
    ensures { Selecting shape table.now source destination (tells no_selection a_selection result) }
{
    room_refusal(shape, table, source, destination)?;
    let built = build::build_routes(shape, source, destination)?;
    let slots = Slots {
        shape,
        table,
        source,
        destination,
        built,
    };
    let routes = slots.settle();
    if routes.count == 0 {
        return Err(Reason::NoRoute);
    }
    Ok(routes)
}
