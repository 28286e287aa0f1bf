// The route picked, and the companion question. Shape, table and ends are apart in the public call, as C passes them
// and as `wrong` names its arguments.
ghost use Rattle.std.specs.Prelude.{◌≡◌};
ghost use Rattle.refusals.specs.Refusals.{plain};
ghost use Rattle.refusals.specs.Reasons.{told, tells};
ghost use Rattle.pick.specs.Picks.{pick_answer, PickedPart};
ghost use Rattle.pick.specs.Places.{no_place, the_place, place_answer};

use crate::lengths::lists_refusal;
use crate::usable::Ends;
use crate::{List, Place};
use refusals::Reason;
use room::Shape;

// Which list holds the picked route, and at which place; or why there is none: refusals 1, 2, 26, 3 to 7, and 16
// where neither list has a usable route.
pub fn pick_place(
    shape: Shape,
    table: &[u8],
    source: usize,
    destination: usize,
    fresh: &[u8],
    kept: &[u8],
) -> Result<Place, Reason>
    ensures { tells no_place the_place result ≡ place_answer shape table.now source destination fresh.now kept.now }
{
    lists_refusal(shape, table, source, destination, fresh, kept)?;
    let ends = Ends {
        shape,
        table,
        source,
        destination,
    };
    if let Some(i) = ends.first_usable(fresh) {
        return Ok(Place {
            list: List::Fresh,
            route: i + 1,
        });
    }
    if let Some(i) = ends.first_usable(kept) {
        return Ok(Place {
            list: List::Kept,
            route: i + 1,
        });
    }
    Err(Reason::NoRoute)
}

// The first usable route of the fresh list, else of the kept list: the eight bytes within the buffer
// that holds them. Usable is what checking takes as a list of one. Empty on a refusal.
pub fn pick_route<'a>(
    shape: Shape,
    table: &[u8],
    source: usize,
    destination: usize,
    fresh: &'a [u8],
    kept: &'a [u8],
) -> &'a [u8]
    ensures { PickedPart shape table.now source destination fresh.entry kept.entry result }
{
    let Ok(place) = pick_place(shape, table, source, destination, fresh, kept) else {
        return &fresh[..0];
    };
    let end = 8 * place.route;
    match place.list {
        List::Fresh => &fresh[end - 8..end],
        List::Kept => &kept[end - 8..end],
    }
}

// Why picking gives no route: refusals 1, 2, 26, 3 to 7, 16 where neither list has a usable route, or Ok where it gives one.
pub fn pick_refusal(
    shape: Shape,
    table: &[u8],
    source: usize,
    destination: usize,
    fresh: &[u8],
    kept: &[u8],
) -> Result<(), Reason>
    ensures { plain (told result) ≡ pick_answer shape table.now source destination fresh.now kept.now }
{
    pick_place(shape, table, source, destination, fresh, kept)?;
    Ok(())
}
