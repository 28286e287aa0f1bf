// Checking a list of arrays. Shape, table and ends are apart in the public call, as C passes them
// and as `wrong` names its arguments.
ghost use Rattle.std.specs.Prelude.{◌≡◌};
ghost use Rattle.refusals.specs.Reasons.{told, told_where};
ghost use Rattle.verdict.specs.Checks.{list_refusal, first_of, first_stop, first_pair, walks_of, check_answer};

use crate::pairs::Walks;
use links::room_refusal;
use path::Walked;
use refusals::{Reason, Refused};
use room::Shape;

// The first of 1, 2, 26, 3, 4, 5, 6, 7 that refuses a list before it is walked.
fn list_refusal(
    shape: Shape,
    table: &[u8],
    source: usize,
    destination: usize,
    list: &[u8],
) -> Result<(), Reason>
    ensures { told result ≡ list_refusal shape table.now source destination list.now }
{
    room_refusal(shape, table, source, destination)?;
    let bytes = list.len();
    if bytes % 8 != 0 {
        return Err(Reason::List);
    }
    if bytes < 1 {
        return Err(Reason::List);
    }
    if 8 * (shape.k + 1) < bytes {
        return Err(Reason::List);
    }
    Ok(())
}

// Walks each array in list order, then holds every two against each other. Refusals 8 to 11, 28, 29, 13 to 15.
fn check_arrays(
    shape: Shape,
    table: &[u8],
    source: usize,
    destination: usize,
    list: &[u8],
) -> Result<(), Refused>
    requires { list_refusal shape table.now source destination list.now ≡ 0 }
    ensures { told_where result ≡ first_of (first_stop 1 (walks_of shape table.now source destination list.now)) (first_pair 1 (walks_of shape table.now source destination list.now)) }
{
    let (arrays, _) = list.as_chunks::<8>();
    let mut walks = [Walked {
        count: 0,
        servers: [0; 9],
        switches: [0; 8],
    }; 4];
    for (i, array) in arrays.iter().enumerate() {
        walks[i] = path::walk(shape, table, source, destination, array).map_err(
            |refused| refused.of_route(i + 1),
        )?;
    }
    let walks = Walks {
        walks,
        count: arrays.len(),
    };
    walks.first_pair()
}

// Checks a list of arrays, one after another, as routes from source to destination over the live
// links of the table: Ok where it is accepted. Refusals 1, 2, 26, 3 to 7; 8 to 11, 28, 29, 13, 14 at a
// route and hop; 15 at the later route of the first pair that is not parallel, at its hop where they first meet, with
// the earlier route and its hop there.
pub fn check_list(
    shape: Shape,
    table: &[u8],
    source: usize,
    destination: usize,
    list: &[u8],
) -> Result<(), Refused>
    ensures { told_where result ≡ check_answer shape table.now source destination list.now }
{
    list_refusal(shape, table, source, destination, list)?;
    check_arrays(shape, table, source, destination, list)
}
