// What is tested before any reading.
ghost use Rattle.std.specs.Prelude.{◌≡◌, ◌≤◌};
ghost use Rattle.refusals.specs.Reasons.{told};
ghost use Rattle.pick.specs.Picks.{fits, lists_refusal};

use links::room_refusal;
use refusals::Reason;
use room::Shape;

// Whether so many bytes are whole arrays, at most k + 1 of them; none will do.
fn are_arrays(shape: Shape, bytes: usize) -> bool
    requires { shape.k ≤ 3 }
    ensures { result ≡ fits shape bytes }
{
    bytes % 8 == 0 && bytes <= 8 * (shape.k + 1)
}

// The first of 1, 2, 26, 3, 4, 5, 6, 7 that refuses two lists before they are read.
pub(crate) fn lists_refusal(
    shape: Shape,
    table: &[u8],
    source: usize,
    destination: usize,
    fresh: &[u8],
    kept: &[u8],
) -> Result<(), Reason>
    ensures { told result ≡ lists_refusal shape table.now source destination fresh.now kept.now }
{
    room_refusal(shape, table, source, destination)?;
    if are_arrays(shape, fresh.len()) && are_arrays(shape, kept.len()) {
        return Ok(());
    }
    Err(Reason::List)
}
