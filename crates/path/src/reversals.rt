// Reversal.
ghost use Rattle.std.specs.Prelude.{◌≡◌};
ghost use Rattle.refusals.specs.Reasons.{tells_where};
ghost use Rattle.path.specs.Answers.{no_writing, a_writing, reverse_answer};

use crate::readings::plain_walk;
use refusals::Refused;
use room::Shape;

// The bytes of the route backwards: the same servers, from the destination. They are those that the walk
// put together, 64 times the level plus the old value of each hop, the last hop first.
// Refusals 1, 2, 26, 3, 4, 5, 7, 8, 9, 10, 28, 29, 13, 14.
pub fn reverse_path(
    shape: Shape,
    source: usize,
    destination: usize,
    path: &[u8],
) -> Result<[u8; 8], Refused>
    ensures { tells_where no_writing a_writing result ≡ reverse_answer shape source destination path.now }
{
    let mut met: [usize; 9] = [0; 9];
    let mut used: [usize; 8] = [0; 8];
    let way = plain_walk(
        shape,
        source,
        destination,
        path,
        &mut met[..],
        &mut used[..],
    )?;
    Ok(way.back.to_le_bytes())
}
