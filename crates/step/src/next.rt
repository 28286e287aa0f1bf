// The next hop.
ghost use Rattle.std.specs.Prelude.{◌≡◌, ◌<◌, length};
ghost use Rattle.refusals.specs.Reasons.{tells_where};
ghost use Rattle.room.specs.Refusals.{server_refusal};
ghost use Rattle.path.specs.Answers.{no_hop, the_hop};
ghost use Rattle.step.specs.Inside.{next_answer};

use crate::Step;
use path::{Hop, hop_of};
use refusals::{Reason, Refused};
use room::Shape;

// The hop by the path byte that an index names, to a neighbour that is available. Refusals 8, 9, 10, 19. The hop's number
// is counted only where one is told: counted by the caller it costs each step two instructions.
pub(crate) fn next_hop(
    shape: Shape,
    here: usize,
    table: &[u8],
    byte: u8,
    index: usize,
) -> Result<Hop, Refused>
    requires { (server_refusal shape here ≡ 0) × (length table.now ≡ 2048) × (index < 8) }
    ensures { tells_where no_hop the_hop result ≡ next_answer shape here table.now byte index }
{
    let hop = match hop_of(shape, here, byte as usize) {
        Ok(hop) => hop,
        Err(refused) => return Err(Refused::at(refused.reason, 1, index + 1)),
    };
    let flag = Step::ENTRY_BYTES * byte as usize + Step::FLAG;
    if table[flag] != Step::AVAILABLE {
        return Err(Refused::at(Reason::Unavailable, 1, index + 1));
    }
    Ok(hop)
}
