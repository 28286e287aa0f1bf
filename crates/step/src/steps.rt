// The step.
ghost use Rattle.std.specs.Prelude.{◌≡◌, length};
ghost use Rattle.refusals.specs.Reasons.{tells_where};
ghost use Rattle.step.specs.Steps.{mac_at, no_step, the_step, step_answer};

use crate::next::next_hop;
use crate::tests::given_refusal;
use crate::{Onward, Step};
use refusals::{Reason, Refused};
use room::Shape;

// The six bytes of the MAC in the entry of a path byte.
fn mac_at(table: &[u8], byte: u8) -> [u8; 6]
    requires { length table.now ≡ 2048 }
    ensures { result ≡ mac_at table.now byte }
{
    let at = Step::ENTRY_BYTES * byte as usize;
    [
        table[at],
        table[at + 1],
        table[at + 2],
        table[at + 3],
        table[at + 4],
        table[at + 5],
    ]
}

// One step of a packet for the destination, at the server here, whose neighbour table this is; the
// index is the NHI. Refusals 1, 2, 26, 3, 4, 17, 7; away from the destination 18, then 8, 9, 10, 19.
pub fn step_once(
    shape: Shape,
    here: usize,
    destination: usize,
    index: usize,
    path: &[u8],
    table: &[u8],
) -> Result<Step, Refused>
    ensures { tells_where no_step the_step result ≡ step_answer shape here destination index path.now table.now }
{
    given_refusal(shape, here, destination, path, table)?;
    if here == destination {
        return Ok(Step::Delivered);
    }
    if Shape::MOST_HOPS <= index {
        return Err(Refused::from(Reason::HopIndex));
    }
    let byte = path[index];
    let hop = next_hop(shape, here, table, byte, index)?;
    let port = Step::ENTRY_BYTES * byte as usize + Step::PORT;
    Ok(Step::Onward(Onward {
        next: hop.next,
        index: index + 1,
        mac: mac_at(table, byte),
        port: table[port],
        level: hop.level,
        old: hop.old,
    }))
}
