// One forwarding step: all but the MAC in one word, and the MAC as one number.
ghost use Rattle.std.specs.Prelude.{◌≡◌};
ghost use Rattle.step.specs.Steps.{step_answer};
ghost use Rattle.driver.specs.Rooms.{shape_in};
ghost use Rattle.driver.specs.Packed.{packed};

use driver::{Room, Stepped};

// One step of a packet at the server `here`, whose neighbour table is lent; the index is the NHI. Refusals
// 1, 2, 26, 3, 4, 17, 7; away from the destination 18, then 8, 9, 10, 19.
#[unsafe(no_mangle)]
pub extern "C" fn bcube_step(
    room: Room,
    here: usize,
    destination: usize,
    index: usize,
    path: &[u8],
    neighbours: &[u8],
) -> Stepped
    ensures { result ≡ packed (step_answer (shape_in room) here destination index path.now neighbours.now) }
{
    driver::bcube_step(room, here, destination, index, path, neighbours)
}
