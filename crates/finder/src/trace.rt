// The way back from the destination, in the tables of the scan.
ghost use Rattle.std.specs.Prelude.{◌≡◌, ◌≢◌, ◌∷◌, Ok, take};
ghost use Rattle.finder.specs.Answers.{what_found, HasHops};
ghost use Rattle.finder.specs.Trace.{Reached, TracedBack};

use crate::Found;
use room::Shape;

// Eight bytes with one more in front; the last goes.
fn front(bytes: &mut [u8; 8], byte: u8)
    ensures { bytes.new ≡ byte ∷ take 7 bytes.old }
{
    bytes.copy_within(..7, 1);
    bytes[0] = byte;
}

// The route to the destination by its path bytes, if it has no more than eight hops.
pub(crate) fn retrace(
    k: usize,
    back: &[u32; 4096],
    queue: &[u16; 4096],
    source: usize,
    destination: usize,
) -> Option<Found>
    requires { Reached k source back.now queue.now destination × (source ≢ destination) }
    ensures { TracedBack k source back.now queue.now destination (what_found result) × HasHops (Ok result) }
{
    let mut bytes = [0u8; 8];
    let mut at = destination;
    for hops in 0..=Shape::MOST_HOPS {
        if at == source {
            return Some(Found { hops, bytes });
        }
        let key = back[at] as usize;
        let label = key % 256;
        front(&mut bytes, ((k - label / 64) * 64 + label % 64) as u8);
        at = queue[key / 256] as usize;
    }
    None
}
