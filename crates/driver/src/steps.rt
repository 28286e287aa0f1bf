// One forwarding step: all but the MAC in one word, and the MAC as one number.
ghost use Rattle.std.specs.Prelude.{◌≡◌, ◌<◌};
ghost use Rattle.step.specs.Steps.{step_answer};
ghost use Rattle.driver.specs.Rooms.{shape_in};
ghost use Rattle.driver.specs.Packed.{packed, mac_number};

use crate::shapes::shape_in;
use crate::{Room, Stepped};
use step::Step;

// A byte as a wider number.
fn wide(byte: u8) -> u64
    ensures { (result ≡ byte) × (result < 256) }
{
    byte as u64
}

// Six bytes as one number, the first highest.
fn mac_number(mac: [u8; 6]) -> u64
    ensures { result ≡ mac_number mac }
{
    let first = 16777216 * wide(mac[0]) + 65536 * wide(mac[1]) + 256 * wide(mac[2]) + wide(mac[3]);
    let last = 256 * wide(mac[4]) + wide(mac[5]);
    65536 * first + last
}

// One step of a packet at the server `here`, whose neighbour table is lent; the index is the NHI. Refusals
// 1, 2, 26, 3, 4, 17, 7; away from the destination 18, then 8, 9, 10, 19.
#[tactic(auto, using(crate::proofs::PackLaws::step_fits))]
pub fn bcube_step(
    room: Room,
    here: usize,
    destination: usize,
    index: usize,
    path: &[u8],
    neighbours: &[u8],
) -> Stepped
    ensures { result ≡ packed (step_answer (shape_in room) here destination index path.now neighbours.now) }
{
    match step::step_once(shape_in(room), here, destination, index, path, neighbours) {
        Ok(Step::Delivered) => Stepped {
            word: 65536,
            mac: 0,
        },
        Ok(Step::Onward(onward)) => {
            let mac = onward.mac;
            Stepped {
                word: 16777216 * (onward.index as u64)
                    + 4294967296 * (onward.next as u64)
                    + 281474976710656 * wide(onward.port)
                    + 72057594037927936 * (64 * onward.level + onward.old) as u64,
                mac: mac_number(mac),
            }
        }
        Err(refused) => Stepped {
            word: refused.reason.number() as u64 + 256 * (refused.hop as u64),
            mac: 0,
        },
    }
}
