// The built route of one slot, between two ends given by their digits in four places.
ghost use Rattle.std.specs.Prelude.{◌≡◌, suc, ◌-◌, ◌≤◌, ◌++◌, eqb, take, drop, replicate};
ghost use Rattle.lists.specs.Lists.{filled};
ghost use Rattle.room.specs.Shapes.{Valid};
ghost use Rattle.room.specs.Digits.{Below};
ghost use Rattle.build.specs.Built.{round, correct, route_over, plus_one, bytes_of};

use crate::hops::{byte_of, level_after, value_after};
use room::Shape;

// The bytes of the hops made so far, at most one, and of those that correct the digits of one end
// to the other's, from a level downwards and round.
fn corrected(
    k: usize,
    first: usize,
    from: [usize; 4],
    to: [usize; 4],
    made: [u8; 8],
    count: usize,
) -> [u8; 8]
    requires { (k ≤ 3) × (first ≤ k) × Below 64 to × (count ≤ 1) × (drop count made ≡ replicate (8 - count) 0) }
    ensures { result ≡ filled 8 (take count made ++ bytes_of (correct eqb 0 (round k (suc k) first) from to)) }
{
    let mut bytes = made;
    let mut hops = count;
    let mut level = first;
    for _turn in 0..k + 1 {
        let value = to[level];
        if from[level] != value {
            bytes[hops] = byte_of(level, value);
            hops += 1;
        }
        level = level_after(k, level);
    }
    bytes
}

// The eight bytes of the built route of a slot.
pub(crate) fn route_bytes(shape: Shape, slot: usize, from: [usize; 4], to: [usize; 4]) -> [u8; 8]
    requires { Valid shape × (slot ≤ shape.k) × Below 64 from × Below 64 to }
    ensures { result ≡ filled 8 (bytes_of (route_over eqb 0 (plus_one shape) shape.k slot from to)) }
{
    let k = shape.k;
    let own = from[slot];
    if own != to[slot] {
        return corrected(k, slot, from, to, [0; 8], 0);
    }
    let other = value_after(shape, slot, own);
    let mut beside = from;
    beside[slot] = other;
    let mut made: [u8; 8] = [0; 8];
    made[0] = byte_of(slot, other);
    let first = level_after(k, slot);
    corrected(k, first, beside, to, made, 1)
}
