// A room as one number, and the version.
ghost use Rattle.std.specs.Prelude.{◌≤◌, ◌≡◌};
ghost use Rattle.driver.specs.Rooms.{held, room_of, shape_in};

use crate::Room;
use room::Shape;

// The version of the library: 10,000 times the first number, 100 times the second, and the third.
pub fn bcube_version() -> u64
    ensures { result ≡ 50100 }
{
    50100
}

// A number, or 255 where it is more.
#[tactic(auto, using(crate::proofs::ShapeLaws::held_min))]
fn at_most_255(x: usize) -> u64
    ensures { (result ≡ held x) × (result ≤ 255) }
{
    x.min(255) as u64
}

// The room of three numbers, each at most 255.
#[tactic(auto, unfolding(crate::specs::Rooms::room_of))]
fn room_of(n: usize, k: usize, m: usize) -> Room
    ensures { result ≡ room_of n k m }
{
    let above = 256 * at_most_255(k) + 65536 * at_most_255(m);
    Room {
        number: at_most_255(n) + above,
    }
}

// The full room of n ports a switch and levels 0 to k. A number above 255 counts as 255, which is
// refused like it.
pub fn bcube_room_of(n: usize, k: usize) -> Room
    ensures { result ≡ room_of n k n }
{
    room_of(n, k, n)
}

// The room of n ports a switch and levels 0 to k whose digit k has m values. A number above 255 counts
// as 255, which is refused like it.
pub fn bcube_filled_room(n: usize, k: usize, m: usize) -> Room
    ensures { result ≡ room_of n k m }
{
    room_of(n, k, m)
}

// The shape of a room.
#[tactic(auto, unfolding(crate::specs::Rooms::shape_in))]
pub(crate) fn shape_in(room: Room) -> Shape
    ensures { result ≡ shape_in room }
{
    let number = room.number as usize;
    Shape::new(number % 256, number / 256 % 256, number / 65536)
}
