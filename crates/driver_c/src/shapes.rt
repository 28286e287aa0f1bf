// A room as one number, and the version.
ghost use Rattle.std.specs.Prelude.{◌≡◌};
ghost use Rattle.driver.specs.Rooms.{room_of};

use driver::Room;

// The version of the library: 10,000 times the first number, 100 times the second, and the third.
#[unsafe(no_mangle)]
pub extern "C" fn bcube_version() -> u64
    ensures { result ≡ 50100 }
{
    driver::bcube_version()
}

// The full room of n ports a switch and levels 0 to k. A number above 255 counts as 255, which is
// refused like it.
#[unsafe(no_mangle)]
pub extern "C" fn bcube_room_of(n: usize, k: usize) -> Room
    ensures { result ≡ room_of n k n }
{
    driver::bcube_room_of(n, k)
}

// The room of n ports a switch and levels 0 to k whose digit k has m values. A number above 255 counts
// as 255, which is refused like it.
#[unsafe(no_mangle)]
pub extern "C" fn bcube_filled_room(n: usize, k: usize, m: usize) -> Room
    ensures { result ≡ room_of n k m }
{
    driver::bcube_filled_room(n, k, m)
}
