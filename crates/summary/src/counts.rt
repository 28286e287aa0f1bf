// The links at a switch counted.
ghost use Rattle.std.specs.Prelude.{◌≡◌};
ghost use Rattle.summary.specs.Counts.{count_at, IsSwitch};

use links::is_failed;
use room::{Shape, side_at};

// How many of a switch's servers have their link to it failed.
pub(crate) fn count_at(shape: Shape, table: &[u8], level: usize, number: usize) -> u8
    requires { IsSwitch shape level number }
    ensures { result ≡ count_at shape table.now level number }
{
    let side = side_at(shape, level, number);
    let mut server = side.first;
    let mut count: u8 = 0;
    for _port in 0..side.count {
        if is_failed(table, server, level) {
            count += 1;
        }
        // A stride more, and not the product of port and stride, with which the largest rooms take a third more time.
        server += side.stride;
    }
    count
}
