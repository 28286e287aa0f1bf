// Where the entry of each switch of a room stands in a summary.
ghost use Rattle.std.specs.Prelude.{◌≡◌, ◌<◌, length, get_or};
ghost use Rattle.room.specs.Refusals.{shape_refusal};
ghost use Rattle.summary.specs.Counts.{switches_in, place_of, summary_of, IsSwitch};
ghost use Rattle.summary.specs.Inside.{IsOrder, StandsAt};

use crate::counts::count_at;
use room::{Shape, Switch, power, server_count};

// How the entries of a room lie: how many switches each level below k has, and how many stand before those of level k.
#[derive(Clone, Copy)]
pub(crate) struct Order {
    shape: Shape,
    each: usize,
    top: usize,
    ghost lies: { IsOrder shape each top },
}

impl Order {
    // The order of a room's entries.
    pub(crate) fn of(shape: Shape) -> Order
        requires { shape_refusal shape ≡ 0 }
        ensures { result.shape ≡ shape }
    {
        let each = server_count(shape) / shape.n;
        Order {
            shape,
            each,
            top: shape.k * each,
        }
    }

    // How many entries there are: those below level k, and n^k at level k.
    pub(crate) fn total(self) -> usize
        ensures { result ≡ length (switches_in self.shape) }
    {
        self.top + power(self.shape.n, self.shape.k)
    }

    // The place of a switch's entry.
    pub(crate) fn place_of(self, level: usize, number: usize) -> usize
        requires { IsSwitch self.shape level number }
        ensures { result ≡ place_of self.shape level number }
    {
        level * self.each + number
    }

    // The switch whose entry stands at a place.
    pub(crate) fn switch_in(self, place: usize) -> Switch
        requires { place < length (switches_in self.shape) }
        ensures { StandsAt self.shape place result }
    {
        if self.top <= place {
            return Switch {
                level: self.shape.k,
                number: place - self.top,
            };
        }
        Switch {
            level: place / self.each,
            number: place % self.each,
        }
    }

    // The count of the switch whose entry stands at a place.
    pub(crate) fn count_in(self, table: &[u8], place: usize) -> u8
        requires { place < length (switches_in self.shape) }
        ensures { result ≡ get_or (summary_of self.shape table.now) place 0 }
    {
        let switch = self.switch_in(place);
        count_at(self.shape, table, switch.level, switch.number)
    }
}
