// A summary with an entry for each switch, and what its entries say.
ghost use Rattle.std.specs.Prelude.{◌≡◌, true, suc};
ghost use Rattle.lists.specs.Lists.{same};
ghost use Rattle.room.specs.Shapes.{Server, Link};
ghost use Rattle.room.specs.Refusals.{shape_refusal};
ghost use Rattle.summary.specs.Counts.{switches_in, summary_of};
ghost use Rattle.summary.specs.Refusals.{is_counted, are_counted, has_entries};
ghost use Rattle.summary.specs.Answers.{first_dead, the_dead};

use crate::counts::count_at;
use crate::order::Order;
use room::{Shape, Switch, digit_bound, switch_of};

// The shape of a room, and a summary that has an entry for each of its switches.
#[derive(Clone, Copy)]
pub(crate) struct Entries<'a> {
    pub shape: Shape,
    pub summary: &'a [u8],
    ghost room: { shape_refusal shape ≡ 0 },
    ghost each: { has_entries shape summary.now ≡ true },
}

impl Entries<'_> {
    // Whether the entry of the switch of a link is what the table counts.
    pub(crate) fn is_counted(&self, table: &[u8], server: usize, level: usize) -> bool
        requires { Link self.now.shape server level }
        ensures { result ≡ is_counted self.now.shape table.now self.now.summary.now server level }
    {
        let switch = switch_of(self.shape, server, level).unwrap();
        let place = Order::of(self.shape).place_of(level, switch.number);
        self.summary[place] == count_at(self.shape, table, level, switch.number)
    }

    // Whether the entries of a server's switches, one at each level, are what the table counts.
    pub(crate) fn are_counted(&self, table: &[u8], server: usize) -> bool
        requires { Server self.now.shape server }
        ensures { result ≡ are_counted self.now.shape table.now self.now.summary.now server (suc self.now.shape.k) }
    {
        (0..=self.shape.k).all(|level| self.is_counted(table, server, level))
    }

    // Whether every entry is what the table counts.
    pub(crate) fn all_counted(&self, table: &[u8]) -> bool
        ensures { result ≡ same self.now.summary.now (summary_of self.now.shape table.now) }
    {
        let order = Order::of(self.shape);
        self.summary
            .iter()
            .enumerate()
            .all(|(place, entry)| *entry == order.count_in(table, place))
    }

    // The first dead switch, by the entries.
    pub(crate) fn first_dead(&self) -> Option<Switch>
        ensures { the_dead result ≡ first_dead self.now.shape self.now.summary.now (switches_in self.now.shape) }
    {
        let order = Order::of(self.shape);
        for (place, entry) in self.summary.iter().enumerate() {
            let switch = order.switch_in(place);
            if *entry as usize == digit_bound(self.shape, switch.level) {
                return Some(switch);
            }
        }
        None
    }
}
