// One link changed, and the entry of its switch with it. Table and summary come apart, and are no struct: each call is lent
// both, and its contract says of each what it was and what it is left as.
ghost use Rattle.std.specs.Prelude.{suc, ◌≡◌};
ghost use Rattle.links.specs.Table.{changed};
ghost use Rattle.summary.specs.Counts.{recounted, recounted_below};
ghost use Rattle.summary.specs.Inside.{CountedLink, CountedServer};
ghost use Rattle.summary.specs.Answers.{changed_server};

use crate::order::Order;
use links::{is_failed, put};
use room::{Shape, switch_of};

// Marks or clears a link, and its switch counts one more where it is failed only now, one less where it was. What the link is
// after the change is asked of the table, and not of what was put.
pub(crate) fn change(
    shape: Shape,
    table: &mut [u8],
    summary: &mut [u8],
    server: usize,
    level: usize,
    failed: bool,
)
    requires { CountedLink shape table.old summary.old server level }
    ensures { (table.new ≡ changed failed server level table.old) × (summary.new ≡ recounted shape (changed failed server level table.old) server level summary.old) }
{
    let switch = switch_of(shape, server, level).unwrap();
    let place = Order::of(shape).place_of(level, switch.number);
    let was = is_failed(&*table, server, level);
    put(&mut *table, server, level, failed);
    let is = is_failed(&*table, server, level);
    if was == is {
        return;
    }
    let entry = &mut summary[place];
    if is {
        *entry += 1;
    } else {
        *entry -= 1;
    }
}

// The same of all links of a server.
pub(crate) fn change_all(
    shape: Shape,
    table: &mut [u8],
    summary: &mut [u8],
    server: usize,
    failed: bool,
)
    requires { CountedServer shape table.old summary.old server }
    ensures { (table.new ≡ changed_server failed shape server table.old) × (summary.new ≡ recounted_below shape (changed_server failed shape server table.old) server (suc shape.k) summary.old) }
{
    for level in 0..=shape.k {
        change(shape, &mut *table, &mut *summary, server, level, failed);
    }
}
