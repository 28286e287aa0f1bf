// Servers and switches already on the route.
ghost use Rattle.std.specs.Prelude.{◌≡◌};
ghost use Rattle.lists.specs.Lists.{place_in};
ghost use Rattle.room.specs.Refusals.{link_refusal};
ghost use Rattle.path.specs.Routes.{switch_at};
ghost use Rattle.path.specs.Inside.{tried_as, newly};

use crate::faults::Fault;
use refusals::Reason;
use room::{Shape, switch_of};

// The first place of x in a list, counted from 0; the length of the list where x is not in it, and no `None`: so
// `demands` Helpers says of it.
pub fn place_in(list: &[usize], x: usize) -> usize
    ensures { result ≡ place_in x list.now }
{
    list.iter().position(|y| *y == x).unwrap_or(list.len())
}

// The switch of a link as one number.
pub(crate) fn switch_at(shape: Shape, level: usize, server: usize) -> usize
    requires { link_refusal shape server level ≡ 0 }
    ensures { result ≡ switch_at shape level server }
{
    match switch_of(shape, server, level) {
        Ok(switch) => Shape::MOST_SERVERS * level + switch.number,
        Err(_) => unreachable!(),
    }
}

// The switch of a hop to this server, which a route adds to those that it has. Refusals 28, 29, with the earlier hop:
// the one that reached the server, the source being hop 0, or that used the switch.
pub(crate) fn add_hop(
    met: &[usize],
    used: &[usize],
    next: usize,
    switch: usize,
) -> Result<usize, Fault>
    ensures { tried_as result ≡ newly met.now used.now next switch }
{
    let reached = place_in(met, next);
    if reached < met.len() {
        return Err(Fault {
            reason: Reason::ServerAgain,
            earlier: reached,
        });
    }
    let user = place_in(used, switch);
    if user < used.len() {
        return Err(Fault {
            reason: Reason::SwitchAgain,
            earlier: user + 1,
        });
    }
    Ok(switch)
}
