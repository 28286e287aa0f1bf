// All the built routes of two servers.
ghost use Rattle.std.specs.Prelude.{◌≡◌};
ghost use Rattle.refusals.specs.Reasons.{tells};
ghost use Rattle.room.specs.Refusals.{ends_refusal};
ghost use Rattle.build.specs.Built.{built_arrays};
ghost use Rattle.build.specs.Sets.{set_of};
ghost use Rattle.build.specs.Answers.{no_building, a_building, build_answer};

use crate::RouteSet;
use crate::hops::places_of;
use crate::slots::route_bytes;
use refusals::Reason;
use room::{Shape, ends_refusal};

// The set of the built routes, slots k down to 0.
fn all_routes(shape: Shape, source: usize, destination: usize) -> RouteSet
    requires { ends_refusal shape source destination ≡ 0 }
    ensures { result ≡ set_of (built_arrays shape source destination) }
{
    let from = places_of(shape, source);
    let to = places_of(shape, destination);
    let mut set = RouteSet::new();
    for slot in (0..=shape.k).rev() {
        let route = route_bytes(shape, slot, from, to);
        set = set.with_route(route);
    }
    set
}

// The built routes from one server to another, slots k down to 0. Refusals 1, 2, 26, 3, 4, 5.
pub fn build_routes(shape: Shape, source: usize, destination: usize) -> Result<RouteSet, Reason>
    ensures { tells no_building a_building result ≡ build_answer shape source destination }
{
    ends_refusal(shape, source, destination)?;
    Ok(all_routes(shape, source, destination))
}
