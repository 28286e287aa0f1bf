// Links marked in a copy of the failed-link table: those of middle servers, and those to used
// switches.
ghost use Rattle.std.specs.Prelude.{[], ℕ, ◌<◌, eqb, length, get_or};
ghost use Rattle.lists.specs.Lists.{is_in};
ghost use Rattle.room.specs.Shapes.{Server, Link};
ghost use Rattle.links.specs.Table.{TableOf};
ghost use Rattle.path.specs.Routes.{Route, switch_at, switches_of};
ghost use Rattle.laying.specs.Laid.{Marks, takes};

use links::mark;
use room::Shape;

// Marks every link of a server.
fn mark_server(shape: Shape, copy: &mut [u8], server: usize)
    requires { Server shape server × TableOf shape copy.old }
    ensures { Marks shape copy.old (λ x l. eqb x server) copy.new }
{
    for level in 0..=shape.k {
        mark(&mut *copy, server, level);
    }
}

// Marks every link to the switch of a server at a level.
fn mark_switch(shape: Shape, copy: &mut [u8], server: usize, level: usize)
    requires { Link shape server level × TableOf shape copy.old }
    ensures { Marks shape copy.old (λ x l. eqb (switch_at shape l x) (switch_at shape level server)) copy.new }
{
    let side = room::side_of(shape, server, level);
    let mut other = side.first;
    for _value in 0..side.count {
        mark(&mut *copy, other, level);
        other += side.stride;
    }
}

// Marks every link of each of these servers.
fn mark_servers(shape: Shape, copy: &mut [u8], servers: &[usize])
    requires { ((i : ℕ) → i < length servers.now → Server shape (get_or servers.now i 0)) × TableOf shape copy.old }
    ensures { Marks shape copy.old (λ x l. is_in x servers.now) copy.new }
{
    for server in servers {
        mark_server(shape, &mut *copy, *server);
    }
}

// Marks every link to a switch that a route uses.
fn mark_switches(shape: Shape, copy: &mut [u8], servers: &[usize])
    requires { Route shape [] servers.now × TableOf shape copy.old }
    ensures { Marks shape copy.old (λ x l. is_in (switch_at shape l x) (switches_of shape servers.now)) copy.new }
{
    for (from, to) in servers.iter().zip(&servers[1..]) {
        match room::level_between(shape, *from, *to) {
            Ok(Some(level)) => mark_switch(shape, &mut *copy, *from, level),
            Ok(None) => unreachable!(),
            Err(_) => unreachable!(),
        }
    }
}

// Marks every link of a route's middle servers, and every link to a switch that it uses.
pub(crate) fn mark_route(shape: Shape, copy: &mut [u8], servers: &[usize])
    requires { Route shape [] servers.now × TableOf shape copy.old }
    ensures { Marks shape copy.old (takes shape servers.now) copy.new }
{
    let last = servers.len() - 1;
    mark_servers(shape, &mut *copy, &servers[1..last]);
    mark_switches(shape, &mut *copy, servers);
}
