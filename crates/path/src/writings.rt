// The bytes of servers in turn.
ghost use Rattle.std.specs.Prelude.{◌≡◌, []};
ghost use Rattle.refusals.specs.Reasons.{told, told_where, tells_where};
ghost use Rattle.room.specs.Refusals.{pair_refusal};
ghost use Rattle.path.specs.Routes.{level_to, byte_to, encode, Route};
ghost use Rattle.path.specs.Inside.{Next, tried_as, tried_to};
ghost use Rattle.path.specs.Answers.{no_writing, a_writing, servers_refusal, write_refusal, on_the_way, write_answer};

use crate::faults::Fault;
use crate::repeats::{add_hop, switch_at};
use refusals::{Reason, Refused};
use room::{Shape, digit_of, level_between, server_refusal, shape_refusal};

// The level of the hop from a server to its neighbour: they are apart by the level's power of n or more, and by less
// than the next.
#[tactic(auto, using(crate::proofs::DistanceLaws::hop_levels))]
fn level_to(shape: Shape, from: usize, to: usize) -> usize
    requires { Next shape from to }
    ensures { result ≡ level_to shape from to }
{
    let n = shape.n;
    let apart = from.abs_diff(to);
    if apart < n {
        return 0;
    }
    if apart < n * n {
        return 1;
    }
    if apart < n * n * n {
        return 2;
    }
    3
}

// The byte of the hop from a server to its neighbour.
fn byte_to(shape: Shape, from: usize, to: usize) -> u8
    requires { Next shape from to }
    ensures { result ≡ byte_to shape from to }
{
    let level = level_to(shape, from, to);
    match digit_of(shape, to, level) {
        Ok(digit) => (64 * level + digit) as u8,
        Err(_) => unreachable!(),
    }
}

// The bytes of servers in turn, and zeros after them.
fn put_bytes(shape: Shape, servers: &[usize]) -> [u8; 8]
    requires { Route shape [] servers.now }
    ensures { result ≡ encode shape servers.now }
{
    let mut bytes: [u8; 8] = [0; 8];
    for i in 0..servers.len() - 1 {
        bytes[i] = byte_to(shape, servers[i], servers[i + 1]);
    }
    bytes
}

// The first of 1, 2, 26, 3, 4 that refuses one of the servers.
fn servers_refusal(shape: Shape, servers: &[usize]) -> Result<(), Reason>
    ensures { told result ≡ servers_refusal shape servers.now }
{
    for server in servers {
        server_refusal(shape, *server)?;
    }
    Ok(())
}

// The first of 1, 2, 26, 3, 22, 4, 5 that refuses a list of servers.
fn write_refusal(shape: Shape, servers: &[usize]) -> Result<(), Reason>
    ensures { told result ≡ write_refusal shape servers.now }
{
    shape_refusal(shape)?;
    let count = servers.len();
    if count < 2 || 9 < count {
        return Err(Reason::ServerCount);
    }
    servers_refusal(shape, servers)?;
    if servers[0] == servers[count - 1] {
        return Err(Reason::SameEnds);
    }
    Ok(())
}

// The hop to a server from the last of a route. Refusals 23, 28, 29.
fn try_next(
    shape: Shape,
    met: &[usize],
    used: &[usize],
    from: usize,
    to: usize,
) -> Result<usize, Fault>
    requires { pair_refusal shape from to ≡ 0 }
    ensures { tried_as result ≡ tried_to shape met.now used.now from to }
{
    match level_between(shape, from, to) {
        Ok(Some(level)) => add_hop(met, used, to, switch_at(shape, level, from)),
        Ok(None) => Err(Fault::from(Reason::NotNeighbours)),
        Err(_) => unreachable!(),
    }
}

// The first refusal of the hops from each server to the next: 23, 28, 29.
fn on_the_way(shape: Shape, servers: &[usize]) -> Result<(), Refused>
    requires { write_refusal shape servers.now ≡ 0 }
    ensures { told_where result ≡ on_the_way shape servers.now }
{
    let mut used: [usize; 8] = [0; 8];
    for i in 0..servers.len() - 1 {
        let next = i + 1;
        used[i] = try_next(
            shape,
            &servers[..next],
            &used[..i],
            servers[i],
            servers[next],
        )
        .map_err(|fault| fault.at(next))?;
    }
    Ok(())
}

// The eight bytes of the route that meets these servers. Refusals 1, 2, 26, 3, 22, 4, 5, then 23, 28, 29 at a hop.
pub fn write_path(shape: Shape, servers: &[usize]) -> Result<[u8; 8], Refused>
    ensures { tells_where no_writing a_writing result ≡ write_answer shape servers.now }
{
    write_refusal(shape, servers)?;
    on_the_way(shape, servers)?;
    Ok(put_bytes(shape, servers))
}
