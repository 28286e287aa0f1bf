// Walking an array, hop after hop.
ghost use Rattle.std.specs.Prelude.{◌≡◌, ◌≤◌, length, drop, MatchResult};
ghost use Rattle.refusals.specs.Reasons.{told, tells_where};
ghost use Rattle.room.specs.Refusals.{server_refusal};
ghost use Rattle.path.specs.Answers.{array_refusal, no_walk, the_walk, walk_answer};
ghost use Rattle.path.specs.Inside.{Takes, Faults, no_way, the_way, ended_way, Blank, WalkLeaves};

use crate::faults::Fault;
use crate::hops::hop_from;
use crate::repeats::{add_hop, switch_at};
use crate::{Hop, Walked, Way};
use links::is_live;
use refusals::{Reason, Refused};
use room::{Shape, ends_refusal};

// The first of 1, 2, 26, 3, 4, 5, 7 that refuses the ends and the length of an array.
fn array_refusal(shape: Shape, source: usize, destination: usize, path: &[u8]) -> Result<(), Reason>
    ensures { told result ≡ array_refusal shape source destination path.now }
{
    ends_refusal(shape, source, destination)?;
    if path.len() == Shape::MOST_HOPS {
        return Ok(());
    }
    Err(Reason::List)
}

// A hop that a route takes, and the switch that it uses.
#[derive(Clone, Copy)]
struct Taken {
    hop: Hop,
    switch: usize,
}

// The hop by a byte from the server that a route has come to, after the servers met before it and the switches used.
// The server itself is not looked for: a hop never leads to where it starts. Refusals 8 to 11, 28, 29.
fn take_hop(
    shape: Shape,
    table: &[u8],
    met: &[usize],
    used: &[usize],
    server: usize,
    byte: usize,
) -> Result<Taken, Fault>
    requires { server_refusal shape server ≡ 0 }
    ensures { MatchResult result (Takes shape table.now met.now used.now server byte) (Faults shape table.now met.now used.now server byte) }
{
    let hop = hop_from(shape, server, byte)?;
    if is_live(table, hop.level, server, hop.next) {
        let switch = add_hop(met, used, hop.next, switch_at(shape, hop.level, server))?;
        return Ok(Taken { hop, switch });
    }
    Err(Fault::from(Reason::FailedLink))
}

// What is answered on arrival after these hops: the bytes after them are zero. Refusal 14.
fn arrived(path: &[u8], hops: usize, back: u64) -> Result<Way, Refused>
    requires { (hops ≤ 8) × (length path.now ≡ 8) }
    ensures { tells_where no_way the_way result ≡ ended_way hops back hops (drop hops path.now) }
{
    for i in hops..Shape::MOST_HOPS {
        if path[i] != 0 {
            return Err(Refused::at(Reason::AfterArrival, 1, i + 1));
        }
    }
    Ok(Way { hops, back })
}

// Walks an array from source to destination, and puts the servers met and the switches used in turn
// into two arrays of zeros, which may hold anything on a refusal. Refusals 1, 2, 26, 3, 4, 5, 7, then 8 to 11, 28,
// 29, 13, 14 at a hop.
pub(crate) fn walk_array(
    shape: Shape,
    table: &[u8],
    source: usize,
    destination: usize,
    path: &[u8],
    met: &mut [usize],
    used: &mut [usize],
) -> Result<Way, Refused>
    requires { Blank met.old used.old }
    ensures { WalkLeaves shape table.now source destination path.now (tells_where no_way the_way result) met.new used.new }
{
    array_refusal(shape, source, destination, path)?;
    met[0] = source;
    let mut back: u64 = 0;
    let mut server = source;
    for (i, byte) in path.iter().enumerate() {
        let seen = i + 1;
        let taken = take_hop(shape, table, &met[..i], &used[..i], server, *byte as usize).map_err(
            |fault| fault.at(seen),
        )?;
        let hop = taken.hop;
        back = 256 * back + (64 * hop.level + hop.old) as u64;
        used[i] = taken.switch;
        met[seen] = hop.next;
        if hop.next == destination {
            return arrived(path, seen, back);
        }
        server = hop.next;
    }
    Err(Refused::at(Reason::NotArrived, 1, Shape::MOST_HOPS))
}

// The servers met and the switches used by an array, over the live links of a table.
// Refusals 1, 2, 26, 3, 4, 5, 7, then 8 to 11, 28, 29, 13, 14 at a hop.
pub fn walk(
    shape: Shape,
    table: &[u8],
    source: usize,
    destination: usize,
    path: &[u8],
) -> Result<Walked, Refused>
    ensures { tells_where no_walk the_walk result ≡ walk_answer shape table.now source destination path.now }
{
    let mut servers: [usize; 9] = [0; 9];
    let mut switches: [usize; 8] = [0; 8];
    let way = walk_array(
        shape,
        table,
        source,
        destination,
        path,
        &mut servers[..],
        &mut switches[..],
    )?;
    Ok(Walked {
        count: way.hops + 1,
        servers,
        switches,
    })
}
