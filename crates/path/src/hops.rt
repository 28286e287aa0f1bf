// One hop, by its byte.
ghost use Rattle.std.specs.Prelude.{◌≡◌, ◌/◌, ◌%◌, ◌<◌, not, ◌&&◌, ltb, leb, eqb};
ghost use Rattle.refusals.specs.Reasons.{number_of, tells, tells_where};
ghost use Rattle.room.specs.Refusals.{server_refusal};
ghost use Rattle.path.specs.Routes.{level_of, value_of};
ghost use Rattle.path.specs.Answers.{no_hop, stops_hop, the_hop, hop_from, hop_answer};
ghost use Rattle.path.specs.Inside.{hop_fault};

use crate::Hop;
use refusals::{Reason, Refused};
use room::{Shape, digit_bound, power, server_refusal};

// The level that a path byte names; of a number that is no byte one above 3.
pub fn level_of(byte: usize) -> usize
    ensures { result ≡ level_of byte }
{
    byte / 64
}

// The value that a path byte names.
pub fn value_of(byte: usize) -> usize
    ensures { result ≡ value_of byte }
{
    byte % 64
}

// The digit of a server at the level of this weight, by divisions of 32 bits.
fn digit_by(server: u32, weight: u32, n: u32) -> usize
    requires { (0 < weight) × (0 < n) }
    ensures { result ≡ server / weight % n }
{
    (server / weight % n) as usize
}

// Whether a level is at most k, a value below its bound, and the own value another, in one go.
fn is_hop(k: usize, level: usize, value: usize, bound: usize, own: usize) -> bool
    ensures { result ≡ (leb level k && (ltb value bound && not (eqb own value))) }
{
    level <= k && (value < bound && own != value)
}

// Why a level and a value that are no hop are none: 8, 9, else 10.
#[tactic(auto, using(crate::proofs::HopLaws::hop_faults))]
fn hop_fault(k: usize, level: usize, value: usize, bound: usize) -> Reason
    ensures { number_of result ≡ hop_fault k level value bound }
{
    if k < level {
        return Reason::Position;
    }
    if bound <= value {
        return Reason::Value;
    }
    Reason::NoChange
}

// The hop by a byte from a server of the room, by one power of n. Refusals 8, 9, 10.
#[tactic(auto, using(crate::proofs::HopLaws::hop_sizes))]
pub(crate) fn hop_from(shape: Shape, server: usize, byte: usize) -> Result<Hop, Reason>
    requires { server_refusal shape server ≡ 0 }
    ensures { tells stops_hop the_hop result ≡ hop_from shape server byte }
{
    let level = level_of(byte);
    let value = value_of(byte);
    let bound = digit_bound(shape, level);
    // what is no byte names a level above 3, which is refused, whatever power stands for it
    let weight = power(shape.n, level % 4);
    let own = digit_by(server as u32, weight as u32, shape.n as u32);
    if is_hop(shape.k, level, value, bound, own) {
        return Ok(Hop {
            next: server - own * weight + value * weight,
            level,
            old: own,
        });
    }
    Err(hop_fault(shape.k, level, value, bound))
}

// The hop by a byte from a server. Refusals 1, 2, 26, 3, 4; then, as at hop 1 of route 1, 8, 9, 10.
#[inline]
pub fn hop_of(shape: Shape, server: usize, byte: usize) -> Result<Hop, Refused>
    ensures { tells_where no_hop the_hop result ≡ hop_answer shape server byte }
{
    server_refusal(shape, server)?;
    hop_from(shape, server, byte).map_err(|reason| Refused::at(reason, 1, 1))
}
