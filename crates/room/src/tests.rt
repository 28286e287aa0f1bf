// What is tested before a call answers: each `.._refusal` gives the reason of the first refusal that
// applies.
ghost use Rattle.std.specs.Prelude.{◌≡◌, true, false, not, ◌&&◌, ltb, eqb};
ghost use Rattle.refusals.specs.Reasons.{number_of, told};
ghost use Rattle.room.specs.Refusals.{shape_refusal, level_refusal, server_refusal, pair_refusal, ends_refusal, link_refusal, value_refusal, place_bound, places_fit, places_refusal};

use crate::Shape;
use crate::shapes::{digit_bound, server_count};
use refusals::Reason;

// Whether a room can have this shape, in one go: where the fill is right, so is the least n.
fn is_room(shape: Shape) -> bool
    ensures { result ≡ eqb (shape_refusal shape) 0 }
{
    shape.n <= Shape::MOST_PORTS
        && (shape.k <= Shape::MOST_LEVEL
            && (Shape::LEAST_FILL <= shape.m
                && (shape.m <= shape.n && server_count(shape) <= Shape::MOST_SERVERS)))
}

// The first of 1, 2, 26, 3 that refuses a shape that no room has.
fn first_refusal(shape: Shape) -> Reason
    requires { eqb (shape_refusal shape) 0 ≡ false }
    ensures { number_of result ≡ shape_refusal shape }
{
    if shape.n < Shape::FEWEST_PORTS {
        return Reason::Ports;
    }
    if Shape::MOST_PORTS < shape.n {
        return Reason::Ports;
    }
    if Shape::MOST_LEVEL < shape.k {
        return Reason::Levels;
    }
    if shape.m < Shape::LEAST_FILL {
        return Reason::Fill;
    }
    if shape.n < shape.m {
        return Reason::Fill;
    }
    Reason::Servers
}

// The first of 1, 2, 26, 3 that refuses a shape.
pub fn shape_refusal(shape: Shape) -> Result<(), Reason>
    ensures { told result ≡ shape_refusal shape }
{
    if is_room(shape) {
        return Ok(());
    }
    Err(first_refusal(shape))
}

// The first of 1, 2, 26, 3, 20 that refuses a level of a room.
pub(crate) fn level_refusal(shape: Shape, level: usize) -> Result<(), Reason>
    ensures { told result ≡ level_refusal shape level }
{
    shape_refusal(shape)?;
    if level <= shape.k {
        return Ok(());
    }
    Err(Reason::Level)
}

// The first of 1, 2, 26, 3, 4 that refuses a server of a room.
pub fn server_refusal(shape: Shape, server: usize) -> Result<(), Reason>
    ensures { told result ≡ server_refusal shape server }
{
    shape_refusal(shape)?;
    if server < server_count(shape) {
        return Ok(());
    }
    Err(Reason::Address)
}

// The first of 1, 2, 26, 3, 4 that refuses one of two servers of a room.
pub fn pair_refusal(shape: Shape, one: usize, other: usize) -> Result<(), Reason>
    ensures { told result ≡ pair_refusal shape one other }
{
    server_refusal(shape, one)?;
    if other < server_count(shape) {
        return Ok(());
    }
    Err(Reason::Address)
}

// Whether two numbers are two of so many servers.
fn are_ends(count: usize, source: usize, destination: usize) -> bool
    ensures { result ≡ (ltb source count && (ltb destination count && not (eqb source destination))) }
{
    source < count && (destination < count && source != destination)
}

// The first of 1, 2, 26, 3, 4, 5 that refuses a source and a destination.
pub fn ends_refusal(shape: Shape, source: usize, destination: usize) -> Result<(), Reason>
    ensures { told result ≡ ends_refusal shape source destination }
{
    shape_refusal(shape)?;
    if are_ends(server_count(shape), source, destination) {
        return Ok(());
    }
    pair_refusal(shape, source, destination)?;
    Err(Reason::SameEnds)
}

// The first of 1, 2, 26, 3, 4, 20 that refuses a link of a room.
pub fn link_refusal(shape: Shape, server: usize, level: usize) -> Result<(), Reason>
    ensures { told result ≡ link_refusal shape server level }
{
    server_refusal(shape, server)?;
    if level <= shape.k {
        return Ok(());
    }
    Err(Reason::Level)
}

// The first of 1, 2, 26, 3, 4, 20, 21 that refuses a value for a digit of a server.
pub(crate) fn value_refusal(
    shape: Shape,
    server: usize,
    level: usize,
    value: usize,
) -> Result<(), Reason>
    ensures { told result ≡ value_refusal shape server level value }
{
    link_refusal(shape, server, level)?;
    if value < digit_bound(shape, level) {
        return Ok(());
    }
    Err(Reason::Digit)
}

// What a place of four holds is below this: above k only 0.
#[tactic(auto, unfolding(crate::specs::Refusals::place_bound))]
fn place_bound(shape: Shape, place: usize) -> usize
    ensures { result ≡ place_bound shape place }
{
    if place <= shape.k {
        return digit_bound(shape, place);
    }
    1
}

// Whether each of the four places holds what it may.
fn places_fit(shape: Shape, places: [usize; 4]) -> bool
    ensures { result ≡ places_fit shape 0 places }
{
    for (i, held) in places.iter().enumerate() {
        if place_bound(shape, i) <= *held {
            return false;
        }
    }
    true
}

// The first of 1, 2, 26, 3, 21 that refuses the places of an address.
pub(crate) fn places_refusal(shape: Shape, places: [usize; 4]) -> Result<(), Reason>
    ensures { told result ≡ places_refusal shape places }
{
    shape_refusal(shape)?;
    if places_fit(shape, places) {
        return Ok(());
    }
    Err(Reason::Digit)
}
