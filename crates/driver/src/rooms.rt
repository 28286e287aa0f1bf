// Whether there is such a room; addresses, switches and neighbours.
#![tactic(auto, using(crate::proofs::RoomSmall::room_numbers))]

ghost use Rattle.std.specs.Prelude.{◌≡◌, [], ◌∷◌};
ghost use Rattle.refusals.specs.Refusals.{plain};
ghost use Rattle.room.specs.Refusals.{shape_refusal};
ghost use Rattle.room.specs.Answers.{servers_answer, bound_answer, digits_answer, digit_answer, address_answer, switch_answer, neighbour_answer, between_answer};
ghost use Rattle.room.specs.Wiring.{switches_answer, server_at_answer};
ghost use Rattle.driver.specs.Rooms.{shape_in};
ghost use Rattle.driver.specs.Words.{word, number_word, digits_word, digits_left, switch_word, between_word};

use crate::shapes::shape_in;
use crate::words::{done_word, number_word, reason_word, value_word};
use crate::{Answer, Room};

// Whether a room can have this shape. Refusals 1, 2, 26, 3; the value is 0.
pub fn bcube_shape(room: Room) -> Answer
    ensures { result ≡ word (plain (shape_refusal (shape_in room))) 0 }
{
    done_word(room::shape_refusal(shape_in(room)))
}

// The number of servers of a room. Refusals 1, 2, 26, 3.
pub fn bcube_servers(room: Room) -> Answer
    ensures { result ≡ number_word (servers_answer (shape_in room)) }
{
    number_word(room::servers_of(shape_in(room)))
}

// What the digit of a level is below. Refusals 1, 2, 26, 3, 20.
pub fn bcube_bound(room: Room, level: usize) -> Answer
    ensures { result ≡ number_word (bound_answer (shape_in room) level) }
{
    number_word(room::bound_of(shape_in(room), level))
}

// How many switches a level has. Refusals 1, 2, 26, 3, 20.
pub fn bcube_switches(room: Room, level: usize) -> Answer
    ensures { result ≡ number_word (switches_answer (shape_in room) level) }
{
    number_word(room::switches_of(shape_in(room), level))
}

// The digits of a server, digit 0 first and zeros above k. Refusals 1, 2, 26, 3, 4; the value is 0.
pub fn bcube_digits(room: Room, server: usize, digits: &mut [usize; 4]) -> Answer
    ensures { (result ≡ digits_word (digits_answer (shape_in room) server)) × (digits.new ≡ digits_left digits.old (digits_answer (shape_in room) server)) }
{
    match room::digits_of(shape_in(room), server) {
        Ok(places) => {
            *digits = places;
            value_word(0)
        }
        Err(reason) => reason_word(reason),
    }
}

// The digit of a server at a level. Refusals 1, 2, 26, 3, 4, 20.
pub fn bcube_digit(room: Room, server: usize, level: usize) -> Answer
    ensures { result ≡ number_word (digit_answer (shape_in room) server level) }
{
    number_word(room::digit_of(shape_in(room), server, level))
}

// The server that has these digits, digit 0 first and zeros above k. Refusals 1, 2, 26, 3, 21.
pub fn bcube_address(room: Room, d0: usize, d1: usize, d2: usize, d3: usize) -> Answer
    ensures { result ≡ number_word (address_answer (shape_in room) (d0 ∷ d1 ∷ d2 ∷ d3 ∷ [])) }
{
    let places = [d0, d1, d2, d3];
    number_word(room::address_of(shape_in(room), places))
}

// The number of the switch of a server at a level. Refusals 1, 2, 26, 3, 4, 20.
pub fn bcube_switch(room: Room, server: usize, level: usize) -> Answer
    ensures { result ≡ switch_word (switch_answer (shape_in room) server level) }
{
    match room::switch_of(shape_in(room), server, level) {
        Ok(switch) => value_word(switch.number),
        Err(reason) => reason_word(reason),
    }
}

// The server at a port of the switch of this number at a level. Refusals 1, 2, 26, 3, 20, 21.
pub fn bcube_server_at(room: Room, level: usize, number: usize, port: usize) -> Answer
    ensures { result ≡ number_word (server_at_answer (shape_in room) level number port) }
{
    number_word(room::server_at(shape_in(room), level, number, port))
}

// The neighbour of a server at a level that has the value there. Refusals 1, 2, 26, 3, 4, 20, 21.
pub fn bcube_neighbour(room: Room, server: usize, level: usize, value: usize) -> Answer
    ensures { result ≡ number_word (neighbour_answer (shape_in room) server level value) }
{
    number_word(room::neighbour_of(shape_in(room), server, level, value))
}

// The level at which two servers are neighbours, counted from 1, or 0 where they are not.
// Refusals 1, 2, 26, 3, 4.
pub fn bcube_between(room: Room, one: usize, other: usize) -> Answer
    ensures { result ≡ between_word (between_answer (shape_in room) one other) }
{
    match room::level_between(shape_in(room), one, other) {
        Ok(Some(level)) => value_word(level + 1),
        Ok(None) => value_word(0),
        Err(reason) => reason_word(reason),
    }
}
