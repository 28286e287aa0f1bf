// Whether there is such a room; addresses, switches and neighbours.
ghost use Rattle.std.specs.Prelude.{◌≡◌, [], ◌∷◌};
ghost use Rattle.refusals.specs.Refusals.{plain};
ghost use Rattle.room.specs.Refusals.{shape_refusal};
ghost use Rattle.room.specs.Answers.{servers_answer, bound_answer, digits_answer, digit_answer, address_answer, switch_answer, neighbour_answer, between_answer};
ghost use Rattle.room.specs.Wiring.{switches_answer, server_at_answer};
ghost use Rattle.driver.specs.Rooms.{shape_in};
ghost use Rattle.driver.specs.Words.{word, number_word, digits_word, digits_left, switch_word, between_word};

use driver::{Answer, Room};

// Whether a room can have this shape. Refusals 1, 2, 26, 3; the value is 0.
#[unsafe(no_mangle)]
pub extern "C" fn bcube_shape(room: Room) -> Answer
    ensures { result ≡ word (plain (shape_refusal (shape_in room))) 0 }
{
    driver::bcube_shape(room)
}

// The number of servers of a room. Refusals 1, 2, 26, 3.
#[unsafe(no_mangle)]
pub extern "C" fn bcube_servers(room: Room) -> Answer
    ensures { result ≡ number_word (servers_answer (shape_in room)) }
{
    driver::bcube_servers(room)
}

// What the digit of a level is below. Refusals 1, 2, 26, 3, 20.
#[unsafe(no_mangle)]
pub extern "C" fn bcube_bound(room: Room, level: usize) -> Answer
    ensures { result ≡ number_word (bound_answer (shape_in room) level) }
{
    driver::bcube_bound(room, level)
}

// How many switches a level has. Refusals 1, 2, 26, 3, 20.
#[unsafe(no_mangle)]
pub extern "C" fn bcube_switches(room: Room, level: usize) -> Answer
    ensures { result ≡ number_word (switches_answer (shape_in room) level) }
{
    driver::bcube_switches(room, level)
}

// The digits of a server, digit 0 first and zeros above k. Refusals 1, 2, 26, 3, 4; the value is 0.
#[unsafe(no_mangle)]
pub extern "C" fn bcube_digits(room: Room, server: usize, digits: &mut [usize; 4]) -> Answer
    ensures { (result ≡ digits_word (digits_answer (shape_in room) server)) × (digits.new ≡ digits_left digits.old (digits_answer (shape_in room) server)) }
{
    driver::bcube_digits(room, server, digits)
}

// The digit of a server at a level. Refusals 1, 2, 26, 3, 4, 20.
#[unsafe(no_mangle)]
pub extern "C" fn bcube_digit(room: Room, server: usize, level: usize) -> Answer
    ensures { result ≡ number_word (digit_answer (shape_in room) server level) }
{
    driver::bcube_digit(room, server, level)
}

// The server that has these digits, digit 0 first and zeros above k. Refusals 1, 2, 26, 3, 21.
#[unsafe(no_mangle)]
pub extern "C" fn bcube_address(room: Room, d0: usize, d1: usize, d2: usize, d3: usize) -> Answer
    ensures { result ≡ number_word (address_answer (shape_in room) (d0 ∷ d1 ∷ d2 ∷ d3 ∷ [])) }
{
    driver::bcube_address(room, d0, d1, d2, d3)
}

// The number of the switch of a server at a level. Refusals 1, 2, 26, 3, 4, 20.
#[unsafe(no_mangle)]
pub extern "C" fn bcube_switch(room: Room, server: usize, level: usize) -> Answer
    ensures { result ≡ switch_word (switch_answer (shape_in room) server level) }
{
    driver::bcube_switch(room, server, level)
}

// The server at a port of the switch of this number at a level. Refusals 1, 2, 26, 3, 20, 21.
#[unsafe(no_mangle)]
pub extern "C" fn bcube_server_at(room: Room, level: usize, number: usize, port: usize) -> Answer
    ensures { result ≡ number_word (server_at_answer (shape_in room) level number port) }
{
    driver::bcube_server_at(room, level, number, port)
}

// The neighbour of a server at a level that has the value there. Refusals 1, 2, 26, 3, 4, 20, 21.
#[unsafe(no_mangle)]
pub extern "C" fn bcube_neighbour(room: Room, server: usize, level: usize, value: usize) -> Answer
    ensures { result ≡ number_word (neighbour_answer (shape_in room) server level value) }
{
    driver::bcube_neighbour(room, server, level, value)
}

// The level at which two servers are neighbours, counted from 1, or 0 where they are not.
// Refusals 1, 2, 26, 3, 4.
#[unsafe(no_mangle)]
pub extern "C" fn bcube_between(room: Room, one: usize, other: usize) -> Answer
    ensures { result ≡ between_word (between_answer (shape_in room) one other) }
{
    driver::bcube_between(room, one, other)
}
