// Picking a usable route from a fresh list and a kept one.
ghost use Rattle.std.specs.Prelude.{◌≡◌};
ghost use Rattle.pick.specs.Places.{list_number, place_answer};
ghost use Rattle.driver.specs.Rooms.{shape_in};
ghost use Rattle.driver.specs.Words.{place_word};

use crate::shapes::shape_in;
use crate::words::{reason_word, value_word};
use crate::{Answer, Room};
use pick::List;

// The number of a list.
fn list_number(list: List) -> usize
    ensures { result ≡ list_number list }
{
    list as usize
}

// Which list holds the first usable route, and at which place: the value is 256 times the list, 1 the
// fresh and 2 the kept one, plus the place, counted from 1. Refusals 1, 2, 26, 3 to 7, 16.
pub fn bcube_pick(
    room: Room,
    source: usize,
    destination: usize,
    table: &[u8],
    fresh: &[u8],
    kept: &[u8],
) -> Answer
    ensures { result ≡ place_word (place_answer (shape_in room) table.now source destination fresh.now kept.now) }
{
    match pick::pick_place(shape_in(room), table, source, destination, fresh, kept) {
        Ok(place) => value_word(256 * list_number(place.list) + place.route),
        Err(reason) => reason_word(reason),
    }
}
