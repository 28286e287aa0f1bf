// Built routes, the alternate, and selection.
ghost use Rattle.std.specs.Prelude.{◌≡◌};
ghost use Rattle.build.specs.Answers.{build_answer};
ghost use Rattle.driver.specs.Rooms.{shape_in};
ghost use Rattle.driver.specs.Words.{building_word, building_left};
ghost use Rattle.driver.specs.Routes.{FoundWord, SelectedWord};

use crate::shapes::shape_in;
use crate::words::{reason_word, value_word};
use crate::{Answer, Room};

// The built routes of two servers, slots k down to 0, into 32 bytes with zeros past them; the value is
// their count. Refusals 1, 2, 26, 3, 4, 5.
pub fn bcube_build(room: Room, source: usize, destination: usize, routes: &mut [u8; 32]) -> Answer
    ensures { (result ≡ building_word (build_answer (shape_in room) source destination)) × (routes.new ≡ building_left routes.old (build_answer (shape_in room) source destination)) }
{
    match build::build_routes(shape_in(room), source, destination) {
        Ok(set) => {
            let bytes = set.bytes;
            *routes = bytes;
            value_word(set.count)
        }
        Err(reason) => reason_word(reason),
    }
}

// The alternate, the least route over live links, into eight bytes; the value is its hops, 0 with zeros
// where there is no route. Refusals 1, 2, 26, 3, 4, 5, 6.
pub fn bcube_find(
    room: Room,
    source: usize,
    destination: usize,
    table: &[u8],
    path: &mut [u8; 8],
) -> Answer
    ensures { FoundWord (shape_in room) table.now source destination result path.old path.new }
{
    match finder::find_route(shape_in(room), table, source, destination) {
        Ok(Some(found)) => {
            let bytes = found.bytes;
            *path = bytes;
            value_word(found.hops)
        }
        Ok(None) => {
            *path = [0; 8];
            value_word(0)
        }
        Err(reason) => reason_word(reason),
    }
}

// The routes selected around failed links, in slot order, into 32 bytes with zeros past them; the value
// is their count. Refusals 1, 2, 26, 3, 4, 5, 6, 16.
pub fn bcube_select(
    room: Room,
    source: usize,
    destination: usize,
    table: &[u8],
    routes: &mut [u8; 32],
) -> Answer
    ensures { SelectedWord (shape_in room) table.now source destination result routes.old routes.new }
{
    match select::select_routes(shape_in(room), table, source, destination) {
        Ok(set) => {
            let bytes = set.bytes;
            *routes = bytes;
            value_word(set.count)
        }
        Err(reason) => reason_word(reason),
    }
}
