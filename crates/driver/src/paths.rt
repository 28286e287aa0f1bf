// Path bytes made, taken apart, hopped by, read, written and reversed; lists of arrays checked.
#![tactic(auto, using(crate::proofs::PathSmall::path_numbers))]

ghost use Rattle.std.specs.Prelude.{◌≡◌};
ghost use Rattle.path.specs.Answers.{hop_answer, read_answer, write_answer, reverse_answer};
ghost use Rattle.path.specs.Bytes.{byte_answer, parts_answer};
ghost use Rattle.verdict.specs.Checks.{check_answer};
ghost use Rattle.driver.specs.Rooms.{shape_in};
ghost use Rattle.driver.specs.Words.{word, number_word, parts_word, hop_word, reading_word, reading_left, writing_word, writing_left};

use crate::shapes::shape_in;
use crate::words::{number_word, refused_word, value_word};
use crate::{Answer, Room};

// The path byte of a level and a value. Refusals 1, 2, 26, 3, 20, 21.
pub fn bcube_path_byte(room: Room, level: usize, value: usize) -> Answer
    ensures { result ≡ number_word (byte_answer (shape_in room) level value) }
{
    number_word(path::byte_of(shape_in(room), level, value))
}

// The level and the value of a path byte, in one value: 256 times the level, plus the value.
// Refusals 1, 2, 26, 3, then 8, 9 at a hop.
pub fn bcube_path_byte_parts(room: Room, byte: usize) -> Answer
    ensures { result ≡ parts_word (parts_answer (shape_in room) byte) }
{
    match path::parts_of(shape_in(room), byte) {
        Ok(parts) => value_word(256 * parts.level + parts.value),
        Err(refused) => refused_word(refused),
    }
}

// The hop by a byte from a server, in one value: the next server, and 65,536 times the path byte of the way
// back, which is 64 times the level plus the value that the hop replaces. Refusals 1, 2, 26, 3, 4, then
// 8, 9, 10 at a hop.
pub fn bcube_hop_of(room: Room, server: usize, byte: usize) -> Answer
    ensures { result ≡ hop_word (hop_answer (shape_in room) server byte) }
{
    match path::hop_of(shape_in(room), server, byte) {
        Ok(hop) => value_word(hop.next + 65536 * (64 * hop.level + hop.old)),
        Err(refused) => refused_word(refused),
    }
}

// The servers that an array meets, source first, into nine places with zeros past them; the value is
// their count. Refusals 1, 2, 26, 3, 4, 5, 7, then 8, 9, 10, 28, 29, 13, 14 at a hop.
pub fn bcube_read(
    room: Room,
    source: usize,
    destination: usize,
    path: &[u8],
    servers: &mut [usize; 9],
) -> Answer
    ensures { (result ≡ reading_word (read_answer (shape_in room) source destination path.now)) × (servers.new ≡ reading_left servers.old (read_answer (shape_in room) source destination path.now)) }
{
    match path::read_path(shape_in(room), source, destination, path) {
        Ok(reading) => {
            let met = reading.servers;
            *servers = met;
            value_word(reading.count)
        }
        Err(refused) => refused_word(refused),
    }
}

// The path bytes of servers in turn, source first, into eight bytes with zeros past them.
// Refusals 1, 2, 26, 3, 22, 4, 5, then 23, 28, 29 at a hop.
pub fn bcube_write(room: Room, servers: &[usize], path: &mut [u8; 8]) -> Answer
    ensures { (result ≡ writing_word (write_answer (shape_in room) servers.now)) × (path.new ≡ writing_left path.old (write_answer (shape_in room) servers.now)) }
{
    match path::write_path(shape_in(room), servers) {
        Ok(bytes) => {
            *path = bytes;
            value_word(0)
        }
        Err(refused) => refused_word(refused),
    }
}

// The path bytes of the route backwards, from the destination, into eight bytes.
// Refusals 1, 2, 26, 3, 4, 5, 7, then 8, 9, 10, 28, 29, 13, 14 at a hop.
pub fn bcube_reverse(
    room: Room,
    source: usize,
    destination: usize,
    path: &[u8],
    reversed: &mut [u8; 8],
) -> Answer
    ensures { (result ≡ writing_word (reverse_answer (shape_in room) source destination path.now)) × (reversed.new ≡ writing_left reversed.old (reverse_answer (shape_in room) source destination path.now)) }
{
    match path::reverse_path(shape_in(room), source, destination, path) {
        Ok(bytes) => {
            *reversed = bytes;
            value_word(0)
        }
        Err(refused) => refused_word(refused),
    }
}

// Checks a list of arrays, one after another, as routes from source to destination over the live
// links of the table. Refusals 1, 2, 26, 3 to 7; 8 to 11, 28, 29, 13, 14 at a route and hop; 15 at two.
pub fn bcube_check(
    room: Room,
    source: usize,
    destination: usize,
    table: &[u8],
    list: &[u8],
) -> Answer
    ensures { result ≡ word (check_answer (shape_in room) table.now source destination list.now) 0 }
{
    match verdict::check_list(shape_in(room), table, source, destination, list) {
        Ok(()) => value_word(0),
        Err(refused) => refused_word(refused),
    }
}
