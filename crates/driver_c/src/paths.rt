// Path bytes made, taken apart, hopped by, read, written and reversed; lists of arrays checked.
ghost use Rattle.std.specs.Prelude.{◌≡◌};
ghost use Rattle.path.specs.Answers.{hop_answer, read_answer, write_answer, reverse_answer};
ghost use Rattle.path.specs.Bytes.{byte_answer, parts_answer};
ghost use Rattle.verdict.specs.Checks.{check_answer};
ghost use Rattle.driver.specs.Rooms.{shape_in};
ghost use Rattle.driver.specs.Words.{word, number_word, parts_word, hop_word, reading_word, reading_left, writing_word, writing_left};

use driver::{Answer, Room};

// The path byte of a level and a value. Refusals 1, 2, 26, 3, 20, 21.
#[unsafe(no_mangle)]
pub extern "C" fn bcube_path_byte(room: Room, level: usize, value: usize) -> Answer
    ensures { result ≡ number_word (byte_answer (shape_in room) level value) }
{
    driver::bcube_path_byte(room, level, value)
}

// The level and the value of a path byte, in one value: 256 times the level, plus the value.
// Refusals 1, 2, 26, 3, then 8, 9 at a hop.
#[unsafe(no_mangle)]
pub extern "C" fn bcube_path_byte_parts(room: Room, byte: usize) -> Answer
    ensures { result ≡ parts_word (parts_answer (shape_in room) byte) }
{
    driver::bcube_path_byte_parts(room, byte)
}

// The hop by a byte from a server, in one value: the next server, and 65,536 times the path byte of the way
// back, which is 64 times the level plus the value that the hop replaces. Refusals 1, 2, 26, 3, 4, then
// 8, 9, 10 at a hop.
#[unsafe(no_mangle)]
pub extern "C" fn bcube_hop_of(room: Room, server: usize, byte: usize) -> Answer
    ensures { result ≡ hop_word (hop_answer (shape_in room) server byte) }
{
    driver::bcube_hop_of(room, server, byte)
}

// The servers that an array meets, source first, into nine places with zeros past them; the value is
// their count. Refusals 1, 2, 26, 3, 4, 5, 7, then 8, 9, 10, 28, 29, 13, 14 at a hop.
#[unsafe(no_mangle)]
pub extern "C" fn bcube_read(
    room: Room,
    source: usize,
    destination: usize,
    path: &[u8],
    servers: &mut [usize; 9],
) -> Answer
    ensures { (result ≡ reading_word (read_answer (shape_in room) source destination path.now)) × (servers.new ≡ reading_left servers.old (read_answer (shape_in room) source destination path.now)) }
{
    driver::bcube_read(room, source, destination, path, servers)
}

// The path bytes of servers in turn, source first, into eight bytes with zeros past them.
// Refusals 1, 2, 26, 3, 22, 4, 5, then 23, 28, 29 at a hop.
#[unsafe(no_mangle)]
pub extern "C" fn bcube_write(room: Room, servers: &[usize], path: &mut [u8; 8]) -> Answer
    ensures { (result ≡ writing_word (write_answer (shape_in room) servers.now)) × (path.new ≡ writing_left path.old (write_answer (shape_in room) servers.now)) }
{
    driver::bcube_write(room, servers, path)
}

// The path bytes of the route backwards, from the destination, into eight bytes.
// Refusals 1, 2, 26, 3, 4, 5, 7, then 8, 9, 10, 28, 29, 13, 14 at a hop.
#[unsafe(no_mangle)]
pub extern "C" fn bcube_reverse(
    room: Room,
    source: usize,
    destination: usize,
    path: &[u8],
    reversed: &mut [u8; 8],
) -> Answer
    ensures { (result ≡ writing_word (reverse_answer (shape_in room) source destination path.now)) × (reversed.new ≡ writing_left reversed.old (reverse_answer (shape_in room) source destination path.now)) }
{
    driver::bcube_reverse(room, source, destination, path, reversed)
}

// Checks a list of arrays, one after another, as routes from source to destination over the live
// links of the table. Refusals 1, 2, 26, 3 to 7; 8 to 11, 28, 29, 13, 14 at a route and hop; 15 at two.
#[unsafe(no_mangle)]
pub extern "C" fn bcube_check(
    room: Room,
    source: usize,
    destination: usize,
    table: &[u8],
    list: &[u8],
) -> Answer
    ensures { result ≡ word (check_answer (shape_in room) table.now source destination list.now) 0 }
{
    driver::bcube_check(room, source, destination, table, list)
}
