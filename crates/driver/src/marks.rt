// The failed-link table and its summary: a link asked for, marked, cleared; all links of a server marked, cleared.
ghost use Rattle.std.specs.Prelude.{◌≡◌, true, false};
ghost use Rattle.links.specs.Answers.{failed_answer};
ghost use Rattle.summary.specs.Answers.{link_answer, link_table, link_summary, server_answer, server_table, server_summary};
ghost use Rattle.driver.specs.Rooms.{shape_in};
ghost use Rattle.driver.specs.Words.{word, asked_word};

use crate::shapes::shape_in;
use crate::words::{done_word, reason_word, value_word};
use crate::{Answer, Room};

// 1 where the link of a server at a level is failed, else 0. Refusals 1, 2, 26, 3, 4, 20, 6.
pub fn bcube_failed_link(room: Room, server: usize, level: usize, table: &[u8]) -> Answer
    ensures { result ≡ asked_word (failed_answer (shape_in room) table.now server level) }
{
    match links::failed_link(shape_in(room), table, server, level) {
        Ok(true) => value_word(1),
        Ok(false) => value_word(0),
        Err(reason) => reason_word(reason),
    }
}

// Marks the link of a server at a level as failed, and its switch counts it. Refusals 1, 2, 26, 3, 4, 20, 6, 30;
// the value is 0.
pub fn bcube_mark(
    room: Room,
    server: usize,
    level: usize,
    table: &mut [u8],
    summary: &mut [u8],
) -> Answer
    ensures { (result ≡ word (link_answer (shape_in room) table.old summary.old server level) 0) × (table.new ≡ link_table true (shape_in room) table.old summary.old server level) × (summary.new ≡ link_summary true (shape_in room) table.old summary.old server level) }
{
    done_word(summary::mark_link(shape_in(room), table, summary, server, level))
}

// Clears the link of a server at a level, and its switch counts it no more. Refusals 1, 2, 26, 3, 4, 20, 6, 30;
// the value is 0.
pub fn bcube_clear(
    room: Room,
    server: usize,
    level: usize,
    table: &mut [u8],
    summary: &mut [u8],
) -> Answer
    ensures { (result ≡ word (link_answer (shape_in room) table.old summary.old server level) 0) × (table.new ≡ link_table false (shape_in room) table.old summary.old server level) × (summary.new ≡ link_summary false (shape_in room) table.old summary.old server level) }
{
    done_word(summary::clear_link(shape_in(room), table, summary, server, level))
}

// Marks all links of a server as failed, and its switches count them. Refusals 1, 2, 26, 3, 4, 6, 30; the value is 0.
pub fn bcube_mark_all(room: Room, server: usize, table: &mut [u8], summary: &mut [u8]) -> Answer
    ensures { (result ≡ word (server_answer (shape_in room) table.old summary.old server) 0) × (table.new ≡ server_table true (shape_in room) table.old summary.old server) × (summary.new ≡ server_summary true (shape_in room) table.old summary.old server) }
{
    done_word(summary::mark_server(shape_in(room), table, summary, server))
}

// Clears all links of a server, and its switches count none of them. Refusals 1, 2, 26, 3, 4, 6, 30; the value is 0.
pub fn bcube_clear_all(room: Room, server: usize, table: &mut [u8], summary: &mut [u8]) -> Answer
    ensures { (result ≡ word (server_answer (shape_in room) table.old summary.old server) 0) × (table.new ≡ server_table false (shape_in room) table.old summary.old server) × (summary.new ≡ server_summary false (shape_in room) table.old summary.old server) }
{
    done_word(summary::clear_server(shape_in(room), table, summary, server))
}
