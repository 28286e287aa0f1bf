// The summary beside the failed-link table: the first dead switch, and the count afresh.
ghost use Rattle.std.specs.Prelude.{◌≡◌};
ghost use Rattle.summary.specs.Answers.{dead_answer, fresh_answer, fresh_summary};
ghost use Rattle.driver.specs.Rooms.{shape_in};
ghost use Rattle.driver.specs.Words.{word, dead_word};

use crate::shapes::shape_in;
use crate::words::{done_word, reason_word, value_word};
use crate::{Answer, Room};

// The first dead switch: 16,777,216 where one is found, 65,536 times its level, and its number; 0 where there is none.
// Refusals 1, 2, 26, 3, 6, 30.
pub fn bcube_dead_switch(room: Room, table: &[u8], summary: &[u8]) -> Answer
    ensures { result ≡ dead_word (dead_answer (shape_in room) table.now summary.now) }
{
    match summary::dead_switch(shape_in(room), table, summary) {
        Ok(Some(switch)) => value_word(16777216 + 65536 * switch.level + switch.number),
        Ok(None) => value_word(0),
        Err(reason) => reason_word(reason),
    }
}

// Counts the summary of a table afresh. Refusals 1, 2, 26, 3, 6, 30 (its length alone); the value is 0.
pub fn bcube_summarize(room: Room, table: &[u8], summary: &mut [u8]) -> Answer
    ensures { (result ≡ word (fresh_answer (shape_in room) table.now summary.old) 0) × (summary.new ≡ fresh_summary (shape_in room) table.now summary.old) }
{
    done_word(summary::summarize(shape_in(room), table, summary))
}
