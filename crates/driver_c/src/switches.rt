// The summary beside the failed-link table: the first dead switch, and the count afresh.
ghost use Rattle.std.specs.Prelude.{◌≡◌};
ghost use Rattle.summary.specs.Answers.{dead_answer, fresh_answer, fresh_summary};
ghost use Rattle.driver.specs.Rooms.{shape_in};
ghost use Rattle.driver.specs.Words.{word, dead_word};

use driver::{Answer, Room};

// The first dead switch: 16,777,216 where one is found, 65,536 times its level, and its number; 0 where there is none.
// Refusals 1, 2, 26, 3, 6, 30.
#[unsafe(no_mangle)]
pub extern "C" fn bcube_dead_switch(room: Room, table: &[u8], summary: &[u8]) -> Answer
    ensures { result ≡ dead_word (dead_answer (shape_in room) table.now summary.now) }
{
    driver::bcube_dead_switch(room, table, summary)
}

// Counts the summary of a table afresh. Refusals 1, 2, 26, 3, 6, 30 (its length alone); the value is 0.
#[unsafe(no_mangle)]
pub extern "C" fn bcube_summarize(room: Room, table: &[u8], summary: &mut [u8]) -> Answer
    ensures { (result ≡ word (fresh_answer (shape_in room) table.now summary.old) 0) × (summary.new ≡ fresh_summary (shape_in room) table.now summary.old) }
{
    driver::bcube_summarize(room, table, summary)
}
