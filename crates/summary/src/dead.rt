// The first dead switch: the first, by level and then by number, all of whose servers' links there are failed.
ghost use Rattle.std.specs.Prelude.{◌≡◌};
ghost use Rattle.refusals.specs.Reasons.{tells};
ghost use Rattle.summary.specs.Answers.{none_dead, the_dead, dead_answer};

use crate::entries::Entries;
use crate::tests::summary_refusal;
use refusals::Reason;
use room::{Shape, Switch};

// The first dead switch of a room, or that there is none. Refusals 1, 2, 26, 3, 6, 30.
pub fn dead_switch(shape: Shape, table: &[u8], summary: &[u8]) -> Result<Option<Switch>, Reason>
    ensures { tells none_dead the_dead result ≡ dead_answer shape table.now summary.now }
{
    summary_refusal(shape, table, summary)?;
    Ok(Entries { shape, summary }.first_dead())
}
