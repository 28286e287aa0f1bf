// The summary beside the failed-link table: an entry of one byte for each switch, level after level and by
// number, which counts the servers that hang on the switch by a failed link. Marking and clearing carry it
// along, and it says which switch is dead. Every call takes every input.
#![tactic(auto)]

// changes.rt: one link changed, and the entry of its switch with it
mod changes;
// counts.rt: the links at a switch counted
mod counts;
// dead.rt: the first dead switch
mod dead;
// entries.rt: a summary with an entry for each switch, and what its entries say
mod entries;
// fresh.rt: the summary counted afresh
mod fresh;
// marks.rt: a link, or all links of a server, marked and cleared
mod marks;
// order.rt: where the entry of each switch stands
mod order;
// tests.rt: what is tested before a call answers
mod tests;

pub use dead::dead_switch;
pub use fresh::summarize;
pub use marks::{clear_link, clear_server, mark_link, mark_server};
