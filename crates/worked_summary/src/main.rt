// The worked numbers of the summary beside the failed-link table, and every refusal's edge, one line a question.
#![tactic(auto)]

// large.rt: the rooms with the most switches, their buffers by their lengths alone
mod large;
// marks.rt: links, and servers whole, marked and cleared
mod marks;
// refused.rt: every refusal's edge, and what is not refused
mod refused;
// rows.rt: one question each
mod rows;
// tables.rt: tables counted afresh, and their first dead switch
mod tables;

use std::io;

fn main(rt: HostRuntime) -> io::Result<()> {
    marks::half_filled(&rt)?;
    marks::half_filled_wrong(&rt)?;
    marks::four(&rt)?;
    marks::eight(&rt)?;
    marks::levels(&rt)?;
    tables::half_filled(&rt)?;
    tables::full(&rt)?;
    tables::levels(&rt)?;
    refused::order(&rt)?;
    refused::lengths(&rt)?;
    refused::tables(&rt)?;
    refused::entries(&rt)?;
    refused::elsewhere(&rt)?;
    large::lengths(&rt)
}
