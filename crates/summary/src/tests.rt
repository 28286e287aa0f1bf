// What is tested before a call answers: each `.._refusal` gives the reason of the first refusal that
// applies.
ghost use Rattle.std.specs.Prelude.{◌≡◌};
ghost use Rattle.refusals.specs.Reasons.{told};
ghost use Rattle.room.specs.Refusals.{shape_refusal};
ghost use Rattle.summary.specs.Refusals.{has_entries, counted_link_refusal, counted_server_refusal, summary_refusal, entries_refusal};

use crate::entries::Entries;
use crate::order::Order;
use links::{table_link_refusal, table_refusal, table_server_refusal};
use refusals::Reason;
use room::Shape;

// Whether a summary has an entry for each switch.
fn has_entries(shape: Shape, summary: &[u8]) -> bool
    requires { shape_refusal shape ≡ 0 }
    ensures { result ≡ has_entries shape summary.now }
{
    summary.len() == Order::of(shape).total()
}

// The first of 1, 2, 26, 3, 4, 20, 6, 30 that refuses to mark or clear a link.
pub(crate) fn counted_link_refusal(
    shape: Shape,
    table: &[u8],
    summary: &[u8],
    server: usize,
    level: usize,
) -> Result<(), Reason>
    ensures { told result ≡ counted_link_refusal shape table.now summary.now server level }
{
    table_link_refusal(shape, table, server, level)?;
    if has_entries(shape, summary)
        && (Entries { shape, summary }).is_counted(table, server, level)
    {
        return Ok(());
    }
    Err(Reason::Summary)
}

// The first of 1, 2, 26, 3, 4, 6, 30 that refuses to mark or clear a server.
pub(crate) fn counted_server_refusal(
    shape: Shape,
    table: &[u8],
    summary: &[u8],
    server: usize,
) -> Result<(), Reason>
    ensures { told result ≡ counted_server_refusal shape table.now summary.now server }
{
    table_server_refusal(shape, table, server)?;
    if has_entries(shape, summary) && (Entries { shape, summary }).are_counted(table, server) {
        return Ok(());
    }
    Err(Reason::Summary)
}

// The first of 1, 2, 26, 3, 6, 30 that refuses a summary to be asked.
pub(crate) fn summary_refusal(shape: Shape, table: &[u8], summary: &[u8]) -> Result<(), Reason>
    ensures { told result ≡ summary_refusal shape table.now summary.now }
{
    entries_refusal(shape, table, summary)?;
    if (Entries { shape, summary }).all_counted(table) {
        return Ok(());
    }
    Err(Reason::Summary)
}

// The first of 1, 2, 26, 3, 6, 30 that refuses a summary to be counted afresh.
pub(crate) fn entries_refusal(shape: Shape, table: &[u8], summary: &[u8]) -> Result<(), Reason>
    ensures { told result ≡ entries_refusal shape table.now summary.now }
{
    table_refusal(shape, table)?;
    if has_entries(shape, summary) {
        return Ok(());
    }
    Err(Reason::Summary)
}
