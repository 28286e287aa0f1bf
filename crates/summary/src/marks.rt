// A link, or all links of a server, marked and cleared. The rules and the calls from C name the two apart, so that each pair
// stays over the one function that it shares.
ghost use Rattle.std.specs.Prelude.{◌≡◌, true, false};
ghost use Rattle.refusals.specs.Refusals.{plain};
ghost use Rattle.refusals.specs.Reasons.{told};
ghost use Rattle.summary.specs.Answers.{link_answer, link_table, link_summary, server_answer, server_table, server_summary};

use crate::changes::{change, change_all};
use crate::tests::{counted_link_refusal, counted_server_refusal};
use refusals::Reason;
use room::Shape;

// Marks a link of a server, or clears it, where nothing is refused.
fn change_link(
    shape: Shape,
    table: &mut [u8],
    summary: &mut [u8],
    server: usize,
    level: usize,
    failed: bool,
) -> Result<(), Reason>
    ensures { (plain (told result) ≡ link_answer shape table.old summary.old server level) × (table.new ≡ link_table failed shape table.old summary.old server level) × (summary.new ≡ link_summary failed shape table.old summary.old server level) }
{
    counted_link_refusal(shape, &*table, &*summary, server, level)?;
    change(shape, table, summary, server, level, failed);
    Ok(())
}

// Marks the link of a server at a level as failed, and its switch counts it; where it is marked already nothing
// changes. Refusals 1, 2, 26, 3, 4, 20, 6, 30; table and summary then keep their bytes.
pub fn mark_link(
    shape: Shape,
    table: &mut [u8],
    summary: &mut [u8],
    server: usize,
    level: usize,
) -> Result<(), Reason>
    ensures { (plain (told result) ≡ link_answer shape table.old summary.old server level) × (table.new ≡ link_table true shape table.old summary.old server level) × (summary.new ≡ link_summary true shape table.old summary.old server level) }
{
    change_link(shape, table, summary, server, level, true)
}

// Clears the link of a server at a level, and its switch counts it no more; where it is not marked nothing
// changes. Refusals 1, 2, 26, 3, 4, 20, 6, 30; table and summary then keep their bytes.
pub fn clear_link(
    shape: Shape,
    table: &mut [u8],
    summary: &mut [u8],
    server: usize,
    level: usize,
) -> Result<(), Reason>
    ensures { (plain (told result) ≡ link_answer shape table.old summary.old server level) × (table.new ≡ link_table false shape table.old summary.old server level) × (summary.new ≡ link_summary false shape table.old summary.old server level) }
{
    change_link(shape, table, summary, server, level, false)
}

// Marks all links of a server, or clears them, where nothing is refused.
fn change_server(
    shape: Shape,
    table: &mut [u8],
    summary: &mut [u8],
    server: usize,
    failed: bool,
) -> Result<(), Reason>
    ensures { (plain (told result) ≡ server_answer shape table.old summary.old server) × (table.new ≡ server_table failed shape table.old summary.old server) × (summary.new ≡ server_summary failed shape table.old summary.old server) }
{
    counted_server_refusal(shape, &*table, &*summary, server)?;
    change_all(shape, table, summary, server, failed);
    Ok(())
}

// Marks all links of a server as failed: the server is dead, and its switches count it. Refusals 1, 2, 26, 3, 4, 6, 30;
// table and summary then keep their bytes.
pub fn mark_server(
    shape: Shape,
    table: &mut [u8],
    summary: &mut [u8],
    server: usize,
) -> Result<(), Reason>
    ensures { (plain (told result) ≡ server_answer shape table.old summary.old server) × (table.new ≡ server_table true shape table.old summary.old server) × (summary.new ≡ server_summary true shape table.old summary.old server) }
{
    change_server(shape, table, summary, server, true)
}

// Clears all links of a server, and its switches count none of it. Refusals 1, 2, 26, 3, 4, 6, 30; table and summary
// then keep their bytes.
pub fn clear_server(
    shape: Shape,
    table: &mut [u8],
    summary: &mut [u8],
    server: usize,
) -> Result<(), Reason>
    ensures { (plain (told result) ≡ server_answer shape table.old summary.old server) × (table.new ≡ server_table false shape table.old summary.old server) × (summary.new ≡ server_summary false shape table.old summary.old server) }
{
    change_server(shape, table, summary, server, false)
}
