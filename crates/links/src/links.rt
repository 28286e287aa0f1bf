// One link of a failed-link table, asked for.
ghost use Rattle.std.specs.Prelude.{◌≡◌};
ghost use Rattle.refusals.specs.Reasons.{tells};
ghost use Rattle.links.specs.Answers.{not_asked, asked, failed_answer};

use crate::tables::{is_failed, table_link_refusal};
use refusals::Reason;
use room::Shape;

// Whether the link of a server at a level is failed. Refusals 1, 2, 26, 3, 4, 20, 6.
pub fn failed_link(shape: Shape, table: &[u8], server: usize, level: usize) -> Result<bool, Reason>
    ensures { tells not_asked asked result ≡ failed_answer shape table.now server level }
{
    table_link_refusal(shape, table, server, level)?;
    Ok(is_failed(table, server, level))
}
