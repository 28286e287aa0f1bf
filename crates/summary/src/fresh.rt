// The summary counted afresh from a table.
ghost use Rattle.std.specs.Prelude.{◌≡◌, true};
ghost use Rattle.refusals.specs.Refusals.{plain};
ghost use Rattle.refusals.specs.Reasons.{told};
ghost use Rattle.room.specs.Refusals.{shape_refusal};
ghost use Rattle.summary.specs.Counts.{summary_of};
ghost use Rattle.summary.specs.Refusals.{has_entries};
ghost use Rattle.summary.specs.Answers.{fresh_answer, fresh_summary};

use crate::order::Order;
use crate::tests::entries_refusal;
use refusals::Reason;
use room::Shape;

// Counts every switch, and writes its entry. `Entries` reads a summary, so that this one, which is written, comes with its facts.
fn count_all(shape: Shape, table: &[u8], summary: &mut [u8])
    requires { (shape_refusal shape ≡ 0) × (has_entries shape summary.old ≡ true) }
    ensures { summary.new ≡ summary_of shape table.now }
{
    let order = Order::of(shape);
    for (place, entry) in summary.iter_mut().enumerate() {
        *entry = order.count_in(table, place);
    }
}

// Counts the summary of a table afresh, whatever it held. Refusals 1, 2, 26, 3, 6, 30 (its length alone); it then keeps
// its bytes.
pub fn summarize(shape: Shape, table: &[u8], summary: &mut [u8]) -> Result<(), Reason>
    ensures { (plain (told result) ≡ fresh_answer shape table.now summary.old) × (summary.new ≡ fresh_summary shape table.now summary.old) }
{
    entries_refusal(shape, table, &*summary)?;
    count_all(shape, table, summary);
    Ok(())
}
