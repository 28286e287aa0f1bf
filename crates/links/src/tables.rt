// A whole failed-link table, and the links of a hop.
ghost use Rattle.std.specs.Prelude.{◌≤◌, ◌≡◌};
ghost use Rattle.refusals.specs.Reasons.{told};
ghost use Rattle.room.specs.Refusals.{shape_refusal};
ghost use Rattle.links.specs.Table.{failed, live, bits_fit, table_refusal, room_table_refusal, room_refusal, table_link_refusal, table_server_refusal};

use crate::bits::has_bit;
use refusals::Reason;
use room::{Shape, ends_refusal, link_refusal, server_count, server_refusal, shape_refusal};

// Whether the link of a server is failed; past the table's end none is.
pub fn is_failed(table: &[u8], server: usize, level: usize) -> bool
    ensures { result ≡ failed table.now server level }
{
    server < table.len() && has_bit(table[server], level)
}

// Whether a hop is live: neither its sender's link nor its receiver's is failed.
pub fn is_live(table: &[u8], level: usize, from: usize, to: usize) -> bool
    ensures { result ≡ live table.now level from to }
{
    !is_failed(table, from, level) && !is_failed(table, to, level)
}

// Whether no byte has a bit above k set: the greatest of all has none. The loop does not stop early, so
// that many bytes are looked at together.
fn bits_fit(k: usize, table: &[u8]) -> bool
    requires { k ≤ 3 }
    ensures { result ≡ bits_fit k table.now }
{
    let mut most: u8 = 0;
    for &byte in table {
        most = most.max(byte);
    }
    most < 1 << (k + 1)
}

// 6 where a table is none of this room.
fn own_refusal(shape: Shape, table: &[u8]) -> Result<(), Reason>
    requires { shape_refusal shape ≡ 0 }
    ensures { told result ≡ table_refusal shape table.now }
{
    if table.len() == server_count(shape) && bits_fit(shape.k, table) {
        return Ok(());
    }
    Err(Reason::Table)
}

// The first of 1, 2, 26, 3, 6 that refuses a table of a room.
pub fn table_refusal(shape: Shape, table: &[u8]) -> Result<(), Reason>
    ensures { told result ≡ room_table_refusal shape table.now }
{
    shape_refusal(shape)?;
    own_refusal(shape, table)
}

// The first of 1, 2, 26, 3, 4, 5, 6 that refuses a room with its ends and its table.
pub fn room_refusal(
    shape: Shape,
    table: &[u8],
    source: usize,
    destination: usize,
) -> Result<(), Reason>
    ensures { told result ≡ room_refusal shape table.now source destination }
{
    ends_refusal(shape, source, destination)?;
    own_refusal(shape, table)
}

// The first of 1, 2, 26, 3, 4, 20, 6 that refuses a link of a table.
pub fn table_link_refusal(
    shape: Shape,
    table: &[u8],
    server: usize,
    level: usize,
) -> Result<(), Reason>
    ensures { told result ≡ table_link_refusal shape table.now server level }
{
    link_refusal(shape, server, level)?;
    own_refusal(shape, table)
}

// The first of 1, 2, 26, 3, 4, 6 that refuses a server of a table.
pub fn table_server_refusal(shape: Shape, table: &[u8], server: usize) -> Result<(), Reason>
    ensures { told result ≡ table_server_refusal shape table.now server }
{
    server_refusal(shape, server)?;
    own_refusal(shape, table)
}
