// One link of a failed-link table changed, with no test of a room. No summary follows: a table that has one is changed by
// `summary`. `mark` and `clear` are the two cases of `put`, and stay since docs/PROMISES.md and docs/DECISIONS.md name them.
ghost use Rattle.std.specs.Prelude.{◌≡◌, true, false};
ghost use Rattle.links.specs.Table.{changed_in};

use crate::bits::put_bit;

// Marks the link of a server at a level where it is failed, and clears it where it is not; past the table's end and above
// level 7 nothing changes.
pub fn put(table: &mut [u8], server: usize, level: usize, failed: bool)
    ensures { table.new ≡ changed_in failed server level table.old }
{
    // Not by `get_mut`: the library does not say what a slice ends as after it.
    if server < table.len() && level < 8 {
        table[server] = put_bit(table[server], level, failed);
    }
}

// Marks the link of a server at a level; past the table's end and above level 7 nothing changes.
pub fn mark(table: &mut [u8], server: usize, level: usize)
    ensures { table.new ≡ changed_in true server level table.old }
{
    put(table, server, level, true)
}

// Clears the link of a server at a level; past the table's end and above level 7 nothing changes.
pub fn clear(table: &mut [u8], server: usize, level: usize)
    ensures { table.new ≡ changed_in false server level table.old }
{
    put(table, server, level, false)
}
