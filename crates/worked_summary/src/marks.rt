// Links, and servers whole, marked and cleared, and the entries of their switches.
use crate::rows::{clear_row, clear_server_row, dead_row, mark_row, mark_server_row, turn_rows};
use room::Shape;
use std::io;

// Eight servers, two switches of four at level 0 and four of two at level 1. A link is marked twice, then another of
// its switch, which is dead until the first is cleared.
pub(crate) fn half_filled(rt: &impl Print) -> io::Result<()> {
    let shape = Shape::new(4, 1, 2);
    let mut table = [0u8; 8];
    let mut summary = [0u8; 6];
    mark_row(rt, shape, &mut table, &mut summary, 5, 1)?;
    mark_row(rt, shape, &mut table, &mut summary, 5, 1)?;
    mark_row(rt, shape, &mut table, &mut summary, 1, 1)?;
    dead_row(rt, shape, &table, &summary)?;
    clear_row(rt, shape, &mut table, &mut summary, 5, 1)?;
    dead_row(rt, shape, &table, &summary)?;
    dead_row(rt, shape, &[1, 1, 1, 1, 0, 0, 0, 0], &[4, 0, 0, 0, 0, 0])
}

// In the same room: the entry of the link's switch is wrong, others are, and the question tests all; 30 where the mark
// would change nothing; 6 before 30.
pub(crate) fn half_filled_wrong(rt: &impl Print) -> io::Result<()> {
    let shape = Shape::new(4, 1, 2);
    let mut table = [0u8; 8];
    let mut own = [0u8, 0, 0, 1, 0, 0];
    mark_row(rt, shape, &mut table, &mut own, 5, 1)?;
    let mut others = [9u8, 0, 0, 0, 0, 7];
    mark_row(rt, shape, &mut table, &mut others, 5, 1)?;
    dead_row(rt, shape, &[0, 0, 0, 0, 0, 0, 0, 0], &[9, 0, 0, 0, 0, 7])?;
    let mut none = [0u8; 6];
    mark_row(rt, shape, &mut table, &mut none, 5, 1)?;
    let mut high = [4u8, 0, 0, 0, 0, 0, 0, 0];
    let mut long = [0u8; 8];
    mark_row(rt, shape, &mut high, &mut long, 5, 1)?;
    let mut sound = [0u8; 8];
    mark_row(rt, shape, &mut sound, &mut long, 5, 1)
}

// Four servers: switches of both levels dead in between.
pub(crate) fn four(rt: &impl Print) -> io::Result<()> {
    let shape = Shape::full(2, 1);
    let mut table = [0u8; 4];
    let mut summary = [0u8; 4];
    mark_row(rt, shape, &mut table, &mut summary, 3, 0)?;
    turn_rows(rt, shape, &mut table, &mut summary, 2, 0)?;
    clear_row(rt, shape, &mut table, &mut summary, 3, 0)?;
    mark_server_row(rt, shape, &mut table, &mut summary, 0)?;
    turn_rows(rt, shape, &mut table, &mut summary, 2, 1)?;
    clear_server_row(rt, shape, &mut table, &mut summary, 0)
}

// The first and the last server of a half-filled room; a server one of whose links is marked, or cleared, before.
pub(crate) fn eight(rt: &impl Print) -> io::Result<()> {
    let shape = Shape::new(4, 1, 2);
    let mut table = [0u8; 8];
    let mut summary = [0u8; 6];
    turn_rows(rt, shape, &mut table, &mut summary, 7, 1)?;
    turn_rows(rt, shape, &mut table, &mut summary, 0, 0)?;
    mark_row(rt, shape, &mut table, &mut summary, 5, 0)?;
    mark_server_row(rt, shape, &mut table, &mut summary, 5)?;
    clear_row(rt, shape, &mut table, &mut summary, 5, 1)?;
    clear_server_row(rt, shape, &mut table, &mut summary, 5)
}

// The last server where a room has three levels, four, and one; a room of one switch, all of it marked.
pub(crate) fn levels(rt: &impl Print) -> io::Result<()> {
    let mut table = [0u8; 18];
    let mut summary = [0u8; 21];
    turn_rows(rt, Shape::new(3, 2, 2), &mut table, &mut summary, 17, 2)?;
    let mut links = [0u8; 16];
    let mut counts = [0u8; 32];
    turn_rows(rt, Shape::full(2, 3), &mut links, &mut counts, 15, 3)?;
    let mut pair = [1u8, 0];
    let mut one = [1u8; 1];
    turn_rows(rt, Shape::new(64, 0, 2), &mut pair, &mut one, 1, 0)?;
    let mut all = [1u8; 64];
    let mut most = [64u8; 1];
    turn_rows(rt, Shape::full(64, 0), &mut all, &mut most, 63, 0)
}
