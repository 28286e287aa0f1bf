// Every refusal's edge. Each row prints table and summary anew, and they have kept their bytes.
use crate::rows::{MOST, six_rows, turn_rows};
use room::Shape;
use std::io;

// Each call with all that can be refused, then with less and less: 1, 2, 26, 3, 4, 20, 6, 30.
pub(crate) fn order(rt: &impl Print) -> io::Result<()> {
    let mut table = [1u8, 4, 3, 0];
    let mut summary = [7u8, 7, 7];
    six_rows(
        rt,
        Shape::new(1, 4, 0),
        &mut table,
        &mut summary,
        MOST,
        MOST,
    )?;
    six_rows(
        rt,
        Shape::new(2, 4, 0),
        &mut table,
        &mut summary,
        MOST,
        MOST,
    )?;
    six_rows(
        rt,
        Shape::new(64, 3, 65),
        &mut table,
        &mut summary,
        MOST,
        MOST,
    )?;
    six_rows(rt, Shape::full(64, 3), &mut table, &mut summary, MOST, MOST)?;
    let shape = Shape::full(2, 1);
    six_rows(rt, shape, &mut table, &mut summary, 4, 2)?;
    six_rows(rt, shape, &mut table, &mut summary, 3, 2)?;
    six_rows(rt, shape, &mut table, &mut summary, 3, 1)?;
    table[1] = 0;
    six_rows(rt, shape, &mut table, &mut summary, 3, 1)
}

// 30 by the length: one short, one long, that of the table, none. All entries that are there are right.
pub(crate) fn lengths(rt: &impl Print) -> io::Result<()> {
    let shape = Shape::new(4, 1, 2);
    let mut table = [0u8; 8];
    let mut short = [0u8; 5];
    six_rows(rt, shape, &mut table, &mut short, 7, 0)?;
    let mut long = [0u8; 7];
    six_rows(rt, shape, &mut table, &mut long, 7, 0)?;
    let mut servers = [0u8; 8];
    six_rows(rt, shape, &mut table, &mut servers, 7, 0)?;
    let mut none = [0u8; 0];
    six_rows(rt, shape, &mut table, &mut none, 7, 0)?;
    let mut pair = [0u8; 2];
    let mut two = [0u8; 2];
    six_rows(rt, Shape::new(64, 0, 2), &mut pair, &mut two, 0, 0)
}

// 6 by the table of the full room, and 26 before it; the summary is right.
pub(crate) fn tables(rt: &impl Print) -> io::Result<()> {
    let shape = Shape::new(4, 1, 2);
    let mut summary = [0u8; 6];
    let mut full = [0u8; 16];
    six_rows(rt, shape, &mut full, &mut summary, 7, 1)?;
    six_rows(rt, Shape::new(4, 1, 5), &mut full, &mut summary, 16, 2)
}

// 30 by the entry of a touched switch: at level 1 too low, where the link is marked and where it is not; at level 0 too
// high. Counting afresh takes them all.
pub(crate) fn entries(rt: &impl Print) -> io::Result<()> {
    let shape = Shape::new(4, 1, 2);
    let mut table = [0u8, 0, 0, 0, 0, 3, 0, 0];
    let mut low = [0u8, 1, 0, 0, 0, 0];
    six_rows(rt, shape, &mut table, &mut low, 5, 1)?;
    let mut other = [0u8, 1, 0, 0, 0, 0];
    six_rows(rt, shape, &mut table, &mut other, 1, 1)?;
    let mut high = [0u8, 2, 0, 1, 0, 0];
    six_rows(rt, shape, &mut table, &mut high, 5, 0)?;
    let mut most = [255u8, 1, 0, 1, 0, 0];
    six_rows(rt, shape, &mut table, &mut most, 0, 0)
}

// Entries that are wrong elsewhere are taken, and stay: of a link one entry is tested, of a server one at each level.
pub(crate) fn elsewhere(rt: &impl Print) -> io::Result<()> {
    let shape = Shape::new(4, 1, 2);
    let mut table = [0u8; 8];
    let mut three = [9u8, 0, 7, 0, 6, 255];
    turn_rows(rt, shape, &mut table, &mut three, 5, 1)?;
    let mut more = [9u8, 8, 7, 0, 6, 255];
    turn_rows(rt, shape, &mut table, &mut more, 5, 1)
}
