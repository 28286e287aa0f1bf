// Tables counted afresh, whatever the summary held, and the first dead switch by level and then by number.
use crate::rows::table_rows;
use room::Shape;
use std::io;

// Each level's bound counts: four servers at level 0, two at level 1. None dead, one, the last, two, all, and none with
// one link short at every switch.
pub(crate) fn half_filled(rt: &impl Print) -> io::Result<()> {
    let shape = Shape::new(4, 1, 2);
    let mut summary = [255u8; 6];
    table_rows(rt, shape, &[1, 1, 0, 0, 0, 0, 0, 0], &mut summary)?;
    table_rows(rt, shape, &[0, 0, 0, 0, 1, 1, 1, 1], &mut summary)?;
    table_rows(rt, shape, &[0, 0, 0, 2, 0, 0, 0, 2], &mut summary)?;
    table_rows(rt, shape, &[2, 0, 0, 0, 3, 1, 1, 1], &mut summary)?;
    table_rows(rt, shape, &[0, 0, 2, 2, 0, 0, 2, 2], &mut summary)?;
    table_rows(rt, shape, &[3, 3, 3, 3, 3, 3, 3, 3], &mut summary)?;
    table_rows(rt, shape, &[3, 3, 3, 2, 1, 1, 1, 0], &mut summary)
}

// A full room of sixteen: at level 1 two links are not enough, four are. The last switch; and one of level 0 before it.
pub(crate) fn full(rt: &impl Print) -> io::Result<()> {
    let shape = Shape::full(4, 1);
    let mut summary = [9u8; 8];
    let two = [0u8, 2, 0, 0, 0, 2, 0, 0, 0, 0, 0, 0, 0, 0, 0, 0];
    table_rows(rt, shape, &two, &mut summary)?;
    let last = [0u8, 0, 0, 2, 0, 0, 0, 2, 0, 0, 0, 2, 1, 0, 0, 2];
    table_rows(rt, shape, &last, &mut summary)?;
    let both = [0u8, 0, 0, 2, 0, 0, 0, 2, 0, 0, 0, 2, 1, 1, 1, 3];
    table_rows(rt, shape, &both, &mut summary)
}

// Three levels: the middle one before the highest, and links of every kind. Four: the last switch. One: its switch has
// m servers, whatever n is.
pub(crate) fn levels(rt: &impl Print) -> io::Result<()> {
    let three = Shape::new(3, 2, 2);
    let mut summary = [9u8; 21];
    let middle = [0u8, 0, 0, 0, 0, 0, 0, 0, 4, 0, 0, 2, 0, 0, 2, 0, 0, 6];
    table_rows(rt, three, &middle, &mut summary)?;
    let some = [0u8, 1, 2, 4, 0, 7, 0, 0, 7, 5, 0, 2, 0, 0, 2, 1, 4, 5];
    table_rows(rt, three, &some, &mut summary)?;
    let last = [1u8, 0, 0, 0, 0, 2, 0, 8, 0, 4, 0, 0, 0, 0, 0, 8];
    let mut counts = [0u8; 32];
    table_rows(rt, Shape::full(2, 3), &last, &mut counts)?;
    let mut one = [9u8; 1];
    table_rows(rt, Shape::new(64, 0, 2), &[1, 1], &mut one)?;
    table_rows(rt, Shape::new(64, 0, 3), &[1, 1, 0], &mut one)
}
