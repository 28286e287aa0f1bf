// The rooms with the most switches, their buffers by their lengths alone.
use crate::rows::zeros_row;
use room::Shape;
use std::io;

// A byte for each switch: 1,280 in (8,3,4), 2,592 in (12,3,2), the most of all rooms, and 2,048 in (8,3).
pub(crate) fn lengths(rt: &impl Print) -> io::Result<()> {
    let half = [0u8; 2048];
    let entries = [0u8; 1280];
    zeros_row(rt, Shape::new(8, 3, 4), &half, &entries)?;
    let short = [0u8; 1279];
    zeros_row(rt, Shape::new(8, 3, 4), &half, &short)?;
    let twelve = [0u8; 3456];
    let most = [0u8; 2592];
    zeros_row(rt, Shape::new(12, 3, 2), &twelve, &most)?;
    zeros_row(rt, Shape::new(12, 3, 2), &twelve, &twelve)?;
    let full = [0u8; 4096];
    zeros_row(rt, Shape::full(8, 3), &full, &half)
}
