// Half-filled rooms: the same questions where digit k has fewer values than a switch has ports.
use crate::rows::{
    MOST, address_row, between_row, bound_row, digit_row, digits_row, neighbour_row, server_row,
    servers_row, switch_row, switches_row,
};
use room::Shape;
use std::io;

// It is m times n^k that 4,096 limits; m = n is the full room.
pub(crate) fn shapes(rt: &impl Print) -> io::Result<()> {
    servers_row(rt, Shape::new(8, 3, 4))?;
    servers_row(rt, Shape::new(12, 3, 2))?;
    servers_row(rt, Shape::new(12, 3, 3))?;
    servers_row(rt, Shape::new(9, 3, 5))?;
    servers_row(rt, Shape::new(9, 3, 6))?;
    servers_row(rt, Shape::new(17, 2, 14))?;
    servers_row(rt, Shape::new(17, 2, 15))?;
    servers_row(rt, Shape::new(45, 2, 2))?;
    servers_row(rt, Shape::new(46, 2, 2))?;
    servers_row(rt, Shape::new(64, 0, 2))?;
    servers_row(rt, Shape::new(64, 1, 63))?;
    servers_row(rt, Shape::new(64, 1, 64))?;
    servers_row(rt, Shape::new(8, 3, 8))?;
    servers_row(rt, Shape::new(2, 0, 2))
}

// The edges of 26, which stands behind 1 and 2 and before 3.
pub(crate) fn fills(rt: &impl Print) -> io::Result<()> {
    servers_row(rt, Shape::new(8, 3, 0))?;
    servers_row(rt, Shape::new(8, 3, 1))?;
    servers_row(rt, Shape::new(8, 3, 2))?;
    servers_row(rt, Shape::new(8, 3, 9))?;
    servers_row(rt, Shape::new(8, 3, MOST))?;
    servers_row(rt, Shape::new(2, 0, 1))?;
    servers_row(rt, Shape::new(2, 0, 3))?;
    servers_row(rt, Shape::new(9, 3, 1))?;
    servers_row(rt, Shape::new(9, 3, 10))?;
    servers_row(rt, Shape::new(64, 3, MOST))?;
    servers_row(rt, Shape::new(64, 3, 64))?;
    servers_row(rt, Shape::new(1, 2, 0))?;
    servers_row(rt, Shape::new(65, 0, 66))?;
    servers_row(rt, Shape::new(MOST, 0, 1))?;
    servers_row(rt, Shape::new(2, 4, 0))?;
    servers_row(rt, Shape::new(2, MOST, MOST))
}

// m at level k and n below it; at k = 0 level 0 is level k.
pub(crate) fn bounds(rt: &impl Print) -> io::Result<()> {
    let half = Shape::new(8, 3, 4);
    let pair = Shape::new(64, 0, 2);
    bound_row(rt, half, 0)?;
    bound_row(rt, half, 1)?;
    bound_row(rt, half, 2)?;
    bound_row(rt, half, 3)?;
    bound_row(rt, half, 4)?;
    bound_row(rt, pair, 0)?;
    bound_row(rt, pair, 1)?;
    bound_row(rt, Shape::new(9, 3, 6), 4)?;
    bound_row(rt, Shape::new(8, 3, 9), 4)
}

// The last server, and the edges of 4 and 26.
pub(crate) fn digits(rt: &impl Print) -> io::Result<()> {
    let half = Shape::new(8, 3, 4);
    let pair = Shape::new(64, 0, 2);
    digits_row(rt, half, 1537)?;
    digits_row(rt, half, 2047)?;
    digits_row(rt, half, 2048)?;
    digits_row(rt, half, 4095)?;
    digits_row(rt, Shape::new(12, 3, 2), 3455)?;
    digits_row(rt, Shape::new(12, 3, 2), 3456)?;
    digits_row(rt, Shape::new(45, 2, 2), 4049)?;
    digits_row(rt, pair, 1)?;
    digits_row(rt, pair, 2)?;
    digits_row(rt, Shape::new(8, 3, 1), 2048)?;
    digit_row(rt, half, 2047, 3)?;
    digit_row(rt, half, 2047, 2)?;
    digit_row(rt, half, 2048, 4)?;
    digit_row(rt, Shape::new(8, 3, 1), 2048, 4)
}

// The edges of 21: m at level k, n below it; and 26 before it.
pub(crate) fn addresses(rt: &impl Print) -> io::Result<()> {
    let half = Shape::new(8, 3, 4);
    let pair = Shape::new(64, 0, 2);
    address_row(rt, half, [7, 7, 7, 3])?;
    address_row(rt, half, [0, 0, 4, 0])?;
    address_row(rt, half, [0, 0, 0, 4])?;
    address_row(rt, half, [0, 0, 0, 7])?;
    address_row(rt, half, [0, 0, 7, 0])?;
    address_row(rt, half, [0, 0, 8, 0])?;
    address_row(rt, half, [8, 0, 0, 0])?;
    address_row(rt, pair, [1, 0, 0, 0])?;
    address_row(rt, pair, [2, 0, 0, 0])?;
    address_row(rt, pair, [63, 0, 0, 0])?;
    address_row(rt, pair, [1, 1, 0, 0])?;
    address_row(rt, Shape::new(9, 3, 10), [MOST, 0, 0, 0])
}

// Switch numbers are to the base n, and the last server's are the last.
pub(crate) fn switches(rt: &impl Print) -> io::Result<()> {
    let half = Shape::new(8, 3, 4);
    let wide = Shape::new(12, 3, 2);
    switch_row(rt, half, 2047, 0)?;
    switch_row(rt, half, 2047, 2)?;
    switch_row(rt, half, 2047, 3)?;
    switch_row(rt, half, 1536, 2)?;
    switch_row(rt, half, 1536, 3)?;
    switch_row(rt, wide, 3455, 0)?;
    switch_row(rt, wide, 3455, 3)?;
    switch_row(rt, Shape::new(45, 2, 2), 4049, 0)?;
    switch_row(rt, Shape::new(45, 2, 2), 4049, 2)?;
    switch_row(rt, Shape::new(64, 0, 2), 1, 0)?;
    switch_row(rt, half, 2048, 4)?;
    switch_row(rt, half, 2047, 4)?;
    switch_row(rt, Shape::new(8, 3, 9), 2048, 4)
}

// m n^(k-1) switches at each level below k, n^k at level k; the last of each, and the edges of 21 and 26.
pub(crate) fn ports(rt: &impl Print) -> io::Result<()> {
    let half = Shape::new(8, 3, 4);
    let pair = Shape::new(64, 0, 2);
    switches_row(rt, half, 0)?;
    switches_row(rt, half, 1)?;
    switches_row(rt, half, 2)?;
    switches_row(rt, half, 3)?;
    switches_row(rt, Shape::new(12, 3, 2), 0)?;
    switches_row(rt, Shape::new(12, 3, 2), 3)?;
    switches_row(rt, pair, 0)?;
    switches_row(rt, Shape::new(8, 3, 1), 4)?;
    server_row(rt, half, 0, 255, 7)?;
    server_row(rt, half, 0, 255, 8)?;
    server_row(rt, half, 0, 256, 7)?;
    server_row(rt, half, 2, 255, 7)?;
    server_row(rt, half, 3, 511, 3)?;
    server_row(rt, half, 3, 511, 4)?;
    server_row(rt, half, 3, 512, 3)?;
    server_row(rt, pair, 0, 0, 1)?;
    server_row(rt, pair, 0, 0, 2)?;
    server_row(rt, pair, 0, 1, 1)?;
    server_row(rt, Shape::new(8, 3, 1), 4, 512, 8)
}

// Neighbours at level k and below it, and the edges of 4, 20, 21 and 26.
pub(crate) fn neighbours(rt: &impl Print) -> io::Result<()> {
    let half = Shape::new(8, 3, 4);
    let pair = Shape::new(64, 0, 2);
    neighbour_row(rt, half, 0, 3, 3)?;
    neighbour_row(rt, half, 1536, 3, 0)?;
    neighbour_row(rt, half, 0, 3, 4)?;
    neighbour_row(rt, half, 0, 3, 7)?;
    neighbour_row(rt, half, 0, 2, 7)?;
    neighbour_row(rt, half, 0, 2, 8)?;
    neighbour_row(rt, pair, 0, 0, 1)?;
    neighbour_row(rt, pair, 0, 0, 2)?;
    neighbour_row(rt, half, 2048, 4, 4)?;
    neighbour_row(rt, half, 2047, 4, 4)?;
    neighbour_row(rt, Shape::new(8, 3, 1), 2048, 4, 8)?;
    between_row(rt, half, 0, 1536)?;
    between_row(rt, half, 511, 2047)?;
    between_row(rt, half, 0, 2047)?;
    between_row(rt, half, 0, 2048)?;
    between_row(rt, Shape::new(8, 3, 1), 2048, 0)
}
