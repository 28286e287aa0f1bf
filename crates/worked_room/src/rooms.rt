// Full rooms: shapes, addresses, switches and neighbours.
use crate::rows::{
    MOST, address_row, between_row, bound_row, digit_row, digits_row, neighbour_row, server_row,
    servers_row, switch_row, switches_row,
};
use room::Shape;
use std::io;

// The shapes of the rules, and the edges of 1, 2 and 3.
pub(crate) fn shapes(rt: &impl Print) -> io::Result<()> {
    servers_row(rt, Shape::full(8, 3))?;
    servers_row(rt, Shape::full(16, 2))?;
    servers_row(rt, Shape::full(64, 1))?;
    servers_row(rt, Shape::full(64, 0))?;
    servers_row(rt, Shape::full(2, 0))?;
    servers_row(rt, Shape::full(9, 3))?;
    servers_row(rt, Shape::full(17, 2))?;
    servers_row(rt, Shape::full(65, 0))?;
    servers_row(rt, Shape::full(1, 2))?;
    servers_row(rt, Shape::full(2, 4))?;
    servers_row(rt, Shape::full(0, 0))?;
    servers_row(rt, Shape::full(65, 4))?;
    servers_row(rt, Shape::full(64, 2))?;
    servers_row(rt, Shape::full(MOST, 0))?;
    servers_row(rt, Shape::full(2, MOST))?;
    servers_row(rt, Shape::full(MOST, MOST))?;
    bound_row(rt, Shape::full(8, 3), 3)?;
    bound_row(rt, Shape::full(8, 3), 4)?;
    bound_row(rt, Shape::full(9, 3), 0)
}

// 0001 and 1011, 0012 and 2100 (digit 0 is printed first), and the edge of 4.
pub(crate) fn digits(rt: &impl Print) -> io::Result<()> {
    let eight = Shape::full(8, 3);
    let four = Shape::full(4, 1);
    digits_row(rt, eight, 1)?;
    digits_row(rt, eight, 521)?;
    digits_row(rt, eight, 10)?;
    digits_row(rt, eight, 1088)?;
    digits_row(rt, Shape::full(3, 3), 5)?;
    digits_row(rt, Shape::full(3, 3), 63)?;
    digits_row(rt, eight, 4095)?;
    digits_row(rt, eight, 4096)?;
    digits_row(rt, four, 15)?;
    digits_row(rt, four, 16)?;
    digits_row(rt, Shape::full(2, 0), 1)?;
    digits_row(rt, Shape::full(64, 1), 4095)?;
    digits_row(rt, eight, MOST)?;
    digits_row(rt, Shape::full(9, 3), MOST)?;
    digit_row(rt, eight, 521, 3)?;
    digit_row(rt, eight, 521, 2)?;
    digit_row(rt, eight, 521, 4)?;
    digit_row(rt, eight, 4096, 4)
}

// The same numbers the other way round, and the edges of 21.
pub(crate) fn addresses(rt: &impl Print) -> io::Result<()> {
    let eight = Shape::full(8, 3);
    let four = Shape::full(4, 1);
    address_row(rt, eight, [1, 0, 0, 0])?;
    address_row(rt, eight, [1, 1, 0, 1])?;
    address_row(rt, eight, [2, 1, 0, 0])?;
    address_row(rt, eight, [0, 0, 1, 2])?;
    address_row(rt, Shape::full(3, 3), [2, 1, 0, 0])?;
    address_row(rt, Shape::full(3, 3), [0, 0, 1, 2])?;
    address_row(rt, eight, [7, 7, 7, 7])?;
    address_row(rt, eight, [8, 0, 0, 0])?;
    address_row(rt, eight, [0, 0, 0, 8])?;
    address_row(rt, four, [3, 3, 0, 0])?;
    address_row(rt, four, [3, 4, 0, 0])?;
    address_row(rt, four, [3, 3, 1, 0])?;
    address_row(rt, four, [3, 3, 0, 1])?;
    address_row(rt, Shape::full(2, 0), [1, 0, 0, 0])?;
    address_row(rt, Shape::full(2, 0), [1, 1, 0, 0])?;
    address_row(rt, eight, [0, MOST, 0, 0])?;
    address_row(rt, Shape::full(65, 0), [0, MOST, 0, 0])
}

// Every level of one server, a neighbour on the same switch, and the edges of 4 and 20.
pub(crate) fn switches(rt: &impl Print) -> io::Result<()> {
    let eight = Shape::full(8, 3);
    let four = Shape::full(4, 1);
    switch_row(rt, eight, 668, 0)?;
    switch_row(rt, eight, 668, 1)?;
    switch_row(rt, eight, 668, 2)?;
    switch_row(rt, eight, 668, 3)?;
    switch_row(rt, eight, 700, 2)?;
    switch_row(rt, eight, 732, 2)?;
    switch_row(rt, four, 7, 0)?;
    switch_row(rt, four, 7, 1)?;
    switch_row(rt, Shape::full(2, 0), 1, 0)?;
    switch_row(rt, eight, 4095, 3)?;
    switch_row(rt, eight, 4096, 3)?;
    switch_row(rt, eight, 4095, 4)?;
    switch_row(rt, eight, 4096, 4)?;
    switch_row(rt, eight, 0, MOST)?;
    switch_row(rt, Shape::full(2, 4), MOST, MOST)
}

// How many switches a level has, the server at a port of a switch, and the edges of 20 and 21.
pub(crate) fn ports(rt: &impl Print) -> io::Result<()> {
    let eight = Shape::full(8, 3);
    let four = Shape::full(4, 1);
    switches_row(rt, eight, 0)?;
    switches_row(rt, eight, 3)?;
    switches_row(rt, eight, 4)?;
    switches_row(rt, Shape::full(2, 0), 0)?;
    switches_row(rt, Shape::full(9, 3), 4)?;
    server_row(rt, eight, 0, 83, 4)?;
    server_row(rt, eight, 2, 92, 2)?;
    server_row(rt, eight, 3, 156, 1)?;
    server_row(rt, four, 1, 3, 3)?;
    server_row(rt, four, 1, 3, 4)?;
    server_row(rt, four, 1, 4, 3)?;
    server_row(rt, four, 2, 4, 4)?;
    server_row(rt, four, 1, MOST, 0)?;
    server_row(rt, four, 1, 0, MOST)
}

// A hop and back, a server itself, two levels apart, and the edges of 4, 20 and 21.
pub(crate) fn neighbours(rt: &impl Print) -> io::Result<()> {
    let eight = Shape::full(8, 3);
    let four = Shape::full(4, 1);
    neighbour_row(rt, eight, 1, 3, 1)?;
    neighbour_row(rt, eight, 513, 3, 0)?;
    neighbour_row(rt, four, 7, 1, 3)?;
    neighbour_row(rt, four, 7, 1, 1)?;
    neighbour_row(rt, four, 7, 0, 3)?;
    neighbour_row(rt, four, 7, 1, 4)?;
    neighbour_row(rt, four, 16, 2, 4)?;
    neighbour_row(rt, four, 15, 2, 4)?;
    neighbour_row(rt, four, 15, 1, MOST)?;
    between_row(rt, eight, 1, 513)?;
    between_row(rt, eight, 513, 1)?;
    between_row(rt, eight, 1, 521)?;
    between_row(rt, eight, 521, 521)?;
    between_row(rt, four, 0, 3)?;
    between_row(rt, four, 0, 12)?;
    between_row(rt, four, 0, 16)?;
    between_row(rt, four, 16, 0)?;
    between_row(rt, Shape::full(17, 2), 16, 0)
}
