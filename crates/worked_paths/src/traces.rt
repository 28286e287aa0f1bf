// Packets where each byte has an entry in the neighbour table: one step, and all steps to the destination with the path
// bytes of their ways back, which are the packet's trace.
use crate::steps::answered;
use refusals::Refused;
use room::Shape;
use std::io;
use step::{Onward, Step};

// A neighbour table. The MAC of a byte's entry is the byte, its OutPort the byte's level, its flag 1.
fn every_entry() -> [u8; 2048] {
    let mut table = [0u8; 2048];
    for byte in 0..=u8::MAX {
        let entry = 8 * usize::from(byte);
        table[entry + 5] = byte;
        table[entry + 6] = byte / 64;
        table[entry + 7] = 1;
    }
    table
}

fn step_row(
    rt: &impl Print,
    shape: Shape,
    here: usize,
    destination: usize,
    index: usize,
    path: &[u8],
) -> io::Result<()> {
    let table = every_entry();
    print::question(rt, b"step", shape)?;
    print::item(rt, here)?;
    print::item(rt, destination)?;
    print::item(rt, index)?;
    print::bytes(rt, path)?;
    print::text(rt, b" 2048 all")?;
    answered(
        rt,
        step::step_once(shape, here, destination, index, path, &table),
    )
}

// Where a step leads, and the path byte of its way back.
fn stepped(rt: &impl Print, shape: Shape, to: Onward) -> io::Result<()> {
    print::text(rt, b" next")?;
    print::item(rt, to.next)?;
    print::text(rt, b" back")?;
    match path::byte_of(shape, to.level, to.old) {
        Ok(byte) => print::hex(rt, byte),
        Err(reason) => print::refused_item(rt, Refused::from(reason)),
    }
}

// Step after step from the source, until one is a delivery or refused.
fn forwarded(
    rt: &impl Print,
    shape: Shape,
    source: usize,
    destination: usize,
    path: &[u8],
) -> io::Result<()> {
    let table = every_entry();
    let mut here = source;
    let mut index: usize = 0;
    for _ in 0..9 {
        match step::step_once(shape, here, destination, index, path, &table) {
            Ok(Step::Onward(to)) => {
                stepped(rt, shape, to)?;
                here = to.next;
                index = to.index;
            }
            Ok(Step::Delivered) => return print::text(rt, b" delivered"),
            Err(refused) => return print::refused_item(rt, refused),
        }
    }
    Ok(())
}

// The steps of a packet and its trace; then the reversed array, which is the trace read backwards.
fn trace_row(
    rt: &impl Print,
    shape: Shape,
    source: usize,
    destination: usize,
    path: &[u8],
) -> io::Result<()> {
    print::question(rt, b"trace", shape)?;
    print::item(rt, source)?;
    print::item(rt, destination)?;
    print::bytes(rt, path)?;
    print::text(rt, b" =")?;
    forwarded(rt, shape, source, destination, path)?;
    print::text(rt, b" reversed")?;
    match path::reverse_path(shape, source, destination, path) {
        Ok(bytes) => print::bytes(rt, &bytes)?,
        Err(refused) => print::refused_item(rt, refused)?,
    }
    print::end(rt)
}

// A packet from 1 to 521 step by step, one from 3001 to 3011 that goes by level 3, and one at its last index; 9, 10, 18.
pub(crate) fn steps(rt: &impl Print) -> io::Result<()> {
    let eight = Shape::full(8, 3);
    let half = Shape::new(8, 3, 4);
    step_row(rt, eight, 1, 521, 0, b"\xc1\x41\0\0\0\0\0\0")?;
    step_row(rt, eight, 513, 521, 1, b"\xc1\x41\0\0\0\0\0\0")?;
    step_row(rt, eight, 521, 521, 2, b"\xc1\x41\0\0\0\0\0\0")?;
    step_row(rt, half, 1537, 1545, 0, b"\xc0\x41\xc3\0\0\0\0\0")?;
    step_row(rt, half, 1, 1545, 1, b"\xc0\x41\xc3\0\0\0\0\0")?;
    step_row(rt, half, 9, 1545, 2, b"\xc0\x41\xc3\0\0\0\0\0")?;
    step_row(rt, half, 1545, 1545, 3, b"\xc0\x41\xc3\0\0\0\0\0")?;
    step_row(rt, half, 1537, 1545, 0, b"\xc4\x41\xc3\0\0\0\0\0")?;
    step_row(rt, half, 1537, 1545, 0, b"\xc3\x41\xc3\0\0\0\0\0")?;
    step_row(rt, Shape::full(2, 0), 1, 0, 7, b"\0\0\0\0\0\0\0\0")?;
    step_row(rt, Shape::full(2, 0), 1, 0, 8, b"\0\0\0\0\0\0\0\0")?;
    step_row(rt, Shape::full(64, 1), 4095, 0, 0, b"\x40\0\0\0\0\0\0\0")?;
    step_row(rt, Shape::full(64, 1), 4032, 63, 3, b"\0\0\0\x3f\x40\0\0\0")
}

// Routes of one hop to eight, in full and in half-filled rooms.
pub(crate) fn traces(rt: &impl Print) -> io::Result<()> {
    let eight = Shape::full(8, 3);
    let half = Shape::new(4, 1, 2);
    trace_row(rt, eight, 1, 521, b"\xc1\x41\0\0\0\0\0\0")?;
    trace_row(rt, eight, 521, 1, b"\x40\xc0\0\0\0\0\0\0")?;
    trace_row(rt, eight, 1, 521, b"\x81\x41\xc1\x80\0\0\0\0")?;
    trace_row(rt, eight, 1, 521, b"\x02\xc1\x41\x01\0\0\0\0")?;
    trace_row(rt, eight, 0, 1170, b"\x01\x41\x81\xc1\x02\x42\x82\xc2")?;
    trace_row(rt, eight, 4095, 585, b"\xc0\x82\x42\x02\xc1\x81\x41\x01")?;
    trace_row(
        rt,
        Shape::new(8, 3, 4),
        1537,
        1545,
        b"\xc0\x41\xc3\0\0\0\0\0",
    )?;
    trace_row(rt, Shape::full(2, 0), 1, 0, b"\0\0\0\0\0\0\0\0")?;
    trace_row(rt, Shape::full(2, 0), 0, 1, b"\x01\0\0\0\0\0\0\0")?;
    trace_row(rt, Shape::full(4, 1), 0, 7, b"\x01\x42\x03\x41\0\0\0\0")?;
    trace_row(rt, half, 0, 3, b"\x41\x03\x40\0\0\0\0\0")?;
    trace_row(rt, half, 3, 0, b"\x41\0\x40\0\0\0\0\0")?;
    trace_row(rt, Shape::full(64, 1), 4095, 0, b"\x40\0\0\0\0\0\0\0")?;
    trace_row(rt, Shape::new(64, 0, 2), 0, 1, b"\x01\0\0\0\0\0\0\0")?;
    trace_row(
        rt,
        Shape::new(12, 3, 2),
        3455,
        1726,
        b"\xc0\x0a\0\0\0\0\0\0",
    )
}

// Arrays that are no routes: a packet is stepped as far as its bytes lead, and reversal refuses.
pub(crate) fn no_routes(rt: &impl Print) -> io::Result<()> {
    let four = Shape::full(4, 1);
    let eight = Shape::full(8, 3);
    trace_row(rt, four, 0, 3, b"\x01\x03\0\0\0\0\0\0")?;
    trace_row(rt, four, 0, 3, b"\x01\x41\0\x40\x03\0\0\0")?;
    trace_row(rt, four, 0, 3, b"\x01\x41\x02\x40\x03\0\0\0")?;
    trace_row(rt, four, 0, 5, b"\x41\x01\x02\0\0\0\0\0")?;
    trace_row(rt, four, 0, 5, b"\x41\x41\0\0\0\0\0\0")?;
    trace_row(rt, four, 5, 5, b"\x41\x41\0\0\0\0\0\0")?;
    trace_row(rt, Shape::new(4, 1, 2), 4, 7, b"\x02\x43\0\0\0\0\0\0")?;
    trace_row(rt, eight, 0, 4095, b"\x01\x41\x81\xc1\x02\x42\x82\xc2")
}
