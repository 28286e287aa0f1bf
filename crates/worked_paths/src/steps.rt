// One forwarding step, with one entry of the neighbour table filled.
use refusals::Refused;
use room::Shape;
use std::io;
use step::{Onward, Step};

// The largest index that a step can be given.
const MOST: usize = 18446744073709551615;

// A step with a table whose entry 65 is filled, the path byte 41.
fn step_row(
    rt: &impl Print,
    shape: Shape,
    here: usize,
    destination: usize,
    index: usize,
    path: &[u8],
    flag: u8,
) -> io::Result<()> {
    let mut table = [0u8; 2048];
    let entry = [2u8, 16, 32, 48, 64, 80, 1, flag];
    table[520] = entry[0];
    table[521] = entry[1];
    table[522] = entry[2];
    table[523] = entry[3];
    table[524] = entry[4];
    table[525] = entry[5];
    table[526] = entry[6];
    table[527] = entry[7];
    print::question(rt, b"step", shape)?;
    print::item(rt, here)?;
    print::item(rt, destination)?;
    print::item(rt, index)?;
    print::bytes(rt, path)?;
    print::item(rt, 2048)?;
    print::item(rt, 65)?;
    print::bytes(rt, &entry)?;
    answered(
        rt,
        step::step_once(shape, here, destination, index, path, &table),
    )
}

// Where a packet goes next.
fn onward(rt: &impl Print, to: Onward) -> io::Result<()> {
    print::text(rt, b" next")?;
    print::item(rt, to.next)?;
    print::text(rt, b" index")?;
    print::item(rt, to.index)?;
    print::text(rt, b" mac")?;
    print::bytes(rt, &to.mac)?;
    print::text(rt, b" port")?;
    print::item(rt, usize::from(to.port))?;
    print::text(rt, b" level")?;
    print::item(rt, to.level)?;
    print::text(rt, b" old")?;
    print::item(rt, to.old)?;
    print::end(rt)
}

// The zeros of a step that goes nowhere.
fn nowhere(rt: &impl Print) -> io::Result<()> {
    print::text(
        rt,
        b" next 0 index 0 mac 000000000000 port 0 level 0 old 0\n",
    )
}

// All that a step answers: zeros beside a refusal or a delivery.
pub(crate) fn answered(rt: &impl Print, answer: Result<Step, Refused>) -> io::Result<()> {
    print::text(rt, b" =")?;
    match answer {
        Ok(Step::Onward(to)) => onward(rt, to),
        Ok(Step::Delivered) => {
            print::text(rt, b" delivered")?;
            nowhere(rt)
        }
        Err(refused) => {
            print::refused_item(rt, refused)?;
            nowhere(rt)
        }
    }
}

// A step taken, a delivery with any index, and every refusal in its order.
pub(crate) fn steps(rt: &impl Print) -> io::Result<()> {
    let four = Shape::full(4, 1);
    step_row(rt, four, 0, 7, 0, b"\x41\x03\0\0\0\0\0\0", 1)?;
    step_row(
        rt,
        Shape::full(8, 3),
        513,
        521,
        1,
        b"\xc1\x41\0\0\0\0\0\0",
        1,
    )?;
    step_row(rt, four, 7, 7, 0, b"\x41\x03\0\0\0\0\0\0", 0)?;
    step_row(rt, four, 7, 7, 8, b"\x41\x03\0\0\0\0\0\0", 1)?;
    step_row(rt, four, 7, 7, MOST, b"\xff\xff\xff\xff\xff\xff\xff\xff", 1)?;
    step_row(rt, Shape::full(9, 3), 0, 0, 0, b"", 1)?;
    step_row(rt, four, 16, 0, 0, b"", 1)?;
    step_row(rt, four, 0, 16, 0, b"", 1)?;
    step_row(rt, four, 7, 7, 0, b"\x41\x03\0\0\0\0\0", 1)?;
    step_row(rt, four, 0, 7, 8, b"\x41\x03\0\0\0\0\0\0", 1)?;
    step_row(rt, four, 0, 7, MOST, b"\x41\x03\0\0\0\0\0\0", 1)?;
    step_row(rt, four, 0, 7, 2, b"\x41\x03\x80\0\0\0\0\0", 1)?;
    step_row(rt, four, 0, 7, 7, b"\x41\x03\0\0\0\0\0\x44", 1)?;
    step_row(rt, four, 4, 7, 0, b"\x41\x03\0\0\0\0\0\0", 1)?;
    step_row(rt, four, 4, 7, 0, b"\x41\x03\0\0\0\0\0\0", 0)?;
    step_row(rt, four, 0, 7, 0, b"\x41\x03\0\0\0\0\0\0", 0)?;
    step_row(rt, four, 0, 7, 0, b"\x41\x03\0\0\0\0\0\0", 2)?;
    step_row(rt, four, 0, 7, 0, b"\x41\x03\0\0\0\0\0\0", 255)?;
    step_row(rt, four, 0, 7, 1, b"\x41\x03\0\0\0\0\0\0", 1)
}

// A step at level k, a delivery, and the edges of 26, 4, 8, 9 and 10.
pub(crate) fn half_filled(rt: &impl Print) -> io::Result<()> {
    let half = Shape::new(4, 1, 2);
    let wide = Shape::new(64, 1, 2);
    step_row(rt, half, 0, 7, 0, b"\x41\x03\0\0\0\0\0\0", 1)?;
    step_row(rt, wide, 63, 127, 0, b"\x41\0\0\0\0\0\0\0", 1)?;
    step_row(rt, half, 7, 7, 0, b"\x42\0\0\0\0\0\0\0", 1)?;
    step_row(rt, half, 0, 7, 0, b"\x42\x03\0\0\0\0\0\0", 1)?;
    step_row(rt, half, 0, 7, 1, b"\x41\x43\0\0\0\0\0\0", 1)?;
    step_row(rt, half, 0, 7, 0, b"\x04\x03\0\0\0\0\0\0", 1)?;
    step_row(rt, half, 0, 7, 0, b"\x03\x41\0\0\0\0\0\0", 1)?;
    step_row(rt, half, 4, 7, 0, b"\x41\x03\0\0\0\0\0\0", 1)?;
    step_row(rt, wide, 0, 127, 0, b"\x7f\0\0\0\0\0\0\0", 1)?;
    step_row(rt, Shape::new(64, 0, 2), 0, 1, 0, b"\x41\0\0\0\0\0\0\0", 1)?;
    step_row(rt, half, 8, 0, 0, b"", 1)?;
    step_row(rt, half, 0, 8, 0, b"", 1)?;
    step_row(rt, Shape::new(4, 1, 1), 8, 8, 0, b"", 1)
}
