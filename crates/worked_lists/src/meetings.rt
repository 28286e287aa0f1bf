// Lists of routes that meet, or nearly do, checked: the pair, and the hops of its first meeting.
use crate::checks::{check_row, check_rows};
use room::Shape;
use std::io;

// A server between the ends that is shared while no switch is, and lists that share nothing.
pub(crate) fn shared(rt: &impl Print) -> io::Result<()> {
    let shape = Shape::full(2, 3);
    let table = [0u8; 16];
    check_rows(
        rt,
        shape,
        &table,
        0,
        15,
        &[
            b"\x01\x41\x81\xc1\0\0\0\0\x41\x01\xc1\x81\0\0\0\0",
            b"\x01\x41\x81\xc1\0\0\0\0\x41\x81\xc1\x01\0\0\0\0",
        ],
    )?;
    check_rows(
        rt,
        shape,
        &table,
        0,
        3,
        &[
            b"\x01\x41\0\0\0\0\0\0\x41\x01\0\0\0\0\0\0\x81\x01\x41\x80\0\0\0\0",
            b"\x01\x41\0\0\0\0\0\0\x41\x01\0\0\0\0\0\0\x41\x01\0\0\0\0\0\0\x01\x41\0\0\0\0\0\0",
        ],
    )?;
    let wide = Shape::full(3, 1);
    let healthy = [0u8; 9];
    check_rows(
        rt,
        wide,
        &healthy,
        0,
        8,
        &[
            b"\x01\x41\x02\x42\0\0\0\0\x42\x02\0\0\0\0\0\0",
            b"\x42\x02\0\0\0\0\0\0\x02\x42\0\0\0\0\0\0",
        ],
    )
}

// Two routes that meet more than once, or meet only late: the first one's hop decides, then the other's, whether it is a
// switch or a server that they share.
pub(crate) fn twice(rt: &impl Print) -> io::Result<()> {
    let table = [0u8; 16];
    let deep = Shape::full(2, 3);
    let two = Shape::full(2, 2);
    check_row(
        rt,
        Shape::full(4, 1),
        &table,
        0,
        7,
        b"\x41\x03\0\0\0\0\0\0\x02\x41\x03\0\0\0\0\0",
    )?;
    check_rows(
        rt,
        deep,
        &table,
        0,
        15,
        &[
            b"\x01\x41\x81\xc1\0\0\0\0\x41\x81\x01\xc1\0\0\0\0",
            b"\x01\x41\x81\xc1\0\0\0\0\x41\x01\xc1\x40\xc0\x81\xc1\x41",
        ],
    )?;
    check_rows(
        rt,
        two,
        &[0; 8],
        0,
        7,
        &[
            b"\x81\x41\x01\0\0\0\0\0\x41\x81\x40\x01\x41\0\0\0",
            b"\x41\x81\x40\x01\x41\0\0\0\x81\x41\x01\0\0\0\0\0",
        ],
    )
}

// Three routes and four: the pair decides before the hop does, and every array is read before any pair is held together.
pub(crate) fn pairs(rt: &impl Print) -> io::Result<()> {
    let shape = Shape::full(2, 3);
    let table = [0u8; 16];
    check_rows(
        rt,
        shape,
        &table,
        0,
        15,
        &[
            b"\x01\x41\x81\xc1\0\0\0\0\xc1\x81\x41\x01\0\0\0\0\x41\x01\xc1\x81\0\0\0\0",
            b"\x01\x41\x81\xc1\0\0\0\0\x41\x81\x01\xc1\0\0\0\0\x01\x81\x41\xc1\0\0\0\0",
            b"\x01\x41\x81\xc1\0\0\0\0\xc1\x81\x41\x01\0\0\0\0\xc1\x41\x01\xc0\x81\xc1\0\0",
        ],
    )?;
    check_rows(
        rt,
        shape,
        &table,
        0,
        3,
        &[
            b"\x01\x41\0\0\0\0\0\0\x41\x01\0\0\0\0\0\0\x81\x01\x41\x80\0\0\0\0\xc1\x81\x01\xc0\x41\x80\0\0",
            b"\x01\x41\0\0\0\0\0\0\x01\x41\0\0\0\0\0\0\x81\x01\x80\0\0\0\0\0",
        ],
    )
}

// Routes that meet in half-filled rooms: the first one's hop decides between two switches; a switch before a server, a
// server before a switch by the same hop of the first; a server by hops 2 and 5 and no switch; the last switch of two routes
// of eight hops.
pub(crate) fn half_filled(rt: &impl Print) -> io::Result<()> {
    let three = Shape::new(3, 2, 2);
    let deep = Shape::new(3, 3, 2);
    check_row(
        rt,
        Shape::new(4, 1, 2),
        &[0; 8],
        0,
        7,
        b"\x01\x41\x03\0\0\0\0\0\x41\x02\x40\x03\x41\0\0\0",
    )?;
    check_rows(
        rt,
        three,
        &[0; 18],
        0,
        10,
        &[
            b"\x01\x81\0\0\0\0\0\0\x02\x41\x01\x40\x81\0\0\0",
            b"\x02\x81\x01\0\0\0\0\0\x41\x02\x40\x01\x81\0\0\0",
        ],
    )?;
    check_rows(
        rt,
        deep,
        &[0; 54],
        0,
        53,
        &[
            b"\x41\x02\x82\0\x40\x02\xc1\x42\x01\x41\xc1\x02\xc0\x42\xc1\x82",
            b"\x02\x42\x82\xc1\0\0\0\0\x42\x82\xc1\x02\0\0\0\0\x81\x01\x82\0\x41\xc1\x02\x42\xc1\x41\x81\x42\x02\x40\x82\x42",
        ],
    )
}
