// One question each, printed with its answer.
use refusals::Refused;
use room::Shape;
use std::io;

// The largest number that a call can be given.
pub(crate) const MOST: usize = 18446744073709551615;

// How many servers a room has.
pub(crate) fn servers_row(rt: &impl Print, shape: Shape) -> io::Result<()> {
    print::question(rt, b"servers", shape)?;
    print::answer(rt, room::servers_of(shape))
}

// What the digit of a level is below.
pub(crate) fn bound_row(rt: &impl Print, shape: Shape, level: usize) -> io::Result<()> {
    print::question(rt, b"bound", shape)?;
    print::item(rt, level)?;
    print::answer(rt, room::bound_of(shape, level))
}

// The four places of an address.
pub(crate) fn digits_row(rt: &impl Print, shape: Shape, server: usize) -> io::Result<()> {
    print::question(rt, b"digits", shape)?;
    print::item(rt, server)?;
    match room::digits_of(shape, server) {
        Ok(places) => {
            print::text(rt, b" =")?;
            print::all(rt, &places)?;
            print::end(rt)
        }
        Err(reason) => print::refused(rt, Refused::from(reason)),
    }
}

// The digit of a server at a level.
pub(crate) fn digit_row(
    rt: &impl Print,
    shape: Shape,
    server: usize,
    level: usize,
) -> io::Result<()> {
    print::question(rt, b"digit", shape)?;
    print::item(rt, server)?;
    print::item(rt, level)?;
    print::answer(rt, room::digit_of(shape, server, level))
}

// The server that has four places.
pub(crate) fn address_row(rt: &impl Print, shape: Shape, places: [usize; 4]) -> io::Result<()> {
    print::question(rt, b"address", shape)?;
    print::all(rt, &places)?;
    print::answer(rt, room::address_of(shape, places))
}

// The switch of a server at a level.
pub(crate) fn switch_row(
    rt: &impl Print,
    shape: Shape,
    server: usize,
    level: usize,
) -> io::Result<()> {
    print::question(rt, b"switch", shape)?;
    print::item(rt, server)?;
    print::item(rt, level)?;
    match room::switch_of(shape, server, level) {
        Ok(switch) => {
            print::text(rt, b" = level")?;
            print::item(rt, switch.level)?;
            print::text(rt, b" number")?;
            print::item(rt, switch.number)?;
            print::end(rt)
        }
        Err(reason) => print::refused(rt, Refused::from(reason)),
    }
}

// How many switches a level has.
pub(crate) fn switches_row(rt: &impl Print, shape: Shape, level: usize) -> io::Result<()> {
    print::question(rt, b"switches", shape)?;
    print::item(rt, level)?;
    print::answer(rt, room::switches_of(shape, level))
}

// The server at a port of a switch.
pub(crate) fn server_row(
    rt: &impl Print,
    shape: Shape,
    level: usize,
    switch: usize,
    port: usize,
) -> io::Result<()> {
    print::question(rt, b"server", shape)?;
    print::item(rt, level)?;
    print::item(rt, switch)?;
    print::item(rt, port)?;
    print::answer(rt, room::server_at(shape, level, switch, port))
}

// The neighbour that has a value at a level.
pub(crate) fn neighbour_row(
    rt: &impl Print,
    shape: Shape,
    server: usize,
    level: usize,
    value: usize,
) -> io::Result<()> {
    print::question(rt, b"neighbour", shape)?;
    print::item(rt, server)?;
    print::item(rt, level)?;
    print::item(rt, value)?;
    print::answer(rt, room::neighbour_of(shape, server, level, value))
}

// The level at which two servers are neighbours.
pub(crate) fn between_row(
    rt: &impl Print,
    shape: Shape,
    one: usize,
    other: usize,
) -> io::Result<()> {
    print::question(rt, b"between", shape)?;
    print::item(rt, one)?;
    print::item(rt, other)?;
    match room::level_between(shape, one, other) {
        Ok(Some(level)) => {
            print::text(rt, b" = level")?;
            print::item(rt, level)?;
            print::end(rt)
        }
        Ok(None) => print::text(rt, b" = no neighbours\n"),
        Err(reason) => print::refused(rt, Refused::from(reason)),
    }
}
