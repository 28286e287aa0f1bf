// One question each: its words, and the answer.
use refusals::{Reason, Refused};
use room::{Shape, Switch};
use std::io;
use summary::{clear_link, clear_server, dead_switch, mark_link, mark_server, summarize};

// The largest number that a call can be given.
pub(crate) const MOST: usize = 18446744073709551615;

// The name of a question, its room, its table and its summary.
fn asked(
    rt: &impl Print,
    name: &[u8],
    shape: Shape,
    table: &[u8],
    summary: &[u8],
) -> io::Result<()> {
    print::question(rt, name, shape)?;
    print::bytes(rt, table)?;
    print::bytes(rt, summary)
}

// The table and the summary that a call leaves, or its refusal.
fn left(rt: &impl Print, done: Result<(), Reason>, table: &[u8], summary: &[u8]) -> io::Result<()> {
    match done {
        Ok(()) => {
            print::text(rt, b" =")?;
            print::bytes(rt, table)?;
            print::bytes(rt, summary)?;
            print::end(rt)
        }
        Err(reason) => print::refused(rt, Refused::from(reason)),
    }
}

// A dead switch, none, or the refusal.
fn found(rt: &impl Print, answer: Result<Option<Switch>, Reason>) -> io::Result<()> {
    match answer {
        Ok(Some(switch)) => {
            print::text(rt, b" = level")?;
            print::item(rt, switch.level)?;
            print::text(rt, b" number")?;
            print::item(rt, switch.number)?;
            print::end(rt)
        }
        Ok(None) => print::text(rt, b" = none\n"),
        Err(reason) => print::refused(rt, Refused::from(reason)),
    }
}

// A link marked.
pub(crate) fn mark_row(
    rt: &impl Print,
    shape: Shape,
    table: &mut [u8],
    summary: &mut [u8],
    server: usize,
    level: usize,
) -> io::Result<()> {
    asked(rt, b"mark", shape, &*table, &*summary)?;
    print::item(rt, server)?;
    print::item(rt, level)?;
    let done = mark_link(shape, &mut *table, &mut *summary, server, level);
    left(rt, done, &*table, &*summary)
}

// A link cleared.
pub(crate) fn clear_row(
    rt: &impl Print,
    shape: Shape,
    table: &mut [u8],
    summary: &mut [u8],
    server: usize,
    level: usize,
) -> io::Result<()> {
    asked(rt, b"clear", shape, &*table, &*summary)?;
    print::item(rt, server)?;
    print::item(rt, level)?;
    let done = clear_link(shape, &mut *table, &mut *summary, server, level);
    left(rt, done, &*table, &*summary)
}

// All links of a server marked.
pub(crate) fn mark_server_row(
    rt: &impl Print,
    shape: Shape,
    table: &mut [u8],
    summary: &mut [u8],
    server: usize,
) -> io::Result<()> {
    asked(rt, b"mark_server", shape, &*table, &*summary)?;
    print::item(rt, server)?;
    let done = mark_server(shape, &mut *table, &mut *summary, server);
    left(rt, done, &*table, &*summary)
}

// All links of a server cleared.
pub(crate) fn clear_server_row(
    rt: &impl Print,
    shape: Shape,
    table: &mut [u8],
    summary: &mut [u8],
    server: usize,
) -> io::Result<()> {
    asked(rt, b"clear_server", shape, &*table, &*summary)?;
    print::item(rt, server)?;
    let done = clear_server(shape, &mut *table, &mut *summary, server);
    left(rt, done, &*table, &*summary)
}

// The first dead switch.
pub(crate) fn dead_row(
    rt: &impl Print,
    shape: Shape,
    table: &[u8],
    summary: &[u8],
) -> io::Result<()> {
    asked(rt, b"dead", shape, table, summary)?;
    found(rt, dead_switch(shape, table, summary))
}

// The summary counted afresh.
pub(crate) fn fresh_row(
    rt: &impl Print,
    shape: Shape,
    table: &[u8],
    summary: &mut [u8],
) -> io::Result<()> {
    asked(rt, b"fresh", shape, table, &*summary)?;
    match summarize(shape, table, &mut *summary) {
        Ok(()) => {
            print::text(rt, b" =")?;
            print::bytes(rt, &*summary)?;
            print::end(rt)
        }
        Err(reason) => print::refused(rt, Refused::from(reason)),
    }
}

// The first dead switch, the buffers being as many zeros as their lengths say.
pub(crate) fn zeros_row(
    rt: &impl Print,
    shape: Shape,
    table: &[u8],
    summary: &[u8],
) -> io::Result<()> {
    print::question(rt, b"zeros", shape)?;
    print::item(rt, table.len())?;
    print::item(rt, summary.len())?;
    found(rt, dead_switch(shape, table, summary))
}

// All links of a server marked twice and cleared twice; the dead switch is asked for in between.
fn server_turn_rows(
    rt: &impl Print,
    shape: Shape,
    table: &mut [u8],
    summary: &mut [u8],
    server: usize,
) -> io::Result<()> {
    mark_server_row(rt, shape, &mut *table, &mut *summary, server)?;
    mark_server_row(rt, shape, &mut *table, &mut *summary, server)?;
    dead_row(rt, shape, &*table, &*summary)?;
    clear_server_row(rt, shape, &mut *table, &mut *summary, server)?;
    clear_server_row(rt, shape, &mut *table, &mut *summary, server)
}

// The same of one link, and then of all links of its server.
pub(crate) fn turn_rows(
    rt: &impl Print,
    shape: Shape,
    table: &mut [u8],
    summary: &mut [u8],
    server: usize,
    level: usize,
) -> io::Result<()> {
    mark_row(rt, shape, &mut *table, &mut *summary, server, level)?;
    mark_row(rt, shape, &mut *table, &mut *summary, server, level)?;
    dead_row(rt, shape, &*table, &*summary)?;
    clear_row(rt, shape, &mut *table, &mut *summary, server, level)?;
    clear_row(rt, shape, &mut *table, &mut *summary, server, level)?;
    server_turn_rows(rt, shape, &mut *table, &mut *summary, server)
}

// A table counted afresh, and its first dead switch.
pub(crate) fn table_rows(
    rt: &impl Print,
    shape: Shape,
    table: &[u8],
    summary: &mut [u8],
) -> io::Result<()> {
    fresh_row(rt, shape, table, &mut *summary)?;
    dead_row(rt, shape, table, &*summary)
}

// All six questions, with the same room, buffers, server and level.
pub(crate) fn six_rows(
    rt: &impl Print,
    shape: Shape,
    table: &mut [u8],
    summary: &mut [u8],
    server: usize,
    level: usize,
) -> io::Result<()> {
    mark_row(rt, shape, &mut *table, &mut *summary, server, level)?;
    clear_row(rt, shape, &mut *table, &mut *summary, server, level)?;
    mark_server_row(rt, shape, &mut *table, &mut *summary, server)?;
    clear_server_row(rt, shape, &mut *table, &mut *summary, server)?;
    dead_row(rt, shape, &*table, &*summary)?;
    fresh_row(rt, shape, &*table, &mut *summary)
}
