// The worked numbers of the room and of its failed-link table, and every refusal's edge, one line a question.
#![tactic(auto)]

// halves.rt: half-filled rooms
mod halves;
// rooms.rt: full rooms, their shapes, addresses, switches, neighbours
mod rooms;
// rows.rt: one question each
mod rows;
// tables.rt: the failed-link table
mod tables;

use std::io;

fn main(rt: HostRuntime) -> io::Result<()> {
    rooms::shapes(&rt)?;
    rooms::digits(&rt)?;
    rooms::addresses(&rt)?;
    rooms::switches(&rt)?;
    rooms::ports(&rt)?;
    rooms::neighbours(&rt)?;
    halves::shapes(&rt)?;
    halves::fills(&rt)?;
    halves::bounds(&rt)?;
    halves::digits(&rt)?;
    halves::addresses(&rt)?;
    halves::switches(&rt)?;
    halves::ports(&rt)?;
    halves::neighbours(&rt)?;
    tables::asked(&rt)?;
    tables::refusals(&rt)?;
    tables::half_filled(&rt)
}
