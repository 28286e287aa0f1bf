// The worked numbers of path bytes and of the step that goes by them, and every refusal's edge, one line a question.
#![tactic(auto)]

// bytes.rt: one path byte
mod bytes;
// hops.rt: one hop
mod hops;
// paths.rt: path bytes read, written, reversed
mod paths;
// steps.rt: the forwarding step
mod steps;
// traces.rt: packets with a whole neighbour table, stepped to their destination
mod traces;

use std::io;

fn main(rt: HostRuntime) -> io::Result<()> {
    bytes::made(&rt)?;
    bytes::parted(&rt)?;
    hops::full(&rt)?;
    hops::half_filled(&rt)?;
    hops::refused(&rt)?;
    hops::refused_bytes(&rt)?;
    hops::back(&rt)?;
    paths::readings(&rt)?;
    paths::refused_readings(&rt)?;
    paths::repeats(&rt)?;
    paths::writings(&rt)?;
    paths::repeated_writings(&rt)?;
    paths::half_filled_readings(&rt)?;
    paths::half_filled_writings(&rt)?;
    steps::steps(&rt)?;
    steps::half_filled(&rt)?;
    traces::steps(&rt)?;
    traces::traces(&rt)?;
    traces::no_routes(&rt)
}
