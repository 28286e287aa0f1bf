// The worked numbers of built and selected routes, and every refusal's edge, one line a question.
#![tactic(auto)]

// routes.rt: built routes
mod routes;
// selections.rt: selection
mod selections;

use std::io;

fn main(rt: HostRuntime) -> io::Result<()> {
    routes::built(&rt)?;
    routes::half_filled(&rt)?;
    routes::pairs(&rt)?;
    routes::half_filled_pairs(&rt)?;
    selections::sixteen(&rt)?;
    selections::far(&rt)?;
    selections::half_filled(&rt)?;
    selections::half_filled_deep(&rt)
}
