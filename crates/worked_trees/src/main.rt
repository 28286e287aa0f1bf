// The worked numbers of the spanning trees, and every refusal's edge, one line a question.
#![tactic(auto)]

// parents.rt: the parent of a server in a tree
mod parents;
// ways.rt: from parent to parent to the source
mod ways;
// whole.rt: trees written whole
mod whole;

use std::io;

fn main(rt: HostRuntime) -> io::Result<()> {
    parents::levels(&rt)?;
    parents::bounds(&rt)?;
    parents::refused(&rt)?;
    parents::edges(&rt)?;
    whole::small(&rt)?;
    whole::large(&rt)?;
    whole::refused(&rt)?;
    ways::farthest(&rt)?;
    ways::greatest(&rt)
}
