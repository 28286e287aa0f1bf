// The worked numbers of lists of routes, and every refusal's edge, one line a question.
#![tactic(auto)]

// checks.rt: lists checked
mod checks;
// meetings.rt: lists whose routes meet
mod meetings;
// picks.rt: a route picked from two lists
mod picks;

use std::io;

fn main(rt: HostRuntime) -> io::Result<()> {
    checks::healthy(&rt)?;
    meetings::shared(&rt)?;
    meetings::twice(&rt)?;
    meetings::pairs(&rt)?;
    checks::repeats(&rt)?;
    checks::failed(&rt)?;
    checks::half_filled(&rt)?;
    checks::half_filled_levels(&rt)?;
    meetings::half_filled(&rt)?;
    picks::picks(&rt)?;
    picks::half_filled(&rt)
}
