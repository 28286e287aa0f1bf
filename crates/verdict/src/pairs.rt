// Every two routes held against each other.
ghost use Rattle.std.specs.Prelude.{◌≡◌, ◌≤◌, ◌<◌, ◌+◌, map, length, take, drop, get_or};
ghost use Rattle.refusals.specs.Reasons.{told_where};
ghost use Rattle.path.specs.Answers.{the_walk};
ghost use Rattle.verdict.specs.Checks.{hops_in, met_at, first_meeting, first_pair};
ghost use Rattle.verdict.specs.Arrived.{Arrived, AllArrived, past_end, first_met, meeting_of};

use crate::Meeting;
use path::{Walked, place_in};
use refusals::{Reason, Refused};

// Hop i uses the switch used[i] and leads to the server met[i]; the last leads to none of them. The first hop that uses
// a switch or leads to a server. Past all where none does.
fn first_met(used: &[usize], met: &[usize], switch: usize, server: usize) -> usize
    requires { length used.now ≡ length met.now + 1 }
    ensures { result ≡ first_met used.now met.now switch server }
{
    for (i, leads) in met.iter().enumerate() {
        if used[i] == switch {
            return i;
        }
        if *leads == server {
            return i;
        }
    }
    let last = met.len();
    if used[last] == switch {
        return last;
    }
    last + 1
}

// The place of the first hop of the other walked array that meets the hop at place i of this one: it uses its switch, or
// leads to its server, which is no end. Past all where none does.
fn met_at(one: Walked, other: Walked, i: usize) -> usize
    requires { Arrived (the_walk one) × Arrived (the_walk other) × (i < hops_in (the_walk one)) }
    ensures { result ≡ met_at (the_walk one) (the_walk other) i }
{
    let last = other.count - 1;
    let used = one.switches;
    let other_used = other.switches;
    let next = i + 1;
    if next < one.count - 1 {
        let met = one.servers;
        let other_met = other.servers;
        return first_met(&other_used[..last], &other_met[1..last], used[i], met[next]);
    }
    place_in(&other_used[..last], used[i])
}

// The hops where two walked arrays first meet, by the first one's, then the other's; none where they are parallel.
fn meeting_of(one: Walked, other: Walked) -> Option<Meeting>
    requires { Arrived (the_walk one) × Arrived (the_walk other) }
    ensures { result ≡ meeting_of (the_walk one) (the_walk other) }
{
    let hops = one.count - 1;
    let other_hops = other.count - 1;
    for i in 0..hops {
        let place = met_at(one, other, i);
        if place < other_hops {
            return Some(Meeting {
                first: i + 1,
                later: place + 1,
            });
        }
    }
    None
}

// The walked arrays of a list, in list order, each of which arrived.
#[derive(Drop)]
pub(crate) struct Walks {
    pub(crate) walks: [Walked; 4],
    pub(crate) count: usize,
    ghost few: { count ≤ 4 },
    ghost arrived: { AllArrived count walks },
}

impl Walks {
    // The first of the walked arrays after place i that is not parallel to the one at i: 15.
    fn first_meeting(&self, i: usize) -> Result<(), Refused>
        requires { i < self.now.count }
        ensures { told_where result ≡ first_meeting (i + 1) (the_walk (get_or self.now.walks i past_end)) (i + 1 + 1) (drop (i + 1) (map the_walk (take self.now.count self.now.walks))) }
    {
        let one = self.walks[i];
        for j in i + 1..self.count {
            if let Some(meeting) = meeting_of(one, self.walks[j]) {
                let refused = Refused::at(Reason::NotParallel, j + 1, meeting.later);
                return Err(refused.with_earlier(i + 1, meeting.first));
            }
        }
        Ok(())
    }

    // The first pair of the walked arrays that is not parallel, by first, then second: 15.
    pub(crate) fn first_pair(&self) -> Result<(), Refused>
        ensures { told_where result ≡ first_pair 1 (map the_walk (take self.now.count self.now.walks)) }
    {
        for i in 0..self.count {
            self.first_meeting(i)?;
        }
        Ok(())
    }
}
