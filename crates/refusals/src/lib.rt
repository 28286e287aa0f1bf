// Refusals: why a call did not answer, and where. Every number of the library stands here.
#![tactic(auto)]

ghost use Rattle.std.specs.Prelude.{◌≡◌, Some};
ghost use Rattle.refusals.specs.Reasons.{number_of, refusal_of};
ghost use Rattle.refusals.specs.Refusals.{plain, refused_at, of_route, with_earlier};
ghost use Rattle.refusals.specs.Shown.{reason_text, names_earlier, refused_text};

use std::error::Error;
use std::fmt;

// Why a call did not answer: a reason for each number of the rules. 12 is retired: 28 and 29 stand in its place.
#[derive(Clone, Copy, Debug, PartialEq, Eq)]
pub enum Reason {
    // n is not among 2 to 64.
    Ports = 1,
    // k is above 3.
    Levels = 2,
    // The room has more than 4,096 servers.
    Servers = 3,
    // An address is not below the number of servers.
    Address = 4,
    // Source and destination are the same server, or the source is the server whose parent is asked for.
    SameEnds = 5,
    // The failed-link table has not a byte for each server, or a bit above k is set.
    Table = 6,
    // A list is not whole arrays, or too many of them, or none to check; an array is not 8 bytes.
    List = 7,
    // A path byte's digit position is above k.
    Position = 8,
    // A path byte's value is not below its digit's bound.
    Value = 9,
    // A hop changes nothing.
    NoChange = 10,
    // A hop crosses a failed link.
    FailedLink = 11,
    // Eight hops, and not arrived.
    NotArrived = 13,
    // A byte after arrival is not zero.
    AfterArrival = 14,
    // Two routes are not parallel.
    NotParallel = 15,
    // There is no route to give.
    NoRoute = 16,
    // The neighbour table is not 2,048 bytes.
    NeighbourTable = 17,
    // The next hop index is 8 or more, away from the destination.
    HopIndex = 18,
    // The next neighbour is not available.
    Unavailable = 19,
    // A level is above k, or a tree is.
    Level = 20,
    // A digit is not below its bound, or a place above k is not zero.
    Digit = 21,
    // Fewer than 2 servers to write, or more than 9.
    ServerCount = 22,
    // Two servers in a row are not neighbours.
    NotNeighbours = 23,
    // m is below 2 or above n.
    Fill = 26,
    // A hop meets a server that is already on the route.
    ServerAgain = 28,
    // A hop uses a switch that is already on the route.
    SwitchAgain = 29,
    // A summary has not an entry for each switch, or an entry is not what the failed-link table counts.
    Summary = 30,
}

impl Reason {
    // The number of the rules.
    pub fn number(self) -> usize
        ensures { result ≡ number_of self }
    {
        self as usize
    }
}

// "refused NUMBER".
impl fmt::Display for Reason {
    ghost output = { λ r. Some (reason_text r) };

    fn fmt<W: fmt::Write>(&self, f: &mut fmt::Formatter<W>) -> fmt::Result {
        write!(f, "refused {}", self.number())
    }
}

impl Error for Reason {}

// Why a call did not answer, and where: the reason; the route and hop where it arose, counted from 1; and the
// earlier route and hop that it names beside them. ServerAgain and SwitchAgain name an earlier hop of the same route,
// hop 0 being its source; NotParallel a hop of an earlier route. What is not named is zero.
#[derive(Clone, Copy, Debug, PartialEq, Eq)]
pub struct Refused {
    pub reason: Reason,
    pub route: usize,
    pub hop: usize,
    pub earlier_route: usize,
    pub earlier_hop: usize,
}

impl Refused {
    // The refusal that arose at a hop of a route.
    pub fn at(reason: Reason, route: usize, hop: usize) -> Self
        ensures { refusal_of result ≡ refused_at (number_of reason) route hop }
    {
        Self {
            route,
            hop,
            ..Self::from(reason)
        }
    }

    // The same refusal, of another route.
    pub fn of_route(self, route: usize) -> Self
        ensures { refusal_of result ≡ of_route route (refusal_of self) }
    {
        Self { route, ..self }
    }

    // The same refusal, with an earlier route and hop beside its own.
    pub fn with_earlier(self, route: usize, hop: usize) -> Self
        ensures { refusal_of result ≡ with_earlier route hop (refusal_of self) }
    {
        Self {
            earlier_route: route,
            earlier_hop: hop,
            ..self
        }
    }

    // Whether an earlier hop is shown: by its reason, or because it is not zero.
    fn names_earlier(&self) -> bool
        ensures { result ≡ names_earlier self.now }
    {
        match self.reason {
            Reason::NotParallel | Reason::ServerAgain | Reason::SwitchAgain => true,
            _ => self.earlier_route != 0 || self.earlier_hop != 0,
        }
    }
}

// The refusal of a call as a whole: no route and no hop.
impl From<Reason> for Refused {
    ghost from_gives = { λ reason refused. refusal_of refused ≡ plain (number_of reason) };

    fn from(reason: Reason) -> Self {
        Self {
            reason,
            route: 0,
            hop: 0,
            earlier_route: 0,
            earlier_hop: 0,
        }
    }
}

// "refused NUMBER", with route and hop where they are not zero, and the earlier hop where one is named.
impl fmt::Display for Refused {
    ghost output = { λ r. Some (refused_text r) };

    fn fmt<W: fmt::Write>(&self, f: &mut fmt::Formatter<W>) -> fmt::Result {
        write!(f, "{}", self.reason)?;
        if self.route != 0 {
            write!(f, " route {} hop {}", self.route, self.hop)?;
        }
        if self.names_earlier() {
            f.write_str(" earlier")?;
            if self.earlier_route != 0 {
                write!(f, " route {}", self.earlier_route)?;
            }
            write!(f, " hop {}", self.earlier_hop)?;
        }
        Ok(())
    }
}

impl Error for Refused {}
