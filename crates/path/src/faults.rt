// Why a route does not take a hop.
ghost use Rattle.std.specs.Prelude.{◌≡◌};
ghost use Rattle.refusals.specs.Refusals.{refused_at, with_earlier};
ghost use Rattle.refusals.specs.Reasons.{number_of, refusal_of};
ghost use Rattle.path.specs.Inside.{no_try};

use refusals::{Reason, Refused};

// Why a route does not take a hop, and the earlier hop that this names, or 0.
#[derive(Clone, Copy)]
pub(crate) struct Fault {
    pub(crate) reason: Reason,
    pub(crate) earlier: usize,
}

impl Fault {
    // The refusal of route 1 at a hop.
    pub(crate) fn at(self, hop: usize) -> Refused
        ensures { refusal_of result ≡ with_earlier 0 self.earlier (refused_at (number_of self.reason) 1 hop) }
    {
        Refused::at(self.reason, 1, hop).with_earlier(0, self.earlier)
    }
}

// A reason that names no earlier hop.
impl From<Reason> for Fault {
    ghost from_gives = { λ reason fault. no_try fault.earlier (number_of fault.reason) ≡ no_try 0 (number_of reason) };

    fn from(reason: Reason) -> Self {
        Self { reason, earlier: 0 }
    }
}
