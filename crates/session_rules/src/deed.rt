ghost use Rattle.std.specs.Prelude.{◌≡◌};
ghost use Rattle.session_rules.specs.Deeds.{is_nothing, counts_for};

use crate::{CircuitState, Reply};
use proto_names::Instance;

/// What a call does to the state of a session.
#[derive(Clone, Copy, Debug, PartialEq, Eq)]
pub enum Deed {
    /// Nothing: the call is refused, or only asks.
    Nothing,
    /// Party p is present from now on.
    Joins { p: u32 },
    /// Party p is absent from now on.
    Loses { p: u32 },
    /// The share of party p is counted for an instance, which is told as it was before.
    Counts { instance: Instance, p: u32 },
    /// An input is given from now on.
    Gives { circuit: u32, input: u32 },
    /// A circuit comes to a state.
    Turns { circuit: u32, to: CircuitState },
}

impl Deed {
    /// Whether nothing is done.
    pub fn is_nothing(&self) -> bool
        ensures { result ≡ is_nothing self.now }
    {
        matches!(self, Deed::Nothing)
    }

    /// The instance for which a share is counted.
    pub fn counts(&self) -> Option<Instance>
        ensures { result ≡ counts_for self.now }
    {
        match self {
            Deed::Counts { instance, .. } => Some(*instance),
            _ => None,
        }
    }
}

/// What the rules say to a call, found out before anything is changed: the reply, and what is done.
#[derive(Drop)]
pub struct Verdict {
    pub reply: Reply,
    pub deed: Deed,
}
