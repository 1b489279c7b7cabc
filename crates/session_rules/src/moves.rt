use proto_names::{PartySet, Signature};

/// What the rules of issue do in one step.
#[derive(Clone, Copy, Debug, PartialEq, Eq)]
pub enum Move {
    /// A complete first round is given up, because this party is lost.
    GiveUp {
        id: u32,
        by: u32,
    },
    /// The next instance is issued.
    Issue {
        signature: Signature,
        set: PartySet,
        round1: u32,
    },
}
