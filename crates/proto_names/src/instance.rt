use crate::{PartySet, Signature};

/// How far an instance of a protocol has come.
#[derive(Clone, Copy, Debug, PartialEq, Eq)]
pub enum Stage {
    /// Shares of some of its parties are wanted.
    Opened,
    /// It has a share of each of its parties.
    Complete,
    /// It was given up, because party `by` was lost.
    Void { by: u32 },
}

/// An instance of a protocol, without its polynomials.
#[derive(Clone, Copy, Debug, PartialEq, Eq)]
pub struct Instance {
    /// Its number, from 1 on, in the order in which instances are issued.
    pub id: u32,
    pub signature: Signature,
    /// The parties that take part.
    pub set: PartySet,
    /// One more than the number of earlier instances of its signature.
    pub attempt: u32,
    /// The parties whose shares were counted.
    pub sent: PartySet,
    pub stage: Stage,
    /// The instance of the first round whose second round this is, and 0 for all other signatures.
    pub round1: u32,
    /// The place, from 0 on, of the group for which it was issued.
    pub group: u32,
}
