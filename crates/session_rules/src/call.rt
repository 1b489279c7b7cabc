use crate::Reply;

/// A call on the session. Parties are numbered from 1 to N, instances from 1, circuits and the inputs
/// of a circuit from 0.
#[derive(Clone, Copy, Debug, PartialEq, Eq)]
pub enum Call {
    /// Party p is there from now on.
    Join { p: u32 },
    /// Party p is lost.
    Lose { p: u32 },
    /// What does party p owe?
    Pending { p: u32 },
    /// What is instance `id`?
    Brief { id: u32 },
    /// A share of party p for instance `id`, of so many polynomials.
    Deliver { id: u32, p: u32, rows: u32 },
    /// The encryption of an input.
    Input { circuit: u32, input: u32 },
    /// Is there a circuit to evaluate?
    Take,
    /// The output of a circuit that the caller took.
    Finish { circuit: u32 },
    /// A circuit that the caller took, and didn't evaluate.
    GiveBack { circuit: u32 },
}

/// An entry of the log: who called, what, and the reply.
#[derive(Drop)]
pub struct Entry {
    pub caller: u32,
    pub call: Call,
    pub reply: Reply,
}
