//! What each seat at the table knows. No value of these types is made: they stand in proofs alone.
use std::collections::LinkedList;

/// What one pass or note has seen.
pub struct Sight<F, E> {
    /// The pass's number, from 1 on, and 0 for a note.
    pub number: u64,
    /// The fixed data of the value.
    pub fixed: F,
    /// The entries that the lock began with.
    pub began: LinkedList<E>,
    /// The entries seen behind those.
    pub since: LinkedList<E>,
}

/// How far a seat is with its turn. A ticket is counted without end here, and modulo 2^64 in the lock's words.
pub enum Stage {
    Idle,
    Waiting(u64),
    Acting(u64),
}

/// One sight for a pass or a note. The seat that numbers the passes has those that are not given out,
/// and a seat into which others were joined has theirs too.
pub struct View<F, E> {
    pub sights: LinkedList<Sight<F, E>>,
    pub stage: Stage,
}
