use thiserror::Error;

/// A place of a circuit that has a bound.
#[derive(Clone, Copy, Debug, PartialEq, Eq)]
pub enum Place {
    /// A node, counted from 0.
    Node(u32),
    /// What is decrypted: the last node with the flood of its decryption.
    Output,
}

/// The first place of a circuit whose noise may be too large.
#[derive(Clone, Copy, Debug, PartialEq, Eq, Error)]
#[error("the noise bound {bound} at {place:?} is above the limit {limit}")]
pub struct Over {
    pub place: Place,
    /// The bound of the place, which is above the limit.
    pub bound: u128,
    /// L, the greatest size of noise under which decryption gives the plaintext.
    pub limit: u64,
}
