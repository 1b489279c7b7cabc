use mod_ring::Polys;
use proto_names::{Groups, PartySet, Signature};
use std::sync::Arc;

/// What a party is told of an instance, from which it makes its share.
#[derive(Drop)]
pub struct Brief {
    /// The instance's number.
    pub id: u32,
    pub signature: Signature,
    /// The parties that take part.
    pub set: PartySet,
    /// The first round of a second one, and 0 for all other signatures.
    pub round1: u32,
    /// The groups up to the one for which it was issued, which is the last.
    pub groups: Arc<Groups>,
    /// The polynomials that shares are made from: a second round's sums of the first, or the part c1
    /// of the ciphertext to be decrypted.
    pub polys: Polys,
}
