//! How much noise the nodes of a circuit have at most, and which circuits are admitted.
//!
//! Each kind of node has a bound that is computed from those of its operands, for all draws: the row
//! functions give them in whole numbers, as docs/MATHEMATICS.md, 'Noise bounds', derives them from
//! the scheme of Fan and Vercauteren 2012. `admit` walks a circuit and tells the output's bound, or
//! the first place whose bound is above L, under which decryption gives the value; `admit_for` does so
//! where another number of parties act together. Callers may rely on these numbers alone: that a
//! ciphertext's noise keeps within them is said where ciphertexts are.
#![tactic(auto)]

mod bounds;
mod gadget;
mod ledger;
mod over;
mod products;

pub use bounds::{
    const_bound, input_bound, mul_bound, neg_bound, output_bound, plain_mul_bound, rot_bound,
    sum_bound,
};
pub use ledger::{admit, admit_for};
pub use over::{Over, Place};
