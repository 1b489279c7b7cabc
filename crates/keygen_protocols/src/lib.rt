//! The protocols for keys: common polynomials, a party's share, and the key from the sum of the shares.
//!
//! After Mouchet et al. 2021: with the common polynomial a of an instance, a party with part s of the
//! secret and noise e shares -a*s + e, and the sum of all shares with a is a public key of the sum of
//! the parts. Each call gives the value that `bfv_spec` defines, with the words of that instance's
//! stream alone; `specs/Together.antt` says what the sum of honest shares makes. Nothing is said of
//! hiding.
#![tactic(auto)]

mod commons;
mod public_key;

pub use commons::common;
pub use public_key::{pk_key, pk_share};
