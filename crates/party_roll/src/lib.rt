//! The parties of a session: their seeds, and the honest work of one of them.
//!
//! A `SeedRoll` tells every party's seed: the SHA-256 (FIPS 180-4) of the master seed's 32 bytes
//! followed by the party's number as one byte, and with the number 0 the public seed, from which the
//! common polynomials are drawn. A `JointDealing` is the sum of what all parties of a roll deal (Shamir
//! 1979, over the ring), of which a `SeedParty` has the value at its point. It makes its shares of public
//! keys and of decryptions (its share of the secret times its Lagrange coefficient for the set, then the
//! noise of that instance's stream), and encrypts its inputs. Nothing is said of how secret a seed is.
#![tactic(auto)]

mod joint;
mod party;
mod placed;
mod roll;
mod seed_party;
mod seeds;
mod values;

pub use joint::JointDealing;
pub use party::Party;
pub use placed::Placed;
pub use roll::{NoRoll, Roll};
pub use seed_party::SeedParty;
pub use seeds::SeedRoll;
pub use values::Values;
