//! The parameters of a session, checked once, and the plaintexts over them.
//!
//! `Params` has the numbers of BFV (Fan and Vercauteren 2012) and of the sharing among the parties,
//! and each value of the type keeps the rules that the crates above rest on: the degree n is a power
//! of two, the modulus q is odd and has no factor up to 32, psi^n is -1 modulo q, the threshold is at
//! most the number of parties. `Params::check` takes exactly the numbers that keep all rules, and
//! names the first field that doesn't. q need not be prime. A `Plain` is a list of coefficients,
//! lowest degree first, and a `Plains` a list of those. Nothing is said of security.
#![tactic(auto)]

mod fault;
mod ids;
mod params;
mod plain;
mod raw;
mod root;
mod rules;

pub use fault::ParamFault;
pub use ids::{Ids, Slots};
pub use params::Params;
pub use plain::{Plain, Plains};
pub use raw::{Field, RawParams};
