//! Circuits over a session's inputs, and the values that they compute.
//!
//! A `Circuit` is a list of nodes in which each node takes its operands from earlier ones; the last
//! one is its output. `Circuit::new` keeps the rules and names the first node that breaks one. The
//! plain value of a circuit is the polynomial of its output in Z_t\[X\]/(X^n+1), the ring of
//! plaintexts of BFV (Fan and Vercauteren 2012, section 3): callers may rely on it as what an
//! evaluation on ciphertexts has to give. Products are made by transforms modulo one fixed modulus, of
//! which no contract speaks. Nothing is said here of ciphertexts, keys or noise.
#![tactic(auto)]

mod circuit;
mod fault;
mod node;
mod operations;
mod products;
mod readers;
mod reduced;
mod rules;
mod turns;
mod values;
mod wide_ring;

pub use circuit::Circuit;
pub use fault::CircuitFault;
pub use node::Node;
pub use param_set::{Plain, Plains};
pub use values::plain_value;
