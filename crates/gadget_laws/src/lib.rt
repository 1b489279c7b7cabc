//! What follows from the definitions of the gadget and of key switching.
//!
//! The digits of a residue times their weights sum to it, and none is greater than W. So a switch by a key for
//! z, whose l rows have noise within V, adds at most l * n * W * V to the phase f * z, and a rotation as much to
//! the phase with X^e for X (Fan and Vercauteren 2012, section 4). It holds for every modulus that the gadget
//! serves, and for digits of either kind; only the bound on what a rotation carries asks that n is a power of two.
//! Nothing is said of who makes the keys.
#![tactic(auto)]

pub mod laws;
