//! Polynomials of the ring whose coefficients are drawn along a stream.
//!
//! Each call draws a coefficient after the other, the constant first, gives the polynomial that
//! `bfv_spec` defines at the place where the tape stood, and leaves the tape behind the words that it
//! took. Where memory is wanting nothing was drawn: the polynomial's memory is taken before the first
//! word.
#![tactic(auto)]

mod fill;
mod sample;

pub use sample::{small, ternary, uniform, wide};
