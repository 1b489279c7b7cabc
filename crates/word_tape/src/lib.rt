//! Draws from the ChaCha generator with 20 rounds, one after the other along a stream.
//!
//! A `Tape` stands at a place of a stream of a seed, and contracts see it as just that. Each draw is
//! the one that `draw_spec` defines at the place where the tape stands, and moves the place by the
//! words that it takes, counted modulo 2^68. No draw is rejected. The words are `rand_chacha`'s;
//! nothing is said of how random they are.
#![tactic(auto)]

mod tape;

pub use tape::Tape;
