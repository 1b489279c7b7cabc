//! Definitions of every random draw: which words of which stream of which seed give which number.
//!
//! A draw is a function of a seed of 32 bytes, the number of a stream and a place in it, over the
//! words of the ChaCha generator with 20 rounds as `rand_chacha` defines them. Which stream serves
//! which purpose is this project's own choice, and stands in docs/FORMATS.md. No function stands
//! here, and nothing is said of how good the draws are.
#![tactic(auto)]
