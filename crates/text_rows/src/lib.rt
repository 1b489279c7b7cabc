//! What the definitions of scripts and of the lines of a report say at short texts; no function stands here.
//!
//! Each lemma of `proofs` takes one text, one call or one instance, and is proved by computing. What accepted scripts
//! keep is shown at one that keeps it and at some that don't. A whole script is read from its seed on: the root of
//! its parameters is a power with a large exponent, so no theorem computes it.
#![tactic(auto)]
