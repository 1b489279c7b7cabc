//! What the definitions of those that act, of a report and of the program say at short scripts and few bytes; no
//! function stands here.
//!
//! Each lemma of `proofs` is proved by computing, and each relation is shown at something that keeps it and at
//! something that breaks it. A digest computes in no theorem: a whole report stands here only where nothing was
//! evaluated and no instance is complete, and of a digest the bytes that it is of. Nor does the root of a script's
//! parameters: what is owed for a script that is taken is shown for any bytes that spell it.
#![tactic(auto)]
