//! What the definitions say at small numbers: of rings, ciphertexts, sharing, circuits and their noise bounds,
//! tables of instances, settings and stores; no function stands here.
//!
//! Each lemma of `proofs` takes a few numbers and is proved by computing. They were worked out apart from the
//! definitions, so that an index that is off by one, or a case that is missing, shows. A relation is shown at
//! something that keeps it and at something that breaks it, since a relation that nothing meets, or that everything
//! does, would be noticed only so. The words of a stream compute in no theorem: where draws are concerned
//! the lemmas say which seed, which stream and which places they are from.
#![tactic(auto)]
