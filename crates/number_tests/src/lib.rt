//! The tests of the crates of words, numbers and polynomials, each against values from outside.
//!
//! A file a subject, and in `common` the parameters of most. They stand apart from the crates that they are about
//! because a crate with tests is proved twice. No code stands here, and nothing else uses this crate.
#![tactic(auto)]

#[cfg(test)]
mod common;
#[cfg(test)]
mod draws;
#[cfg(test)]
mod edges;
#[cfg(test)]
mod inverses;
#[cfg(test)]
mod parameters;
#[cfg(test)]
mod party_sets;
#[cfg(test)]
mod plain_products;
#[cfg(test)]
mod ring;
#[cfg(test)]
mod schoolbook;
#[cfg(test)]
mod tapes;
#[cfg(test)]
mod transformed;
#[cfg(test)]
mod transforms;
#[cfg(test)]
mod words;
