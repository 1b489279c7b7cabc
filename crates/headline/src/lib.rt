//! What a run of a script promises, in one record, and that the serial run keeps it.
//!
//! N parties hold one secret key, any T of them act, and a helper adds up their shares. `specs/Headline.antt`
//! says for a script and any list of calls with their replies what the report of these calls promises: that
//! every aggregate is the sum of one share of each of its T parties, that every answer is the plain value, and
//! that what can be answered is. The law of `laws` says that the calls of the serial run keep it. It holds of
//! scripts whose circuits need no key switch so far. Nothing is said of hiding, nor of parties that cheat.
#![tactic(auto)]

pub mod laws;
