//! What the polynomials of a session are; no function stands here.
//!
//! N parties hold a secret, any T of them act. For what a session is about (`Setting`), the parties' seeds and
//! a state of `session_rules` this says what the share of a party is, what the sums of an instance are, the
//! public key, the encryption of each input and each circuit's output (Mouchet et al. 2021; Mouchet, Bertrand
//! and Hubaux 2023; Fan and Vercauteren 2012). A `Store` is the polynomials that a session keeps, and what each
//! call makes of it whatever the shares were; it `IsHonest` where they are those said here. `session_laws`
//! proves that calls with honest shares keep it so, and that answers are the plain values.
#![tactic(auto)]
