//! What follows from the definitions of threshold sharing; no function stands here.
//!
//! For a set of as many parties as the threshold, the parts sum to the secret, whatever the seeds;
//! and the secret has size at most the number of parties. The argument is Lagrange interpolation at
//! 0 modulo q. Of q it uses only that none of 2 to 32 divides it, not that it is prime; it stands in
//! docs/MATHEMATICS.md. The streams of a seed that serve different purposes differ. Nothing is said of hiding.
#![tactic(auto)]
