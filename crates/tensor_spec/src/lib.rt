//! Definitions of the product of two ciphertexts; no function stands here.
//!
//! After Fan and Vercauteren 2012, section 4: the parts of both, lifted to whole numbers around 0, are multiplied to a
//! triple, each coefficient x of which is replaced by t*x/q rounded to the nearest whole number. The triple's phase has
//! the square of the secret in it, and a relinearisation key brings it back to two parts. Rounding is said by the sign
//! of x, without fractions. `tensor_laws` proves what follows.
#![tactic(auto)]
