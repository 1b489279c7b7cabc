use crate::poly::Poly;
use std::marker::Model;

/// A ciphertext (c0, c1): its phase under the secret s is c0 + c1 * s.
#[derive(Drop)]
pub struct Ciphertext {
    pub c0: Poly,
    pub c1: Poly,
}

impl Model for Ciphertext {
    ghost use Rattle.ring_spec.specs.Pairs.{Cipher};

    ghost Value = { Cipher };

    ghost view = { λ a. record { c0 = a.c0; c1 = a.c1 } };
}

/// A public key (p0, p1), where p0 + p1 * s is small for the secret s.
#[derive(Drop)]
pub struct PublicKey {
    pub p0: Poly,
    pub p1: Poly,
}

impl Model for PublicKey {
    ghost use Rattle.ring_spec.specs.Pairs.{Key};

    ghost Value = { Key };

    ghost view = { λ a. record { p0 = a.p0; p1 = a.p1 } };
}
