//! What follows from the definitions, whatever is called: each function states a law, and does nothing.
ghost use Rattle.key_laws.specs.Noise.{RelinKeysAreKeys, RotationKeysAreKeys};
ghost use Rattle.key_laws.specs.Shapes.{FirstSharesFit, RotationSharesFit, SecondSharesFit};

/// The sums of honest shares are keys: for the secret with X^e for X, and for its square.
pub fn keys()
    ensures rotations { RotationKeysAreKeys }
    ensures relinearisation { RelinKeysAreKeys }
{}

/// Honest shares have as many rows as they should, each of the ring.
pub fn shapes()
    ensures rotations { RotationSharesFit }
    ensures first_round { FirstSharesFit }
    ensures second_round { SecondSharesFit }
{}
