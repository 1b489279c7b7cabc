//! What is known of the parties' seeds.
ghost use Rattle.std.specs.Prelude.{◌≡◌, ℕ, List, [], Bool, true, false};
ghost use Rattle.draw_spec.specs.Streams.{party_seed};

use crate::seeds::SeedRoll;

/// Tells the public seed of a session, and, where it has them, the seeds of its parties.
pub trait Roll: Drop {
    // The seed from which the common polynomials are drawn.
    ghost public: { Self → List ℕ };

    // Whether the parties' seeds are told.
    ghost tells: { Self → Bool };

    // That of a party, where they are told.
    ghost seed: { Self → ℕ → List ℕ };

    /// The public seed.
    fn public(&self) -> [u8; 32]
        ensures { result ≡ public self.now };
}

impl Roll for SeedRoll {
    ghost public = { λ roll. party_seed roll.master 0 };

    ghost tells = { λ roll. true };

    ghost seed = { λ roll. party_seed roll.master };

    fn public(&self) -> [u8; 32] {
        self.seed(0)
    }
}

/// The public seed alone: nothing is told of the parties' seeds.
#[derive(Drop)]
pub struct NoRoll {
    public: [u8; 32],
}

impl NoRoll {
    /// The roll that tells this public seed.
    pub fn new(public: [u8; 32]) -> NoRoll
        ensures { result.public ≡ public }
    {
        NoRoll { public }
    }
}

impl Roll for NoRoll {
    ghost public = { λ roll. roll.public };

    ghost tells = { λ roll. false };

    ghost seed = { λ roll p. [] };

    fn public(&self) -> [u8; 32] {
        self.public
    }
}
