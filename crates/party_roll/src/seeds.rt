ghost use Rattle.std.specs.Prelude.{◌≡◌, ℕ, ◌≤◌};
ghost use Rattle.draw_spec.specs.Streams.{party_seed};

use sha2::{Digest, Sha256};

/// The seeds of all parties, from one master seed.
#[derive(Drop)]
pub struct SeedRoll {
    master: [u8; 32],
}

impl SeedRoll {
    /// The roll of a master seed.
    pub fn new(master: [u8; 32]) -> SeedRoll
        ensures { result.master ≡ master }
    {
        SeedRoll { master }
    }

    /// A second roll of the same master seed.
    pub(crate) fn copied(&self) -> SeedRoll
        ensures { result.master ≡ self.now.master }
    {
        SeedRoll {
            master: self.master,
        }
    }

    /// The seed of party p, and with p = 0 the public seed.
    pub fn seed(&self, p: u32) -> [u8; 32]
        requires { p ≤ 255 }
        ensures { result ≡ party_seed self.now.master p }
    {
        let mut hasher = Sha256::new();
        hasher.update(self.master);
        hasher.update([p as u8]);
        hasher.finalize()
    }

    /// The public seed.
    pub fn public(&self) -> [u8; 32]
        ensures { result ≡ party_seed self.now.master 0 }
    {
        self.seed(0)
    }
}
