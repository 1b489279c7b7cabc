//! A party that has no memory for what it is to make.
ghost use Rattle.std.specs.Prelude.{[], false};

use mod_ring::{Ciphertext, PublicKey, Ring};
use param_set::Params;
use party_roll::Party;
use session_core::{Brief, Share};
use std::alloc::{AllocError, Global};

/// A party that makes nothing.
#[derive(Drop)]
pub struct Short {
    pub params: Params,
    pub number: u32,
}

impl Party for Short {
    ghost params = { λ party. party.params };

    ghost number = { λ party. party.number };

    ghost public = { λ party. [] };

    ghost tells = { λ party. false };

    ghost seeds = { λ party. [] };

    ghost values = { λ party. [] };

    fn number(&self) -> u32 {
        self.number
    }

    fn share(&self, _alloc: Global, _ring: &Ring, _brief: &Brief) -> Result<Share, AllocError> {
        Err(AllocError)
    }

    fn input(
        &self,
        _alloc: Global,
        _ring: &Ring,
        _key: &PublicKey,
        _circuit: u32,
        _input: u32,
    ) -> Result<Ciphertext, AllocError> {
        Err(AllocError)
    }
}
