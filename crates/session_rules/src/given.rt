ghost use Rattle.std.specs.Prelude.{◌≡◌, ◌<◌, Bool, List, [], ◌∷◌, ◌++◌, false, true, length, replicate, IfOk, slice_index_or, slice_set};
ghost use Rattle.std.specs.List.{list_all};

use std::alloc::{AllocError, Global};
use std::marker::Model;

/// Of each input of a circuit whether it is given.
#[derive(Drop)]
pub struct Given {
    flags: Vec<bool>,
}

impl Model for Given {
    ghost use Rattle.std.specs.Prelude.{List, Bool};

    ghost Value = { List Bool };

    ghost view = { λ a. a.flags.items };
}

impl Given {
    /// So many inputs, none of which is given.
    pub fn none(alloc: Global, inputs: usize) -> Result<Given, AllocError>
        ensures { IfOk result (λ given. given ≡ replicate inputs false) }
    {
        let flags = vec![in alloc; false; inputs]?;
        Ok(Given { flags })
    }

    /// Whether input k is given; an input that isn't there isn't.
    pub fn has(&self, k: u32) -> bool
        ensures { result ≡ slice_index_or self.now k false }
    {
        self.flags.get(k as usize).copied().unwrap_or(false)
    }

    /// Whether all are given.
    pub fn all(&self) -> bool
        ensures { result ≡ list_all (λ b. b) self.now }
    {
        self.flags.iter().all(|flag| *flag)
    }

    /// Input k is given from now on.
    pub fn set(&mut self, k: u32)
        requires { k < length self.old }
        ensures { self.new ≡ slice_set self.old k true }
    {
        self.flags[k as usize] = true;
    }
}
