ghost use Rattle.std.specs.Prelude.{◌≡◌, IfOk};

use std::alloc::{AllocError, Global};
use std::marker::Model;

/// The bytes of a circuit's name.
#[derive(Drop)]
pub(crate) struct CircuitName {
    bytes: Vec<u8>,
}

impl Model for CircuitName {
    ghost use Rattle.std.specs.Prelude.{ℕ, List};

    ghost Value = { List ℕ };

    ghost view = { λ a. a.bytes.items };
}

impl CircuitName {
    pub(crate) fn copied(alloc: Global, word: &[u8]) -> Result<CircuitName, AllocError>
        ensures { IfOk result (λ name. name ≡ word.now) }
    {
        Ok(CircuitName {
            bytes: Vec::from_slice(alloc, word)?,
        })
    }

    pub(crate) fn as_bytes(&self) -> &[u8]
        ensures { result.now ≡ self.now }
    {
        self.bytes.as_slice()
    }
}
