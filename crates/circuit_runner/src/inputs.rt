ghost use Rattle.std.specs.Prelude.{◌≡◌, ◌<◌, ◌==◌, [], ◌∷◌, ◌++◌, length, map, OnOk, OnErr};
ghost use Rattle.std.specs.Arc.{arc_value};
ghost use Rattle.cipher_spec.specs.Ciphers.{cipher_at};

use bfv_core::Ciphertext;
use std::alloc::{AllocError, Global};
use std::marker::Model;
use std::sync::Arc;

/// The ciphertexts of a circuit's inputs in the order of their nodes, shared with whoever keeps them.
#[derive(Drop)]
pub struct Inputs {
    items: Vec<Arc<Ciphertext>>,
}

impl Model for Inputs {
    ghost use Rattle.std.specs.Prelude.{List, map};
    ghost use Rattle.std.specs.Arc.{arc_value};
    ghost use Rattle.ring_spec.specs.Pairs.{Cipher};

    ghost Value = { List Cipher };

    ghost view = { λ a. map arc_value a.items.items };
}

impl Inputs {
    /// The empty list, which takes no memory.
    pub fn new(alloc: Global) -> Inputs
        ensures { result ≡ [] }
    {
        Inputs {
            items: Vec::new(alloc),
        }
    }

    /// Puts a ciphertext behind the others; where memory is wanting they stay as they were.
    pub fn push(&mut self, item: Arc<Ciphertext>) -> Result<(), AllocError>
        ensures ok { OnOk result (self.new ≡ self.old ++ item.value ∷ []) }
        ensures err { OnErr result (self.new ≡ self.old) }
    {
        self.items.push(item)?;
        Ok(())
    }

    /// The number of ciphertexts.
    pub fn len(&self) -> usize
        ensures { result ≡ length self.now }
    {
        self.items.len()
    }

    /// Whether there is no ciphertext.
    pub fn is_empty(&self) -> bool
        ensures { result ≡ (length self.now == 0) }
    {
        self.items.is_empty()
    }

    /// The ciphertext at a place, which has to be one.
    pub fn at(&self, k: usize) -> &Arc<Ciphertext>
        requires { k < length self.now }
        ensures { result.now.value ≡ cipher_at self.now k }
    {
        &self.items[k]
    }

    /// All ciphertexts.
    pub fn as_slice(&self) -> &[Arc<Ciphertext>]
        ensures { map arc_value result.now ≡ self.now }
    {
        self.items.as_slice()
    }
}
