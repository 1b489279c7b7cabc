ghost use Rattle.std.specs.Prelude.{◌≡◌, [], ◌∷◌, ◌++◌, length, OnOk, OnErr};

use crate::named_circuit::NamedCircuit;
use std::alloc::{AllocError, Global};
use std::marker::Model;

/// The circuits of a script, in its order.
#[derive(Drop)]
pub struct NamedCircuits {
    items: Vec<NamedCircuit>,
}

impl Model for NamedCircuits {
    ghost use Rattle.std.specs.Prelude.{List};
    ghost use Rattle.session_script.specs.Asked.{Named};

    ghost Value = { List Named };

    ghost view = { λ a. a.items.items };
}

impl NamedCircuits {
    /// The empty list, which takes no memory.
    pub fn new(alloc: Global) -> NamedCircuits
        ensures { result ≡ [] }
    {
        NamedCircuits {
            items: Vec::new(alloc),
        }
    }

    /// Puts a circuit behind the others; where memory is wanting it is dropped.
    pub fn push(&mut self, item: NamedCircuit) -> Result<(), AllocError>
        ensures ok { OnOk result (self.new ≡ self.old ++ item ∷ []) }
        ensures err { OnErr result (self.new ≡ self.old) }
    {
        self.items.push(item)?;
        Ok(())
    }

    /// The number of circuits.
    pub fn len(&self) -> usize
        ensures { result ≡ length self.now }
    {
        self.items.len()
    }

    /// All circuits.
    pub fn as_slice(&self) -> &[NamedCircuit]
        ensures { result.now ≡ self.now }
    {
        self.items.as_slice()
    }
}
