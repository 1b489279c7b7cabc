ghost use Rattle.std.specs.Prelude.{◌≡◌, ◌<◌, [], ◌∷◌, ◌++◌, length, slice_index_or, OnOk, OnErr};
ghost use Rattle.session_spec.specs.Settings.{no_offer};

use circuit_form::Circuit;
use param_set::Plains;
use std::alloc::{AllocError, Global};
use std::marker::Model;
use std::sync::Arc;

/// A circuit, and, where the roll tells the parties' seeds, the values of its inputs in their order, each of n
/// coefficients below t. No call of a session reads the values.
#[derive(Drop)]
pub struct Offered {
    pub circuit: Arc<Circuit>,
    pub values: Option<Arc<Plains>>,
}

impl Model for Offered {
    ghost use Rattle.session_spec.specs.Settings.{Offer};
    ghost use Rattle.session_state.specs.Shared.{shared_if};

    ghost Value = { Offer };

    ghost view = { λ a. record { nodes = a.circuit.value; values = shared_if a.values } };
}

/// The circuits of a session, by their numbers.
#[derive(Drop)]
pub struct Circuits {
    items: Vec<Offered>,
}

impl Model for Circuits {
    ghost use Rattle.std.specs.Prelude.{List};
    ghost use Rattle.session_spec.specs.Settings.{Offer};

    ghost Value = { List Offer };

    ghost view = { λ a. a.items.items };
}

impl Circuits {
    /// The empty list, which takes no memory.
    pub fn new(alloc: Global) -> Circuits
        ensures { result ≡ [] }
    {
        Circuits {
            items: Vec::new(alloc),
        }
    }

    /// Puts a circuit behind the others; where memory is wanting it is dropped.
    pub fn push(&mut self, item: Offered) -> Result<(), AllocError>
        ensures ok { OnOk result (self.new ≡ self.old ++ item ∷ []) }
        ensures err { OnErr result (self.new ≡ self.old) }
    {
        self.items.push(item)?;
        Ok(())
    }

    /// The number of circuits.
    pub fn len(&self) -> usize
        ensures { result ≡ length self.now }
    {
        self.items.len()
    }

    /// The circuit with a number, which has to be one.
    pub fn at(&self, number: usize) -> &Offered
        requires { number < length self.now }
        ensures { result.now ≡ slice_index_or self.now number no_offer }
    {
        &self.items[number]
    }
}
