ghost use Rattle.std.specs.Prelude.{◌≡◌, [], ◌∷◌, ◌++◌, ◌==◌, length, Some, IsSome, OnOk, OnErr, option_copied};
ghost use Rattle.std.specs.List.{find};
ghost use Rattle.party_roll.specs.Values.{is_at};

use crate::placed::Placed;
use param_set::Plain;
use std::alloc::{AllocError, Global};
use std::marker::Model;

/// The values that a party has for the inputs of circuits. Where several are placed at one input the
/// first counts.
#[derive(Drop)]
pub struct Values {
    items: Vec<Placed>,
}

impl Model for Values {
    ghost use Rattle.std.specs.Prelude.{List};
    ghost use Rattle.party_roll.specs.declared.placed.Placed.{Placed};

    ghost Value = { List Placed };

    ghost view = { λ a. a.items.items };
}

impl Values {
    ghost use Rattle.party_roll.specs.Values.{value_in};

    /// No values, which takes no memory.
    pub fn new(alloc: Global) -> Values
        ensures { result ≡ [] }
    {
        Values {
            items: Vec::new(alloc),
        }
    }

    /// Places a value at an input of a circuit; where memory is wanting it is dropped.
    pub fn push(&mut self, circuit: u32, input: u32, value: Plain) -> Result<(), AllocError>
        ensures ok { OnOk result (self.new ≡ self.old ++ record { circuit = circuit; input = input; value = value } ∷ []) }
        ensures err { OnErr result (self.new ≡ self.old) }
    {
        self.items.push(Placed {
            circuit,
            input,
            value,
        })?;
        Ok(())
    }

    /// The number of values.
    pub fn len(&self) -> usize
        ensures { result ≡ length self.now }
    {
        self.items.len()
    }

    /// Whether there is no value.
    pub fn is_empty(&self) -> bool
        ensures { result ≡ (length self.now == 0) }
    {
        self.items.is_empty()
    }

    /// The value for an input of a circuit, which has to have one.
    #[tactic(auto, unfolding(crate::specs::Values::value_in))]
    pub(crate) fn at(&self, circuit: u32, input: u32) -> &Plain
        requires { IsSome (value_in self.now circuit input) }
        ensures { Some result.now ≡ value_in self.now circuit input }
    {
        match first_at(self.items.as_slice(), circuit, input) {
            Some(placed) => &placed.value,
            None => unreachable!(),
        }
    }
}

/// The first value that is placed at an input of a circuit.
fn first_at(all: &[Placed], circuit: u32, input: u32) -> Option<&Placed>
    ensures { option_copied result ≡ find (is_at circuit input) all.now }
{
    all.iter().find(|placed| placed.circuit == circuit && placed.input == input)
}
