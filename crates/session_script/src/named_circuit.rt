ghost use Rattle.std.specs.Prelude.{◌≡◌, IfOk};
ghost use Rattle.session_script.specs.Asked.{Named};

use crate::circuit_name::CircuitName;
use circuit_form::Circuit;
use param_set::Plains;
use std::alloc::{AllocError, Global};
use std::marker::Model;
use std::sync::Arc;

/// A circuit under its name, with the values of its inputs in the order of their nodes, each of n
/// entries below t.
#[derive(Drop)]
pub struct NamedCircuit {
    name: CircuitName,
    circuit: Arc<Circuit>,
    values: Arc<Plains>,
}

impl Model for NamedCircuit {
    ghost use Rattle.session_script.specs.Asked.{Named};

    ghost Value = { Named };

    ghost view = { λ a. record { name = a.name; nodes = a.circuit.value; values = a.values.value } };
}

impl NamedCircuit {
    pub(crate) fn new(
        alloc: Global,
        name: CircuitName,
        circuit: Circuit,
        values: Plains,
    ) -> Result<NamedCircuit, AllocError>
        ensures name { IfOk result (λ c. c.name ≡ name) }
        ensures nodes { IfOk result (λ c. c.nodes ≡ circuit) }
        ensures values { IfOk result (λ c. c.values ≡ values) }
    {
        Ok(NamedCircuit {
            name,
            circuit: Arc::new(alloc, circuit)?,
            values: Arc::new(alloc, values)?,
        })
    }

    /// The bytes of the name.
    pub fn name(&self) -> &[u8]
        ensures { result.now ≡ self.now.name }
    {
        self.name.as_bytes()
    }

    /// The circuit.
    pub fn circuit(&self) -> &Arc<Circuit>
        ensures { result.now.value ≡ self.now.nodes }
    {
        &self.circuit
    }

    /// The values of its inputs.
    pub fn values(&self) -> &Arc<Plains>
        ensures { result.now.value ≡ self.now.values }
    {
        &self.values
    }
}
