ghost use Rattle.std.specs.Prelude.{◌≡◌, List, [], ◌∷◌, ◌++◌, length, IfOk, OnOk, OnErr};
ghost use Rattle.param_set.specs.Numbers.{numbers_of};

use crate::CircuitState;
use circuit_form::Circuit;
use param_set::{Ids, Params};
use std::alloc::{AllocError, Global};
use std::marker::Model;
use std::sync::Arc;

/// A circuit that others share.
#[derive(Drop)]
pub struct SharedNodes {
    circuit: Arc<Circuit>,
}

impl Model for SharedNodes {
    ghost use Rattle.std.specs.Prelude.{List};
    ghost use Rattle.circuit_form.specs.declared.node.Node.{Node};

    ghost Value = { List Node };

    ghost view = { λ a. a.circuit.value };
}

impl SharedNodes {
    /// One more pointer to a circuit.
    pub fn of(circuit: &Arc<Circuit>) -> Result<SharedNodes, AllocError>
        ensures { IfOk result (λ nodes. nodes ≡ circuit.now.value) }
    {
        Ok(SharedNodes {
            circuit: Arc::try_clone(circuit)?,
        })
    }

    /// The circuit.
    pub fn circuit(&self) -> &Circuit
        ensures { result.now ≡ self.now }
    {
        &self.circuit
    }
}

/// The numbers of a session's parameters.
#[derive(Drop)]
pub struct SessionNumbers {
    params: Params,
}

impl Model for SessionNumbers {
    ghost use Rattle.param_set.specs.Numbers.{Numbers, numbers_of};

    ghost Value = { Numbers };

    ghost view = { λ a. numbers_of a.params };
}

impl SessionNumbers {
    /// Those of some parameters.
    pub fn of(params: &Params) -> SessionNumbers
        ensures { result ≡ numbers_of params.now }
    {
        SessionNumbers { params: *params }
    }

    /// The parameters.
    pub fn params(&self) -> &Params
        ensures { numbers_of result.now ≡ self.now }
    {
        &self.params
    }
}

/// A circuit, as far as the rules look at it.
#[derive(Drop)]
pub struct Plan {
    /// Its nodes, of which the ledger tells the bounds.
    pub nodes: SharedNodes,
    /// The owner of each input.
    pub owners: Ids,
    /// Whether it has a product of two nodes neither of which is a constant.
    pub product: bool,
    /// The g of each of its rotations.
    pub turns: Ids,
    /// How it begins: refused or idle.
    pub opening: CircuitState,
}

/// The circuits of a session, by their numbers.
#[derive(Drop)]
pub struct PlanList {
    items: Vec<Plan>,
}

impl Model for PlanList {
    ghost use Rattle.std.specs.Prelude.{List};
    ghost use Rattle.session_rules.specs.declared.fixed.Plan.{Plan};

    ghost Value = { List Plan };

    ghost view = { λ a. a.items.items };
}

impl PlanList {
    /// The empty list, which takes no memory.
    pub fn new(alloc: Global) -> PlanList
        ensures { result ≡ [] }
    {
        PlanList {
            items: Vec::new(alloc),
        }
    }

    /// Puts a circuit behind the others; where memory is wanting it is dropped.
    pub fn push(&mut self, item: Plan) -> Result<(), AllocError>
        ensures ok { OnOk result (self.new ≡ self.old ++ item ∷ []) }
        ensures err { OnErr result (self.new ≡ self.old) }
    {
        self.items.push(item)?;
        Ok(())
    }

    /// The number of circuits.
    pub fn len(&self) -> usize
        ensures { result ≡ length self.now }
    {
        self.items.len()
    }

    /// All circuits.
    pub fn as_slice(&self) -> &[Plan]
        ensures { result.now ≡ self.now }
    {
        self.items.as_slice()
    }
}

/// What no call of a session changes.
#[derive(Drop)]
pub struct Fixed {
    /// What the ledger makes bounds of.
    pub numbers: SessionNumbers,
    /// T, how many parties act together.
    pub threshold: u32,
    /// l, the rows of the gadget.
    pub rows: u32,
    pub plans: PlanList,
    /// The g of the rotations of the admitted circuits, rising.
    pub turns: Ids,
}
