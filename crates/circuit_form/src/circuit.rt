ghost use Rattle.std.specs.Prelude.{◌≡◌, ◌<◌, ◌≤◌, List, length, IfOk, IfErr, Some, None};
ghost use Rattle.std.specs.List.{slice_get};
ghost use Rattle.std.specs.Option.{option_copied};
ghost use Rattle.circuit_form.specs.declared.node.Node.{Node};
ghost use Rattle.circuit_form.specs.Circuits.{first_fault, owners, has_product, has_rot};

use crate::fault::CircuitFault;
use crate::node::Node;
use crate::readers::{inputs_in, is_full, is_turn, owner_in};
use crate::rules::first_fault;
use param_set::Params;
use std::marker::Model;

/// A list of 1 to 256 nodes, each of which takes its operands from earlier ones. Its output is the
/// last one.
#[derive(Drop)]
pub struct Circuit {
    pub(crate) nodes: Vec<Node>,
}

impl Model for Circuit {
    ghost Value = { List Node };

    ghost view = { λ c. c.nodes.items };

    ghost invariant = { λ c. (0 < length c.nodes.items) × (length c.nodes.items ≤ 256) };
}

impl Circuit {
    /// The circuit of some nodes, if they keep its rules for these parameters: each operand is an
    /// earlier node, an owner is a party, a rotation is odd and from 3 to 2n - 1, a constant is n
    /// coefficients below t. Else the first node at fault is named; an empty list is at fault at
    /// node 0, and a list of more than 256 nodes at node 256, whatever its nodes are.
    pub fn new(params: &Params, nodes: Vec<Node>) -> Result<Circuit, CircuitFault>
        ensures keeps { IfOk result (λ c. first_fault params.now.n params.now.t params.now.parties nodes.items ≡ None) }
        ensures nodes { IfOk result (λ c. c ≡ nodes.items) }
        ensures fault { IfErr result (λ e. first_fault params.now.n params.now.t params.now.parties nodes.items ≡ Some e.node) }
    {
        match first_fault(params, &nodes) {
            Some(node) => Err(CircuitFault { node }),
            None => Ok(Circuit { nodes }),
        }
    }

    /// The number of nodes, from 1 to 256.
    pub fn len(&self) -> u32
        ensures { result ≡ length self.now }
    {
        self.nodes.len() as u32
    }

    /// Node k; none exactly where k is the number of nodes or more.
    pub fn node(&self, k: u32) -> Option<&Node>
        ensures { option_copied result ≡ slice_get self.now k }
    {
        self.nodes.get(k as usize)
    }

    /// The number of inputs.
    pub fn inputs(&self) -> u32
        ensures { result ≡ length (owners self.now) }
    {
        inputs_in(&self.nodes)
    }

    /// The owner of input k, counted in the order of the nodes; none exactly where there are no more
    /// than k inputs.
    pub fn owner(&self, k: u32) -> Option<u32>
        ensures { result ≡ slice_get (owners self.now) k }
    {
        owner_in(&self.nodes, k)
    }

    /// Whether some node is a product of two nodes neither of which is a constant.
    pub fn has_product(&self) -> bool
        ensures { result ≡ has_product self.now }
    {
        let nodes = self.nodes.as_slice();
        nodes.iter().any(|node| is_full(nodes, node))
    }

    /// Whether some node is the rotation by g.
    pub fn has_rot(&self, g: u32) -> bool
        ensures { result ≡ has_rot g self.now }
    {
        self.nodes.iter().any(|node| is_turn(g, node))
    }
}
