ghost use Rattle.std.specs.Prelude.{◌≡◌, [], ◌∷◌, ◌++◌, length, OnOk, OnErr};

use circuit_form::Node;
use std::alloc::{AllocError, Global};
use std::marker::Model;

/// The nodes of a circuit so far.
#[derive(Drop)]
pub(crate) struct NodeList {
    items: Vec<Node>,
}

impl Model for NodeList {
    ghost use Rattle.std.specs.Prelude.{List};
    ghost use Rattle.circuit_form.specs.declared.node.Node.{Node};

    ghost Value = { List Node };

    ghost view = { λ a. a.items.items };
}

impl NodeList {
    pub(crate) fn new(alloc: Global) -> NodeList
        ensures { result ≡ [] }
    {
        NodeList {
            items: Vec::new(alloc),
        }
    }

    pub(crate) fn push(&mut self, item: Node) -> Result<(), AllocError>
        ensures ok { OnOk result (self.new ≡ self.old ++ item ∷ []) }
        ensures err { OnErr result (self.new ≡ self.old) }
    {
        self.items.push(item)?;
        Ok(())
    }

    pub(crate) fn len(&self) -> usize
        ensures { result ≡ length self.now }
    {
        self.items.len()
    }

    pub(crate) fn into_vec(self) -> Vec<Node>
        ensures { result.items ≡ self }
    {
        self.items
    }
}
