ghost use Rattle.std.specs.Prelude.{◌≡◌};
ghost use Rattle.std.specs.List.{list_any};
ghost use Rattle.cipher_spec.specs.Ciphers.{is_rotation, is_switch_free};

use circuit_form::{Circuit, Node};

/// Whether a node is a rotation.
fn is_rotation(node: &Node) -> bool
    ensures { result ≡ is_rotation node.now }
{
    matches!(node, Node::Rot { g: _, of: _ })
}

/// Whether some node is a rotation.
fn has_rotation(circuit: &Circuit) -> bool
    ensures { result ≡ list_any is_rotation circuit.now }
{
    'nodes: for k in 0..circuit.len() {
        match circuit.node(k) {
            None => unreachable!(),
            Some(node) => {
                if is_rotation(node) {
                    return true;
                }
            }
        }
    }
    false
}

/// Whether a circuit needs no key switch: it has neither a rotation nor a product of two nodes that
/// aren't constants.
#[tactic(auto, unfolding(cipher_spec::specs::Ciphers::is_switch_free))]
pub fn is_switch_free(circuit: &Circuit) -> bool
    ensures { result ≡ is_switch_free circuit.now }
{
    !circuit.has_product() && !has_rotation(circuit)
}
