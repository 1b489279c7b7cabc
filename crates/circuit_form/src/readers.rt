ghost use Rattle.std.specs.Prelude.{◌≡◌, ◌≤◌, length};
ghost use Rattle.std.specs.List.{slice_get, list_any};
ghost use Rattle.circuit_form.specs.Circuits.{owners, is_const, is_full, is_turn};
ghost use Rattle.circuit_form.specs.Products.{is_mul};

use crate::node::Node;

/// Whether there is a constant at a place.
fn is_const(nodes: &[Node], k: u32) -> bool
    ensures { result ≡ is_const (slice_get nodes.now k) }
{
    matches!(nodes.get(k as usize), Some(Node::Const { value: _ }))
}

/// Whether a node is a product.
fn is_mul(node: &Node) -> bool
    ensures { result ≡ is_mul node.now }
{
    matches!(node, Node::Mul { left: _, right: _ })
}

/// Whether some node is a product.
pub(crate) fn has_mul(nodes: &[Node]) -> bool
    ensures { result ≡ list_any is_mul nodes.now }
{
    nodes.iter().any(|node| is_mul(node))
}

/// Whether a node is a product of two nodes neither of which is a constant.
pub(crate) fn is_full(nodes: &[Node], node: &Node) -> bool
    ensures { result ≡ is_full nodes.now node.now }
{
    match node {
        Node::Mul { left, right } => !is_const(nodes, *left) && !is_const(nodes, *right),
        _ => false,
    }
}

/// Whether a node is the rotation by g.
pub(crate) fn is_turn(g: u32, node: &Node) -> bool
    ensures { result ≡ is_turn g node.now }
{
    match node {
        Node::Rot { g: h, of: _ } => *h == g,
        _ => false,
    }
}

/// The number of inputs.
#[tactic(auto, unfolding(crate::specs::Circuits::owners))]
pub(crate) fn inputs_in(nodes: &[Node]) -> u32
    requires { length nodes.now ≤ 256 }
    ensures { result ≡ length (owners nodes.now) }
{
    let mut count = 0u32;
    'nodes: for node in nodes {
        if let Node::Input { owner: _ } = node {
            count += 1;
        }
    }
    count
}

/// The owner of input k.
#[tactic(auto, unfolding(crate::specs::Circuits::owners))]
pub(crate) fn owner_in(nodes: &[Node], k: u32) -> Option<u32>
    ensures { result ≡ slice_get (owners nodes.now) k }
{
    let mut left = k;
    'nodes: for node in nodes {
        if let Node::Input { owner } = node {
            if left == 0 {
                return Some(*owner);
            }
            left -= 1;
        }
    }
    None
}
