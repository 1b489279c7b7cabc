ghost use Rattle.std.specs.Prelude.{◌≡◌, ◌<◌, ◌≤◌, nat_lt, length, IfNone};
ghost use Rattle.std.specs.List.{list_all};
ghost use Rattle.circuit_form.specs.Circuits.{fits, may_stand, first_wrong, first_fault};

use crate::node::Node;
use param_set::{Params, Plain};

/// The most nodes of a circuit.
pub(crate) const MOST: usize = 256;

/// Whether each coefficient is below t.
fn all_below(t: u64, coeffs: &[u64]) -> bool
    ensures { result ≡ list_all (λ x. nat_lt x t) coeffs.now }
{
    coeffs.iter().all(|x| *x < t)
}

/// Whether a plaintext is n coefficients below t.
pub(crate) fn is_fitting(params: &Params, value: &Plain) -> bool
    ensures { result ≡ fits params.now.n params.now.t value.now }
{
    value.len() as u64 == params.n() && all_below(params.t(), value.coeffs())
}

/// Whether a node may stand at place k.
#[tactic(auto, unfolding(crate::specs::Circuits::may_stand))]
fn may_stand(params: &Params, k: u32, node: &Node) -> bool
    ensures { result ≡ may_stand params.now.n params.now.t params.now.parties k node.now }
{
    match node {
        Node::Input { owner } => 1 <= *owner && u64::from(*owner) <= params.parties(),
        Node::Const { value } => is_fitting(params, value),
        Node::Add { left, right } => *left < k && *right < k,
        Node::Sub { left, right } => *left < k && *right < k,
        Node::Neg { of } => *of < k,
        Node::Mul { left, right } => *left < k && *right < k,
        Node::Rot { g, of } => *g % 2 == 1 && 3 <= *g && u64::from(*g) < 2 * params.n() && *of < k,
    }
}

/// The first node that may not stand where it stands.
#[tactic(auto, unfolding(crate::specs::Circuits::first_wrong))]
fn first_wrong(params: &Params, nodes: &[Node]) -> Option<u32>
    requires { length nodes.now ≤ 256 }
    ensures { result ≡ first_wrong params.now.n params.now.t params.now.parties 0 nodes.now }
{
    let mut k = 0u32;
    'nodes: for node in nodes {
        if !may_stand(params, k, node) {
            return Some(k);
        }
        k += 1;
    }
    None
}

/// The node at fault, if the list is no circuit.
#[tactic(auto, unfolding(crate::specs::Circuits::first_fault))]
pub(crate) fn first_fault(params: &Params, nodes: &[Node]) -> Option<u32>
    ensures fault { result ≡ first_fault params.now.n params.now.t params.now.parties nodes.now }
    ensures size { IfNone result ((0 < length nodes.now) × (length nodes.now ≤ 256)) }
{
    if nodes.is_empty() {
        Some(0)
    } else if nodes.len() > MOST {
        Some(256)
    } else {
        first_wrong(params, nodes)
    }
}
