ghost use Rattle.std.specs.Prelude.{◌≡◌, ◌+◌, ◌<◌, ◌≤◌, true, false, List, [], All, length, IfOk, IfSome, IfNone, None};
ghost use Rattle.std.specs.List.{list_any};
ghost use Rattle.ring_spec.specs.Ring.{IsPoly};
ghost use Rattle.circuit_form.specs.Circuits.{may_stand, first_wrong, first_fault, owners};
ghost use Rattle.circuit_form.specs.Values.{node_value, given_after, values_from, plain_value};
ghost use Rattle.circuit_form.specs.Products.{is_mul};

use crate::circuit::Circuit;
use crate::node::Node;
use crate::operations::{difference, negative, sum};
use crate::products::product;
use crate::readers::has_mul;
use crate::turns::turn;
use crate::wide_ring::WideRing;
use param_set::{Params, Plain};
use std::alloc::{AllocError, Global};

/// Another plaintext with the same coefficients.
fn copy(alloc: Global, plain: &Plain) -> Result<Plain, AllocError>
    ensures { IfOk result (λ v. v ≡ plain.now) }
{
    let coeffs = Vec::from_slice(alloc, plain.coeffs())?;
    Ok(Plain::from_vec(coeffs))
}

/// The wide ring for the products among some nodes; none where there is no product.
fn wide_ring(alloc: Global, params: &Params, nodes: &[Node]) -> Result<Option<WideRing>, AllocError>
    ensures degree { IfOk result (λ wide. IfSome wide (λ n. n ≡ params.now.n)) }
    ensures absent { IfOk result (λ wide. IfNone wide (list_any is_mul nodes.now ≡ false)) }
{
    if has_mul(nodes) {
        Ok(Some(WideRing::new(alloc, params)?))
    } else {
        Ok(None)
    }
}

/// The polynomial of a node: `done` are those of the nodes before it, `given` of which are inputs. A
/// product takes the wide ring.
#[tactic(auto, unfolding(crate::specs::Circuits::may_stand, crate::specs::Values::node_value, crate::specs::Values::given_after))]
fn node_value(
    alloc: Global,
    params: &Params,
    wide: &Option<WideRing>,
    inputs: &[Plain],
    done: &[Plain],
    given: usize,
    node: &Node,
) -> Result<Plain, AllocError>
    requires degree { IfSome wide.now (λ n. n ≡ params.now.n) }
    requires absent { IfNone wide.now (is_mul node.now ≡ false) }
    requires stands { may_stand params.now.n params.now.t params.now.parties (length done.now) node.now ≡ true }
    requires inputs { All (IsPoly params.now.t params.now.n) inputs.now }
    requires done { All (IsPoly params.now.t params.now.n) done.now }
    requires enough { given_after given node.now ≤ length inputs.now }
    ensures value { IfOk result (λ v. v ≡ node_value params.now.n params.now.t inputs.now done.now given node.now) }
    ensures fits { IfOk result (λ v. IsPoly params.now.t params.now.n v) }
{
    match node {
        Node::Input { owner: _ } => copy(alloc, &inputs[given]),
        Node::Const { value } => copy(alloc, value),
        Node::Add { left, right } => sum(
            alloc,
            params,
            &done[*left as usize],
            &done[*right as usize],
        ),
        Node::Sub { left, right } => difference(
            alloc,
            params,
            &done[*left as usize],
            &done[*right as usize],
        ),
        Node::Neg { of } => negative(alloc, params, &done[*of as usize]),
        Node::Mul { left, right } => match wide {
            Some(wide) => product(
                alloc,
                params,
                wide,
                &done[*left as usize],
                &done[*right as usize],
            ),
            None => unreachable!(),
        },
        Node::Rot { g, of } => turn(alloc, params, u64::from(*g), &done[*of as usize]),
    }
}

/// The inputs given once a node is done.
#[tactic(auto, unfolding(crate::specs::Values::given_after))]
fn given_after(given: usize, node: &Node) -> usize
    requires { given < 256 }
    ensures value { result ≡ given_after given node.now }
    ensures one_more { result ≤ given + 1 }
{
    match node {
        Node::Input { owner: _ } => given + 1,
        _ => given,
    }
}

/// The polynomials of all nodes. A product takes the wide ring.
fn node_values(
    alloc: Global,
    params: &Params,
    wide: &Option<WideRing>,
    nodes: &[Node],
    inputs: &[Plain],
) -> Result<Vec<Plain>, AllocError>
    requires degree { IfSome wide.now (λ n. n ≡ params.now.n) }
    requires absent { IfNone wide.now (list_any is_mul nodes.now ≡ false) }
    requires few { length nodes.now ≤ 256 }
    requires stand { first_wrong params.now.n params.now.t params.now.parties 0 nodes.now ≡ None }
    requires inputs { All (IsPoly params.now.t params.now.n) inputs.now }
    requires enough { length (owners nodes.now) ≡ length inputs.now }
    ensures values { IfOk result (λ v. v.items ≡ values_from params.now.n params.now.t inputs.now [] 0 nodes.now) }
    ensures count { IfOk result (λ v. length v.items ≡ length nodes.now) }
    ensures fit { IfOk result (λ v. All (IsPoly params.now.t params.now.n) v.items) }
{
    let mut done = Vec::with_capacity(alloc, nodes.len())?;
    let mut given = 0usize;
    'nodes: for node in nodes {
        let value = node_value(alloc, params, wide, inputs, done.as_slice(), given, node)?;
        given = given_after(given, node);
        done.push(value)?;
    }
    Ok(done)
}

/// The plain value of a circuit: the polynomial of its last node, n coefficients below t. `inputs` are
/// the values of its inputs in the order of their nodes, and the circuit keeps its rules for these
/// parameters.
#[tactic(auto, unfolding(crate::specs::Circuits::first_fault, crate::specs::Values::plain_value))]
pub fn plain_value(
    alloc: Global,
    params: &Params,
    circuit: &Circuit,
    inputs: &[Plain],
) -> Result<Plain, AllocError>
    requires circuit { first_fault params.now.n params.now.t params.now.parties circuit.now ≡ None }
    requires count { length inputs.now ≡ length (owners circuit.now) }
    requires inputs { All (IsPoly params.now.t params.now.n) inputs.now }
    ensures value { IfOk result (λ v. v ≡ plain_value params.now.n params.now.t inputs.now circuit.now) }
    ensures fits { IfOk result (λ v. IsPoly params.now.t params.now.n v) }
{
    let wide = wide_ring(alloc, params, &circuit.nodes)?;
    let mut values = node_values(alloc, params, &wide, &circuit.nodes, inputs)?;
    match values.pop() {
        Some(last) => Ok(last),
        None => unreachable!(),
    }
}
