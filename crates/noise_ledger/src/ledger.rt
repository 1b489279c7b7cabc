ghost use Rattle.std.specs.Prelude.{◌≡◌, ◌+◌, ◌<◌, ◌≤◌, true, List, [], ◌∷◌, ◌++◌, length, take, drop, All, IfOk, IfErr, Some, None};
ghost use Rattle.std.specs.List.{slice_get};
ghost use Rattle.circuit_form.specs.Circuits.{is_const, may_stand, first_fault};
ghost use Rattle.noise_ledger.specs.declared.over.Place.TheVariants.{Output};
ghost use Rattle.param_set.specs.Numbers.{numbers_of};
ghost use Rattle.noise_ledger.specs.Bounds.{numbers_for, limit};
ghost use Rattle.noise_ledger.specs.Ledger.{AtMost, product_bound, node_bound, bounds_from, node_bounds, place_bound, first_over, nodes_before};

use crate::bounds::{
    const_bound, input_bound_for, mul_bound_for, neg_bound, output_bound_for, plain_mul_bound,
    rot_bound_for, sum_bound,
};
use crate::over::{Over, Place};
use circuit_form::{Circuit, Node};
use param_set::Params;

/// Whether there is a constant at a place.
fn is_const(circuit: &Circuit, k: u32) -> bool
    ensures { result ≡ is_const (slice_get circuit.now k) }
{
    matches!(circuit.node(k), Some(Node::Const { value: _ }))
}

/// The bound of a product of two nodes; a constant among them adds no noise of its own.
#[tactic(auto, unfolding(crate::specs::Ledger::product_bound, crate::specs::Bounds::plain_mul_bound))]
fn product_bound(
    params: &Params,
    threshold: u64,
    circuit: &Circuit,
    done: &[u128],
    left: u32,
    right: u32,
) -> u128
    requires few { threshold ≤ 32 }
    requires left { left < length done.now }
    requires right { right < length done.now }
    requires within { All (AtMost (limit (numbers_for params.now threshold))) done.now }
    ensures { result
        ≡ product_bound (numbers_for params.now threshold) circuit.now done.now left right }
{
    if is_const(circuit, right) {
        plain_mul_bound(params, done[left as usize])
    } else if is_const(circuit, left) {
        plain_mul_bound(params, done[right as usize])
    } else {
        mul_bound_for(params, threshold, done[left as usize], done[right as usize])
    }
}

/// The bound of a node: `done` are those of the nodes before it.
#[tactic(auto, unfolding(circuit_form::specs::Circuits::may_stand, crate::specs::Ledger::node_bound, crate::specs::Bounds::sum_bound, crate::specs::Bounds::neg_bound))]
fn node_bound(
    params: &Params,
    threshold: u64,
    circuit: &Circuit,
    done: &[u128],
    node: &Node,
) -> u128
    requires few { threshold ≤ 32 }
    requires stands { may_stand params.now.n params.now.t params.now.parties (length done.now) node.now ≡ true }
    requires within { All (AtMost (limit (numbers_for params.now threshold))) done.now }
    ensures { result ≡ node_bound (numbers_for params.now threshold) circuit.now done.now node.now }
{
    match node {
        Node::Input { owner: _ } => input_bound_for(params, threshold),
        Node::Const { value: _ } => const_bound(params),
        Node::Add { left, right } => sum_bound(params, done[*left as usize], done[*right as usize]),
        Node::Sub { left, right } => sum_bound(params, done[*left as usize], done[*right as usize]),
        Node::Neg { of } => neg_bound(params, done[*of as usize]),
        Node::Mul { left, right } => product_bound(params, threshold, circuit, done, *left, *right),
        Node::Rot { g: _, of } => rot_bound_for(params, threshold, done[*of as usize]),
    }
}

/// The bound of the node that comes next: `done` are those of the nodes before it.
fn next_bound(params: &Params, threshold: u64, circuit: &Circuit, done: &[u128]) -> u128
    requires few { threshold ≤ 32 }
    requires more { length done.now < length circuit.now }
    requires circuit { first_fault params.now.n params.now.t params.now.parties circuit.now ≡ None }
    requires within { All (AtMost (limit (numbers_for params.now threshold))) done.now }
    ensures next { bounds_from (numbers_for params.now threshold) circuit.now (done.now
        ++ result ∷ []) (drop (length done.now + 1) circuit.now)
        ≡ bounds_from (numbers_for params.now threshold) circuit.now done.now (drop (length done.now) circuit.now) }
{
    match circuit.node(done.len() as u32) {
        Some(node) => node_bound(params, threshold, circuit, done, node),
        None => unreachable!(),
    }
}

/// The bound of a place, where it is at most the limit.
fn tested(place: Place, bound: u128, limit: u64) -> Result<u128, Over>
    ensures within { IfOk result (λ v. v ≤ limit) }
    ensures value { IfOk result (λ v. v ≡ bound) }
    ensures above { IfErr result (λ _. limit < bound) }
    ensures told { IfErr result (λ e. (e.place ≡ place) × (e.bound ≡ bound) × (e.limit ≡ limit)) }
{
    if bound <= limit as u128 {
        Ok(bound)
    } else {
        Err(Over {
            place,
            bound,
            limit,
        })
    }
}

/// Puts down the bounds of the nodes, up to the first that is above the limit.
fn bound_nodes(
    params: &Params,
    threshold: u64,
    circuit: &Circuit,
    bounds: &mut [u128],
) -> Result<(), Over>
    requires few { threshold ≤ 32 }
    requires places { length bounds.old ≡ length circuit.now }
    requires circuit { first_fault params.now.n params.now.t params.now.parties circuit.now ≡ None }
    ensures bounds { IfOk result (λ _. bounds.new
        ≡ node_bounds (numbers_for params.now threshold) circuit.now) }
    ensures within { IfOk result (λ _. All (AtMost (limit (numbers_for params.now threshold))) bounds.new) }
    ensures place { IfErr result (λ e. first_over (numbers_for params.now threshold) circuit.now
        ≡ Some e.place) }
    ensures bound { IfErr result (λ e. e.bound
        ≡ place_bound (numbers_for params.now threshold) circuit.now e.place) }
    ensures limit { IfErr result (λ e. e.limit ≡ limit (numbers_for params.now threshold)) }
    ensures earlier { IfErr result (λ e. take (nodes_before circuit.now e.place) bounds.new
        ≡ take (nodes_before circuit.now e.place) (node_bounds (numbers_for params.now threshold) circuit.now)) }
    ensures later { IfErr result (λ e. drop (nodes_before circuit.now e.place) bounds.new
        ≡ drop (nodes_before circuit.now e.place) bounds.old) }
{
    let limit = params.limit();
    'nodes: for k in 0..circuit.len() {
        let bound = next_bound(params, threshold, circuit, &bounds[..k as usize]);
        bounds[k as usize] = tested(Place::Node(k), bound, limit)?;
    }
    Ok(())
}

/// The output's bound, from those of all nodes.
fn bound_output(params: &Params, threshold: u64, circuit: &Circuit, bounds: &[u128]) -> u128
    requires few { threshold ≤ 32 }
    requires circuit { first_fault params.now.n params.now.t params.now.parties circuit.now ≡ None }
    requires bounds { bounds.now ≡ node_bounds (numbers_for params.now threshold) circuit.now }
    requires places { length bounds.now ≡ length circuit.now }
    requires within { All (AtMost (limit (numbers_for params.now threshold))) bounds.now }
    ensures { result ≡ place_bound (numbers_for params.now threshold) circuit.now Output }
{
    output_bound_for(params, threshold, bounds[bounds.len() - 1])
}

/// The output's bound, where that of each place is at most L; else the first place whose bound is
/// above it. `bounds` has one place a node, and the circuit keeps its rules for these parameters.
///
/// With Ok all nodes' bounds stand in `bounds`. Else those of the nodes before the place told do, and
/// from there on `bounds` is as it was.
pub fn admit(params: &Params, circuit: &Circuit, bounds: &mut [u128]) -> Result<u128, Over>
    requires places { length bounds.old ≡ length circuit.now }
    requires circuit { first_fault params.now.n params.now.t params.now.parties circuit.now ≡ None }
    ensures admitted { IfOk result (λ _. first_over (numbers_of params.now) circuit.now ≡ None) }
    ensures output { IfOk result (λ v. v ≡ place_bound (numbers_of params.now) circuit.now Output) }
    ensures bounds { IfOk result (λ _. bounds.new
        ≡ node_bounds (numbers_of params.now) circuit.now) }
    ensures place { IfErr result (λ e. first_over (numbers_of params.now) circuit.now
        ≡ Some e.place) }
    ensures bound { IfErr result (λ e. e.bound
        ≡ place_bound (numbers_of params.now) circuit.now e.place) }
    ensures limit { IfErr result (λ e. e.limit ≡ limit (numbers_of params.now)) }
    ensures earlier { IfErr result (λ e. take (nodes_before circuit.now e.place) bounds.new
        ≡ take (nodes_before circuit.now e.place) (node_bounds (numbers_of params.now) circuit.now)) }
    ensures later { IfErr result (λ e. drop (nodes_before circuit.now e.place) bounds.new
        ≡ drop (nodes_before circuit.now e.place) bounds.old) }
{
    admit_for(params, params.threshold(), circuit, bounds)
}

/// What `admit` answers where T is `threshold`, from 1 to 32, in place of the parameters' own; N stays theirs,
/// and may be below it.
pub fn admit_for(
    params: &Params,
    threshold: u64,
    circuit: &Circuit,
    bounds: &mut [u128],
) -> Result<u128, Over>
    requires some { 1 ≤ threshold }
    requires few { threshold ≤ 32 }
    requires places { length bounds.old ≡ length circuit.now }
    requires circuit { first_fault params.now.n params.now.t params.now.parties circuit.now ≡ None }
    ensures admitted { IfOk result (λ _. first_over (numbers_for params.now threshold) circuit.now
        ≡ None) }
    ensures output { IfOk result (λ v. v
        ≡ place_bound (numbers_for params.now threshold) circuit.now Output) }
    ensures bounds { IfOk result (λ _. bounds.new
        ≡ node_bounds (numbers_for params.now threshold) circuit.now) }
    ensures place { IfErr result (λ e. first_over (numbers_for params.now threshold) circuit.now
        ≡ Some e.place) }
    ensures bound { IfErr result (λ e. e.bound
        ≡ place_bound (numbers_for params.now threshold) circuit.now e.place) }
    ensures limit { IfErr result (λ e. e.limit ≡ limit (numbers_for params.now threshold)) }
    ensures earlier { IfErr result (λ e. take (nodes_before circuit.now e.place) bounds.new
        ≡ take (nodes_before circuit.now e.place) (node_bounds (numbers_for params.now threshold) circuit.now)) }
    ensures later { IfErr result (λ e. drop (nodes_before circuit.now e.place) bounds.new
        ≡ drop (nodes_before circuit.now e.place) bounds.old) }
{
    bound_nodes(params, threshold, circuit, bounds)?;
    let bound = bound_output(params, threshold, circuit, bounds);
    tested(Place::Output, bound, params.limit())
}
