ghost use Rattle.std.specs.Prelude.{◌≡◌, ◌^◌, ◌<◌, length, nat_lt, IsTrue, OnOk, OnErr};
ghost use Rattle.std.specs.List.{list_all, list_any};
ghost use Rattle.circuit_form.specs.declared.node.Node.TheVariants as node;
ghost use Rattle.session_script.specs.declared.place.Place.TheVariants as place;
ghost use Rattle.session_script.specs.Words.{texts};
ghost use Rattle.session_script.specs.Checks.{Follows, Leaves};
ghost use Rattle.session_script.specs.CircuitLines.{with_node, has_room, is_earlier, plain, input_statement, const_node, operands, neg_node, may_turn, is_used, with_turn, is_turn, rot_statement, other_node};

use crate::checks::{number_at, numbers, party, unless};
use crate::frame::Frame;
use crate::lines::{behind, leads};
use crate::place::{Draft, OpenCircuit};
use crate::reason::{Fault, Reason};
use circuit_form::Node;
use param_set::{Ids, Plain};
use std::alloc::{AllocError, Global};

/// Whether one more node may stand.
fn has_room(begun: &OpenCircuit) -> bool
    ensures { result ≡ has_room begun.now }
{
    begun.nodes.len() < 256
}

/// Whether a node stands already.
fn is_earlier(begun: &OpenCircuit, k: u64) -> bool
    ensures { result ≡ is_earlier begun.now k }
{
    k < begun.nodes.len() as u64
}

/// Whether all coefficients are below t.
fn all_below(t: u64, coeffs: &[u64]) -> bool
    ensures { result ≡ list_all (λ x. nat_lt x t) coeffs.now }
{
    coeffs.iter().all(|x| *x < t)
}

/// The value with these coefficients, and zeros behind them up to n.
#[tactic(auto, unfolding(crate::specs::CircuitLines::plain))]
fn plain(frame: &Frame, coeffs: Vec<u64>) -> Result<Plain, Fault>
    ensures { Follows (plain frame.now coeffs.items) result }
{
    let n = frame.n() as usize;
    if coeffs.len() > n || !all_below(frame.t(), &coeffs) {
        return Err(Fault::from(Reason::Node));
    }
    let mut coeffs = coeffs;
    coeffs.resize(n, 0)?;
    Ok(Plain::from_vec(coeffs))
}

/// `input P c0 c1 ..`
#[tactic(auto, unfolding(crate::specs::CircuitLines::input_statement))]
pub(crate) fn input_statement(
    alloc: Global,
    draft: &mut Draft,
    begun: &mut OpenCircuit,
    words: &[&[u8]],
) -> Result<(), Fault>
    ensures { Leaves (input_statement draft.old begun.old (texts words.now)) (place.InCircuit draft.new begun.new) result }
{
    unless(words.len() >= 3, Reason::Word)?;
    let p = number_at(words, 1)?;
    let coeffs = numbers(alloc, behind(words, 2))?;
    unless(has_room(begun) && draft.inputs < 1024, Reason::Limit)?;
    let owner = party(&draft.frame, p)?;
    let value = plain(&draft.frame, coeffs)?;
    draft.inputs += 1;
    begun.nodes.push(Node::Input { owner })?;
    begun.values.push(value)?;
    Ok(())
}

/// `const c0 c1 ..`
#[tactic(auto, unfolding(crate::specs::CircuitLines::const_node))]
fn const_node(
    alloc: Global,
    draft: &Draft,
    begun: &OpenCircuit,
    words: &[&[u8]],
) -> Result<Node, Fault>
    ensures { Follows (const_node draft.now begun.now (texts words.now)) result }
{
    unless(words.len() >= 2, Reason::Word)?;
    let coeffs = numbers(alloc, behind(words, 1))?;
    unless(has_room(begun), Reason::Limit)?;
    let value = plain(&draft.frame, coeffs)?;
    Ok(Node::Const { value })
}

/// The operands of `add a b`, `sub a b` and `mul a b`.
#[tactic(auto, unfolding(crate::specs::CircuitLines::operands))]
fn operands(begun: &OpenCircuit, words: &[&[u8]]) -> Result<(u32, u32), Reason>
    ensures { result ≡ operands begun.now (texts words.now) }
{
    unless(words.len() == 3, Reason::Word)?;
    let left = number_at(words, 1)?;
    let right = number_at(words, 2)?;
    unless(has_room(begun), Reason::Limit)?;
    unless(
        is_earlier(begun, left) && is_earlier(begun, right),
        Reason::Node,
    )?;
    Ok((left as u32, right as u32))
}

/// `neg a`
#[tactic(auto, unfolding(crate::specs::CircuitLines::neg_node))]
fn neg_node(begun: &OpenCircuit, words: &[&[u8]]) -> Result<Node, Reason>
    ensures { result ≡ neg_node begun.now (texts words.now) }
{
    unless(words.len() == 2, Reason::Word)?;
    let of = number_at(words, 1)?;
    unless(has_room(begun), Reason::Limit)?;
    unless(is_earlier(begun, of), Reason::Node)?;
    Ok(Node::Neg { of: of as u32 })
}

/// Whether a rotation is used already.
fn is_used(turns: &Ids, g: u64) -> bool
    ensures { result ≡ is_used turns.now g }
{
    turns.as_slice().iter().any(|h| u64::from(*h) == g)
}

/// Whether g is odd and from 3 to 2n - 1.
fn is_turn(frame: &Frame, g: u64) -> bool
    ensures value { result ≡ is_turn frame.now g }
    ensures few_bits { IsTrue result → g < 2 ^ 32 }
{
    g % 2 == 1 && 3 <= g && g < 2 * u64::from(frame.n())
}

/// Uses a rotation; where memory is wanting nothing has changed.
fn use_turn(turns: &mut Ids, g: u32) -> Result<(), AllocError>
    ensures ok { OnOk result (turns.new ≡ with_turn turns.old g) }
    ensures err { OnErr result (turns.new ≡ turns.old) }
{
    if !is_used(turns, u64::from(g)) {
        turns.push(g)?;
    }
    Ok(())
}

/// `rot g a`
#[tactic(auto, unfolding(crate::specs::CircuitLines::rot_statement))]
pub(crate) fn rot_statement(
    draft: &mut Draft,
    begun: &mut OpenCircuit,
    words: &[&[u8]],
) -> Result<(), Fault>
    ensures { Leaves (rot_statement draft.old begun.old (texts words.now)) (place.InCircuit draft.new begun.new) result }
{
    unless(words.len() == 3, Reason::Word)?;
    let g = number_at(words, 1)?;
    let of = number_at(words, 2)?;
    let may_turn = is_used(&draft.turns, g) || draft.turns.len() < 16;
    unless(has_room(begun) && may_turn, Reason::Limit)?;
    unless(
        is_turn(&draft.frame, g) && is_earlier(begun, of),
        Reason::Node,
    )?;
    use_turn(&mut draft.turns, g as u32)?;
    begun.nodes.push(Node::Rot {
        g: g as u32,
        of: of as u32,
    })?;
    Ok(())
}

/// A node that changes its circuit alone.
#[tactic(auto, unfolding(crate::specs::CircuitLines::other_node))]
pub(crate) fn other_node(
    alloc: Global,
    draft: &Draft,
    begun: &OpenCircuit,
    words: &[&[u8]],
) -> Result<Node, Fault>
    ensures { Follows (other_node draft.now begun.now (texts words.now)) result }
{
    if leads("const", words) {
        return const_node(alloc, draft, begun, words);
    }
    if leads("neg", words) {
        return Ok(neg_node(begun, words)?);
    }
    if leads("add", words) {
        let (left, right) = operands(begun, words)?;
        return Ok(Node::Add { left, right });
    }
    if leads("sub", words) {
        let (left, right) = operands(begun, words)?;
        return Ok(Node::Sub { left, right });
    }
    if leads("mul", words) {
        let (left, right) = operands(begun, words)?;
        return Ok(Node::Mul { left, right });
    }
    Err(Fault::from(Reason::Word))
}
