ghost use Rattle.std.specs.Prelude.{◌≡◌, ◌<◌, [], length, not, false, codes, Ok, IfOk, IfErr};
ghost use Rattle.std.specs.List.{list_any};
ghost use Rattle.session_script.specs.Words.{texts};
ghost use Rattle.session_script.specs.declared.place.Place.TheVariants as place;
ghost use Rattle.session_script.specs.Lines.{leads};
ghost use Rattle.session_script.specs.Checks.{IsFaultOf, Follows, Leaves};
ghost use Rattle.session_script.specs.CircuitLines.{is_name, is_name_byte, has_name, circuit_statement, with_circuit, circuit_end, in_circuit, with_node, other_node};

use crate::checks::unless;
use crate::circuit_name::CircuitName;
use crate::lines::{leads, word_at};
use crate::named_circuit::NamedCircuit;
use crate::named_circuits::NamedCircuits;
use crate::node_list::NodeList;
use crate::node_statements::{input_statement, other_node, rot_statement};
use crate::place::{Draft, OpenCircuit, Place};
use crate::reason::{Fault, Reason};
use circuit_form::Circuit;
use param_set::Plains;
use std::alloc::Global;

/// Whether all bytes may stand in a name.
fn all_name_bytes(word: &[u8]) -> bool
    ensures { result ≡ Rattle.std.specs.List.list_all is_name_byte word.now }
{
    word.iter()
        .all(|b| matches!(*b, b'a'..=b'z' | b'0'..=b'9' | b'_'))
}

/// Whether the first byte is a letter.
fn begins_with_letter(word: &[u8]) -> bool
    ensures { result ≡ Rattle.session_script.specs.CircuitLines.begins_with_letter word.now }
{
    match word.first() {
        Some(b) => matches!(*b, b'a'..=b'z'),
        None => false,
    }
}

/// Whether a word is a name: 1 to 16 bytes of `a` to `z`, `0` to `9` and `_`, the first a letter.
#[tactic(auto, unfolding(crate::specs::CircuitLines::is_name))]
fn is_name(word: &[u8]) -> bool
    ensures { result ≡ is_name word.now }
{
    word.len() <= 16 && begins_with_letter(word) && all_name_bytes(word)
}

/// Whether some circuit has a name.
fn is_taken(circuits: &NamedCircuits, name: &[u8]) -> bool
    ensures { result ≡ list_any (has_name name.now) circuits.now }
{
    circuits
        .as_slice()
        .iter()
        .any(|circuit| circuit.name() == name)
}

/// The circuit that `circuit NAME` begins.
#[tactic(auto, unfolding(crate::specs::CircuitLines::circuit_statement))]
fn begun(alloc: Global, draft: &Draft, words: &[&[u8]]) -> Result<OpenCircuit, Fault>
    ensures ok { IfOk result (λ begun. circuit_statement draft.now (texts words.now) ≡ Ok (place.InCircuit draft.now begun)) }
    ensures err { IfErr result (IsFaultOf (circuit_statement draft.now (texts words.now))) }
{
    unless(words.len() == 2, Reason::Word)?;
    unless(draft.circuits.len() < 64, Reason::Limit)?;
    let name = word_at(words, 1);
    unless(is_name(name), Reason::Name)?;
    unless(!is_taken(&draft.circuits, name), Reason::Name)?;
    Ok(OpenCircuit {
        name: CircuitName::copied(alloc, name)?,
        nodes: NodeList::new(alloc),
        values: Plains::new(alloc),
    })
}

/// `circuit NAME`
pub(crate) fn circuit_statement(
    alloc: Global,
    draft: Draft,
    words: &[&[u8]],
) -> Result<Place, Fault>
    ensures { Follows (circuit_statement draft (texts words.now)) result }
{
    let begun = begun(alloc, &draft, words)?;
    Ok(Place::InCircuit { draft, begun })
}

/// `end` behind nodes.
#[tactic(auto, unfolding(crate::specs::CircuitLines::circuit_end))]
fn circuit_end(
    alloc: Global,
    draft: &mut Draft,
    begun: OpenCircuit,
    words: &[&[u8]],
) -> Result<(), Fault>
    ensures { Leaves (circuit_end draft.old begun (texts words.now)) (place.Circuits draft.new) result }
{
    unless(words.len() == 1, Reason::Word)?;
    let OpenCircuit {
        name,
        nodes,
        values,
    } = begun;
    let Ok(circuit) = Circuit::new(draft.frame.params(), nodes.into_vec()) else {
        return Err(Fault::from(Reason::Node));
    };
    let named = NamedCircuit::new(alloc, name, circuit, values)?;
    draft.circuits.push(named)?;
    Ok(())
}

/// A node.
#[tactic(auto, unfolding(crate::specs::CircuitLines::in_circuit))]
fn node_statement(
    alloc: Global,
    draft: &mut Draft,
    begun: &mut OpenCircuit,
    words: &[&[u8]],
) -> Result<(), Fault>
    requires { leads (codes "end") (texts words.now) ≡ false }
    ensures { Leaves (in_circuit draft.old begun.old (texts words.now)) (place.InCircuit draft.new begun.new) result }
{
    if leads("input", words) {
        return input_statement(alloc, draft, begun, words);
    }
    if leads("rot", words) {
        return rot_statement(draft, begun, words);
    }
    let node = other_node(alloc, draft, begun, words)?;
    begun.nodes.push(node)?;
    Ok(())
}

/// A line in a circuit.
#[tactic(auto, unfolding(crate::specs::CircuitLines::in_circuit))]
pub(crate) fn in_circuit(
    alloc: Global,
    draft: Draft,
    begun: OpenCircuit,
    words: &[&[u8]],
) -> Result<Place, Fault>
    ensures { Follows (in_circuit draft begun (texts words.now)) result }
{
    let (mut draft, mut begun) = (draft, begun);
    if leads("end", words) {
        circuit_end(alloc, &mut draft, begun, words)?;
        return Ok(Place::Circuits { draft });
    }
    node_statement(alloc, &mut draft, &mut begun, words)?;
    Ok(Place::InCircuit { draft, begun })
}
