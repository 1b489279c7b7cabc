ghost use Rattle.std.specs.Prelude.{◌≡◌, ◌++◌, ◌≤◌, length, All, OnOk, IfOk, None};
ghost use Rattle.ring_spec.specs.Ring.{IsPoly};
ghost use Rattle.std.specs.List.{flat_map};
ghost use Rattle.circuit_form.specs.Circuits.{first_fault, owners};
ghost use Rattle.circuit_form.specs.Values.{plain_value};
ghost use Rattle.param_set.specs.Numbers.{numbers_of};
ghost use Rattle.noise_ledger.specs.Ledger.{first_over};
ghost use Rattle.session_script.specs.Asked.{numbers_of as frame_of};
ghost use Rattle.session_script.specs.Scripts.{asked};
ghost use Rattle.session_script.specs.Kept.{IsNamed, AreNamed};
ghost use Rattle.run_report.specs.Reports.{bounding};
ghost use Rattle.run_report.specs.Checking.{bound_line, over_line, node_lines, plain_line, verdict_lines, circuit_check, check_text};

use crate::lines::push_place;
use crate::values::push_value;
use circuit_form::{Circuit, plain_value};
use itoa::Buffer;
use noise_ledger::{Place, admit};
use param_set::{Params, Plain, Plains};
use session_script::{NamedCircuit, Script};
use std::alloc::{AllocError, Global};

// Puts the line of a place with its bound behind a text.
#[tactic(auto, unfolding(crate::specs::Checking::bound_line))]
fn push_bound(text: &mut Vec<u8>, place: Place, bound: u128) -> Result<(), AllocError>
    ensures { OnOk result (text.new.items ≡ text.old.items ++ bound_line place bound) }
{
    push_place(text, place)?;
    text.push(b' ')?;
    text.extend_from_slice(Buffer::new().format(bound).as_bytes())?;
    text.extend_from_slice(b"\n")
}

// Puts the line of a place whose bound is above the limit behind a text.
#[tactic(auto, unfolding(crate::specs::Checking::over_line))]
fn push_over(text: &mut Vec<u8>, place: Place, bound: u128) -> Result<(), AllocError>
    ensures { OnOk result (text.new.items ≡ text.old.items ++ over_line place bound) }
{
    push_place(text, place)?;
    text.push(b' ')?;
    text.extend_from_slice(Buffer::new().format(bound).as_bytes())?;
    text.extend_from_slice(b" over\n")
}

// Puts the lines of the first nodes, so many, behind a text.
#[tactic(auto, using(crate::proofs::Checked::nodes))]
fn push_nodes(text: &mut Vec<u8>, bounds: &[u128], count: u32) -> Result<(), AllocError>
    requires { count ≤ length bounds.now }
    ensures { OnOk result (text.new.items ≡ text.old.items ++ node_lines bounds.now count) }
{
    'nodes: for k in 0..count {
        push_bound(text, Place::Node(k), bounds[k as usize])?;
    }
    Ok(())
}

// Puts the line of a plain value behind a text.
#[tactic(auto, unfolding(crate::specs::Checking::plain_line))]
fn push_plain(text: &mut Vec<u8>, value: &Plain) -> Result<(), AllocError>
    ensures { OnOk result (text.new.items ≡ text.old.items ++ plain_line value.now) }
{
    text.extend_from_slice(b"plain ")?;
    push_value(text, value.coeffs())?;
    text.extend_from_slice(b"\n")
}

// The values of a circuit's inputs in a list of their own.
fn copied(alloc: Global, values: &Plains) -> Result<Vec<Plain>, AllocError>
    ensures { IfOk result (λ inputs. inputs.items ≡ values.now) }
{
    let mut inputs = Vec::with_capacity(alloc, values.len())?;
    'values: for k in 0..values.len() {
        let coeffs = Vec::from_slice(alloc, values.at(k).coeffs())?;
        inputs.push(Plain::from_vec(coeffs))?;
    }
    Ok(inputs)
}

// How many nodes stand before a place.
fn nodes_before(circuit: &Circuit, place: Place) -> u32
    ensures { result ≡ Rattle.noise_ledger.specs.Ledger.nodes_before circuit.now place }
{
    match place {
        Place::Node(number) => number,
        Place::Output => circuit.len(),
    }
}

// Puts the lines of a circuit behind a text, but for its name. `bounds` has room for those of its nodes.
#[tactic(auto, unfolding(crate::specs::Checking::verdict_lines))]
fn push_verdict(
    text: &mut Vec<u8>,
    params: &Params,
    circuit: &Circuit,
    values: &Plains,
    bounds: &mut [u128],
) -> Result<(), AllocError>
    requires places { length bounds.old ≡ length circuit.now }
    requires circuit { first_fault params.now.n params.now.t params.now.parties circuit.now ≡ None }
    requires count { length values.now ≡ length (owners circuit.now) }
    requires values { All (IsPoly params.now.t params.now.n) values.now }
    ensures { OnOk result (text.new.items
        ≡ text.old.items ++ verdict_lines (numbers_of params.now) circuit.now
        (plain_value params.now.n params.now.t values.now circuit.now)
        (first_over (numbers_of params.now) circuit.now)) }
{
    match admit(params, circuit, bounds) {
        Ok(bound) => {
            push_nodes(text, bounds, circuit.len())?;
            push_bound(text, Place::Output, bound)?;
            let alloc = *text.allocator();
            let inputs = copied(alloc, values)?;
            push_plain(text, &plain_value(alloc, params, circuit, &inputs)?)
        }
        Err(over) => {
            push_nodes(text, bounds, nodes_before(circuit, over.place))?;
            push_over(text, over.place, over.bound)
        }
    }
}

// Puts the lines of a circuit behind a text.
#[tactic(auto, unfolding(crate::specs::Checking::circuit_check))]
fn push_circuit(text: &mut Vec<u8>, params: &Params, named: &NamedCircuit) -> Result<(), AllocError>
    requires { IsNamed (frame_of params.now) named.now }
    ensures { OnOk result (text.new.items
        ≡ text.old.items ++ circuit_check (numbers_of params.now) named.now) }
{
    text.extend_from_slice(b"circuit ")?;
    text.extend_from_slice(named.name())?;
    text.push(b'\n')?;
    let circuit = named.circuit();
    let mut bounds = [0u128; 256];
    let places = &mut bounds[..circuit.len() as usize];
    push_verdict(text, params, circuit, named.values(), places)
}

// Puts the lines of all circuits behind a text.
#[tactic(auto, using(crate::proofs::Checked::circuits))]
fn push_circuits(text: &mut Vec<u8>, script: &Script) -> Result<(), AllocError>
    requires { AreNamed (asked script.now) }
    ensures { OnOk result (text.new.items
        ≡ text.old.items ++ flat_map (circuit_check (bounding (asked script.now)))
        script.now.circuits) }
{
    'circuits: for named in script.circuits.as_slice() {
        push_circuit(text, &script.params, named)?;
    }
    Ok(())
}

/// The text of a check of a script, before any session of it: the limit, and for each circuit the bound
/// of each place and its plain value. Where a bound is above the limit its line says so, and is the last
/// of the circuit's.
#[tactic(auto, unfolding(crate::specs::Checking::check_text))]
pub fn check_text(alloc: Global, script: &Script) -> Result<Vec<u8>, AllocError>
    requires named { AreNamed (asked script.now) }
    ensures { IfOk result (λ text. text.items ≡ check_text (asked script.now)) }
{
    let mut text = Vec::from_slice(alloc, b"limit ")?;
    text.extend_from_slice(Buffer::new().format(script.params.limit()).as_bytes())?;
    text.push(b'\n')?;
    push_circuits(&mut text, script)?;
    Ok(text)
}
