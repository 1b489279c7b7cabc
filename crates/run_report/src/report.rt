ghost use Rattle.std.specs.Prelude.{◌≡◌, ◌++◌, ◌<◌, ◌≤◌, Some, length, OnOk, IfOk};
ghost use Rattle.std.specs.List.{flat_map};
ghost use Rattle.proto_names.specs.Instances.{instance as instance_at};
ghost use Rattle.proto_names.specs.declared.instance.Stage.TheVariants.{Complete};
ghost use Rattle.session_rules.specs.Facts.{Numbered};
ghost use Rattle.session_script.specs.Scripts.{asked};
ghost use Rattle.session_state.specs.Standings.{setting, state};
ghost use Rattle.event_lines.specs.Events.{event_line};
ghost use Rattle.run_report.specs.Reports.{setting_asked, seeds_asked, name_at, circuit_text, output_text, places, report};
ghost use Rattle.run_report.specs.Told.{seeds_of, told_circuit, told_output, told_digest, told_instance};

use crate::digests::polys_digest;
use crate::lines::{circuit_line, open_line, output_line, refused_line};
use event_lines::{event_lines, instance_line};
use noise_ledger::Over;
use party_roll::SeedRoll;
use session_core::{CircuitState, Instance, Session, Stage};
use session_script::Script;
use std::alloc::{AllocError, Global};

// The name of a circuit.
fn name(script: &Script, number: u32) -> &[u8]
    requires { number < length script.now.circuits }
    ensures { result.now ≡ name_at (asked script.now) number }
{
    script.circuits.as_slice()[number as usize].name()
}

// Puts the line of a circuit behind a text.
#[tactic(auto, unfolding(crate::specs::Reports::state_line, crate::specs::Told::told_circuit))]
fn push_circuit(
    text: &mut Vec<u8>,
    name: &[u8],
    session: &Session<SeedRoll>,
    number: u32,
) -> Result<(), AllocError>
    requires { number < length (state session.now.standing).circuits }
    ensures { OnOk result (text.new.items
        ≡ text.old.items ++ told_circuit name.now session.now.standing number) }
{
    match session.circuit_states()[number as usize] {
        CircuitState::Refused {
            place,
            bound,
            limit,
        } => {
            let over = Over {
                place,
                bound,
                limit,
            };
            refused_line(text, name, over)
        }
        CircuitState::Idle | CircuitState::Taken { caller: _ } | CircuitState::Evaluated => {
            open_line(text, name)
        }
        CircuitState::Answered => match session.answer(number) {
            Some(value) => circuit_line(text, name, value),
            None => unreachable!(),
        },
    }
}

// Puts the lines of all circuits behind a text.
#[tactic(auto, using(crate::proofs::Sections::circuits))]
fn push_circuits(
    text: &mut Vec<u8>,
    script: &Script,
    session: &Session<SeedRoll>,
) -> Result<(), AllocError>
    requires setting { setting session.now.standing ≡ setting_asked (asked script.now) }
    requires few { length script.now.circuits ≤ 64 }
    requires states { length (state session.now.standing).circuits ≡ length script.now.circuits }
    ensures { OnOk result (text.new.items
        ≡ text.old.items ++ flat_map (circuit_text (asked script.now) (state session.now.standing))
        (places (asked script.now))) }
{
    'circuits: for number in 0..script.circuits.len() as u32 {
        push_circuit(text, name(script, number), session, number)?;
    }
    Ok(())
}

// Puts the line of a circuit's output behind a text, if it has one.
#[tactic(auto, unfolding(crate::specs::Told::told_output))]
fn push_output(
    text: &mut Vec<u8>,
    name: &[u8],
    session: &Session<SeedRoll>,
    number: u32,
) -> Result<(), AllocError>
    requires { number < length (state session.now.standing).circuits }
    ensures { OnOk result (text.new.items
        ≡ text.old.items ++ told_output name.now session.now.standing session.now.roll.master
        number) }
{
    match session.output(number) {
        Some(output) => output_line(text, name, output),
        None => Ok(()),
    }
}

// Puts the lines of all outputs behind a text.
#[tactic(auto, using(crate::proofs::Sections::outputs))]
fn push_outputs(
    text: &mut Vec<u8>,
    script: &Script,
    session: &Session<SeedRoll>,
) -> Result<(), AllocError>
    requires setting { setting session.now.standing ≡ setting_asked (asked script.now) }
    requires seeds { seeds_of session.now.standing session.now.roll.master
        ≡ seeds_asked (asked script.now) }
    requires few { length script.now.circuits ≤ 64 }
    requires states { length (state session.now.standing).circuits ≡ length script.now.circuits }
    ensures { OnOk result (text.new.items
        ≡ text.old.items ++ flat_map (output_text (asked script.now) (state session.now.standing))
        (places (asked script.now))) }
{
    'outputs: for number in 0..script.circuits.len() as u32 {
        push_output(text, name(script, number), session, number)?;
    }
    Ok(())
}

// The digest of the sums of an instance that is complete; of another nothing is printed.
#[tactic(auto, unfolding(crate::specs::Told::told_digest, instance_table::specs::Tables::stands))]
fn digest(session: &Session<SeedRoll>, instance: &Instance) -> [u8; 64]
    requires { instance_at (state session.now.standing).instances instance.now.id
        ≡ Some instance.now }
    ensures { instance.now.stage ≡ Complete → result
        ≡ told_digest session.now.standing session.now.roll.master instance.now }
{
    match instance.stage {
        Stage::Opened | Stage::Void { by: _ } => [0; 64],
        Stage::Complete => match session.sums(instance.id) {
            Some(sums) => polys_digest(sums),
            None => unreachable!(),
        },
    }
}

// Puts the line of an instance behind a text.
fn push_instance(
    text: &mut Vec<u8>,
    session: &Session<SeedRoll>,
    instance: &Instance,
) -> Result<(), AllocError>
    requires { instance_at (state session.now.standing).instances instance.now.id
        ≡ Some instance.now }
    ensures { OnOk result (text.new.items
        ≡ text.old.items ++ told_instance session.now.standing session.now.roll.master
        instance.now) }
{
    instance_line(text, instance, &digest(session, instance))
}

// Puts the lines of all instances behind a text.
#[tactic(auto, using(crate::proofs::Sections::instances))]
fn push_instances(text: &mut Vec<u8>, session: &Session<SeedRoll>) -> Result<(), AllocError>
    requires { Numbered (state session.now.standing).instances }
    ensures { OnOk result (text.new.items
        ≡ text.old.items ++ flat_map (told_instance session.now.standing session.now.roll.master)
        (state session.now.standing).instances) }
{
    'instances: for instance in session.instances() {
        push_instance(text, session, instance)?;
    }
    Ok(())
}

// Puts the lines of all entries of the log behind a text.
fn push_events(text: &mut Vec<u8>, session: &Session<SeedRoll>) -> Result<(), AllocError>
    ensures { OnOk result (text.new.items
        ≡ text.old.items ++ flat_map event_line session.now.log.items) }
{
    event_lines(text, session.log())
}

/// The whole report of a script for a session of it: the lines of its circuits, of their outputs, of its
/// instances and of the entries of its log, each in their order.
pub fn text(
    alloc: Global,
    script: &Script,
    session: &Session<SeedRoll>,
) -> Result<Vec<u8>, AllocError>
    requires setting { setting session.now.standing ≡ setting_asked (asked script.now) }
    requires seeds { seeds_of session.now.standing session.now.roll.master
        ≡ seeds_asked (asked script.now) }
    ensures { IfOk result (λ text. text.items ≡ report (asked script.now) session.now.log.items) }
{
    let mut text = Vec::new(alloc);
    push_circuits(&mut text, script, session)?;
    push_outputs(&mut text, script, session)?;
    push_instances(&mut text, session)?;
    push_events(&mut text, session)?;
    Ok(text)
}
