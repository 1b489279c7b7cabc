ghost use Rattle.std.specs.Prelude.{◌≡◌, ◌+◌, ◌^◌, ◌<◌, length, true, Ok, IfOk, IfErr};
ghost use Rattle.session_script.specs.Words.{texts};
ghost use Rattle.session_script.specs.declared.place.Place.TheVariants.{Start};
ghost use Rattle.session_script.specs.declared.reason.Reason.TheVariants as reason;
ghost use Rattle.session_script.specs.Lines.{words, all_plain};
ghost use Rattle.session_script.specs.Checks.{IsFaultOf, Follows, unless};
ghost use Rattle.session_script.specs.Kept.{IsAccepted};
ghost use Rattle.session_script.specs.Sections.{statements, AreSections};
ghost use Rattle.session_script.specs.Scripts.{done_statement, between_lanes, between_circuits, statement, spoken, after_line, ended, read_from, script, asked, IsStopOf};

use crate::checks::{is_statement, unless};
use crate::circuit_statements::{circuit_statement, in_circuit};
use crate::head_statements::{
    params_statement, present_statement, seed_statement, version_statement,
};
use crate::lane_statements::{in_lane, lane_statement, workers_statement};
use crate::lanes::Lanes;
use crate::lines::{all_plain, is_skipped, leads, lines, words};
use crate::named_circuits::NamedCircuits;
use crate::place::{Draft, Place};
use crate::reason::{Fault, Reason, ScriptStop};
use param_set::{Ids, Params};
use std::alloc::Global;

/// What a script asks for.
#[derive(Drop)]
pub struct Script {
    /// The version of the language, 1 or 2.
    pub version: u32,
    /// The numbers of the session; in version 2 digits are balanced.
    pub params: Params,
    /// The master seed, from which all draws come.
    pub master: [u8; 32],
    /// The parties that are present at first, rising.
    pub present: Ids,
    /// The circuits in their order, each under its name with the values of its inputs.
    pub circuits: NamedCircuits,
    /// The written lanes in their order, and behind them those of the workers.
    pub lanes: Lanes,
}

/// `done`
#[tactic(auto, unfolding(crate::specs::Scripts::done_statement))]
fn done_statement(draft: Draft, words: &[&[u8]]) -> Result<Place, Reason>
    ensures { result ≡ done_statement draft (texts words.now) }
{
    unless(is_statement("done", 1, words), Reason::Word)?;
    Ok(Place::Finished { draft })
}

/// A line between lanes.
#[tactic(auto, unfolding(crate::specs::Scripts::between_lanes))]
fn between_lanes(alloc: Global, draft: Draft, words: &[&[u8]]) -> Result<Place, Fault>
    ensures { Follows (between_lanes draft (texts words.now)) result }
{
    if leads("lane", words) {
        Ok(lane_statement(alloc, draft, words)?)
    } else if leads("workers", words) {
        workers_statement(alloc, draft, words)
    } else {
        Ok(done_statement(draft, words)?)
    }
}

/// A line between circuits.
#[tactic(auto, unfolding(crate::specs::Scripts::between_circuits))]
fn between_circuits(alloc: Global, draft: Draft, words: &[&[u8]]) -> Result<Place, Fault>
    ensures { Follows (between_circuits draft (texts words.now)) result }
{
    if leads("circuit", words) {
        circuit_statement(alloc, draft, words)
    } else {
        between_lanes(alloc, draft, words)
    }
}

/// A statement, by what may stand at its place.
#[tactic(auto, unfolding(crate::specs::Scripts::statement))]
fn statement(alloc: Global, place: Place, words: &[&[u8]]) -> Result<Place, Fault>
    ensures { Follows (statement place (texts words.now)) result }
{
    match place {
        Place::Start => Ok(version_statement(words)?),
        Place::Versioned { version } => Ok(params_statement(version, words)?),
        Place::Measured { version, frame } => Ok(seed_statement(version, frame, words)?),
        Place::Seeded {
            version,
            frame,
            master,
        } => present_statement(alloc, version, frame, master, words),
        Place::Circuits { draft } => between_circuits(alloc, draft, words),
        Place::InCircuit { draft, begun } => in_circuit(alloc, draft, begun, words),
        Place::Lanes { draft } => between_lanes(alloc, draft, words),
        Place::InLane { draft, lane } => in_lane(draft, lane, words),
        Place::Closing { draft } => Ok(done_statement(draft, words)?),
        Place::Finished { draft: _ } => Err(Fault::from(Reason::Word)),
    }
}

/// The words of a line: skipped, or a statement.
#[tactic(auto, unfolding(crate::specs::Scripts::spoken))]
fn spoken(alloc: Global, place: Place, words: &[&[u8]]) -> Result<Place, Fault>
    ensures { Follows (spoken place (texts words.now)) result }
{
    if is_skipped(words) {
        return Ok(place);
    }
    statement(alloc, place, words)
}

/// The words of a line, whose bytes all may stand in a script.
fn plain_words(alloc: Global, line: &[u8]) -> Result<Vec<&[u8]>, Fault>
    ensures words { IfOk result (λ v. texts v.items ≡ words line.now) }
    ensures plain { IfOk result (λ _. all_plain line.now ≡ true) }
    ensures err { IfErr result (IsFaultOf (unless (all_plain line.now) reason.Byte)) }
{
    unless(all_plain(line), Reason::Byte)?;
    Ok(words(alloc, line)?)
}

/// A line: what is known behind it.
#[tactic(auto, unfolding(crate::specs::Scripts::after_line))]
fn after_line(alloc: Global, place: Place, line: &[u8]) -> Result<Place, Fault>
    ensures { Follows (after_line place line.now) result }
{
    let words = plain_words(alloc, line)?;
    spoken(alloc, place, &words)
}

/// The script that is finished at the end of the text, before line `line`.
#[tactic(auto, unfolding(crate::specs::Scripts::ended))]
fn ended(place: Place, line: u32) -> Result<Script, ScriptStop>
    ensures ok { IfOk result (λ s. ended place line ≡ Ok (asked s)) }
    ensures err { IfErr result (IsStopOf (ended place line)) }
{
    let Place::Finished { draft } = place else {
        return Err(ScriptStop::Refused {
            line,
            reason: Reason::End,
        });
    };
    let master = draft.master;
    Ok(Script {
        version: draft.version,
        params: draft.frame.into_params(),
        master,
        present: draft.present,
        circuits: draft.circuits,
        lanes: draft.lanes,
    })
}

/// What a fault of a line means for the text.
fn stop(line: u32, fault: Fault) -> ScriptStop
    ensures { Rattle.session_script.specs.Scripts.IsFaultAt line fault result }
{
    match fault {
        Fault::Refused { reason } => ScriptStop::Refused { line, reason },
        Fault::NoMemory => ScriptStop::NoMemory,
    }
}

/// The script of some lines.
#[tactic(auto, unfolding(crate::specs::Scripts::read_from))]
fn read_lines(alloc: Global, lines: &[&[u8]]) -> Result<Script, ScriptStop>
    requires { length lines.now + 1 < 2 ^ 32 }
    ensures ok { IfOk result (λ s. read_from Start 1 (texts lines.now) ≡ Ok (asked s)) }
    ensures err { IfErr result (IsStopOf (read_from Start 1 (texts lines.now))) }
{
    let mut place = Place::Start;
    let mut number = 1u32;
    'lines: for line in lines {
        match after_line(alloc, place, line) {
            Ok(next) => place = next,
            Err(fault) => return Err(stop(number, fault)),
        }
        number += 1;
    }
    ended(place, number)
}

/// Reads a script: what it asks for, or the first line that breaks a rule of docs/FORMATS.md, with
/// the first reason in the order of `Reason`.
///
/// No line is copied, and each byte is looked at a bounded number of times. `ScriptStop::NoMemory`
/// may come for any text. What is accepted has checked numbers, parties that rise, circuits under names
/// that differ with a value for each input, and lanes, all within their limits; and its statements stand
/// in the order of its sections.
#[tactic(auto, unfolding(crate::specs::Scripts::script))]
pub fn read_script(alloc: Global, bytes: &[u8]) -> Result<Script, ScriptStop>
    requires short { length bytes.now + 1 < 2 ^ 32 }
    ensures script { IfOk result (λ s. script bytes.now ≡ Ok (asked s)) }
    ensures accepted { IfOk result (λ s. IsAccepted (asked s)) }
    ensures sections { IfOk result (λ _. AreSections (statements bytes.now)) }
    ensures refusal { IfErr result (IsStopOf (script bytes.now)) }
{
    let lines = lines(alloc, bytes)?;
    read_lines(alloc, &lines)
}
