ghost use Rattle.std.specs.Prelude.{◌≡◌, ◌++◌, OnOk, OnErr, IfOk};
ghost use Rattle.std.specs.List.{flat_map};
ghost use Rattle.event_lines.specs.Events.{call_text, reply_text, owed_text, brief_text, entry_text, event_line};

use crate::lists::{push_ids, push_number, push_slots, push_words};
use crate::names::{push_set, push_signature};
use param_set::{Ids, Slots};
use proto_names::{PartySet, Signature};
use session_rules::{Call, Entry, Reply};
use std::alloc::{AllocError, Global};

// Puts a call behind a text.
#[tactic(auto, unfolding(crate::specs::Events::call_text))]
fn push_call(text: &mut Vec<u8>, call: Call) -> Result<(), AllocError>
    ensures { OnOk result (text.new.items ≡ text.old.items ++ call_text call) }
{
    match call {
        Call::Join { p } => push_words(text, b"join", &[p]),
        Call::Lose { p } => push_words(text, b"lose", &[p]),
        Call::Pending { p } => push_words(text, b"pending", &[p]),
        Call::Brief { id } => push_words(text, b"brief", &[id]),
        Call::Deliver { id, p, rows } => push_words(text, b"deliver", &[id, p, rows]),
        Call::Input { circuit, input } => push_words(text, b"input", &[circuit, input]),
        Call::Take => text.extend_from_slice(b"take"),
        Call::Finish { circuit } => push_words(text, b"finish", &[circuit]),
        Call::GiveBack { circuit } => push_words(text, b"back", &[circuit]),
    }
}

// Puts what a party owes behind a text.
#[tactic(auto, unfolding(crate::specs::Events::owed_text))]
fn push_owed(text: &mut Vec<u8>, ids: &Ids, inputs: &Slots) -> Result<(), AllocError>
    ensures { OnOk result (text.new.items ≡ text.old.items ++ owed_text ids.now inputs.now) }
{
    text.extend_from_slice(b"list ")?;
    push_ids(text, ids.as_slice())?;
    text.push(b' ')?;
    push_slots(text, inputs.as_slice())
}

// Puts what an instance is behind a text.
#[tactic(auto, unfolding(crate::specs::Events::brief_text))]
fn push_brief(text: &mut Vec<u8>, signature: Signature, set: &PartySet) -> Result<(), AllocError>
    ensures { OnOk result (text.new.items ≡ text.old.items ++ brief_text signature set.now.bits) }
{
    text.extend_from_slice(b"brief ")?;
    push_signature(text, signature)?;
    text.push(b' ')?;
    push_set(text, set)
}

// Puts a reply behind a text.
#[tactic(auto, unfolding(crate::specs::Events::reply_text))]
fn push_reply(text: &mut Vec<u8>, reply: &Reply) -> Result<(), AllocError>
    ensures { OnOk result (text.new.items ≡ text.old.items ++ reply_text reply.now) }
{
    match reply {
        Reply::Joined => text.extend_from_slice(b"joined"),
        Reply::Left => text.extend_from_slice(b"left"),
        Reply::Already => text.extend_from_slice(b"already"),
        Reply::Absent => text.extend_from_slice(b"absent"),
        Reply::List { ids, inputs } => push_owed(text, ids, inputs),
        Reply::Brief { signature, set } => push_brief(text, *signature, set),
        Reply::Unknown { issued } => push_words(text, b"unknown", &[*issued]),
        Reply::Late { by } => push_words(text, b"late", &[*by]),
        Reply::Stranger => text.extend_from_slice(b"stranger"),
        Reply::Repeat => text.extend_from_slice(b"repeat"),
        Reply::Shape { want, got } => push_words(text, b"shape", &[*want, *got]),
        Reply::Counted { missing } => push_words(text, b"counted", &[*missing]),
        Reply::Completed => text.extend_from_slice(b"completed"),
        Reply::NoInput => text.extend_from_slice(b"noinput"),
        Reply::NoKey => text.extend_from_slice(b"nokey"),
        Reply::Given => text.extend_from_slice(b"given"),
        Reply::Job { circuit } => push_words(text, b"job", &[*circuit]),
        Reply::Nothing => text.extend_from_slice(b"nothing"),
        Reply::Finished => text.extend_from_slice(b"finished"),
        Reply::NotTaken => text.extend_from_slice(b"nottaken"),
        Reply::Returned => text.extend_from_slice(b"returned"),
    }
}

// Puts an entry behind a text.
#[tactic(auto, unfolding(crate::specs::Events::entry_text))]
fn push_entry(text: &mut Vec<u8>, entry: &Entry) -> Result<(), AllocError>
    ensures { OnOk result (text.new.items ≡ text.old.items ++ entry_text entry.now) }
{
    push_number(text, entry.caller)?;
    text.push(b' ')?;
    push_call(text, entry.call)?;
    text.push(b' ')?;
    push_reply(text, &entry.reply)
}

// Puts the line of an entry behind a text.
#[tactic(auto, unfolding(crate::specs::Events::event_line))]
fn push_event(text: &mut Vec<u8>, entry: &Entry) -> Result<(), AllocError>
    ensures { OnOk result (text.new.items ≡ text.old.items ++ event_line entry.now) }
{
    text.extend_from_slice(b"event ")?;
    push_entry(text, entry)?;
    text.extend_from_slice(b"\n")
}

// The lines of some entries.
#[tactic(auto, using(crate::proofs::Rows::events))]
fn made_event_lines(alloc: Global, entries: &[Entry]) -> Result<Vec<u8>, AllocError>
    ensures { IfOk result (λ lines. lines.items ≡ flat_map event_line entries.now) }
{
    let mut lines = Vec::new(alloc);
    'entries: for entry in entries {
        push_event(&mut lines, entry)?;
    }
    Ok(lines)
}

// The line of an entry.
fn made_event_line(alloc: Global, entry: &Entry) -> Result<Vec<u8>, AllocError>
    ensures { IfOk result (λ line. line.items ≡ event_line entry.now) }
{
    let mut line = Vec::new(alloc);
    push_event(&mut line, entry)?;
    Ok(line)
}

/// Puts the line of an entry of the log behind a text: the caller, the call and the reply.
pub fn event_line(text: &mut Vec<u8>, entry: &Entry) -> Result<(), AllocError>
    ensures ok { OnOk result (text.new.items ≡ text.old.items ++ event_line entry.now) }
    ensures err { OnErr result (text.new.items ≡ text.old.items) }
{
    let line = made_event_line(*text.allocator(), entry)?;
    text.extend_from_slice(line.as_slice())
}

/// Puts the lines of some entries behind a text, in their order.
pub fn event_lines(text: &mut Vec<u8>, entries: &[Entry]) -> Result<(), AllocError>
    ensures ok { OnOk result (text.new.items ≡ text.old.items ++ flat_map event_line entries.now) }
    ensures err { OnErr result (text.new.items ≡ text.old.items) }
{
    let lines = made_event_lines(*text.allocator(), entries)?;
    text.extend_from_slice(lines.as_slice())
}
