ghost use Rattle.std.specs.Prelude.{◌≡◌, ◌++◌, OnOk, OnErr, IfOk};
ghost use Rattle.event_lines.specs.Instances.{open_text, stage_text, instance_head, instance_text, instance_line};

use crate::lists::{push_number, push_numbered};
use crate::names::{push_outside, push_set, push_signature};
use proto_names::{Instance, Stage};
use std::alloc::{AllocError, Global};

// Puts which instance it is behind a text.
#[tactic(auto, unfolding(crate::specs::Instances::instance_head))]
fn push_head(text: &mut Vec<u8>, instance: &Instance) -> Result<(), AllocError>
    ensures { OnOk result (text.new.items ≡ text.old.items ++ instance_head instance.now) }
{
    push_number(text, instance.id)?;
    text.push(b' ')?;
    push_signature(text, instance.signature)?;
    text.push(b' ')?;
    push_set(text, &instance.set)?;
    push_numbered(text, b" attempt ", instance.attempt)
}

// Puts a word and a text behind a text.
fn push_both(text: &mut Vec<u8>, word: &[u8], more: &[u8]) -> Result<(), AllocError>
    ensures { OnOk result (text.new.items ≡ text.old.items ++ word.now ++ more.now) }
{
    text.extend_from_slice(word)?;
    text.extend_from_slice(more)
}

// Puts who has yet to send behind a text.
#[tactic(auto, unfolding(crate::specs::Instances::open_text))]
fn push_open(text: &mut Vec<u8>, instance: &Instance) -> Result<(), AllocError>
    ensures { OnOk result (text.new.items ≡ text.old.items ++ open_text instance.now) }
{
    text.extend_from_slice(b"open ")?;
    push_outside(text, &instance.set, &instance.sent)
}

// Puts how far an instance has come behind a text.
#[tactic(auto, unfolding(crate::specs::Instances::stage_text))]
fn push_stage(text: &mut Vec<u8>, instance: &Instance, digest: &[u8; 64]) -> Result<(), AllocError>
    ensures { OnOk result (text.new.items ≡ text.old.items ++ stage_text instance.now instance.now.stage digest.now) }
{
    match instance.stage {
        Stage::Opened => push_open(text, instance),
        Stage::Complete => push_both(text, b"complete ", digest),
        Stage::Void { by } => push_numbered(text, b"void by ", by),
    }
}

// Puts an instance behind a text.
#[tactic(auto, unfolding(crate::specs::Instances::instance_text))]
fn push_instance(
    text: &mut Vec<u8>,
    instance: &Instance,
    digest: &[u8; 64],
) -> Result<(), AllocError>
    ensures { OnOk result (text.new.items ≡ text.old.items ++ instance_text instance.now digest.now) }
{
    push_head(text, instance)?;
    text.push(b' ')?;
    push_stage(text, instance, digest)
}

// The line of an instance.
#[tactic(auto, unfolding(crate::specs::Instances::instance_line))]
fn made_instance_line(
    alloc: Global,
    instance: &Instance,
    digest: &[u8; 64],
) -> Result<Vec<u8>, AllocError>
    ensures { IfOk result (λ line. line.items ≡ instance_line instance.now digest.now) }
{
    let mut line = Vec::from_slice(alloc, b"instance ")?;
    push_instance(&mut line, instance, digest)?;
    line.push(b'\n')?;
    Ok(line)
}

/// Puts the line of an instance behind a text. The digest is that of its sums, 64 hexadecimal digits in
/// lower case, and is printed where the instance is complete.
pub fn instance_line(
    text: &mut Vec<u8>,
    instance: &Instance,
    digest: &[u8; 64],
) -> Result<(), AllocError>
    ensures ok { OnOk result (text.new.items ≡ text.old.items ++ instance_line instance.now digest.now) }
    ensures err { OnErr result (text.new.items ≡ text.old.items) }
{
    let line = made_instance_line(*text.allocator(), instance, digest)?;
    text.extend_from_slice(line.as_slice())
}
