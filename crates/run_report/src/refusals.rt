ghost use Rattle.std.specs.Prelude.{◌≡◌, ◌++◌, codes, decimal, OnOk, IfOk};
ghost use Rattle.run_report.specs.Refusals.{field_name, reason_text, refusal_line};

use itoa::Buffer;
use param_set::Field;
use session_script::Reason;
use std::alloc::{AllocError, Global};

// Puts the name of a parameter behind a text.
fn push_field(text: &mut Vec<u8>, field: Field) -> Result<(), AllocError>
    ensures { OnOk result (text.new.items ≡ text.old.items ++ field_name field) }
{
    match field {
        Field::N => text.extend_from_slice(b"n"),
        Field::Q => text.extend_from_slice(b"q"),
        Field::T => text.extend_from_slice(b"t"),
        Field::Root => text.extend_from_slice(b"root"),
        Field::DigitBits => text.extend_from_slice(b"b"),
        Field::Err => text.extend_from_slice(b"B"),
        Field::Flood => text.extend_from_slice(b"D"),
        Field::Parties => text.extend_from_slice(b"N"),
        Field::Threshold => text.extend_from_slice(b"T"),
    }
}

// Puts a number in decimal behind a text and a space.
fn push_number(text: &mut Vec<u8>, number: u64) -> Result<(), AllocError>
    ensures { OnOk result (text.new.items ≡ text.old.items ++ codes " " ++ decimal number) }
{
    text.push(b' ')?;
    text.extend_from_slice(Buffer::new().format(number).as_bytes())
}

// Puts a parameter that broke its rule behind a text, with its value.
fn push_params(text: &mut Vec<u8>, field: Field, value: u64) -> Result<(), AllocError>
    ensures { OnOk result (text.new.items
        ≡ text.old.items ++ codes "params " ++ field_name field ++ codes " " ++ decimal value) }
{
    text.extend_from_slice(b"params ")?;
    push_field(text, field)?;
    push_number(text, value)
}

// Puts what a power of the root is, where it is not -1, behind a text.
fn push_no_root(text: &mut Vec<u8>, value: u64) -> Result<(), AllocError>
    ensures { OnOk result (text.new.items ≡ text.old.items ++ codes "noroot " ++ decimal value) }
{
    text.extend_from_slice(b"noroot")?;
    push_number(text, value)
}

// Puts a reason behind a text.
#[tactic(auto, unfolding(crate::specs::Refusals::reason_text))]
fn push_reason(text: &mut Vec<u8>, reason: Reason) -> Result<(), AllocError>
    ensures { OnOk result (text.new.items ≡ text.old.items ++ reason_text reason) }
{
    match reason {
        Reason::Byte => text.extend_from_slice(b"byte"),
        Reason::Word => text.extend_from_slice(b"word"),
        Reason::Number => text.extend_from_slice(b"number"),
        Reason::Version => text.extend_from_slice(b"version"),
        Reason::Limit => text.extend_from_slice(b"limit"),
        Reason::Params { field, value } => push_params(text, field, value),
        Reason::NoRoot { value } => push_no_root(text, value),
        Reason::Seed => text.extend_from_slice(b"seed"),
        Reason::Name => text.extend_from_slice(b"name"),
        Reason::Party => text.extend_from_slice(b"party"),
        Reason::Id => text.extend_from_slice(b"id"),
        Reason::Node => text.extend_from_slice(b"node"),
        Reason::End => text.extend_from_slice(b"end"),
    }
}

/// The line of a refused script: the number of the line that breaks a rule, counted from 1, and the
/// reason.
#[tactic(auto, unfolding(crate::specs::Refusals::refusal_line))]
pub fn refusal_line(alloc: Global, line: u32, reason: Reason) -> Result<Vec<u8>, AllocError>
    ensures { IfOk result (λ text. text.items ≡ refusal_line line reason) }
{
    let mut text = Vec::from_slice(alloc, b"refused line ")?;
    text.extend_from_slice(Buffer::new().format(line).as_bytes())?;
    text.push(b' ')?;
    push_reason(&mut text, reason)?;
    text.push(b'\n')?;
    Ok(text)
}
