ghost use Rattle.std.specs.Prelude.{◌≡◌, ◌++◌, OnOk, OnErr, IfOk};
ghost use Rattle.run_report.specs.Lines.{circuit_line, output_line};
ghost use Rattle.run_report.specs.Reports.{place_text, refused_line, open_line};

use crate::digests::cipher_digest;
use crate::values::push_value;
use itoa::Buffer;
use mod_ring::Ciphertext;
use noise_ledger::{Over, Place};
use param_set::Plain;
use std::alloc::{AllocError, Global};

// The line `circuit NAME = VALUE`.
#[tactic(auto, unfolding(crate::specs::Lines::circuit_line))]
fn made_circuit_line(alloc: Global, name: &[u8], value: &Plain) -> Result<Vec<u8>, AllocError>
    ensures { IfOk result (λ line. line.items ≡ circuit_line name.now value.now) }
{
    let mut line = Vec::from_slice(alloc, b"circuit ")?;
    line.extend_from_slice(name)?;
    line.extend_from_slice(b" = ")?;
    push_value(&mut line, value.coeffs())?;
    line.push(b'\n')?;
    Ok(line)
}

// The line `output NAME DIGEST`.
#[tactic(auto, unfolding(crate::specs::Lines::output_line))]
fn made_output_line(alloc: Global, name: &[u8], output: &Ciphertext) -> Result<Vec<u8>, AllocError>
    ensures { IfOk result (λ line. line.items ≡ output_line name.now output.now) }
{
    let mut line = Vec::from_slice(alloc, b"output ")?;
    line.extend_from_slice(name)?;
    line.push(b' ')?;
    line.extend_from_slice(&cipher_digest(output))?;
    line.push(b'\n')?;
    Ok(line)
}

// Puts a place of a circuit behind a text.
pub(crate) fn push_place(text: &mut Vec<u8>, place: Place) -> Result<(), AllocError>
    ensures { OnOk result (text.new.items ≡ text.old.items ++ place_text place) }
{
    match place {
        Place::Node(number) => {
            text.extend_from_slice(b"node ")?;
            text.extend_from_slice(Buffer::new().format(number).as_bytes())
        }
        Place::Output => text.extend_from_slice(b"output"),
    }
}

// The line `circuit NAME refused PLACE bound B limit L`.
#[tactic(auto, unfolding(crate::specs::Reports::refused_line))]
fn made_refused_line(alloc: Global, name: &[u8], over: Over) -> Result<Vec<u8>, AllocError>
    ensures { IfOk result (λ line. line.items
        ≡ refused_line name.now over.place over.bound over.limit) }
{
    let mut line = Vec::from_slice(alloc, b"circuit ")?;
    line.extend_from_slice(name)?;
    line.extend_from_slice(b" refused ")?;
    push_place(&mut line, over.place)?;
    line.extend_from_slice(b" bound ")?;
    line.extend_from_slice(Buffer::new().format(over.bound).as_bytes())?;
    line.extend_from_slice(b" limit ")?;
    line.extend_from_slice(Buffer::new().format(over.limit).as_bytes())?;
    line.push(b'\n')?;
    Ok(line)
}

// The line `circuit NAME open`.
#[tactic(auto, unfolding(crate::specs::Reports::open_line))]
fn made_open_line(alloc: Global, name: &[u8]) -> Result<Vec<u8>, AllocError>
    ensures { IfOk result (λ line. line.items ≡ open_line name.now) }
{
    let mut line = Vec::from_slice(alloc, b"circuit ")?;
    line.extend_from_slice(name)?;
    line.extend_from_slice(b" open\n")?;
    Ok(line)
}

/// Puts the line of a circuit that has an answer behind a text: its name and its value.
pub fn circuit_line(text: &mut Vec<u8>, name: &[u8], value: &Plain) -> Result<(), AllocError>
    ensures ok { OnOk result (text.new.items ≡ text.old.items ++ circuit_line name.now value.now) }
    ensures err { OnErr result (text.new.items ≡ text.old.items) }
{
    let line = made_circuit_line(*text.allocator(), name, value)?;
    text.extend_from_slice(line.as_slice())
}

/// Puts the line of a circuit that has an output behind a text: its name and the output's digest.
pub fn output_line(text: &mut Vec<u8>, name: &[u8], output: &Ciphertext) -> Result<(), AllocError>
    ensures ok { OnOk result (text.new.items ≡ text.old.items ++ output_line name.now output.now) }
    ensures err { OnErr result (text.new.items ≡ text.old.items) }
{
    let line = made_output_line(*text.allocator(), name, output)?;
    text.extend_from_slice(line.as_slice())
}

/// Puts the line of a refused circuit behind a text: its name, and the place whose bound is too large.
pub fn refused_line(text: &mut Vec<u8>, name: &[u8], over: Over) -> Result<(), AllocError>
    ensures ok { OnOk result (text.new.items
        ≡ text.old.items ++ refused_line name.now over.place over.bound over.limit) }
    ensures err { OnErr result (text.new.items ≡ text.old.items) }
{
    let line = made_refused_line(*text.allocator(), name, over)?;
    text.extend_from_slice(line.as_slice())
}

/// Puts the line of a circuit that has no answer yet behind a text: its name.
pub fn open_line(text: &mut Vec<u8>, name: &[u8]) -> Result<(), AllocError>
    ensures ok { OnOk result (text.new.items ≡ text.old.items ++ open_line name.now) }
    ensures err { OnErr result (text.new.items ≡ text.old.items) }
{
    let line = made_open_line(*text.allocator(), name)?;
    text.extend_from_slice(line.as_slice())
}
