ghost use Rattle.std.specs.Prelude.{◌≡◌, ◌++◌, OnOk};
ghost use Rattle.run_report.specs.Values.{trimmed, following, spaced, value_text};

use itoa::Buffer;
use std::alloc::AllocError;

// The coefficients without the zeros at the end.
fn trimmed(coeffs: &[u64]) -> &[u64]
    ensures { result.now ≡ trimmed coeffs.now }
{
    let mut end = coeffs.len();
    'zeros: while end > 0 && coeffs[end - 1] == 0 {
        end -= 1;
    }
    &coeffs[..end]
}

// Puts numbers behind a text, one space before each.
#[tactic(auto, using(crate::proofs::Spaced::rows))]
fn push_following(text: &mut Vec<u8>, numbers: &[u64]) -> Result<(), AllocError>
    ensures { OnOk result (text.new.items ≡ text.old.items ++ following numbers.now) }
{
    let mut digits = Buffer::new();
    'numbers: for number in numbers {
        text.push(b' ')?;
        text.extend_from_slice(digits.format(*number).as_bytes())?;
    }
    Ok(())
}

// Puts numbers behind a text, one space between each and the next.
fn push_spaced(text: &mut Vec<u8>, numbers: &[u64]) -> Result<(), AllocError>
    ensures { OnOk result (text.new.items ≡ text.old.items ++ spaced numbers.now) }
{
    let Some((first, rest)) = numbers.split_first() else {
        return Ok(());
    };
    text.extend_from_slice(Buffer::new().format(*first).as_bytes())?;
    push_following(text, rest)
}

// Puts the text of a value behind a text.
pub(crate) fn push_value(text: &mut Vec<u8>, coeffs: &[u64]) -> Result<(), AllocError>
    ensures { OnOk result (text.new.items ≡ text.old.items ++ value_text coeffs.now) }
{
    let kept = trimmed(coeffs);
    if kept.is_empty() {
        push_spaced(text, &[0])
    } else {
        push_spaced(text, kept)
    }
}
