ghost use Rattle.std.specs.Prelude.{◌≡◌, ◌++◌, OnOk, decimal, map};
ghost use Rattle.event_lines.specs.Lists.{following, by_commas, or_dash};
ghost use Rattle.event_lines.specs.Events.{place_text};

use itoa::Buffer;
use std::alloc::AllocError;

// Puts a number behind a text.
pub(crate) fn push_number(text: &mut Vec<u8>, number: u32) -> Result<(), AllocError>
    ensures { OnOk result (text.new.items ≡ text.old.items ++ decimal number) }
{
    text.extend_from_slice(Buffer::new().format(number).as_bytes())
}

// Puts a word and a number directly behind it behind a text.
pub(crate) fn push_numbered(text: &mut Vec<u8>, word: &[u8], number: u32) -> Result<(), AllocError>
    ensures { OnOk result (text.new.items ≡ text.old.items ++ word.now ++ decimal number) }
{
    text.extend_from_slice(word)?;
    push_number(text, number)
}

// Puts a word and numbers behind a text, one space before each number.
#[tactic(auto, using(crate::proofs::Rows::rows))]
pub(crate) fn push_words(text: &mut Vec<u8>, word: &[u8], numbers: &[u32]) -> Result<(), AllocError>
    ensures { OnOk result (text.new.items ≡ text.old.items ++ word.now ++ following numbers.now) }
{
    text.extend_from_slice(word)?;
    let mut digits = Buffer::new();
    'numbers: for number in numbers {
        text.push(b' ')?;
        text.extend_from_slice(digits.format(*number).as_bytes())?;
    }
    Ok(())
}

// Puts numbers behind a text, one comma between each and the next.
#[tactic(auto, using(crate::proofs::Rows::rows))]
fn push_by_commas(text: &mut Vec<u8>, numbers: &[u32]) -> Result<(), AllocError>
    ensures { OnOk result (text.new.items ≡ text.old.items ++ by_commas (map decimal numbers.now)) }
{
    let mut separator: &[u8] = b"";
    'numbers: for number in numbers {
        push_numbered(text, separator, *number)?;
        separator = b",";
    }
    Ok(())
}

// Puts numbers behind a text, by commas, and `-` for none.
#[tactic(auto, using(crate::proofs::Rows::dashes))]
pub(crate) fn push_ids(text: &mut Vec<u8>, ids: &[u32]) -> Result<(), AllocError>
    ensures { OnOk result (text.new.items ≡ text.old.items ++ or_dash (map decimal ids.now)) }
{
    if ids.is_empty() {
        text.extend_from_slice(b"-")
    } else {
        push_by_commas(text, ids)
    }
}

// Puts a separator and the place of an input behind a text.
#[tactic(auto, unfolding(crate::specs::Events::place_text))]
fn push_place(text: &mut Vec<u8>, separator: &[u8], place: (u32, u32)) -> Result<(), AllocError>
    ensures { OnOk result (text.new.items ≡ text.old.items ++ separator.now ++ place_text place) }
{
    push_numbered(text, separator, place.0)?;
    push_numbered(text, b".", place.1)
}

// Puts places of inputs behind a text, one comma between each and the next.
#[tactic(auto, using(crate::proofs::Rows::rows))]
fn push_places(text: &mut Vec<u8>, places: &[(u32, u32)]) -> Result<(), AllocError>
    ensures { OnOk result (text.new.items ≡ text.old.items ++ by_commas (map place_text places.now)) }
{
    let mut separator: &[u8] = b"";
    'places: for place in places {
        push_place(text, separator, *place)?;
        separator = b",";
    }
    Ok(())
}

// Puts places of inputs behind a text, by commas, and `-` for none.
#[tactic(auto, using(crate::proofs::Rows::dashes))]
pub(crate) fn push_slots(text: &mut Vec<u8>, slots: &[(u32, u32)]) -> Result<(), AllocError>
    ensures { OnOk result (text.new.items ≡ text.old.items ++ or_dash (map place_text slots.now)) }
{
    if slots.is_empty() {
        text.extend_from_slice(b"-")
    } else {
        push_places(text, slots)
    }
}
