ghost use Rattle.std.specs.Prelude.{◌≡◌, IfOk};
ghost use Rattle.std.specs.Str.{bytes_eq};
ghost use Rattle.session_script.specs.Words.{texts, parts_at, digits_behind, number};

use std::alloc::{AllocError, Global};

/// The pieces between the bytes `at`, none of them copied.
pub(crate) fn parts(alloc: Global, text: &[u8], at: u8) -> Result<Vec<&[u8]>, AllocError>
    ensures { IfOk result (λ pieces. texts pieces.items ≡ parts_at at text.now) }
{
    text.split(|b| *b == at).collect(alloc)
}

/// Whether a word is this text.
pub(crate) fn is(word: &[u8], text: &str) -> bool
    ensures { result ≡ bytes_eq word.now text.now }
{
    word == text.as_bytes()
}

/// The number that a word spells, below 2^64 and without leading zeros.
#[tactic(auto, unfolding(crate::specs::Words::number, crate::specs::Words::digits_behind))]
pub(crate) fn number(word: &[u8]) -> Option<u64>
    ensures { result ≡ number word.now }
{
    let first = *word.first()?;
    if first == b'0' && word.len() > 1 {
        return None;
    }
    let mut value = 0u64;
    'digits: for b in word {
        if !b.is_ascii_digit() {
            return None;
        }
        value = value.checked_mul(10)?.checked_add(u64::from(*b - b'0'))?;
    }
    Some(value)
}
