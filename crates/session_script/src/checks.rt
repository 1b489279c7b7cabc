ghost use Rattle.std.specs.Prelude.{◌≡◌, [], Ok, IfOk, IfErr};
ghost use Rattle.session_script.specs.Words.{texts};
ghost use Rattle.session_script.specs.Checks.{IsFaultOf, unless, is_statement, number_at, numbers_behind, party};

use crate::frame::Frame;
use crate::lines::{leads, word_at};
use crate::reason::{Fault, Reason};
use crate::words::number;
use std::alloc::Global;

/// Refuses for a reason, unless a test holds.
pub(crate) fn unless(test: bool, reason: Reason) -> Result<(), Reason>
    ensures { result ≡ unless test reason }
{
    if test { Ok(()) } else { Err(reason) }
}

/// Whether there are so many words, and this one leads.
pub(crate) fn is_statement(text: &str, count: usize, words: &[&[u8]]) -> bool
    ensures { result ≡ is_statement text.now count (texts words.now) }
{
    leads(text, words) && words.len() == count
}

/// The number that the word at a place spells.
pub(crate) fn number_at(words: &[&[u8]], k: usize) -> Result<u64, Reason>
    ensures { result ≡ number_at (texts words.now) k }
{
    number(word_at(words, k)).ok_or(Reason::Number)
}

/// The numbers that all words spell.
#[tactic(auto, unfolding(crate::specs::Checks::numbers_behind))]
pub(crate) fn numbers(alloc: Global, words: &[&[u8]]) -> Result<Vec<u64>, Fault>
    ensures ok { IfOk result (λ v. numbers_behind [] (texts words.now) ≡ Ok v.items) }
    ensures err { IfErr result (IsFaultOf (numbers_behind [] (texts words.now))) }
{
    let mut numbers = Vec::new(alloc);
    'words: for word in words {
        let Some(next) = number(word) else {
            return Err(Fault::from(Reason::Number));
        };
        numbers.push(next)?;
    }
    Ok(numbers)
}

/// The number of a party.
pub(crate) fn party(frame: &Frame, p: u64) -> Result<u32, Reason>
    ensures { result ≡ party frame.now p }
{
    if 1 <= p && p <= u64::from(frame.parties()) {
        Ok(p as u32)
    } else {
        Err(Reason::Party)
    }
}
