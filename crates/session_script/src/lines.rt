ghost use Rattle.std.specs.Prelude.{◌≡◌, ◌≤◌, length, drop, IfOk};
ghost use Rattle.std.specs.Str.{bytes_eq};
ghost use Rattle.session_script.specs.Words.{texts};
ghost use Rattle.session_script.specs.Lines.{without_end, lines, words, is_word, word_at, leads, all_plain, is_skipped};

use crate::words::{is, parts};
use std::alloc::{AllocError, Global};

/// The lines of a text, none of them copied.
#[tactic(auto, unfolding(crate::specs::Lines::lines))]
pub(crate) fn lines(alloc: Global, text: &[u8]) -> Result<Vec<&[u8]>, AllocError>
    ensures lines { IfOk result (λ v. texts v.items ≡ lines text.now) }
    ensures few { IfOk result (λ v. length v.items ≤ length text.now) }
{
    let pieces = parts(alloc, text, b'\n')?;
    Ok(without_end(pieces))
}

/// Pieces without the last one where nothing stands in it.
#[tactic(auto, unfolding(crate::specs::Lines::without_end))]
fn without_end<'a>(pieces: Vec<&'a [u8]>) -> Vec<&'a [u8]>
    ensures { texts result.items ≡ without_end (texts pieces.entry.items) }
{
    let mut pieces = pieces;
    let count = pieces.len();
    if count > 0 && pieces[count - 1].is_empty() {
        pieces.truncate(count - 1);
    }
    pieces
}

/// Whether a piece has a byte.
fn is_word(piece: &[u8]) -> bool
    ensures { result ≡ is_word piece.now }
{
    !piece.is_empty()
}

/// The words of a line, none of them copied.
#[tactic(auto, unfolding(crate::specs::Lines::words))]
pub(crate) fn words(alloc: Global, line: &[u8]) -> Result<Vec<&[u8]>, AllocError>
    ensures { IfOk result (λ v. texts v.items ≡ words line.now) }
{
    line.split(|b| *b == b' ')
        .filter(|piece| is_word(piece))
        .collect(alloc)
}

/// The word at a place; no bytes where there is none.
pub(crate) fn word_at<'a>(words: &[&'a [u8]], k: usize) -> &'a [u8]
    ensures { result.now ≡ word_at (texts words.now) k }
{
    if k < words.len() { words[k] } else { b"" }
}

/// Whether the first word is this one.
pub(crate) fn leads(text: &str, words: &[&[u8]]) -> bool
    ensures { result ≡ leads text.now (texts words.now) }
{
    is(word_at(words, 0), text)
}

/// The words from a place on.
pub(crate) fn behind<'a, 'b>(words: &'a [&'b [u8]], count: usize) -> &'a [&'b [u8]]
    requires { count ≤ length words.now }
    ensures { texts result.now ≡ drop count (texts words.now) }
{
    &words[count..]
}

/// Whether all bytes may stand in a script.
pub(crate) fn all_plain(line: &[u8]) -> bool
    ensures { result ≡ all_plain line.now }
{
    line.iter().all(|b| 32 <= *b && *b <= 126)
}

/// Whether a line of these words is skipped.
#[tactic(auto, unfolding(crate::specs::Lines::is_skipped))]
pub(crate) fn is_skipped(words: &[&[u8]]) -> bool
    ensures { result ≡ is_skipped (texts words.now) }
{
    match words.first() {
        Some(word) => !word.is_empty() && word[0] == b'#',
        None => true,
    }
}
