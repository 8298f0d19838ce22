//! The words of a line.

ghost use Rattle.std.specs.Prelude.{◌≡◌, ◌+◌, ◌^◌, ◌<◌, ◌≤◌, nat_le, nat_lt, not, position, length, map, take, drop, IfOk, ◌==◌};
ghost use Rattle.std.specs.List.{list_all, prefix_len};
ghost use Rattle.ostore_text_words.specs.Lines.{plain_length, quoted_length, word_length, judged_at, placed, words_behind, is_only};
ghost use Rattle.ostore_text_words.specs.Seen.{seen_word};

use super::Word;
use ostore_base::{ListOf, OutOfMemory};
use std::alloc::Global;

/// Where the next space stands.
fn space_of(bytes: &[u8]) -> Option<usize>
    ensures { result ≡ position (λ byte. byte == 32) bytes.now }
{
    bytes.iter().position(|byte| *byte == b' ')
}

/// Where the first byte stands that is no space.
fn past_spaces_of(bytes: &[u8]) -> Option<usize>
    ensures { result ≡ position (λ byte. not (byte == 32)) bytes.now }
{
    bytes.iter().position(|byte| *byte != b' ')
}

/// Where the first control byte stands.
fn control_of(bytes: &[u8]) -> Option<usize>
    ensures { result ≡ position (λ byte. nat_lt byte 32) bytes.now }
{
    bytes.iter().position(|byte| *byte < b' ')
}

/// How many bytes stand before the next space.
fn plain_length(bytes: &[u8]) -> usize
    ensures length { result ≡ plain_length bytes.now }
    ensures within { result ≤ length bytes.now }
{
    space_of(bytes).unwrap_or(bytes.len())
}

/// How many bytes a quoted word has behind its opening quote.
fn quoted_length(bytes: &[u8]) -> usize
    ensures length { result ≡ quoted_length bytes.now }
    ensures within { result ≤ length bytes.now }
{
    let mut at = 0;
    while bytes.len() - at > 1 {
        if bytes[at] == b'"' {
            return at + 1 + plain_length(&bytes[at + 1..]);
        }
        at += if bytes[at] == b'\\' { 2 } else { 1 };
    }
    bytes.len()
}

/// How many bytes the word at the front has.
fn word_length(bytes: &[u8]) -> usize
    ensures length { result ≡ word_length bytes.now }
    ensures within { result ≤ length bytes.now }
{
    match bytes {
        [b'"', others @ ..] => 1 + quoted_length(others),
        _ => plain_length(bytes),
    }
}

/// Whether there is no control byte.
pub(crate) fn is_plain(bytes: &[u8]) -> bool
    ensures { result ≡ list_all (nat_le 32) bytes.now }
{
    bytes.iter().all(|byte| *byte >= b' ')
}

/// The place of a word that begins at `at`: of its first control byte, or of its first byte.
pub(super) fn judged_at(at: usize, bytes: &[u8]) -> usize
    requires { at + length bytes.now < 2 ^ 64 }
    ensures { result ≡ judged_at at bytes.now }
{
    match control_of(bytes) {
        Some(control) => at + control,
        None => at,
    }
}

/// The word at the front of what stands at `at`.
fn first_word<'a>(at: usize, bytes: &'a [u8]) -> Word<'a>
    requires { at + length bytes.now < 2 ^ 64 }
    ensures { seen_word result ≡ placed at (take (word_length bytes.now) bytes.now) }
{
    let bytes = &bytes[..word_length(bytes)];
    Word {
        at: judged_at(at, bytes),
        bytes,
    }
}

/// The words of a line that begins at `at`.
pub(super) fn words_of_line<'a>(
    alloc: Global,
    at: usize,
    line: &'a [u8],
) -> Result<ListOf<Word<'a>>, OutOfMemory>
    requires { at + length line.now < 2 ^ 64 }
    ensures { IfOk result (λ words. map seen_word words ≡ words_behind 0 at line.now) }
{
    let mut words = ListOf::new(alloc);
    let mut taken = 0;
    while taken < line.len() {
        if line[taken] == b' ' {
            taken += 1;
        } else {
            let word = first_word(at + taken, &line[taken..]);
            taken += word.bytes.len();
            words.push(word)?;
        }
    }
    Ok(words)
}

/// How many spaces stand at the front.
fn spaces(bytes: &[u8]) -> usize
    ensures length { result ≡ prefix_len (λ byte. byte == 32) bytes.now }
    ensures within { result ≤ length bytes.now }
{
    past_spaces_of(bytes).unwrap_or(bytes.len())
}

/// What stands behind the spaces at the front.
fn past_spaces(bytes: &[u8]) -> &[u8]
    ensures { result.now ≡ drop (prefix_len (λ byte. byte == 32) bytes.now) bytes.now }
{
    &bytes[spaces(bytes)..]
}

/// The word at the front, and what stands behind it.
fn around_word(bytes: &[u8]) -> (&[u8], &[u8])
    ensures word { result.0.now ≡ take (word_length bytes.now) bytes.now }
    ensures rest { result.1.now ≡ drop (word_length bytes.now) bytes.now }
{
    let length = word_length(bytes);
    (&bytes[..length], &bytes[length..])
}

/// Whether the line has this word alone.
pub(super) fn is_only(word: &[u8], line: &[u8]) -> bool
    ensures { result ≡ is_only word.now (words_behind 0 0 line.now) }
{
    let (found, rest) = around_word(past_spaces(line));
    if found.is_empty() || found != word {
        return false;
    }
    past_spaces(rest).is_empty()
}
