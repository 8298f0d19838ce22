//! Quoted texts: a text between quotes, in which a backslash stands before each quote and each backslash.

ghost use Rattle.std.specs.Prelude.{◌≡◌, ◌∷◌, ◌++◌, ℕ, List, false, IfOk, OnOk};
ghost use Rattle.std.specs.Str.{bytes_eq};
ghost use Rattle.ostore_text_words.specs.Gives.{GivesSame};
ghost use Rattle.ostore_text_words.specs.LineWords.{or_at};
ghost use Rattle.ostore_text_words.specs.Words.{begins_quoted, between, escaped, is_quoted, may_stand, quoted, quoted_at, unescaped};

use crate::fault::TextFault;
use crate::lines::Word;
use crate::lines::words::is_plain;
use ostore_base::{OutOfMemory, Text};
use std::alloc::Global;

/// Adds a text between quotes.
pub fn push_quoted(out: &mut Text, text: &[u8]) -> Result<(), OutOfMemory>
    ensures { OnOk result (out.new ≡ out.old ++ quoted text.now) }
{
    out.push_bytes(b"\"")?;
    for byte in text {
        push_escaped(out, *byte)?;
    }
    out.push_bytes(b"\"")
}

/// Adds a byte of a quoted text.
fn push_escaped(out: &mut Text, byte: u8) -> Result<(), OutOfMemory>
    ensures { OnOk result (out.new ≡ out.old ++ escaped byte) }
{
    if byte == b'"' || byte == b'\\' {
        out.push_bytes(b"\\")?;
    }
    out.push_bytes(&[byte])
}

/// Adds a byte that stands between quotes, unless it is a backslash before another byte. `taken` says that
/// such a backslash stood before it, and the answer says so of the next byte.
fn push_unescaped(text: &mut Text, taken: bool, byte: u8) -> Result<bool, OutOfMemory>
    ensures { IfOk result (λ next. (rest : List ℕ) →
        text.new ++ unescaped next rest ≡ text.old ++ unescaped taken (byte ∷ rest)) }
{
    if !taken && byte == b'\\' {
        return Ok(true);
    }
    text.push(byte)?;
    Ok(false)
}

/// The bytes without the backslashes before others.
fn unescaped(alloc: Global, bytes: &[u8]) -> Result<Text, OutOfMemory>
    ensures { IfOk result (λ text. text ≡ unescaped false bytes.now) }
{
    let mut text = Text::new(alloc);
    let mut taken = false;
    for byte in bytes {
        taken = push_unescaped(&mut text, taken, *byte)?;
    }
    Ok(text)
}

/// What stands between the first byte and the last.
fn between(word: &[u8]) -> &[u8]
    ensures { result.now ≡ between word.now }
{
    if word.len() < 2 {
        return &[];
    }
    &word[1..word.len() - 1]
}

/// Whether the word is the text's one form between quotes.
fn is_form_of(alloc: Global, text: &Text, word: &[u8]) -> Result<bool, OutOfMemory>
    ensures { IfOk result (λ is_form. is_form ≡ bytes_eq (quoted text.now) word.now) }
{
    let mut form = Text::new(alloc);
    push_quoted(&mut form, text.bytes())?;
    Ok(form.bytes() == word)
}

/// The text that the word spells between quotes.
#[tactic(auto, unfolding(crate::specs::Words::quoted_at))]
pub(crate) fn read_quoted(alloc: Global, word: &Word) -> Result<Text, TextFault>
    ensures { GivesSame result (or_at word.now.at (quoted_at word.now.bytes.now)) }
{
    let text = unescaped(alloc, between(word.bytes))?;
    let is_form = is_form_of(alloc, &text, word.bytes)?;
    if !is_plain(word.bytes) || !is_form {
        return Err(TextFault::Syntax { at: word.at });
    }
    Ok(text)
}

/// Whether the word begins with a quote.
fn begins_quoted(word: &[u8]) -> bool
    ensures { result ≡ begins_quoted word.now }
{
    match word {
        [first, ..] => *first == b'"',
        [] => false,
    }
}

/// Whether the word is a quoted text, control bytes aside.
fn is_quoted(alloc: Global, word: &[u8]) -> Result<bool, OutOfMemory>
    ensures { IfOk result (λ is_one. is_one ≡ is_quoted word.now) }
{
    let text = unescaped(alloc, between(word))?;
    is_form_of(alloc, &text, word)
}

/// Whether the word may stand somewhere.
#[tactic(auto, unfolding(crate::specs::Words::may_stand))]
pub(crate) fn may_stand(alloc: Global, word: &[u8]) -> Result<bool, OutOfMemory>
    ensures { IfOk result (λ stands. stands ≡ may_stand word.now) }
{
    let plain = is_plain(word);
    if !begins_quoted(word) {
        return Ok(plain);
    }
    let is_one = is_quoted(alloc, word)?;
    Ok(plain && is_one)
}
