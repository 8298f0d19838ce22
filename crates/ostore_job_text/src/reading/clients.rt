//! Lines of clients and lines `turns`.

ghost use Rattle.std.specs.Prelude.{◌≡◌, ◌+◌, ◌^◌, ◌<◌, ◌≤◌, None, IfSome, option_map};
ghost use Rattle.std.specs.Char.{is_ascii_digit};
ghost use Rattle.std.specs.List.{list_all};
ghost use Rattle.ostore_text_words.specs.Gives.{Gives, GivesSame};
ghost use Rattle.ostore_text_words.specs.Seen.{seen_line, seen_word};
ghost use Rattle.ostore_job_text.specs.WordsSaid.{has_leading_zero, is_count, entry_by, entry_of};
ghost use Rattle.ostore_job_text.specs.LinesSaid.{client_at, turns_at, options_of, entries_of, words_from};
ghost use Rattle.ostore_job_text.specs.inside.WordLoops.{count_at, option_at, entry_at};

use crate::said::{ClientSaid, EntriesSaid, EntrySaid, LineSaid, OptionSaid, OptionsSaid};
use ostore_base::{ListOf, Text};
use ostore_command_text::around_byte;
use ostore_text_words::{Line, TextFault, Word, is_identifier, read_count};
use std::alloc::Global;

/// How many turns an entry may have at most.
const MOST_TURNS: u64 = 1_000_000;

/// Whether all bytes are digits.
fn are_digits(word: &[u8]) -> bool
    ensures { result ≡ list_all is_ascii_digit word.now }
{
    word.iter().all(|byte| byte.is_ascii_digit())
}

/// Whether a zero stands before other bytes.
fn has_leading_zero(word: &[u8]) -> bool
    ensures { result ≡ has_leading_zero word.now }
{
    match word {
        [] => false,
        [first, others @ ..] => *first == b'0' && others.len() > 0,
    }
}

/// Whether the word is a count of any size: digits, and no leading zero.
#[tactic(auto, unfolding(crate::specs::WordsSaid::is_count))]
fn is_count(word: &[u8]) -> bool
    ensures { result ≡ is_count word.now }
{
    word.len() > 0 && are_digits(word) && !has_leading_zero(word)
}

/// The word, which has to be a count of any size.
#[tactic(auto, unfolding(crate::specs::inside::WordLoops::count_at))]
fn count<'a>(line: &Line<'a>, i: usize) -> Result<Word<'a>, TextFault>
    ensures { Gives seen_word result (count_at (seen_line line.now) i) }
{
    let found = line.word(i)?;
    if !is_count(found.bytes) {
        return Err(TextFault::Syntax { at: found.at });
    }
    Ok(found)
}

/// The option whose name is the word, with its number behind it.
#[tactic(auto, unfolding(crate::specs::inside::WordLoops::option_at))]
fn option(alloc: Global, line: &Line, i: usize) -> Result<OptionSaid, TextFault>
    requires { i + 1 < 2 ^ 64 }
    ensures { GivesSame result (option_at (seen_line line.now) i) }
{
    let name = line.any(alloc, i)?;
    let number = count(line, i + 1)?;
    Ok(OptionSaid {
        at: name.at,
        name: Text::from_bytes(alloc, name.bytes)?,
        number: Text::from_bytes(alloc, number.bytes)?,
    })
}

/// The options from word 2 on.
#[tactic(auto, using(crate::proofs::WordLoops::option_read, crate::proofs::WordLoops::option_fails, crate::proofs::WordLoops::options_end, crate::proofs::WordLoops::front_begins))]
fn options(alloc: Global, line: &Line) -> Result<OptionsSaid, TextFault>
    ensures { GivesSame result
        (options_of (seen_line line.now).end (words_from 2 (seen_line line.now))) }
{
    let mut options = ListOf::new(alloc);
    let mut i = 2;
    while i < line.words.items().len() {
        let found = option(alloc, line, i)?;
        options.push(found)?;
        i += 2;
    }
    Ok(options)
}

/// `client NAME`, and its options.
#[tactic(auto, unfolding(crate::specs::LinesSaid::client_at))]
pub(super) fn read_client(alloc: Global, line: &Line) -> Result<LineSaid, TextFault>
    ensures { GivesSame result (client_at (seen_line line.now)) }
{
    let name = line.identifier(1)?;
    let options = options(alloc, line)?;
    Ok(LineSaid::Client(ClientSaid {
        at: name.at,
        name: Text::from_bytes(alloc, name.bytes)?,
        options,
    }))
}

/// The name of `NAME`, which is taken once.
fn read_single(word: &[u8]) -> Option<(&[u8], u64)>
    ensures entry { option_map (λ entry. (entry.0.now, entry.1)) result ≡ entry_by word.now None }
    ensures within { IfSome result (λ entry. entry.1 ≤ 1000000) }
{
    if is_identifier(word) {
        return Some((word, 1));
    }
    None
}

/// The name and the count of `NAME` or `NAME*COUNT`.
#[tactic(auto, unfolding(crate::specs::WordsSaid::entry_of))]
fn read_entry(word: &[u8]) -> Option<(&[u8], u64)>
    ensures entry { option_map (λ entry. (entry.0.now, entry.1)) result ≡ entry_of word.now }
    ensures within { IfSome result (λ entry. entry.1 ≤ 1000000) }
{
    let Some((name, count)) = around_byte(word, b'*') else {
        return read_single(word);
    };
    if !is_identifier(name) {
        return None;
    }
    let count = read_count(count, 1, MOST_TURNS)?;
    Some((name, count))
}

/// The entry that the word has to be.
#[tactic(auto, unfolding(crate::specs::inside::WordLoops::entry_at))]
fn entry(alloc: Global, line: &Line, i: usize) -> Result<EntrySaid, TextFault>
    ensures { GivesSame result (entry_at (seen_line line.now) i) }
{
    let found = line.word(i)?;
    match read_entry(found.bytes) {
        Some((name, count)) => Ok(EntrySaid {
            at: found.at,
            name: Text::from_bytes(alloc, name)?,
            count: count as u32,
        }),
        None => Err(TextFault::Syntax { at: found.at }),
    }
}

/// The entries from word 1 on.
#[tactic(auto, using(crate::proofs::WordLoops::entry_read, crate::proofs::WordLoops::entry_fails, crate::proofs::WordLoops::entries_end, crate::proofs::WordLoops::front_begins))]
fn entries(alloc: Global, line: &Line) -> Result<EntriesSaid, TextFault>
    ensures { GivesSame result (entries_of (words_from 1 (seen_line line.now))) }
{
    let mut entries = ListOf::new(alloc);
    for i in 1..line.words.items().len() {
        let found = entry(alloc, line, i)?;
        entries.push(found)?;
    }
    Ok(entries)
}

/// `turns`, and its entries.
#[tactic(auto, unfolding(crate::specs::LinesSaid::turns_at))]
pub(super) fn read_turns(alloc: Global, line: &Line) -> Result<LineSaid, TextFault>
    ensures { GivesSame result (turns_at (seen_line line.now)) }
{
    let _first = line.word(1)?;
    let entries = entries(alloc, line)?;
    Ok(LineSaid::Turns(entries))
}
