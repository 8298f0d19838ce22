//! Single words of a job's lines, by their index, which counts from 0.

ghost use Rattle.std.specs.Prelude.{◌≡◌, ◌==◌, option_map};
ghost use Rattle.std.specs.List.{position};
ghost use Rattle.ostore_text_words.specs.Gives.{GivesSame};
ghost use Rattle.ostore_text_words.specs.LineWords.{says_at};
ghost use Rattle.ostore_text_words.specs.Seen.{seen_line};
ghost use Rattle.ostore_text_words.specs.Words.{around_byte, begins_quoted};
ghost use Rattle.ostore_command_text.specs.WordsSaid.{variable_of, place_of, segment_of, index_of, op_of, last_of, later_of, path_of, parted_by};
ghost use Rattle.ostore_command_text.specs.inside.GivesAt.{GivesAt};
ghost use Rattle.ostore_command_text.specs.CommandsSaid.{begins_variable, operand_at, text_operand_at, var_operand_at, int_operand_at, key_at, text_key_at, int_key_at, item_at, var_item_at};

use ostore_base::{ListOf, Text};
use ostore_graph_model::{Idents, Key, Op, Operand};
use ostore_text_words::{Line, TextFault, is_identifier, read_dotted};
use std::alloc::Global;

/// The greatest segment. The first is 1.
const LAST_SEGMENT: u64 = 255;

/// The greatest index of a list.
const GREATEST_INDEX: u64 = 4_294_967_295;

/// The name of `$name`.
#[tactic(auto, unfolding(crate::specs::WordsSaid::variable_of))]
fn read_variable(word: &[u8]) -> Option<&[u8]>
    ensures { option_map (λ name. name.now) result ≡ variable_of word.now }
{
    match word {
        [b'$', name @ ..] => is_identifier(name).then_some(name),
        _ => None,
    }
}

/// The object and the member of `$object.member`.
#[tactic(auto, unfolding(crate::specs::WordsSaid::place_of))]
fn read_place(word: &[u8]) -> Option<(&[u8], &[u8])>
    ensures { option_map (λ parts. (parts.0.now, parts.1.now)) result ≡ place_of word.now }
{
    match word {
        [b'$', place @ ..] => read_dotted(place),
        _ => None,
    }
}

/// The variable that the word has to be.
#[tactic(auto, unfolding(ostore_text_words::specs::LineWords::says_at))]
pub(super) fn variable(alloc: Global, line: &Line, i: usize) -> Result<Text, TextFault>
    ensures { GivesSame result (says_at variable_of (seen_line line.now) i) }
{
    let found = line.word(i)?;
    match read_variable(found.bytes) {
        Some(name) => Ok(Text::from_bytes(alloc, name)?),
        None => Err(TextFault::Syntax { at: found.at }),
    }
}

/// The object and the member that the word has to be.
#[tactic(auto, unfolding(ostore_text_words::specs::LineWords::says_at))]
pub(super) fn place(alloc: Global, line: &Line, i: usize) -> Result<(Text, Text), TextFault>
    ensures { GivesSame result (says_at place_of (seen_line line.now) i) }
{
    let found = line.word(i)?;
    match read_place(found.bytes) {
        Some((object, member)) => {
            let object = Text::from_bytes(alloc, object)?;
            let member = Text::from_bytes(alloc, member)?;
            Ok((object, member))
        }
        None => Err(TextFault::Syntax { at: found.at }),
    }
}

/// The segment that the word has to be.
pub(super) fn segment(line: &Line, i: usize) -> Result<u8, TextFault>
    ensures { GivesSame result (says_at segment_of (seen_line line.now) i) }
{
    let count = line.count(i, 1, LAST_SEGMENT)?;
    Ok(count as u8)
}

/// The index that the word has to be.
pub(super) fn index(line: &Line, i: usize) -> Result<u32, TextFault>
    ensures { GivesSame result (says_at index_of (seen_line line.now) i) }
{
    let count = line.count(i, 0, GREATEST_INDEX)?;
    Ok(count as u32)
}

/// The comparison that the word is.
fn read_op(word: &[u8]) -> Option<Op>
    ensures { result ≡ op_of word.now }
{
    if word == b"=".as_slice() {
        return Some(Op::Equal);
    }
    if word == b"<".as_slice() {
        return Some(Op::Less);
    }
    if word == b"<=".as_slice() {
        return Some(Op::LessEqual);
    }
    if word == b">".as_slice() {
        return Some(Op::Greater);
    }
    if word == b">=".as_slice() {
        return Some(Op::GreaterEqual);
    }
    None
}

/// The comparison that the word has to be.
#[tactic(auto, unfolding(ostore_text_words::specs::LineWords::says_at))]
pub(super) fn op(line: &Line, i: usize) -> Result<Op, TextFault>
    ensures { GivesSame result (says_at op_of (seen_line line.now) i) }
{
    let found = line.word(i)?;
    match read_op(found.bytes) {
        Some(op) => Ok(op),
        None => Err(TextFault::Syntax { at: found.at }),
    }
}

/// Where the byte first stands.
fn place_of_byte(bytes: &[u8], byte: u8) -> Option<usize>
    ensures { result ≡ position (λ other. other == byte) bytes.now }
{
    bytes.iter().position(|other| *other == byte)
}

/// What stands before the first byte that is this one, and after it.
pub fn around_byte(bytes: &[u8], byte: u8) -> Option<(&[u8], &[u8])>
    ensures { option_map (λ parts. (parts.0.now, parts.1.now)) result ≡ around_byte byte bytes.now }
{
    let place = place_of_byte(bytes, byte)?;
    Some((&bytes[..place], &bytes[place + 1..]))
}

/// The path of one member that stands at the place.
#[tactic(auto, unfolding(crate::specs::WordsSaid::last_of))]
fn read_last(alloc: Global, at: usize, word: &[u8]) -> Result<Idents, TextFault>
    ensures { GivesAt at result (last_of word.now) }
{
    if !is_identifier(word) {
        return Err(TextFault::Syntax { at });
    }
    let mut path = ListOf::new(alloc);
    path.push(Text::from_bytes(alloc, word)?)?;
    Ok(path)
}

/// The path of one or two members that stands at the place.
#[tactic(auto, unfolding(crate::specs::WordsSaid::later_of))]
fn read_later(alloc: Global, at: usize, word: &[u8]) -> Result<Idents, TextFault>
    ensures { GivesAt at result (later_of word.now) }
{
    let Some((first, rest)) = around_byte(word, b'.') else {
        return read_last(alloc, at, word);
    };
    if !is_identifier(first) {
        return Err(TextFault::Syntax { at });
    }
    let others = read_last(alloc, at, rest)?;
    let mut path = ListOf::new(alloc);
    path.push(Text::from_bytes(alloc, first)?)?;
    path.append(others)?;
    Ok(path)
}

/// The path of one to three members that stands at the place.
#[tactic(auto, unfolding(crate::specs::WordsSaid::path_of))]
fn read_path(alloc: Global, at: usize, word: &[u8]) -> Result<Idents, TextFault>
    ensures { GivesAt at result (path_of word.now) }
{
    let Some((first, rest)) = around_byte(word, b'.') else {
        return read_last(alloc, at, word);
    };
    if !is_identifier(first) {
        return Err(TextFault::Syntax { at });
    }
    let others = read_later(alloc, at, rest)?;
    let mut path = ListOf::new(alloc);
    path.push(Text::from_bytes(alloc, first)?)?;
    path.append(others)?;
    Ok(path)
}

/// The path that the word has to be.
#[tactic(auto, unfolding(ostore_text_words::specs::LineWords::says_at))]
pub(super) fn path(alloc: Global, line: &Line, i: usize) -> Result<Idents, TextFault>
    ensures { GivesSame result (says_at path_of (seen_line line.now) i) }
{
    let found = line.word(i)?;
    let path = read_path(alloc, found.at, found.bytes)?;
    Ok(path)
}

/// Whether the word begins with a quote.
fn begins_quoted(word: &[u8]) -> bool
    ensures { result ≡ begins_quoted word.now }
{
    match word {
        [first, ..] => *first == b'"',
        [] => false,
    }
}

/// Whether the word begins with `$`.
fn begins_variable(word: &[u8]) -> bool
    ensures { result ≡ begins_variable word.now }
{
    match word {
        [first, ..] => *first == b'$',
        [] => false,
    }
}

#[tactic(auto, unfolding(crate::specs::CommandsSaid::int_operand_at))]
fn int_operand(line: &Line, i: usize) -> Result<Operand, TextFault>
    ensures { GivesSame result (int_operand_at (seen_line line.now) i) }
{
    let value = line.int(i)?;
    Ok(Operand::Int(value))
}

#[tactic(auto, unfolding(crate::specs::CommandsSaid::text_operand_at))]
fn text_operand(alloc: Global, line: &Line, i: usize) -> Result<Operand, TextFault>
    ensures { GivesSame result (text_operand_at (seen_line line.now) i) }
{
    let text = line.quoted(alloc, i)?;
    Ok(Operand::Text(text))
}

#[tactic(auto, unfolding(crate::specs::CommandsSaid::var_operand_at))]
fn var_operand(alloc: Global, line: &Line, i: usize) -> Result<Operand, TextFault>
    ensures { GivesSame result (var_operand_at (seen_line line.now) i) }
{
    let name = variable(alloc, line, i)?;
    Ok(Operand::Var(name))
}

/// The value that a member is set to.
#[tactic(auto, unfolding(crate::specs::CommandsSaid::operand_at))]
pub(super) fn operand(alloc: Global, line: &Line, i: usize) -> Result<Operand, TextFault>
    ensures { GivesSame result (operand_at (seen_line line.now) i) }
{
    let found = line.word(i)?;
    if begins_quoted(found.bytes) {
        return text_operand(alloc, line, i);
    }
    if begins_variable(found.bytes) {
        return var_operand(alloc, line, i);
    }
    if found.bytes == b"null".as_slice() {
        return Ok(Operand::Null);
    }
    int_operand(line, i)
}

#[tactic(auto, unfolding(crate::specs::CommandsSaid::int_key_at))]
fn int_key(line: &Line, i: usize) -> Result<Key, TextFault>
    ensures { GivesSame result (int_key_at (seen_line line.now) i) }
{
    let value = line.int(i)?;
    Ok(Key::Int(value))
}

#[tactic(auto, unfolding(crate::specs::CommandsSaid::text_key_at))]
fn text_key(alloc: Global, line: &Line, i: usize) -> Result<Key, TextFault>
    ensures { GivesSame result (text_key_at (seen_line line.now) i) }
{
    let text = line.quoted(alloc, i)?;
    Ok(Key::Text(text))
}

/// The key that the word has to be.
#[tactic(auto, unfolding(crate::specs::CommandsSaid::key_at))]
pub(super) fn key(alloc: Global, line: &Line, i: usize) -> Result<Key, TextFault>
    ensures { GivesSame result (key_at (seen_line line.now) i) }
{
    let found = line.word(i)?;
    if begins_quoted(found.bytes) {
        return text_key(alloc, line, i);
    }
    int_key(line, i)
}

#[tactic(auto, unfolding(crate::specs::CommandsSaid::var_item_at))]
fn var_item(alloc: Global, line: &Line, i: usize) -> Result<Option<Text>, TextFault>
    ensures { GivesSame result (var_item_at (seen_line line.now) i) }
{
    let name = variable(alloc, line, i)?;
    Ok(Some(name))
}

/// What a root is set to.
#[tactic(auto, unfolding(crate::specs::CommandsSaid::item_at))]
pub(super) fn item(alloc: Global, line: &Line, i: usize) -> Result<Option<Text>, TextFault>
    ensures { GivesSame result (item_at (seen_line line.now) i) }
{
    let found = line.word(i)?;
    if found.bytes == b"null".as_slice() {
        return Ok(None);
    }
    var_item(alloc, line, i)
}
