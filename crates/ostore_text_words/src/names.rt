//! Names, and words of two names.

ghost use Rattle.std.specs.Prelude.{◌≡◌, ◌==◌, option_map, position};
ghost use Rattle.std.specs.List.{list_all};
ghost use Rattle.ostore_text_words.specs.Words.{is_identifier, is_reserved, is_name_byte, begins_as_name, around_byte, dotted_at, name_at};

use crate::numbers::read_count;

/// The words of the languages, which name nothing.
const RESERVED: [&[u8]; 10] = [
    b"type", b"int", b"text", b"ref", b"set", b"list", b"dict", b"inverse", b"null", b"job",
];

/// Whether the word is one of the languages' own.
#[tactic(auto, unfolding(crate::specs::Words::is_reserved))]
fn is_reserved(word: &[u8]) -> bool
    ensures { result ≡ is_reserved word.now }
{
    RESERVED.iter().any(|reserved| word == *reserved)
}

fn are_name_bytes(bytes: &[u8]) -> bool
    ensures { result ≡ list_all is_name_byte bytes.now }
{
    bytes
        .iter()
        .all(|byte| byte.is_ascii_alphanumeric() || *byte == b'_')
}

/// Whether the word is a letter, then letters, digits and `_`.
fn begins_as_name(word: &[u8]) -> bool
    ensures { result ≡ begins_as_name word.now }
{
    match word {
        [] => false,
        [first, others @ ..] => first.is_ascii_alphabetic() && are_name_bytes(others),
    }
}

/// Whether the word is an identifier: an ASCII letter, then letters, digits and `_`, at most 31 bytes,
/// and no word of the languages.
#[tactic(auto, unfolding(crate::specs::Words::is_identifier))]
pub fn is_identifier(word: &[u8]) -> bool
    ensures { result ≡ is_identifier word.now }
{
    begins_as_name(word) && word.len() <= 31 && !is_reserved(word)
}

/// Where the first dot stands.
fn dot_of(bytes: &[u8]) -> Option<usize>
    ensures { result ≡ position (λ byte. byte == 46) bytes.now }
{
    bytes.iter().position(|byte| *byte == b'.')
}

/// What stands before the first dot, and after it.
fn around_dot(bytes: &[u8]) -> Option<(&[u8], &[u8])>
    ensures { option_map (λ parts. (parts.0.now, parts.1.now)) result ≡ around_byte 46 bytes.now }
{
    let dot = dot_of(bytes)?;
    Some((&bytes[..dot], &bytes[dot + 1..]))
}

/// The two names of `first.second`.
#[tactic(auto, unfolding(crate::specs::Words::dotted_at))]
pub fn read_dotted(word: &[u8]) -> Option<(&[u8], &[u8])>
    ensures { option_map (λ names. (names.0.now, names.1.now)) result ≡ dotted_at word.now }
{
    let (first, second) = around_dot(word)?;
    if is_identifier(first) && is_identifier(second) {
        Some((first, second))
    } else {
        None
    }
}

/// The greatest number of a segment. The first is 1.
const LAST_SEGMENT: u64 = 255;

/// The greatest serial of an object. The first is 1.
const LAST_SERIAL: u64 = 4_294_967_295;

/// The segment and the serial of `SEG.SERIAL`, each a count from 1.
#[tactic(auto, unfolding(crate::specs::Words::name_at))]
pub fn read_name(word: &[u8]) -> Option<(u8, u32)>
    ensures { result ≡ name_at word.now }
{
    let (segment, serial) = around_dot(word)?;
    let segment = read_count(segment, 1, LAST_SEGMENT)?;
    let serial = read_count(serial, 1, LAST_SERIAL)?;
    Some((segment as u8, serial as u32))
}
