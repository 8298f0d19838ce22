//! Numbers, each in its one form: no sign but `-`, and no leading zero.

ghost use Rattle.std.specs.Prelude.{◌≡◌, ◌++◌, decimal, OnOk};
ghost use Rattle.std.specs.Fmt.{signed_decimal};
ghost use Rattle.std.specs.Str.{bytes_eq};
ghost use Rattle.ostore_text_words.specs.Words.{int_at, count_at};

use itoa::{Buffer, Integer};
use ostore_base::{OutOfMemory, Text};
use std::str;

/// Whether the word is what is printed of the number.
fn is_form_of<I: Integer>(word: &[u8], number: I) -> bool
    ensures { result ≡ bytes_eq (I.text number) word.now }
{
    let mut buffer = Buffer::new();
    buffer.format(number).as_bytes() == word
}

/// The int of 64 bits that the word spells.
pub fn read_int(word: &[u8]) -> Option<i64>
    ensures { result ≡ int_at word.now }
{
    let Ok(text) = str::from_utf8(word) else {
        return None;
    };
    let Ok(number) = text.parse::<i64>() else {
        return None;
    };
    is_form_of(word, number).then_some(number)
}

/// The count from `least` to `most` that the word spells.
pub fn read_count(word: &[u8], least: u64, most: u64) -> Option<u64>
    ensures { result ≡ count_at least most word.now }
{
    let Ok(text) = str::from_utf8(word) else {
        return None;
    };
    let Ok(number) = text.parse::<u64>() else {
        return None;
    };
    if number < least || number > most {
        return None;
    }
    is_form_of(word, number).then_some(number)
}

/// Adds a number in decimal.
pub fn push_number(out: &mut Text, number: u64) -> Result<(), OutOfMemory>
    ensures { OnOk result (out.new ≡ out.old ++ decimal number) }
{
    let mut buffer = Buffer::new();
    out.push_bytes(buffer.format(number).as_bytes())
}

/// Adds an int in decimal.
pub fn push_int(out: &mut Text, int: i64) -> Result<(), OutOfMemory>
    ensures { OnOk result (out.new ≡ out.old ++ signed_decimal int) }
{
    let mut buffer = Buffer::new();
    out.push_bytes(buffer.format(int).as_bytes())
}
