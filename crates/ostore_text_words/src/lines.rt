//! The lines of a text, and their words.

mod reader;
mod readers;
mod walk;
pub(crate) mod words;

ghost use Rattle.std.specs.Prelude.{◌≡◌, ◌+◌, ◌^◌, ◌<◌, ◌++◌, length, map, option_map, IfOk, OnOk};
ghost use Rattle.std.specs.List.{find};
ghost use Rattle.ostore_text_words.specs.Lines.{is_comment, is_parting, line_bytes, line_words, lines_of, parting_of};
ghost use Rattle.ostore_text_words.specs.Seen.{seen_word, seen_lines};
ghost use Rattle.ostore_text_words.specs.inside.LineWalk.{kept_line, seen_bytes};

pub use self::reader::LineReader;
use self::walk::{LineBytes, LineWalk};
use self::words::{is_only, is_plain, judged_at, words_of_line};
use ostore_base::{ListOf, OutOfMemory};
use std::alloc::Global;

/// A word of a text.
#[derive(Clone, Copy, Debug)]
pub struct Word<'a> {
    /// Where it stands, in bytes from the text's start: the place of its first byte, or of the first control byte
    /// that it holds.
    pub at: usize,
    pub bytes: &'a [u8],
}

/// A line of a text that has words.
#[derive(Debug, Drop)]
pub struct Line<'a> {
    pub words: ListOf<Word<'a>>,
    /// Where the line ends: the place of its byte 10, or the text's length.
    pub end: usize,
}

/// Whether the first word of the line begins with `#`.
fn is_comment(line: &[u8]) -> bool
    ensures { result ≡ is_comment line.now }
{
    for byte in line {
        if *byte != b' ' {
            return *byte == b'#';
        }
    }
    false
}

/// The words of a line that begins at `at`: none of a comment, unless it holds a control byte.
fn line_words<'a>(alloc: Global, at: usize, line: &'a [u8]) -> Result<ListOf<Word<'a>>, OutOfMemory>
    requires { at + length line.now < 2 ^ 64 }
    ensures { IfOk result (λ words. map seen_word words ≡ line_words at line.now) }
{
    if !is_comment(line) {
        return words_of_line(alloc, at, line);
    }
    let mut words = ListOf::new(alloc);
    if !is_plain(line) {
        words.push(Word {
            at: judged_at(at, line),
            bytes: line,
        })?;
    }
    Ok(words)
}

/// Adds a line, if it has words.
fn push_line<'a>(
    lines: &mut ListOf<Line<'a>>,
    words: ListOf<Word<'a>>,
    end: usize,
) -> Result<(), OutOfMemory>
    ensures { OnOk result (seen_lines lines.new
        ≡ seen_lines lines.old ++ kept_line (map seen_word words.entry) end) }
{
    if !words.items().is_empty() {
        lines.push(Line { words, end })?;
    }
    Ok(())
}

/// The lines of a text that aren't passed over. A line without words is passed over, and so is a comment
/// that holds no control byte.
pub fn read_lines<'a>(alloc: Global, text: &'a [u8]) -> Result<ListOf<Line<'a>>, OutOfMemory>
    ensures { IfOk result (λ lines. seen_lines lines ≡ lines_of text.now) }
{
    let mut lines = ListOf::new(alloc);
    for line in LineWalk::new(text) {
        let words = line_words(alloc, line.at, line.bytes)?;
        push_line(&mut lines, words, line.at + line.bytes.len())?;
    }
    Ok(lines)
}

/// The first line whose only word is this one.
fn parting_line<'a>(text: &'a [u8], word: &[u8]) -> Option<LineBytes<'a>>
    ensures { option_map seen_bytes result ≡ find (is_parting word.now) (line_bytes text.now) }
{
    LineWalk::new(text).find(|line| is_only(word, line.bytes))
}

/// Where the first line begins whose only word is this one, and where the line behind it begins (the
/// text's length and 1 more, where that line ends the text without a byte 10).
pub fn find_parting(text: &[u8], word: &[u8]) -> Option<(usize, usize)>
    ensures { result ≡ parting_of word.now text.now }
{
    let line = parting_line(text, word)?;
    Some((line.at, line.at + line.bytes.len() + 1))
}
