//! The lines of a text that aren't passed over, one after the other.

ghost use Rattle.std.specs.Prelude.{◌≡◌, slice_get, option_map, IfOk, OnOk, OnErr};
ghost use Rattle.ostore_text_words.specs.Gives.{Gives};
ghost use Rattle.ostore_text_words.specs.Lines.{ahead_from, behind_line, has_line, worded};
ghost use Rattle.ostore_text_words.specs.LineWords.{line_at};
ghost use Rattle.ostore_text_words.specs.Seen.{seen_line};
ghost use Rattle.ostore_text_words.specs.inside.LineWalk.{lines_left};
ghost use Rattle.ostore_text_words.specs.inside.LineReader.{lines_ahead};

use super::walk::LineWalk;
use super::{Line, line_words};
use crate::fault::TextFault;
use ostore_base::OutOfMemory;
use std::alloc::Global;
use std::marker::Model;

/// A reader of the lines of a text that aren't passed over. A contract sees it as the lines that are left, the
/// next one first, and where the text ends. It keeps the words of the next line alone.
#[derive(Drop)]
pub struct LineReader<'a> {
    alloc: Global,
    walk: LineWalk<'a>,
    next: Option<Line<'a>>,
    /// Where the text ends.
    end: usize,
}

impl<'a> Model for LineReader<'a> {
    ghost use Rattle.ostore_text_words.specs.Lines.{LinesAhead};
    ghost use Rattle.ostore_text_words.specs.inside.LineReader.{lines_ahead};

    ghost Value = { LinesAhead };

    ghost view = { λ reader.
        record { lines = lines_ahead reader.next reader.walk; end = reader.end } };
}

/// The next line of the walk that isn't passed over.
fn next_worded<'a>(alloc: Global, walk: &mut LineWalk<'a>) -> Result<Option<Line<'a>>, OutOfMemory>
    ensures { IfOk result (λ next. lines_ahead next walk.new ≡ worded (lines_left walk.old)) }
{
    // The places of its lines are numbers of 64 bits, since its text's length is one.
    let _most = walk.text().len();
    while let Some(line) = walk.next() {
        let words = line_words(alloc, line.at, line.bytes)?;
        if !words.items().is_empty() {
            let end = line.at + line.bytes.len();
            return Ok(Some(Line { words, end }));
        }
    }
    Ok(None)
}

impl<'a> LineReader<'a> {
    /// A reader of the lines from a place on, at which a line begins. Places count from the start of the whole
    /// text.
    pub fn new(alloc: Global, text: &'a [u8], at: usize) -> Result<LineReader<'a>, OutOfMemory>
        ensures { IfOk result (λ lines. lines ≡ ahead_from at text.now) }
    {
        let mut walk = LineWalk::from(text, at);
        let next = next_worded(alloc, &mut walk)?;
        Ok(LineReader {
            alloc,
            walk,
            next,
            end: text.len(),
        })
    }

    /// Whether a line is left.
    pub fn has_line(&self) -> bool
        ensures { result ≡ has_line self.now.lines }
    {
        self.next.is_some()
    }

    /// The next line, which is not taken. It is none where no line is left.
    pub fn next_line(&self) -> Option<&Line<'a>>
        ensures { option_map (λ line. seen_line line.now) result ≡ slice_get self.now.lines 0 }
    {
        self.next.as_ref()
    }

    /// The next line, which may not be missing: the fault is at the end of the text.
    pub fn line(&self) -> Result<&Line<'a>, TextFault>
        ensures { Gives (λ line. seen_line line.now) result (line_at self.now) }
    {
        match &self.next {
            Some(line) => Ok(line),
            None => Err(TextFault::Syntax { at: self.end }),
        }
    }

    /// Takes the next line, if there is one. Where memory is refused, nothing is taken.
    pub fn advance(&mut self) -> Result<(), OutOfMemory>
        ensures ok { OnOk result (self.new ≡ behind_line self.old) }
        ensures err { OnErr result (self.new ≡ self.old) }
    {
        if self.next.is_some() {
            let mut walk = self.walk;
            self.next = next_worded(self.alloc, &mut walk)?;
            self.walk = walk;
        }
        Ok(())
    }
}
