//! What the words of a line say, by their index, which counts from 0.

ghost use Rattle.ostore_text_words.specs.Gives.{Gives, GivesSame};
ghost use Rattle.ostore_text_words.specs.LineWords.{any_at, ended_at, identifier_at, keyword_at, says_at, word_at};
ghost use Rattle.ostore_text_words.specs.Seen.{seen_line, seen_word};
ghost use Rattle.ostore_text_words.specs.Words.{count_at, int_at, name_at, quoted_at};

use super::{Line, Word};
use crate::fault::TextFault;
use crate::names::{is_identifier, read_name};
use crate::numbers::{read_count, read_int};
use crate::quoted::{may_stand, read_quoted};
use ostore_base::Text;
use std::alloc::Global;

impl<'a> Line<'a> {
    /// The word, which may not be missing: the fault is at the end of the line.
    pub fn word(&self, i: usize) -> Result<Word<'a>, TextFault>
        ensures { Gives seen_word result (word_at (seen_line self.now) i) }
    {
        match self.words.items().get(i) {
            Some(found) => Ok(*found),
            None => Err(TextFault::Syntax { at: self.end }),
        }
    }

    /// The word, which has to be an identifier.
    #[tactic(auto, unfolding(crate::specs::LineWords::identifier_at))]
    pub fn identifier(&self, i: usize) -> Result<Word<'a>, TextFault>
        ensures { Gives seen_word result (identifier_at (seen_line self.now) i) }
    {
        let found = self.word(i)?;
        if !is_identifier(found.bytes) {
            return Err(TextFault::Syntax { at: found.at });
        }
        Ok(found)
    }

    /// The word, which has to be this one.
    #[tactic(auto, unfolding(crate::specs::LineWords::keyword_at))]
    pub fn keyword(&self, keyword: &[u8], i: usize) -> Result<Word<'a>, TextFault>
        ensures { Gives seen_word result (keyword_at keyword.now (seen_line self.now) i) }
    {
        let found = self.word(i)?;
        if found.bytes != keyword {
            return Err(TextFault::Syntax { at: found.at });
        }
        Ok(found)
    }

    /// The count from `least` to `most` that the word has to spell.
    #[tactic(auto, unfolding(crate::specs::LineWords::says_at))]
    pub fn count(&self, i: usize, least: u64, most: u64) -> Result<u64, TextFault>
        ensures { GivesSame result (says_at (count_at least most) (seen_line self.now) i) }
    {
        let found = self.word(i)?;
        match read_count(found.bytes, least, most) {
            Some(count) => Ok(count),
            None => Err(TextFault::Syntax { at: found.at }),
        }
    }

    /// The int that the word has to spell.
    #[tactic(auto, unfolding(crate::specs::LineWords::says_at))]
    pub fn int(&self, i: usize) -> Result<i64, TextFault>
        ensures { GivesSame result (says_at int_at (seen_line self.now) i) }
    {
        let found = self.word(i)?;
        match read_int(found.bytes) {
            Some(int) => Ok(int),
            None => Err(TextFault::Syntax { at: found.at }),
        }
    }

    /// The segment and the serial of the name that the word has to spell.
    #[tactic(auto, unfolding(crate::specs::LineWords::says_at))]
    pub fn name(&self, i: usize) -> Result<(u8, u32), TextFault>
        ensures { GivesSame result (says_at name_at (seen_line self.now) i) }
    {
        let found = self.word(i)?;
        match read_name(found.bytes) {
            Some(name) => Ok(name),
            None => Err(TextFault::Syntax { at: found.at }),
        }
    }

    /// The text that the word has to spell between quotes. The backslashes before its quotes and backslashes are
    /// not a part of it.
    #[tactic(auto, unfolding(crate::specs::LineWords::says_at))]
    pub fn quoted(&self, alloc: Global, i: usize) -> Result<Text, TextFault>
        ensures { GivesSame result (says_at quoted_at (seen_line self.now) i) }
    {
        let found = self.word(i)?;
        read_quoted(alloc, &found)
    }

    /// A word of any kind: it holds no control byte, and where it begins with a quote it is a quoted text.
    #[tactic(auto, unfolding(crate::specs::LineWords::any_at))]
    pub fn any(&self, alloc: Global, i: usize) -> Result<Word<'a>, TextFault>
        ensures { Gives seen_word result (any_at (seen_line self.now) i) }
    {
        let found = self.word(i)?;
        let stands = may_stand(alloc, found.bytes)?;
        if !stands {
            return Err(TextFault::Syntax { at: found.at });
        }
        Ok(found)
    }

    /// No word may stand here any more.
    pub fn ended(&self, i: usize) -> Result<(), TextFault>
        ensures { GivesSame result (ended_at (seen_line self.now) i) }
    {
        match self.words.items().get(i) {
            Some(found) => Err(TextFault::Syntax { at: found.at }),
            None => Ok(()),
        }
    }
}
