//! The words of a command line.

ghost use Rattle.std.specs.Prelude.{◌≡◌, [], ◌∷◌, ◌++◌, IsTrue, ◌↔◌, OnOk, OnErr};
ghost use Rattle.ostore_cli.specs.Commands.{IsRow};

use ostore_base::{ListOf, OutOfMemory, Text};
use std::alloc::Global;
use std::marker::Model;

/// The words of a command line after the file's name. A contract sees them as a list of texts.
#[derive(Debug, Drop)]
pub struct Words {
    words: ListOf<Text>,
    alloc: Global,
}

impl Model for Words {
    ghost use Rattle.std.specs.Prelude.{List, ℕ};

    ghost Value = { List (List ℕ) };

    ghost view = { λ w. w.words };
}

impl Words {
    /// No word.
    pub fn new(alloc: Global) -> Words
        ensures { result ≡ [] }
    {
        Words {
            words: ListOf::new(alloc),
            alloc,
        }
    }

    /// Adds a word at the end. A refused push leaves the list.
    pub fn push(&mut self, word: &str) -> Result<(), OutOfMemory>
        ensures ok { OnOk result (self.new ≡ self.old ++ word.now ∷ []) }
        ensures err { OnErr result (self.new ≡ self.old) }
    {
        let text = Text::from_bytes(self.alloc, word.as_bytes())?;
        self.words.push(text)
    }

    /// Whether the words are a row of the command table, which today has the one row `try`.
    pub(crate) fn are_row(&self) -> bool
        ensures { IsTrue result ↔ IsRow self.now }
    {
        match self.words.items() {
            [word] => word.bytes() == b"try".as_slice(),
            _ => false,
        }
    }
}
