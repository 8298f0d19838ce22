//! Why a text isn't read.

ghost use Rattle.std.specs.Prelude.{◌≡◌};
ghost use Rattle.ostore_text_words.specs.declared.fault.TextFault.TheVariants.{OutOfMemory as Memory};

use ostore_base::OutOfMemory;
use std::fmt;

/// Why lines or words aren't read. Both languages of the database have this one fault of words.
#[derive(Clone, Copy, Debug, PartialEq, Eq)]
pub enum TextFault {
    /// A word can't stand there, or a word or a line is missing. `at` is the place of that word, the end of the
    /// line, or the end of the text: bytes from the start of the whole text.
    Syntax { at: usize },
    /// Memory was wanted and refused.
    OutOfMemory,
}

impl fmt::Display for TextFault {
    fn fmt<W: fmt::Write>(&self, f: &mut fmt::Formatter<W>) -> fmt::Result {
        match self {
            TextFault::Syntax { at } => write!(f, "syntax fault at {at}"),
            TextFault::OutOfMemory => write!(f, "out of memory"),
        }
    }
}

impl std::error::Error for TextFault {}

impl From<OutOfMemory> for TextFault {
    ghost from_gives = { λ _ fault. fault ≡ Memory };

    fn from(_refused: OutOfMemory) -> TextFault {
        TextFault::OutOfMemory
    }
}
