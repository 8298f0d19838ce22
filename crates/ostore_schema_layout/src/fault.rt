//! What is wrong with a schema's text.

ghost use Rattle.std.specs.Prelude.{◌≡◌, Some};
ghost use Rattle.ostore_schema_layout.specs.Titles.{fault_name, fault_number, fault_of_words, fault_place, fault_text};
ghost use Rattle.ostore_schema_layout.specs.declared.fault.SchemaFault.TheVariants.{OutOfMemory as Memory};

use ostore_base::OutOfMemory;
use ostore_text_words::TextFault;
use std::fmt;

/// Why a text is no schema, and where: `at` counts the text's bytes from 0. TooLong is judged first, then
/// NotUtf8, then Syntax; of the others the one with the least place is answered, and at one place the one
/// that stands first here.
#[derive(Clone, Copy, Debug, PartialEq, Eq)]
pub enum SchemaFault {
    /// A word can't stand there, or is missing at the end of a line.
    Syntax { at: usize },
    /// A type has the name of an earlier one.
    DuplicateType { at: usize },
    /// A member has the name of an earlier one of its type.
    DuplicateMember { at: usize },
    /// A member names a type that is declared nowhere.
    UnknownType { at: usize },
    /// An inverse isn't the other side of its member's link.
    InverseMismatch { at: usize },
    /// The members of a type take more than 1,000 bytes. The place is the type's name.
    CellTooLarge { at: usize },
    /// There are 64 types before this one.
    TooManyTypes { at: usize },
    /// There are 32 members of the type before this one.
    TooManyMembers { at: usize },
    /// The text has more than 32,764 bytes.
    TooLong { at: usize },
    /// The bytes from here on are no UTF-8.
    NotUtf8 { at: usize },
    /// Memory was wanted and refused.
    OutOfMemory,
}

impl SchemaFault {
    /// The fault's number, 1 to 10. Want of memory has none, and 0 is answered.
    pub fn number(&self) -> u64
        ensures { result ≡ fault_number self.now }
    {
        match self {
            SchemaFault::Syntax { .. } => 1,
            SchemaFault::DuplicateType { .. } => 2,
            SchemaFault::DuplicateMember { .. } => 3,
            SchemaFault::UnknownType { .. } => 4,
            SchemaFault::InverseMismatch { .. } => 5,
            SchemaFault::CellTooLarge { .. } => 6,
            SchemaFault::TooManyTypes { .. } => 7,
            SchemaFault::TooManyMembers { .. } => 8,
            SchemaFault::TooLong { .. } => 9,
            SchemaFault::NotUtf8 { .. } => 10,
            SchemaFault::OutOfMemory => 0,
        }
    }

    /// The fault's name.
    pub fn name(&self) -> &'static str
        ensures { result.now ≡ fault_name self.now }
    {
        match self {
            SchemaFault::Syntax { .. } => "Syntax",
            SchemaFault::DuplicateType { .. } => "DuplicateType",
            SchemaFault::DuplicateMember { .. } => "DuplicateMember",
            SchemaFault::UnknownType { .. } => "UnknownType",
            SchemaFault::InverseMismatch { .. } => "InverseMismatch",
            SchemaFault::CellTooLarge { .. } => "CellTooLarge",
            SchemaFault::TooManyTypes { .. } => "TooManyTypes",
            SchemaFault::TooManyMembers { .. } => "TooManyMembers",
            SchemaFault::TooLong { .. } => "TooLong",
            SchemaFault::NotUtf8 { .. } => "NotUtf8",
            SchemaFault::OutOfMemory => "OutOfMemory",
        }
    }

    /// The fault's place in the text. Want of memory has none, and 0 is answered.
    pub fn place(&self) -> usize
        ensures { result ≡ fault_place self.now }
    {
        match self {
            SchemaFault::Syntax { at }
            | SchemaFault::DuplicateType { at }
            | SchemaFault::DuplicateMember { at }
            | SchemaFault::UnknownType { at }
            | SchemaFault::InverseMismatch { at }
            | SchemaFault::CellTooLarge { at }
            | SchemaFault::TooManyTypes { at }
            | SchemaFault::TooManyMembers { at }
            | SchemaFault::TooLong { at }
            | SchemaFault::NotUtf8 { at } => *at,
            SchemaFault::OutOfMemory => 0,
        }
    }
}

/// Writes `schema fault`, the number, the name and the place.
impl fmt::Display for SchemaFault {
    ghost output = { λ fault. Some (fault_text fault) };

    fn fmt<W: fmt::Write>(&self, f: &mut fmt::Formatter<W>) -> fmt::Result {
        let number = self.number();
        let name = self.name();
        let place = self.place();
        write!(f, "schema fault {number} {name} at {place}")
    }
}

impl std::error::Error for SchemaFault {}

impl From<OutOfMemory> for SchemaFault {
    ghost from_gives = { λ _ fault. fault ≡ Memory };

    fn from(_refused: OutOfMemory) -> SchemaFault {
        SchemaFault::OutOfMemory
    }
}

impl From<TextFault> for SchemaFault {
    ghost from_gives = { λ words fault. fault ≡ fault_of_words words };

    fn from(words: TextFault) -> SchemaFault {
        match words {
            TextFault::Syntax { at } => SchemaFault::Syntax { at },
            TextFault::OutOfMemory => SchemaFault::OutOfMemory,
        }
    }
}
