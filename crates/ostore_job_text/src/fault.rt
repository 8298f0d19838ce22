//! What is wrong with a job's text.

ghost use Rattle.std.specs.Prelude.{◌≡◌};
ghost use Rattle.ostore_job_text.specs.JobFaults.{fault_number, fault_name, fault_place};
ghost use Rattle.ostore_job_text.specs.declared.fault.JobFault.TheVariants.{OutOfMemory as Memory};

use ostore_base::OutOfMemory;
use thiserror::Error;

/// Why a text is no job, and where: `at` counts the text's bytes from 0, and in a text for `try` those of
/// the whole text. TooLong is judged first, then NotUtf8, then Syntax; of the others the one with the least
/// place is answered, and at one place the one that stands first here.
#[derive(Clone, Copy, Debug, PartialEq, Eq, Error)]
pub enum JobFault {
    /// The bytes from here on are no UTF-8.
    #[error("the text stops being UTF-8 at {at}")]
    NotUtf8 { at: usize },
    /// A word can't stand there, or a word or a line is missing.
    #[error("a word is missing or can't stand at {at}")]
    Syntax { at: usize },
    /// A client has the name of an earlier one.
    #[error("the name at {at} is that of an earlier client")]
    DuplicateClient { at: usize },
    /// There are 16 clients before this one.
    #[error("there are 16 clients before the one at {at}")]
    TooManyClients { at: usize },
    /// An option is unknown, or was given before, or its number is out of its limits.
    #[error("the option at {at} is unknown, repeated or out of its limits")]
    BadOption { at: usize },
    /// An entry of `turns` names no client.
    #[error("the entry at {at} names no client")]
    UnknownTurn { at: usize },
    /// The text has more than 4,194,304 bytes.
    #[error("the text is too long at {at}")]
    TooLong { at: usize },
    /// Memory was wanted and refused.
    #[error("out of memory")]
    OutOfMemory,
}

impl JobFault {
    /// The fault's number, 1 to 7. Want of memory has none, and 0 is answered.
    pub fn number(&self) -> u64
        ensures { result ≡ fault_number self.now }
    {
        match self {
            JobFault::NotUtf8 { .. } => 1,
            JobFault::Syntax { .. } => 2,
            JobFault::DuplicateClient { .. } => 3,
            JobFault::TooManyClients { .. } => 4,
            JobFault::BadOption { .. } => 5,
            JobFault::UnknownTurn { .. } => 6,
            JobFault::TooLong { .. } => 7,
            JobFault::OutOfMemory => 0,
        }
    }

    /// The fault's name.
    pub fn name(&self) -> &'static str
        ensures { result.now ≡ fault_name self.now }
    {
        match self {
            JobFault::NotUtf8 { .. } => "NotUtf8",
            JobFault::Syntax { .. } => "Syntax",
            JobFault::DuplicateClient { .. } => "DuplicateClient",
            JobFault::TooManyClients { .. } => "TooManyClients",
            JobFault::BadOption { .. } => "BadOption",
            JobFault::UnknownTurn { .. } => "UnknownTurn",
            JobFault::TooLong { .. } => "TooLong",
            JobFault::OutOfMemory => "OutOfMemory",
        }
    }

    /// The fault's place in the text. Want of memory has none, and 0 is answered.
    pub fn place(&self) -> usize
        ensures { result ≡ fault_place self.now }
    {
        match self {
            JobFault::NotUtf8 { at }
            | JobFault::Syntax { at }
            | JobFault::DuplicateClient { at }
            | JobFault::TooManyClients { at }
            | JobFault::BadOption { at }
            | JobFault::UnknownTurn { at }
            | JobFault::TooLong { at } => *at,
            JobFault::OutOfMemory => 0,
        }
    }
}

impl From<OutOfMemory> for JobFault {
    ghost from_gives = { λ _ fault. fault ≡ Memory };

    fn from(_refused: OutOfMemory) -> JobFault {
        JobFault::OutOfMemory
    }
}
