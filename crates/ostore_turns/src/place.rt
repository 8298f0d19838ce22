//! Where a client is in its script.

ghost use Rattle.std.specs.Prelude.{◌≡◌, ◌<◌, ◌≤◌, ℕ};
ghost use Rattle.ostore_turns.specs.Places.{first_place, moved, is_retried, HasRoom};

use crate::attempts::Gave;
use ostore_run_report::Cause;

/// Where a client is in its script: at a line of an attempt at a transaction.
#[derive(Clone, Copy, Debug, PartialEq, Eq)]
pub struct Place {
    /// The transaction, counted from 0.
    pub txn: u32,
    /// How many attempts at it have ended.
    pub failed: u32,
    /// The line that is executed next, counted from 0, which begins the transaction.
    pub line: u32,
}

impl Place {
    /// At the first line of the first transaction.
    pub fn first() -> Place
        ensures { result ≡ first_place }
    {
        Place {
            txn: 0,
            failed: 0,
            line: 0,
        }
    }

    /// Whether the transaction is tried again after an attempt that ended so.
    pub fn is_retried(self, tries: u32, cause: Cause) -> bool
        requires { HasRoom self }
        ensures { result ≡ is_retried tries self cause }
    {
        match cause {
            Cause::Busy { .. } => self.failed + 1 < tries,
            _ => false,
        }
    }

    /// Where the client is when the line gave this: at the next line, at the first line of the next attempt, or at
    /// the first line of the next transaction. The script gives a transaction so many tries.
    pub fn moved(self, tries: u32, gave: &Gave) -> Place
        requires { HasRoom self }
        ensures { result ≡ moved tries self gave.now }
    {
        match gave {
            Gave::Going => Place {
                line: self.line + 1,
                ..self
            },
            Gave::Failed(cause) if self.is_retried(tries, *cause) => Place {
                txn: self.txn,
                failed: self.failed + 1,
                line: 0,
            },
            _ => Place {
                txn: self.txn + 1,
                failed: 0,
                line: 0,
            },
        }
    }
}
