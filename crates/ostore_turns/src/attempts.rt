//! Attempts at transactions, which are executed line by line.

ghost use Rattle.std.specs.Prelude.{◌≡◌, ◌↔◌, List, IfOk, IsTrue};
ghost use Rattle.ostore_job_text.specs.declared.job.JobClient.{JobClient};
ghost use Rattle.ostore_turns.specs.Places.{HasRoom, IsIn, Moment};
ghost use Rattle.ostore_turns.specs.LawfulTurns.{StopsRun, Turns, commits_then};
ghost use Rattle.ostore_turns.specs.Bounds.{Bounds, GivesWithin};

use crate::place::Place;
use ostore_base::{ClientNo, OutOfMemory};
use ostore_graph_model::{Replies, Txn};
use ostore_run_report::Cause;

/// What a line of a transaction gave.
#[derive(Debug, Drop)]
pub enum Gave {
    /// The transaction goes on with its next line.
    Going,
    /// The transaction was committed with this number. A read has the number of the last update.
    Committed { number: u64, replies: Replies },
    /// The transaction was aborted by its script.
    Aborted,
    /// The attempt ended without a commit.
    Failed(Cause),
}

impl Gave {
    /// The number of the last commit then, which was this one before.
    pub fn commits_then(&self, commits: u64) -> u64
        ensures { result ≡ commits_then self.now commits }
    {
        match self {
            Gave::Committed { number, .. } => *number,
            _ => commits,
        }
    }

    /// Whether a disk call failed, so that no further line is executed.
    pub fn stops_run(&self) -> bool
        ensures { IsTrue result ↔ StopsRun self.now }
    {
        match self {
            Gave::Failed(Cause::Disk) => true,
            _ => false,
        }
    }
}

/// Attempts of the clients of a job at their transactions, which are executed line by line. After want of memory nothing
/// is told of where the clients are.
pub trait Attempts {
    /// What no call changes, beside the clients.
    ghost Constants: { Type 0 };

    /// The clients, with their scripts and options.
    ghost clients: { Self → List JobClient };

    /// Where each client is in its script, what it has committed, and the number of the last commit.
    ghost moment: { Self → Moment };

    ghost constants: { Self → Constants };

    /// What bounds the causes for which attempts end.
    ghost bounds: { Constants → Bounds };

    /// Lines can be executed.
    ghost ready: { Self → Type 0 };

    /// Executes a client's next line, which is this one of this transaction of its script. It is a turn of the client.
    fn execute(&mut self, client: ClientNo, txn: &Txn, at: Place) -> Result<Gave, OutOfMemory>
        requires ready { ready self.old }
        requires next { IsIn (clients self.old) (moment self.old) client.0 txn.now }
        requires place { at ≡ (moment self.old).places client.0 }
        requires room { HasRoom at }
        ensures turns { IfOk result (λ gave.
            Turns (clients self.old) (moment self.old) client.0 gave (moment self.new)) }
        ensures bounded { IfOk result (λ gave.
            GivesWithin (bounds (constants self.old)) (clients self.old) client.0 gave) }
        ensures ready { IfOk result (λ _gave. ready self.new) }
        ensures clients { clients self.new ≡ clients self.old }
        ensures constants { constants self.new ≡ constants self.old };
}
