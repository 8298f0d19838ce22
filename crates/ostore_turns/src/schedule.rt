//! A schedule in which clients run one after the other.

ghost use Rattle.std.specs.Prelude.{◌≡◌, ◌++◌, IfOk, OnOk, replicate};
ghost use Rattle.ostore_job_text.specs.RunnableJobs.{CanRun, IsWithinLimits, all_lines};
ghost use Rattle.ostore_turns.specs.Schedules.{entry_clients};
ghost use Rattle.ostore_turns.specs.Alone.{AreOneAfterTheOther, with_turns};
ghost use Rattle.ostore_turns.specs.inside.Entries.{KeepsLawful};

use ostore_base::{ClientNo, OutOfMemory};
use ostore_job_text::{Job, JobClient, JobTurn, JobTurns};
use std::alloc::Global;

/// How many turns an entry has at most.
const TURNS: usize = 1_000_000;

/// How many lines a client's transactions have together.
fn count_lines(client: &JobClient) -> usize
    requires { IsWithinLimits client.now }
    ensures { result ≡ all_lines client.now }
{
    let mut lines = 0;
    for txn in client.txns.items() {
        lines += txn.commands.items().len() + 2;
    }
    lines
}

/// Adds entries that give a client so many turns together.
fn push_turns(turns: &mut JobTurns, client: ClientNo, count: usize) -> Result<(), OutOfMemory>
    ensures more { OnOk result
        (entry_clients turns.new ≡ entry_clients turns.old ++ replicate count client.0) }
    ensures lawful { KeepsLawful client.0 turns.old turns.new }
{
    let mut left = count;
    while left > 0 {
        let next = left.min(TURNS);
        turns.push(JobTurn {
            client,
            count: next as u32,
        })?;
        left -= next;
    }
    Ok(())
}

/// The entries that give each client, in job order, all its turns: as many as it has lines. A client without lines
/// has no entry.
pub fn one_after_the_other(alloc: Global, job: &Job) -> Result<JobTurns, OutOfMemory>
    requires { CanRun job.now }
    ensures can_run { IfOk result (λ turns. CanRun (with_turns job.now turns)) }
    ensures alone { IfOk result (λ turns. AreOneAfterTheOther job.now.clients turns) }
{
    let mut turns = JobTurns::new(alloc);
    for (number, client) in job.clients.items().iter().enumerate() {
        push_turns(&mut turns, ClientNo(number as u16), count_lines(client))?;
    }
    Ok(turns)
}
