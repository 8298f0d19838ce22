//! Runs over attempts that are busy wherever they may be.

ghost use Rattle.std.specs.Prelude.{◌≡◌, ◌<◌, ℕ, List, length, vec_len, IsTrue, IfOk, OnOk};
ghost use Rattle.ostore_job_text.specs.RunnableJobs.{CanRun, lines_of};
ghost use Rattle.ostore_job_text.specs.declared.job.JobClient.{JobClient};
ghost use Rattle.ostore_turns.specs.LawfulTurns.{IsMet, MayGive, records_then};
ghost use Rattle.ostore_turns.specs.Places.{Moment, HasRoom};
ghost use Rattle.ostore_turns.specs.Bounds.{GivesWithin};
ghost use Rattle.ostore_turns.specs.inside.Strict.{AreFresh, ArePlaces, IsBare, strict_bounds};

use super::*;
use ostore_base::{ClientNo, ListOf, OutOfMemory, PageNo};
use ostore_graph_model::{Committed, Entry, Replies, Txn};
use ostore_job_text::{Job, JobTurn, parse_job, spelled_can_run};
use ostore_run_report::{Cause, TxnResult};
use std::alloc::Global;
use std::process::Abort;
use std::test::Fail;

/// Attempts of which each command is busy where it may be: where another client has executed a command.
#[derive(Drop)]
struct Strict<'a> {
    job: &'a Job,
    places: Vec<Place>,
    records: Vec<ListOf<Committed>>,
    commits: u64,
    /// The commit at which a disk call fails, 0 for none.
    fails_at: u64,
    /// The client and the line of each turn.
    turns: Vec<(u16, u32)>,
    ghost places_long: { vec_len places ≡ length job.now.clients },
    ghost records_long: { vec_len records ≡ length job.now.clients },
}

/// Whether a client's transaction meets another client's.
fn meets(job: &Job, places: &[Place], number: usize, txn: &Txn, other: usize) -> bool
    requires client { other < length job.now.clients }
    requires place { other < length places.now }
    ensures { IsTrue result → (now : Moment) → ArePlaces places.now now
        → IsMet job.now.clients now number txn.now }
{
    let at = places[other];
    match job.clients.items()[other].txns.items().get(at.txn as usize) {
        Some(begun) => {
            other != number
                && at.line >= 2
                && (at.line as usize) < begun.commands.items().len() + 2
                && (txn.update || begun.update)
        }
        None => false,
    }
}

/// Whether it meets one.
fn is_met(job: &Job, places: &[Place], number: usize, txn: &Txn) -> bool
    requires { length places.now ≡ length job.now.clients }
    ensures { IsTrue result → (now : Moment) → ArePlaces places.now now
        → IsMet job.now.clients now number txn.now }
{
    for other in 0..places.len() {
        if meets(job, places, number, txn, other) {
            return true;
        }
    }
    false
}

/// What a line gives after so many commits, where another client is met or isn't.
fn gave_at(alloc: Global, txn: &Txn, line: u32, commits: u64, fails_at: u64, met: bool) -> Gave
    requires { line < lines_of txn.now }
    ensures may { (clients : List JobClient) (now : Moment) (number : ℕ)
        → (now.places number).line ≡ line → now.commits ≡ commits
        → (IsTrue met → IsMet clients now number txn.now)
        → MayGive clients now number txn.now result }
    ensures bare { IsBare result }
    ensures bounded { (clients : List JobClient) (number : ℕ)
        → GivesWithin strict_bounds clients number result }
{
    if (line as usize) <= txn.commands.items().len() {
        if met && line > 0 {
            return Gave::Failed(Cause::Busy {
                page: PageNo(0),
                seen: 0,
                found: 0,
            });
        }
        return Gave::Going;
    }
    if txn.aborts {
        return Gave::Aborted;
    }
    let replies = Replies::new(alloc);
    if !txn.update {
        return Gave::Committed {
            number: commits,
            replies,
        };
    }
    if commits == u64::MAX || commits + 1 == fails_at {
        return Gave::Failed(Cause::Disk);
    }
    Gave::Committed {
        number: commits + 1,
        replies,
    }
}

/// Adds a commit to a client's records.
fn record_commit(
    alloc: Global,
    records: &mut ListOf<Committed>,
    client: ClientNo,
    txn: &Txn,
    at: Place,
    gave: &Gave,
) -> Result<(), OutOfMemory>
    requires room { HasRoom at }
    requires bare { IsBare gave.now }
    ensures { OnOk result
        (records.new ≡ records_then client.0 at txn.now.update gave.now records.old) }
{
    if let Gave::Committed { number, .. } = gave {
        records.push(Committed {
            entry: Entry {
                client,
                ordinal: at.txn + 1,
                update: txn.update,
                replies: Replies::new(alloc),
            },
            number: *number,
        })?;
    }
    Ok(())
}

impl<'a> Strict<'a> {
    /// All clients are at the first lines of their scripts.
    fn new(alloc: Global, job: &'a Job, fails_at: u64) -> Result<Strict<'a>, OutOfMemory>
        ensures job { IfOk result (λ strict. strict.job.now ≡ job.now) }
        ensures first { IfOk result (λ strict.
            AreFresh strict.places.items strict.records.items) }
    {
        let mut places = Vec::new(alloc);
        let mut records = Vec::new(alloc);
        for _client in job.clients.items() {
            places.push(Place::first())?;
            records.push(ListOf::new(alloc))?;
        }
        Ok(Strict {
            job,
            places,
            records,
            commits: 0,
            fails_at,
            turns: Vec::new(alloc),
        })
    }
}

impl<'a> Attempts for Strict<'a> {
    ghost use Rattle.ostore_turns.specs.Places.{moment_of};
    ghost use Rattle.ostore_turns.specs.inside.Strict.{place_in, records_in, strict_bounds};

    ghost Constants = { Unit {0} };

    ghost clients = { λ it. it.job.now.clients };

    ghost moment = { λ it.
        moment_of (place_in it.places.items) (records_in it.records.items) it.commits };

    ghost constants = { λ it. tt };

    ghost bounds = { λ constants. strict_bounds };

    ghost ready = { λ it. Unit {0} };

    fn execute(&mut self, client: ClientNo, txn: &Txn, at: Place) -> Result<Gave, OutOfMemory> {
        let alloc = *self.turns.allocator();
        let number = usize::from(client.0);
        self.turns.push((client.0, at.line))?;
        let met = is_met(self.job, &self.places, number, txn);
        let gave = gave_at(alloc, txn, at.line, self.commits, self.fails_at, met);
        record_commit(alloc, &mut self.records[number], client, txn, at, &gave)?;
        let tries = self.job.clients.items()[number].tries;
        self.places[number] = at.moved(tries, &gave);
        self.commits = gave.commits_then(self.commits);
        Ok(gave)
    }
}

/// What became of a transaction, without its replies.
#[derive(Clone, Copy, Debug, PartialEq, Eq)]
enum End {
    Commit(u64, u32),
    Read(u64, u32),
    Abort(u32),
    GaveUp(u32, Cause),
    NotRun,
}

/// A busy attempt's cause.
const BUSY: Cause = Cause::Busy {
    page: PageNo(0),
    seen: 0,
    found: 0,
};

fn end_of(of: &TxnResult) -> End {
    match of {
        TxnResult::Commit { number, tries, .. } => End::Commit(*number, *tries),
        TxnResult::Read { number, tries, .. } => End::Read(*number, *tries),
        TxnResult::Abort { tries } => End::Abort(*tries),
        TxnResult::GaveUp { tries, cause } => End::GaveUp(*tries, *cause),
        TxnResult::NotRun => End::NotRun,
    }
}

/// The job of a text.
fn job_of(rt: &impl Abort, alloc: Global, text: &[u8]) -> Job
    ensures { CanRun result }
{
    spelled_can_run();
    match parse_job(alloc, text) {
        Ok(job) => job,
        Err(_) => panic!(rt; "the text is no job"),
    }
}

/// The job's turns are those, each a client and its line, and its transactions end so, client by client.
fn expect_run(
    rt: &impl Abort,
    alloc: Global,
    job: &Job,
    fails_at: u64,
    turns: &[(u16, u32)],
    ends: &[End],
) -> Result<(), Fail>
    requires { CanRun job.now }
{
    let mut strict = Strict::new(alloc, job, fails_at)?;
    let run = take_turns(alloc, job, &mut strict)?;
    assert_eq!(rt; strict.turns.as_slice(), turns);
    assert_eq!(rt; run.disk_failed, fails_at > 0);
    let mut found = Vec::new(alloc);
    for client in run.results.items() {
        for ended in client.items() {
            found.push(end_of(ended))?;
        }
    }
    assert_eq!(rt; found.as_slice(), ends);
    Ok(())
}

#[test]
fn entries_pass_over_a_client_without_a_line(rt: HostRuntime) -> Result<(), Fail> {
    let alloc = rt.alloc();
    let text = b"client a\nread\nabort\nread\ncommit\nclient b\nbegin\ncommit\nturns a*9 b a\n";
    let job = job_of(&rt, alloc, text);
    let turns = [(0, 0), (0, 1), (0, 0), (0, 1), (1, 0), (1, 1)];
    let ends = [End::Abort(1), End::Read(0, 1), End::Commit(1, 1)];
    expect_run(&rt, alloc, &job, 0, &turns, &ends)
}

#[test]
fn without_entries_clients_take_turns_in_job_order(rt: HostRuntime) -> Result<(), Fail> {
    let alloc = rt.alloc();
    let text = b"client a\nbegin\ncommit\nclient b\nbegin\ncommit\nclient c\n";
    let job = job_of(&rt, alloc, text);
    let turns = [(0, 0), (1, 0), (0, 1), (1, 1)];
    let ends = [End::Commit(1, 1), End::Commit(2, 1)];
    expect_run(&rt, alloc, &job, 0, &turns, &ends)
}

#[test]
fn a_disk_fault_ends_the_run_for_all(rt: HostRuntime) -> Result<(), Fail> {
    let alloc = rt.alloc();
    let text = b"client a\nbegin\ncommit\nbegin\ncommit\nclient b\nbegin\ncommit\n";
    let job = job_of(&rt, alloc, text);
    let turns = [(0, 0), (1, 0), (0, 1), (1, 1)];
    let ends = [End::Commit(1, 1), End::NotRun, End::GaveUp(1, Cause::Disk)];
    expect_run(&rt, alloc, &job, 2, &turns, &ends)
}

#[test]
fn a_busy_transaction_is_tried_again_from_its_first_line(rt: HostRuntime) -> Result<(), Fail> {
    let alloc = rt.alloc();
    let text =
        b"client a\nbegin\nroot $r top\ncommit\nclient b\nread\nroot $r top\ncommit\nturns a*2 b*2 a b\n";
    let job = job_of(&rt, alloc, text);
    let turns = [
        (0, 0),
        (0, 1),
        (1, 0),
        (1, 1),
        (0, 2),
        (1, 0),
        (1, 1),
        (1, 2),
    ];
    let ends = [End::Commit(1, 1), End::Read(1, 2)];
    expect_run(&rt, alloc, &job, 0, &turns, &ends)
}

#[test]
fn a_busy_transaction_is_given_up_on_its_last_try(rt: HostRuntime) -> Result<(), Fail> {
    let alloc = rt.alloc();
    let text =
        b"client a\nbegin\nroot $r top\ncommit\nclient b tries 2\nbegin\nroot $r top\ncommit\nread\ncommit\nturns a*2 b*6\n";
    let job = job_of(&rt, alloc, text);
    let turns = [
        (0, 0),
        (0, 1),
        (1, 0),
        (1, 1),
        (1, 0),
        (1, 1),
        (1, 0),
        (1, 1),
        (0, 2),
    ];
    let ends = [End::Commit(1, 1), End::GaveUp(2, BUSY), End::Read(0, 1)];
    expect_run(&rt, alloc, &job, 0, &turns, &ends)
}

#[test]
fn clients_run_one_after_the_other(rt: HostRuntime) -> Result<(), Fail> {
    let alloc = rt.alloc();
    let text =
        b"client a\nbegin\nroot $r top\ncommit\nread\nabort\nclient b\nclient c\nbegin\nroot $r top\ncommit\nturns c a c a\n";
    let read = job_of(&rt, alloc, text);
    let entries = one_after_the_other(alloc, &read)?;
    let wanted = [
        JobTurn {
            client: ClientNo(0),
            count: 5,
        },
        JobTurn {
            client: ClientNo(2),
            count: 3,
        },
    ];
    assert_eq!(&rt; entries.items(), wanted.as_slice());
    let job = Job {
        clients: read.clients,
        turns: entries,
    };
    let turns = [
        (0, 0),
        (0, 1),
        (0, 2),
        (0, 0),
        (0, 1),
        (2, 0),
        (2, 1),
        (2, 2),
    ];
    let ends = [End::Commit(1, 1), End::Abort(1), End::Commit(2, 1)];
    expect_run(&rt, alloc, &job, 0, &turns, &ends)
}
