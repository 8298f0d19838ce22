//! The turns of a job's schedule.

ghost use Rattle.std.specs.Prelude.{◌≡◌, ◌<◌, true, false, IfOk, Some, length, replicate};
ghost use Rattle.std.specs.List.{slice_get};
ghost use Rattle.std.specs.List.{AllByRecursion};
ghost use Rattle.ostore_job_text.specs.RunnableJobs.{CanRun, IsWithinLimits};
ghost use Rattle.ostore_turns.specs.Bounds.{AreBounded, IsResultWithin};
ghost use Rattle.ostore_turns.specs.Runs.{IsFirst, IsRunBy};
ghost use Rattle.ostore_turns.specs.inside.Steps.{
  AreSeated,
  AreTurns,
  AreWithin,
  IsFitPlace,
  IsOneTurn,
  IsTaken,
  Passes,
  first_seat,
  results_in,
};

use crate::attempts::Attempts;
use crate::place::Place;
use crate::seat::{Seat, result_by};
use ostore_base::{ClientNo, OutOfMemory};
use ostore_job_text::{Job, JobClient};
use ostore_run_report::{ClientResults, Results};
use std::alloc::Global;

/// What a run by turns gave.
#[derive(Debug, Drop)]
pub struct TurnsRun {
    /// What became of the transactions.
    pub results: Results,
    /// Whether a disk call failed, which ended the run.
    pub disk_failed: bool,
}

/// How a turn of the schedule went.
#[derive(Clone, Copy, Debug)]
enum Took {
    /// The client has no line left.
    NoTurn,
    /// A line was executed.
    OneTurn,
    /// A line was executed, and a disk call failed.
    LastTurn,
}

/// A run: its clients, in job order, and whether a disk call has failed.
#[derive(Drop)]
struct Run {
    seats: Vec<Seat>,
    stopped: bool,
}

/// Executes the next line of a client, where it has one.
fn execute_next<S: Attempts>(
    store: &mut S,
    client: &JobClient,
    number: ClientNo,
    seat: &mut Seat,
) -> Result<Took, OutOfMemory>
    requires there { slice_get (S.clients store.old) number.0 ≡ Some client.now }
    requires place { seat.old.place ≡ (S.moment store.old).places number.0 }
    requires fits { IsFitPlace client.now seat.old.place }
    requires limits { IsWithinLimits client.now }
    requires within { AllByRecursion
        (IsResultWithin (S.bounds (S.constants store.old)) client.now) seat.old.results }
    requires ready { S.ready store.old }
    ensures took { IfOk result (λ took. IsTaken client.now number.0 took seat.old seat.new
        (S.clients store.old) (S.moment store.old) (S.moment store.new)) }
    ensures within { IfOk result (λ _took. AllByRecursion
        (IsResultWithin (S.bounds (S.constants store.new)) client.now) seat.new.results) }
    ensures ready { IfOk result (λ _took. S.ready store.new) }
    ensures clients { S.clients store.new ≡ S.clients store.old }
    ensures constants { S.constants store.new ≡ S.constants store.old }
{
    let at = seat.place;
    let Some(txn) = client.txns.items().get(at.txn as usize) else {
        return Ok(Took::NoTurn);
    };
    let gave = store.execute(number, txn, at)?;
    let took = if gave.stops_run() {
        Took::LastTurn
    } else {
        Took::OneTurn
    };
    seat.place = at.moved(client.tries, &gave);
    match result_by(txn.update, client.tries, at, gave) {
        Some(result) => seat.results.push(result)?,
        None => {}
    }
    Ok(took)
}

impl Run {
    /// All clients are at the first lines of their scripts.
    fn new(alloc: Global, job: &Job) -> Result<Run, OutOfMemory>
        ensures first { IfOk result (λ run.
            run.seats.items ≡ replicate (length job.now.clients) first_seat) }
        ensures goes { IfOk result (λ run. run.stopped ≡ false) }
    {
        let mut seats = Vec::new(alloc);
        for _client in job.clients.items() {
            seats.push(Seat::new(alloc))?;
        }
        Ok(Run {
            seats,
            stopped: false,
        })
    }

    /// A turn of a client. It is passed over where the client has no line left, and where the run has stopped. The
    /// answer tells whether a line was executed.
    fn take_turn<S: Attempts>(
        &mut self,
        job: &Job,
        store: &mut S,
        number: usize,
    ) -> Result<bool, OutOfMemory>
        requires job { CanRun job.now }
        requires there { number < length job.now.clients }
        requires clients { S.clients store.old ≡ job.now.clients }
        requires seated { AreSeated job.now.clients (S.moment store.old) self.old }
        requires within { AreWithin (S.bounds (S.constants store.old)) job.now.clients self.old }
        requires ready { S.ready store.old }
        ensures clients { S.clients store.new ≡ S.clients store.old }
        ensures constants { S.constants store.new ≡ S.constants store.old }
        ensures ready { IfOk result (λ _took. S.ready store.new) }
        ensures within { IfOk result (λ _took.
            AreWithin (S.bounds (S.constants store.new)) job.now.clients self.new) }
        ensures seated { IfOk result (λ _took.
            AreSeated job.now.clients (S.moment store.new) self.new) }
        ensures passes { IfOk result (λ _took. Passes job.now 1 (λ _k. number)
            (S.moment store.old) self.old (S.moment store.new) self.new) }
        ensures one { IfOk result (λ took. IsOneTurn job.now.clients number took
            (S.moment store.old) self.old (S.moment store.new) self.new) }
    {
        if self.stopped {
            return Ok(false);
        }
        let client = &job.clients.items()[number];
        let seat = &mut self.seats[number];
        match execute_next(store, client, ClientNo(number as u16), seat)? {
            Took::NoTurn => Ok(false),
            Took::OneTurn => Ok(true),
            Took::LastTurn => {
                self.stopped = true;
                Ok(true)
            }
        }
    }

    /// So many turns of one client, or as many as it has lines left.
    fn take_turns_of<S: Attempts>(
        &mut self,
        job: &Job,
        store: &mut S,
        number: usize,
        count: u32,
    ) -> Result<(), OutOfMemory>
        requires job { CanRun job.now }
        requires there { number < length job.now.clients }
        requires clients { S.clients store.old ≡ job.now.clients }
        requires seated { AreSeated job.now.clients (S.moment store.old) self.old }
        requires within { AreWithin (S.bounds (S.constants store.old)) job.now.clients self.old }
        requires ready { S.ready store.old }
        ensures clients { S.clients store.new ≡ S.clients store.old }
        ensures constants { S.constants store.new ≡ S.constants store.old }
        ensures ready { IfOk result (λ _done. S.ready store.new) }
        ensures within { IfOk result (λ _done.
            AreWithin (S.bounds (S.constants store.new)) job.now.clients self.new) }
        ensures seated { IfOk result (λ _done.
            AreSeated job.now.clients (S.moment store.new) self.new) }
        ensures passes { IfOk result (λ _done. Passes job.now count (λ _k. number)
            (S.moment store.old) self.old (S.moment store.new) self.new) }
    {
        for _turn in 0..count {
            if !self.take_turn(job, store, number)? {
                return Ok(());
            }
        }
        Ok(())
    }

    /// One turn of each client, in job order. The answer tells whether a line was executed.
    fn take_round<S: Attempts>(&mut self, job: &Job, store: &mut S) -> Result<bool, OutOfMemory>
        requires job { CanRun job.now }
        requires clients { S.clients store.old ≡ job.now.clients }
        requires seated { AreSeated job.now.clients (S.moment store.old) self.old }
        requires within { AreWithin (S.bounds (S.constants store.old)) job.now.clients self.old }
        requires ready { S.ready store.old }
        ensures clients { S.clients store.new ≡ S.clients store.old }
        ensures constants { S.constants store.new ≡ S.constants store.old }
        ensures ready { IfOk result (λ _took. S.ready store.new) }
        ensures within { IfOk result (λ _took.
            AreWithin (S.bounds (S.constants store.new)) job.now.clients self.new) }
        ensures seated { IfOk result (λ _took.
            AreSeated job.now.clients (S.moment store.new) self.new) }
        ensures passes { IfOk result (λ _took. Passes job.now (length job.now.clients) (λ k. k)
            (S.moment store.old) self.old (S.moment store.new) self.new) }
        ensures turns { IfOk result (λ took. AreTurns job.now.clients (length job.now.clients) took
            self.old (S.moment store.new) self.new) }
    {
        let mut took = false;
        for number in 0..job.clients.items().len() {
            if self.take_turn(job, store, number)? {
                took = true;
            }
        }
        Ok(took)
    }

    /// What became of the transactions.
    fn into_results(self, alloc: Global, job: &Job) -> Result<Results, OutOfMemory>
        ensures { IfOk result (λ results.
            results ≡ results_in job.now.clients self.seats.items) }
    {
        let mut results = Results::new(alloc);
        for (seat, client) in self.seats.into_iter().zip(job.clients.items()) {
            results.push(seat.into_results(client.txns.items().len())?)?;
        }
        Ok(results)
    }
}

/// Executes the clients of a job by turns: those of the entries of its schedule, and then one turn of each client in
/// job order, again and again, until none has a line left or a disk call has failed. After want of memory nothing is
/// told of where the clients are.
pub fn take_turns<S: Attempts>(
    alloc: Global,
    job: &Job,
    store: &mut S,
) -> Result<TurnsRun, OutOfMemory>
    requires job { CanRun job.now }
    requires clients { S.clients store.old ≡ job.now.clients }
    requires fresh { IsFirst (S.moment store.old) }
    requires ready { S.ready store.old }
    ensures run { IfOk result (IsRunBy job.now (S.moment store.old) (S.moment store.new)) }
    ensures bounded { IfOk result (λ run.
        AreBounded (S.bounds (S.constants store.old)) job.now.clients run.results) }
    ensures failed { IfOk result (λ run.
        run.disk_failed ≡ true → (S.bounds (S.constants store.old)).fails) }
    ensures ready { IfOk result (λ _run. S.ready store.new) }
    ensures clients { S.clients store.new ≡ S.clients store.old }
    ensures constants { S.constants store.new ≡ S.constants store.old }
{
    let mut run = Run::new(alloc, job)?;
    for entry in job.turns.items() {
        run.take_turns_of(job, store, usize::from(entry.client.0), entry.count)?;
    }
    while run.take_round(job, store)? {}
    let disk_failed = run.stopped;
    let results = run.into_results(alloc, job)?;
    Ok(TurnsRun {
        results,
        disk_failed,
    })
}
