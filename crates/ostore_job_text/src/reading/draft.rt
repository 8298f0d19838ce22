//! A job while its lines are put together.

ghost use Rattle.std.specs.Prelude.{◌≡◌, OnOk, option_map};
ghost use Rattle.ostore_job_text.specs.Drafted.{opened, place_of_client, client_fault, client_of_place, turn_of, entry_fault, first_fault, empty_draft, closed, put_client, put_end, put_entry, put_entries, put_line, put, settled, finished};
ghost use Rattle.ostore_job_text.specs.ParsedJob.{IsOrMemory};

use super::options::{bad_option, number_given};
use crate::fault::JobFault;
use crate::job::{
    DEFAULT_CACHE, DEFAULT_FRAMES, DEFAULT_TRIES, Job, JobClient, JobClients, JobTurn, JobTurns,
};
use crate::said::{ClientSaid, EntriesSaid, EntrySaid, LineSaid};
use ostore_base::{ClientNo, ListOf, OutOfMemory};
use ostore_graph_model::{Commands, Txn, Txns};
use std::alloc::Global;
use std::mem;

/// How many clients a job has at most.
const MOST_CLIENTS: usize = 16;

/// A job while its lines are put together, and the first fault of what they name.
#[derive(Debug, Drop)]
pub(super) struct Draft {
    clients: JobClients,
    /// The client whose transactions are put now, without them.
    client: Option<JobClient>,
    txns: Txns,
    /// Whether the transaction that began last is an update.
    update: bool,
    commands: Commands,
    turns: JobTurns,
    fault: Option<JobFault>,
}

/// The first of two faults.
fn first_fault(fault: Option<JobFault>, later: Option<JobFault>) -> Option<JobFault>
    ensures { result ≡ first_fault fault later }
{
    match fault {
        Some(fault) => Some(fault),
        None => later,
    }
}

/// The place of the client of that name.
fn place_of_client(clients: &[JobClient], name: &[u8]) -> Option<usize>
    ensures { result ≡ place_of_client clients.now name.now }
{
    clients
        .iter()
        .position(|client| client.name.bytes() == name)
}

/// The first fault of a client's line, behind these clients.
#[tactic(auto, unfolding(crate::specs::Drafted::client_fault))]
fn client_fault(clients: &[JobClient], said: &ClientSaid) -> Option<JobFault>
    ensures { result ≡ client_fault clients.now said.now }
{
    if place_of_client(clients, said.name.bytes()).is_some() {
        return Some(JobFault::DuplicateClient { at: said.at });
    }
    if clients.len() >= MOST_CLIENTS {
        return Some(JobFault::TooManyClients { at: said.at });
    }
    match bad_option(said.options.items()) {
        Some(at) => Some(JobFault::BadOption { at }),
        None => None,
    }
}

/// The client of a line, without transactions.
fn opened(alloc: Global, said: ClientSaid) -> JobClient
    ensures { result ≡ opened said }
{
    let ClientSaid { name, options, .. } = said;
    let tries = number_given(options.items(), b"tries", DEFAULT_TRIES);
    let cache = number_given(options.items(), b"cache", DEFAULT_CACHE);
    let frames = number_given(options.items(), b"frames", DEFAULT_FRAMES);
    JobClient {
        name,
        tries,
        cache,
        frames,
        txns: ListOf::new(alloc),
    }
}

/// The number of the client at a place.
fn client_of_place(place: Option<usize>) -> ClientNo
    ensures { result ≡ client_of_place place }
{
    match place {
        Some(place) => ClientNo(place.min(65_535) as u16),
        None => ClientNo(0),
    }
}

/// The turn of an entry.
fn turn_of(clients: &[JobClient], said: &EntrySaid) -> JobTurn
    ensures { result ≡ turn_of clients.now said.now }
{
    JobTurn {
        client: client_of_place(place_of_client(clients, said.name.bytes())),
        count: said.count,
    }
}

/// The fault of an entry: it names no client.
fn entry_fault(clients: &[JobClient], said: &EntrySaid) -> Option<JobFault>
    ensures { result ≡ entry_fault clients.now said.now }
{
    match place_of_client(clients, said.name.bytes()) {
        Some(_) => None,
        None => Some(JobFault::UnknownTurn { at: said.at }),
    }
}

impl Draft {
    /// The draft without lines.
    pub(super) fn new(alloc: Global) -> Draft
        ensures { result ≡ empty_draft }
    {
        Draft {
            clients: ListOf::new(alloc),
            client: None,
            txns: ListOf::new(alloc),
            update: false,
            commands: ListOf::new(alloc),
            turns: ListOf::new(alloc),
            fault: None,
        }
    }

    /// Puts the client whose transactions were put.
    #[tactic(auto, unfolding(crate::specs::Drafted::closed))]
    fn close(&mut self) -> Result<(), OutOfMemory>
        ensures { OnOk result (self.new ≡ closed self.old) }
    {
        let alloc = self.clients.allocator();
        let txns = mem::replace(&mut self.txns, ListOf::new(alloc));
        if let Some(client) = mem::replace(&mut self.client, None) {
            let JobClient {
                name,
                tries,
                cache,
                frames,
                ..
            } = client;
            self.clients.push(JobClient {
                name,
                tries,
                cache,
                frames,
                txns,
            })?;
        }
        Ok(())
    }

    /// Puts a client's line, where no client's transactions are put.
    #[tactic(auto, unfolding(crate::specs::Drafted::put_client))]
    fn put_client(&mut self, said: ClientSaid)
        ensures { self.new ≡ put_client self.old said }
    {
        let alloc = self.clients.allocator();
        let fault = client_fault(self.clients.items(), &said);
        self.fault = first_fault(self.fault, fault);
        self.client = Some(opened(alloc, said));
        self.txns = ListOf::new(alloc);
    }

    /// Puts the last line of a transaction.
    #[tactic(auto, unfolding(crate::specs::Drafted::put_end))]
    fn put_end(&mut self, aborts: bool) -> Result<(), OutOfMemory>
        ensures { OnOk result (self.new ≡ put_end self.old aborts) }
    {
        let alloc = self.clients.allocator();
        let commands = mem::replace(&mut self.commands, ListOf::new(alloc));
        self.txns.push(Txn {
            update: self.update,
            commands,
            aborts,
        })
    }

    /// Puts an entry of a line `turns`.
    #[tactic(auto, unfolding(crate::specs::Drafted::put_entry))]
    fn put_entry(&mut self, said: &EntrySaid) -> Result<(), OutOfMemory>
        ensures { OnOk result (self.new ≡ put_entry self.old said.now) }
    {
        if self.fault.is_some() {
            return Ok(());
        }
        let turn = turn_of(self.clients.items(), said);
        let fault = entry_fault(self.clients.items(), said);
        self.fault = first_fault(self.fault, fault);
        self.turns.push(turn)
    }

    /// Puts the entries of a line `turns`.
    #[tactic(auto, using(crate::proofs::DraftLoops::entry_put, crate::proofs::DraftLoops::entries_put))]
    fn put_entries(&mut self, entries: &[EntrySaid]) -> Result<(), OutOfMemory>
        ensures { OnOk result (self.new ≡ put_entries self.old entries.now) }
    {
        for entry in entries {
            self.put_entry(entry)?;
        }
        Ok(())
    }

    /// Puts the next line, unless a fault stands.
    pub(super) fn put(&mut self, said: LineSaid) -> Result<(), OutOfMemory>
        ensures { OnOk result (self.new ≡ put self.old said) }
    {
        if self.fault.is_some() {
            return Ok(());
        }
        self.put_line(said)
    }

    /// Puts the next line.
    #[tactic(auto, unfolding(crate::specs::Drafted::put_begin, crate::specs::Drafted::put_command))]
    fn put_line(&mut self, said: LineSaid) -> Result<(), OutOfMemory>
        ensures { OnOk result (self.new ≡ put_line self.old said) }
    {
        match said {
            LineSaid::Client(said) => {
                self.close()?;
                self.put_client(said);
                Ok(())
            }
            LineSaid::Begin { update } => {
                self.update = update;
                Ok(())
            }
            LineSaid::Command(command) => self.commands.push(command),
            LineSaid::End { aborts } => self.put_end(aborts),
            LineSaid::Turns(entries) => {
                self.close()?;
                self.put_entries(entries.items())
            }
        }
    }

    /// The job of a draft whose last client was put, or its fault.
    fn settle(self) -> Result<Job, JobFault>
        ensures { result ≡ settled self }
    {
        let Draft {
            clients,
            turns,
            fault,
            ..
        } = self;
        match fault {
            Some(fault) => Err(fault),
            None => Ok(Job { clients, turns }),
        }
    }

    /// The job of the lines, or the first fault of what they name.
    pub(super) fn finish(self) -> Result<Job, JobFault>
        ensures { IsOrMemory result (finished self) }
    {
        let mut draft = self;
        draft.close()?;
        match draft.settle() {
            Ok(job) => Ok(job),
            Err(fault) => Err(fault),
        }
    }
}
