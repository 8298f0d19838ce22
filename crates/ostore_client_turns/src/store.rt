//! The clients of a job at a server, as attempts that are executed by turns.

use crate::seat::Seat;
use ostore_address_space::Mapper;
use ostore_base::{ClientNo, Disk, OutOfMemory};
use ostore_client_core::GraphKind;
use ostore_graph_history::{pages_are_few, space_is_lacked};
use ostore_graph_model::Txn;
use ostore_job_text::Job;
use ostore_page_service::SeqServer;
use ostore_schema_layout::Schema;
use ostore_turns::{Attempts, Gave, Place, TurnsRun, take_turns};
use std::alloc::Global;

/// The clients of a job, each at its place, with the server of their pages.
#[derive(Drop)]
pub(crate) struct Store<'s, 'v, 'a, D, M: Mapper> {
    pub(crate) alloc: Global,
    pub(crate) server: &'s mut SeqServer<GraphKind, D>,
    pub(crate) schema: &'a Schema,
    pub(crate) job: &'a Job,
    /// Chooses the frames of all clients. It isn't read here: the seats' clients have it.
    pub(crate) mapper: &'a M,
    pub(crate) seats: &'v mut Vec<Seat<'a, M>>,
}

impl<'s, 'v, 'a, D: Disk, M: Mapper> Store<'s, 'v, 'a, D, M> {
    ghost use Rattle.std.specs.Prelude.{◌≡◌, true, length, IfOk};
    ghost use Rattle.ostore_job_text.specs.RunnableJobs.{CanRun};
    ghost use Rattle.ostore_page_service.specs.Servers.{first_of, opened_of};
    ghost use Rattle.ostore_turns.specs.Bounds.{AreBounded};
    ghost use Rattle.ostore_turns.specs.Runs.{IsFirst, IsRunBy};
    ghost use Rattle.ostore_client_turns.specs.Runs.{bounds_of, script_of};
    ghost use Rattle.ostore_client_turns.specs.inside.AtServer.{IsReadyAt, moment_at};
    ghost use Rattle.ostore_client_turns.specs.inside.Seats.{seats_in};

    /// Executes all clients by turns, each from the first line of its script.
    pub(crate) fn take_all_turns(&mut self) -> Result<TurnsRun, OutOfMemory>
        requires job { CanRun self.old.job.now }
        requires first { IsFirst (moment_at D.faults self.old.server.now self.old.server.ghost_name
            (seats_in self.old.seats.now.items)) }
        requires ready { IsReadyAt D.faults self.old.server.now self.old.schema.now self.old.job.now
            (seats_in self.old.seats.now.items) }
        requires long { length self.old.seats.now.items ≡ length self.old.job.now.clients }
        ensures run { IfOk result (IsRunBy self.old.job.now
            (moment_at D.faults self.old.server.now self.old.server.ghost_name
            (seats_in self.old.seats.now.items))
            (moment_at D.faults self.new.server.now self.old.server.ghost_name
            (seats_in self.new.seats.now.items))) }
        ensures bounded { IfOk result (λ run.
            AreBounded (bounds_of (script_of self.old.schema.now self.old.job.now)
            (opened_of self.old.server.now)) self.old.job.now.clients run.results) }
        ensures sound { IfOk result (λ run. run.disk_failed ≡ true → ⊥) }
        ensures ready { IfOk result (λ _run. IsReadyAt D.faults self.new.server.now
            self.old.schema.now self.old.job.now (seats_in self.new.seats.now.items)) }
        ensures same_server { self.new.server.ghost_name ≡ self.old.server.ghost_name }
        ensures same_seats { self.new.seats.ghost_name ≡ self.old.seats.ghost_name }
        ensures first { first_of self.new.server.now ≡ first_of self.old.server.now }
        ensures opened { opened_of self.new.server.now ≡ opened_of self.old.server.now }
    {
        let job = self.job;
        take_turns(self.alloc, job, self)
    }
}

impl<'s, 'v, 'a, D: Disk, M: Mapper> Attempts for Store<'s, 'v, 'a, D, M> {
    ghost use Rattle.std.specs.Prelude.{◌≡◌, length};
    ghost use Rattle.ostore_page_service.specs.Servers.{first_of, opened_of};
    ghost use Rattle.ostore_client_turns.specs.Runs.{bounds_of, script_of};
    ghost use Rattle.ostore_client_turns.specs.inside.AtServer.{IsReadyAt, moment_at};
    ghost use Rattle.ostore_client_turns.specs.inside.Seats.{seats_in};
    ghost use Rattle.ostore_client_turns.specs.inside.Stores.{StoreConstants};

    ghost Constants = { StoreConstants };

    ghost clients = { λ s. s.job.now.clients };

    ghost moment = { λ s. moment_at D.faults s.server.now s.server.ghost_name
        (seats_in s.seats.now.items) };

    ghost constants = { λ s. record {
      behind = s.server.ghost_name;
      sits = s.seats.ghost_name;
      first = first_of s.server.now;
      opened = opened_of s.server.now;
      schema = s.schema.now;
      job = s.job.now;
    } };

    ghost bounds = { λ c. bounds_of (script_of c.schema c.job) c.opened };

    ghost ready = { λ s. IsReadyAt D.faults s.server.now s.schema.now s.job.now
        (seats_in s.seats.now.items) × (length s.seats.now.items ≡ length s.job.now.clients) };

    fn execute(&mut self, client: ClientNo, txn: &Txn, _at: Place) -> Result<Gave, OutOfMemory> {
        let number = usize::from(client.0);
        let tries = self.job.clients.items()[number].tries;
        let seat = &mut self.seats[number];
        space_is_lacked();
        pages_are_few();
        seat.take_turn(self.alloc, self.server, client, self.schema, txn, tries)
    }
}
