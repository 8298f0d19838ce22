//! A run of a job on the pages of a server.

ghost use Rattle.std.specs.Prelude.{◌≡◌, ℕ, IfOk};
ghost use Rattle.std.specs.List.{AllByRecursion};
ghost use Rattle.ostore_schema_layout.specs.Lawful.{IsLawful};
ghost use Rattle.ostore_page_service.specs.Holding.{IsEmpty};
ghost use Rattle.ostore_page_service.specs.Servers.{first_of, journal_of, opened_of, pages_of, side_of, Serves};
ghost use Rattle.ostore_object_ops.specs.Suits.{IsOfInts};
ghost use Rattle.ostore_job_text.specs.LawfulJob.{HasLawfulSettings};
ghost use Rattle.ostore_job_text.specs.RunnableJobs.{CanRun};
ghost use Rattle.ostore_client_turns.specs.Runs.{AreBuilt, IsRunOf, script_of};

use crate::seat::{fetches_of, seats_of};
use crate::store::Store;
use ostore_address_space::Mapper;
use ostore_base::{Disk, OutOfMemory};
use ostore_client_core::GraphKind;
use ostore_graph_history::history_is_legal;
use ostore_job_text::Job;
use ostore_page_service::SeqServer;
use ostore_run_report::{Results, Tail};
use ostore_schema_layout::Schema;
use ostore_turns::results_are_records;
use std::alloc::Global;

/// What a run gave: what became of the transactions, and the last lines of its report.
#[derive(Debug, Drop)]
pub struct Run {
    pub results: Results,
    pub tail: Tail,
}

/// Executes the clients of a job by turns on the pages of a server that has served nobody yet. Each client has an address
/// space and a cache as its options say; the mapper chooses its frames. The tail has the number of the last commit, and
/// how many pages all clients fetched together. Want of memory may end it at any turn, and then nothing is told.
pub fn run_turns<'a, D: Disk, M: Mapper>(
    alloc: Global,
    schema: &'a Schema,
    job: &'a Job,
    server: &mut SeqServer<GraphKind, D>,
    mapper: &'a M,
) -> Result<Run, OutOfMemory>
    requires job { CanRun job.now }
    requires settings { AllByRecursion HasLawfulSettings job.now.clients }
    requires built { AreBuilt job.now }
    requires lawful { IsLawful schema.now }
    requires ints { IsOfInts schema.now }
    requires fresh { (client : ℕ) → IsEmpty (side_of server.old client) }
    requires number { (journal_of server.old).number ≡ first_of server.old }
    requires served { Serves server.old (script_of schema.now job.now) }
    ensures { IfOk result (IsRunOf schema.now job.now (first_of server.old) (opened_of server.old)
        (pages_of server.new).images) }
{
    let mut seats = seats_of(alloc, schema, job, server, mapper)?;
    let mut store = Store {
        alloc,
        server,
        schema,
        job,
        mapper,
        seats: &mut seats,
    };
    let ran = store.take_all_turns()?;
    results_are_records();
    history_is_legal();
    let tail = Tail {
        disk_fault_after: None,
        commits: server.number(),
        fetches: Some(fetches_of(&seats)),
    };
    Ok(Run {
        results: ran.results,
        tail,
    })
}
