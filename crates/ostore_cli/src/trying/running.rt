//! Running the clients of a job on a fresh database.

ghost use Rattle.std.specs.Prelude.{◌≡◌, ℕ, IfOk};
ghost use Rattle.std.specs.List.{AllByRecursion};
ghost use Rattle.ostore_schema_layout.specs.Lawful.{IsLawful};
ghost use Rattle.ostore_schema_layout.specs.Spells.{Spells};
ghost use Rattle.ostore_page_tags.specs.FreshPages.{fresh_list};
ghost use Rattle.ostore_graph_model.specs.declared.commands.Script.{Script};
ghost use Rattle.ostore_object_ops.specs.Suits.{IsOfInts};
ghost use Rattle.ostore_page_service.specs.Holding.{IsEmpty};
ghost use Rattle.ostore_page_service.specs.Servers.{first_of, journal_of, opened_of, side_of, Serves};
ghost use Rattle.ostore_job_text.specs.LawfulJob.{HasLawfulSettings};
ghost use Rattle.ostore_job_text.specs.RunnableJobs.{CanRun};
ghost use Rattle.ostore_turns.specs.Alone.{AreOneAfterTheOther};
ghost use Rattle.ostore_client_turns.specs.Runs.{AreBuilt};
ghost use Rattle.ostore_cli.specs.FreshRuns.{all_pages};
ghost use Rattle.ostore_cli.specs.inside.Runs.{IsFreshRun, IsRunAlone};

use ostore_address_space::Mapper;
use ostore_base::{MemDisk, OutOfMemory};
use ostore_client_core::GraphKind;
use ostore_client_turns::{Run, run_turns};
use ostore_graph_model::{fresh_pages_are_empty, graph_is_one};
use ostore_job_text::Job;
use ostore_page_service::SeqServer;
use ostore_page_tags::fresh_pages;
use ostore_redo_journal::counting::Journal;
use ostore_schema_layout::Schema;
use ostore_turns::{clients_run_alone, results_are_right};
use std::alloc::Global;

/// How many pages the database has.
const PAGES: u32 = 1024;

type Server = SeqServer<GraphKind, MemDisk>;

/// A server of fresh pages in memory, with the text of their schema. Its journal only counts.
fn fresh_server(alloc: Global, text: &[u8], schema: &Schema) -> Result<Server, OutOfMemory>
    requires { Spells text.now schema.now }
    ensures opened { IfOk result (λ server. opened_of server ≡ fresh_list text.now all_pages) }
    ensures first { IfOk result (λ server. first_of server ≡ 0) }
    ensures number { IfOk result (λ server. (journal_of server).number ≡ 0) }
    ensures empty { IfOk result (λ server. (client : ℕ) → IsEmpty (side_of server client)) }
    ensures served { IfOk result
        (λ server. (script : Script) → script.schema ≡ schema.now → Serves server script) }
{
    let _schema = schema;
    let pages = fresh_pages(alloc, text, PAGES)?;
    fresh_pages_are_empty();
    let disk = MemDisk::new(Vec::new(alloc), Vec::new(alloc));
    match SeqServer::new(alloc, pages, Journal::fresh(disk)) {
        Ok(server) => Ok(server),
        Err(_) => Err(OutOfMemory),
    }
}

/// Runs a job on a fresh server.
fn run_fresh<M: Mapper>(
    alloc: Global,
    text: &[u8],
    schema: &Schema,
    job: &Job,
    mapper: &M,
) -> Result<Run, OutOfMemory>
    requires spelled { Spells text.now schema.now }
    requires lawful { IsLawful schema.now }
    requires ints { IsOfInts schema.now }
    requires job { CanRun job.now }
    requires settings { AllByRecursion HasLawfulSettings job.now.clients }
    requires built { AreBuilt job.now }
    ensures { IfOk result (IsFreshRun text.now schema.now job.now) }
{
    let mut server = fresh_server(alloc, text, schema)?;
    run_turns(alloc, schema, job, &mut server, mapper)
}

/// Runs a job of clients that run one after the other on a fresh database with the text of its schema.
pub(crate) fn run_alone<M: Mapper>(
    alloc: Global,
    text: &[u8],
    schema: &Schema,
    job: &Job,
    mapper: &M,
) -> Result<Run, OutOfMemory>
    requires spelled { Spells text.now schema.now }
    requires ints { IsOfInts schema.now }
    requires job { CanRun job.now }
    requires alone { AreOneAfterTheOther job.now.clients job.now.turns }
    requires settings { AllByRecursion HasLawfulSettings job.now.clients }
    requires built { AreBuilt job.now }
    ensures { IfOk result (IsRunAlone schema.now job.now) }
{
    fresh_pages_are_empty();
    graph_is_one();
    results_are_right();
    clients_run_alone();
    run_fresh(alloc, text, schema, job, mapper)
}
