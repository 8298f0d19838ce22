//! Jobs that are run by turns on the pages of a fresh database.

ghost use Rattle.std.specs.Prelude.{◌≡◌, ◌↔◌, ℕ, IfOk, IsTrue};
ghost use Rattle.std.specs.List.{AllByRecursion};
ghost use Rattle.ostore_schema_layout.specs.Spells.{Spells};
ghost use Rattle.ostore_graph_model.specs.declared.commands.Script.{Script};
ghost use Rattle.ostore_page_service.specs.Holding.{IsEmpty};
ghost use Rattle.ostore_page_service.specs.Servers.{first_of, journal_of, side_of, Serves};
ghost use Rattle.ostore_object_ops.specs.Suits.{IsBuilt};

use super::*;
use ostore_address_space::{High, Low, Mapper, Mixed};
use ostore_base::{MemDisk, OutOfMemory, Text};
use ostore_client_core::GraphKind;
use ostore_graph_model::{Txn, fresh_pages_are_empty};
use ostore_job_text::{Job, JobClient, parse_job, spelled_can_run, spelled_settings_are_lawful};
use ostore_object_ops::{are_built, is_of_ints};
use ostore_page_service::SeqServer;
use ostore_page_tags::fresh_pages;
use ostore_redo_journal::counting::Journal;
use ostore_run_report::{Tail, print_report};
use ostore_schema_layout::{Schema, parse_schema};
use std::alloc::Global;
use std::test::Fail;

type Server = SeqServer<GraphKind, MemDisk>;

const PART: &[u8] = b"type Part\nid int\n";

/// A server of a fresh database of 20 pages.
fn fresh_server(alloc: Global, text: &[u8], schema: &Schema) -> Result<Server, OutOfMemory>
    requires { Spells text.now schema.now }
    ensures empty { IfOk result (λ server. (c : ℕ) → IsEmpty (side_of server c)) }
    ensures number { IfOk result (λ server. (journal_of server).number ≡ first_of server) }
    ensures served { IfOk result
        (λ server. (s : Script) → s.schema ≡ schema.now → Serves server s) }
{
    let _schema = schema;
    let pages = fresh_pages(alloc, text, 20)?;
    fresh_pages_are_empty();
    let disk = MemDisk::new(Vec::new(alloc), Vec::new(alloc));
    match SeqServer::new(alloc, pages, Journal::fresh(disk)) {
        Ok(server) => Ok(server),
        Err(_) => Err(OutOfMemory),
    }
}

/// Whether all commands of a transaction are of those that run.
fn is_built_txn(txn: &Txn) -> bool
    ensures { IsTrue result ↔ AllByRecursion IsBuilt txn.now.commands }
{
    are_built(txn.commands.items())
}

/// Whether all commands of a client's transactions are.
fn is_built_client(client: &JobClient) -> bool
    ensures { IsTrue result
        ↔ AllByRecursion (λ txn. AllByRecursion IsBuilt txn.commands) client.now.txns }
{
    client.txns.items().iter().all(is_built_txn)
}

/// Whether all commands of all clients are.
fn are_built_clients(clients: &[JobClient]) -> bool
    ensures { IsTrue result ↔ AllByRecursion (λ client.
        AllByRecursion (λ txn. AllByRecursion IsBuilt txn.commands) client.txns) clients.now }
{
    clients.iter().all(is_built_client)
}

/// The report of a job of a text on a fresh database, whose tail tells the fetches where that is asked. None for a text of
/// no job that runs.
fn report_of<M: Mapper>(alloc: Global, mapper: &M, text: &[u8], fetches: bool) -> Option<Text> {
    let schema = parse_schema(alloc, PART).ok()?;
    let job = parse_job(alloc, text).ok()?;
    if !is_of_ints(&schema) || !are_built_clients(job.clients.items()) {
        return None;
    }
    spelled_can_run();
    spelled_settings_are_lawful();
    let Ok(mut server) = fresh_server(alloc, PART, &schema) else {
        return None;
    };
    let run = run_turns(alloc, &schema, &job, &mut server, mapper).ok()?;
    let told = if fetches { run.tail.fetches } else { None };
    let tail = Tail {
        fetches: told,
        ..run.tail
    };
    print_report(alloc, &job, &run.results, tail).ok()
}

/// Whether a text is what is wanted.
fn is_text(text: Option<Text>, wanted: &[u8]) -> bool {
    match text {
        Some(text) => text.bytes() == wanted,
        None => false,
    }
}

#[test]
fn a_client_that_meets_another_gives_up_on_its_last_try(rt: HostRuntime) -> Result<(), Fail> {
    let job =
        b"client a\nbegin\nnew $p Part 1\ncommit\nclient b tries 1\nbegin\nnew $p Part 1\ncommit\nturns a*2 b*2\n";
    let wanted =
        b"a.1 commit 1\n  1.1\nb.1 gaveup 1 busy 0 0000000100010001 0000000100010001\ncommits 1\nfetches 2\n";
    let text = report_of(rt.alloc(), &Low, job, true);
    assert!(rt; is_text(text, wanted));
    Ok(())
}

#[test]
fn a_cache_and_frames_of_one_page_are_full(rt: HostRuntime) -> Result<(), Fail> {
    let alloc = rt.alloc();
    let cache = b"client a cache 1\nbegin\nnew $p Part 1\ncommit\n";
    let text = report_of(alloc, &Low, cache, false);
    assert!(rt; is_text(text, b"a.1 gaveup 1 cachefull 1 1\ncommits 0\n"));
    let frames = b"client a frames 1\nbegin\nnew $p Part 1\ncommit\n";
    let text = report_of(alloc, &Low, frames, false);
    assert!(rt; is_text(text, b"a.1 gaveup 1 spacefull 1\ncommits 0\n"));
    Ok(())
}

/// The first `new` fetches page 0 and the segment's new page. The second one reads page 0 and owns the other, whose copy goes
/// at the abort. So the third one fetches one page, and finds the database as the first one left it.
#[test]
fn an_abort_leaves_no_change_and_retains_what_was_only_read(rt: HostRuntime) -> Result<(), Fail> {
    let job =
        b"client a\nbegin\nnew $p Part 1\ncommit\nbegin\nnew $p Part 1\nset $p.id 5\nabort\nbegin\nnew $p Part 1\nget $p.id\ncommit\n";
    let wanted =
        b"a.1 commit 1\n  1.1\na.2 abort\na.3 commit 2\n  1.2\n  0\ncommits 2\nfetches 3\n";
    let text = report_of(rt.alloc(), &Low, job, true);
    assert!(rt; is_text(text, wanted));
    Ok(())
}

#[test]
fn three_clients_give_one_report_under_all_mappers(rt: HostRuntime) -> Result<(), Fail> {
    let alloc = rt.alloc();
    let job =
        b"client a\nbegin\nnew $p Part 1\nset $p.id 1\ncommit\nread\nnew $p Part 1\ncommit\nclient b\nbegin\nnew $p Part 1\nset $p.id 2\nget $p.id\ncommit\nclient c\nbegin\nnew $p Part 2\nabort\nbegin\nnew $p Part 1\ncommit\n";
    let wanted =
        b"a.1 commit 1\n  1.1\n  ok\na.2 read 1\n  refused 16 ReadOnly\nb.1 commit 2 tries 2\n  1.2\n  ok\n  2\nc.1 abort tries 4\nc.2 commit 3\n  1.3\ncommits 3\n";
    let low = report_of(alloc, &Low, job, false);
    assert!(rt; is_text(low, wanted));
    let high = report_of(alloc, &High, job, false);
    assert!(rt; is_text(high, wanted));
    let mixed = report_of(alloc, &Mixed, job, false);
    assert!(rt; is_text(mixed, wanted));
    Ok(())
}
