//! Attempts of a client on a server in one thread.

ghost use Rattle.std.specs.Prelude.{◌≡◌, ℕ, true, false, [], IfOk, Some};
ghost use Rattle.std.specs.List.{AllByRecursion};
ghost use Rattle.ostore_schema_layout.specs.Lawful.{IsLawful};
ghost use Rattle.ostore_schema_layout.specs.Spells.{Spells};
ghost use Rattle.ostore_graph_model.specs.declared.commands.Script.{Script};
ghost use Rattle.ostore_graph_model.specs.History.{txn_at};
ghost use Rattle.ostore_page_service.specs.Holding.{IsEmpty};
ghost use Rattle.ostore_page_service.specs.Servers.{side_of, Serves};
ghost use Rattle.ostore_client_core.specs.Clients.{IsIdle, IsOwn};
ghost use Rattle.ostore_object_ops.specs.Suits.{IsOfInts, IsBuilt};

use super::*;
use ostore_address_space::{Low, Mapper};
use ostore_base::{ClientNo, ListOf, MemDisk, OutOfMemory, Text};
use ostore_client_core::{Client, GraphKind};
use ostore_graph_model::{
    Command, Name, Operand, Replies, Reply, Txn, Value, fresh_pages_are_empty,
};
use ostore_object_ops::{are_built, is_of_ints};
use ostore_page_service::{PageClaims, PageService, SeqServer};
use ostore_page_tags::fresh_pages;
use ostore_redo_journal::counting::Journal;
use ostore_schema_layout::{Schema, parse_schema};
use std::alloc::Global;
use std::test::Fail;

type Server = SeqServer<GraphKind, MemDisk>;

const PART: &[u8] = b"type Part\nid int\n";

/// A server of a fresh database of 20 pages.
fn fresh_server(alloc: Global, text: &[u8], schema: &Schema) -> Result<Server, OutOfMemory>
    requires { Spells text.now schema.now }
    ensures empty { IfOk result (λ server. (c : ℕ) → IsEmpty (side_of server c)) }
    ensures served { IfOk result
        (λ server. (s : Script) → s.schema ≡ schema.now → Serves server s) }
{
    let _schema = schema;
    let pages = fresh_pages(alloc, text, 20)?;
    fresh_pages_are_empty();
    let disk = MemDisk::new(Vec::new(alloc), Vec::new(alloc));
    match SeqServer::new(alloc, pages, Journal::fresh(disk)) {
        Ok(server) => Ok(server),
        Err(_) => Err(OutOfMemory),
    }
}

/// A Part in segment 1, whose id is set to 7 and read.
fn part_of_seven(alloc: Global, aborts: bool) -> Result<Txn, OutOfMemory>
    ensures { IfOk result (λ txn. txn.aborts ≡ aborts) }
{
    let mut commands = ListOf::new(alloc);
    commands.push(Command::New {
        to: Text::from_bytes(alloc, b"$p")?,
        ty: Text::from_bytes(alloc, b"Part")?,
        segment: 1,
    })?;
    commands.push(Command::Set {
        object: Text::from_bytes(alloc, b"$p")?,
        member: Text::from_bytes(alloc, b"id")?,
        value: Operand::Int(7),
    })?;
    commands.push(Command::Get {
        object: Text::from_bytes(alloc, b"$p")?,
        member: Text::from_bytes(alloc, b"id")?,
    })?;
    Ok(Txn {
        update: true,
        commands,
        aborts,
    })
}

/// What is seen of a transaction that was committed: the name that its first command gives, the int that its last one reads,
/// and its number.
#[derive(Clone, Copy, Debug, PartialEq, Eq)]
struct Seen {
    name: Name,
    value: i64,
    number: u64,
}

/// What is seen of an end.
fn seen_of(ended: Ended) -> Option<Seen> {
    let (number, replies) = match ended {
        Ended::Committed { number, replies } => (number, replies),
        Ended::Aborted => return None,
    };
    let name = match replies.items().first() {
        Some(Reply::Named(name)) => *name,
        _ => return None,
    };
    let value = match replies.items().last() {
        Some(Reply::Value(Value::Int(value))) => *value,
        _ => return None,
    };
    Some(Seen {
        name,
        value,
        number,
    })
}

/// Attempts the first transaction of client 0, and gives what is seen of it.
fn commit_first<M: Mapper, S: PageService<GraphKind>>(
    alloc: Global,
    client: &mut Client<'_, M>,
    service: &mut S,
    turn: S::Turn,
    schema: &Schema,
    txn: &Txn,
) -> Option<Seen>
    requires own { IsOwn (S.serves service.old) (S.tells service.old) client.old }
    requires idle { IsIdle client.old }
    requires schema { client.old.schema ≡ schema.now }
    requires lawful { IsLawful schema.now }
    requires ints { IsOfInts schema.now }
    requires built { AllByRecursion IsBuilt txn.now.commands }
    requires writer { (S.tells service.old).may_write ≡ true }
    requires mine { (S.tells service.old).client ≡ 0 }
    requires none { (S.tells service.old).mine.records ≡ [] }
    requires script { (script : Script) × S.serves service.old script
        × (script.schema ≡ client.old.schema) × (txn_at script 0 1 ≡ Some txn.now) }
{
    match run_attempt(alloc, client, service, turn, schema, txn, 1) {
        Ok(ended) => seen_of(ended),
        Err(_) => None,
    }
}

/// Attempts the two transactions of client 0, of which the first one aborts, and gives what is seen of the second one.
fn abort_and_commit<M: Mapper, S: PageService<GraphKind>>(
    alloc: Global,
    client: &mut Client<'_, M>,
    service: &mut S,
    turn: S::Turn,
    schema: &Schema,
    first: &Txn,
    second: &Txn,
) -> Option<Seen>
    requires own { IsOwn (S.serves service.old) (S.tells service.old) client.old }
    requires idle { IsIdle client.old }
    requires schema { client.old.schema ≡ schema.now }
    requires lawful { IsLawful schema.now }
    requires ints { IsOfInts schema.now }
    requires built { AllByRecursion IsBuilt first.now.commands }
    requires built_too { AllByRecursion IsBuilt second.now.commands }
    requires aborts { first.now.aborts ≡ true }
    requires writer { (S.tells service.old).may_write ≡ true }
    requires mine { (S.tells service.old).client ≡ 0 }
    requires none { (S.tells service.old).mine.records ≡ [] }
    requires script { (script : Script) × S.serves service.old script
        × (script.schema ≡ client.old.schema) × (txn_at script 0 1 ≡ Some first.now)
        × (txn_at script 0 2 ≡ Some second.now) }
{
    let ended = match run_attempt(alloc, client, service, turn, schema, first, 1) {
        Ok(ended) => ended,
        Err(_) => return None,
    };
    match ended {
        Ended::Committed { .. } => unreachable!(),
        Ended::Aborted => {}
    }
    match run_attempt(alloc, client, service, turn, schema, second, 2) {
        Ok(ended) => seen_of(ended),
        Err(_) => None,
    }
}

#[test]
fn a_new_object_is_set_read_and_committed(rt: HostRuntime) -> Result<(), Fail> {
    let alloc = rt.alloc();
    let schema = parse_schema(alloc, PART)?;
    let txn = part_of_seven(alloc, false)?;
    let mut server = fresh_server(alloc, PART, &schema)?;
    let mut client = Client::new(alloc, &schema, &Low, ClientNo(0), 8, 12)?;
    let mut service = server.as_client(ClientNo(0));
    client.fresh_is_own(&service);
    if !is_of_ints(&schema) || !are_built(txn.commands.items()) {
        panic!(rt; "the commands don't run");
    }
    let done = commit_first(alloc, &mut client, &mut service, (), &schema, &txn);
    let name = Name {
        segment: 1,
        serial: 1,
    };
    assert_eq!(rt;
        done,
        Some(Seen {
            name,
            value: 7,
            number: 1
        })
    );
    Ok(())
}

#[test]
fn an_aborted_transaction_leaves_no_object(rt: HostRuntime) -> Result<(), Fail> {
    let alloc = rt.alloc();
    let schema = parse_schema(alloc, PART)?;
    let first = part_of_seven(alloc, true)?;
    let second = part_of_seven(alloc, false)?;
    let mut server = fresh_server(alloc, PART, &schema)?;
    let mut client = Client::new(alloc, &schema, &Low, ClientNo(0), 8, 12)?;
    let mut service = server.as_client(ClientNo(0));
    client.fresh_is_own(&service);
    if !is_of_ints(&schema) || !are_built(first.commands.items()) {
        panic!(rt; "the commands don't run");
    }
    if !are_built(second.commands.items()) {
        panic!(rt; "the commands don't run");
    }
    let done = abort_and_commit(
        alloc,
        &mut client,
        &mut service,
        (),
        &schema,
        &first,
        &second,
    );
    let name = Name {
        segment: 1,
        serial: 1,
    };
    assert_eq!(rt;
        done,
        Some(Seen {
            name,
            value: 7,
            number: 1
        })
    );
    Ok(())
}
