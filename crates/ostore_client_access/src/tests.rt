//! Commands on the pages of a server in one thread.

ghost use Rattle.std.specs.Prelude.{◌≡◌, ℕ, true, false, [], length, IfOk, Some};
ghost use Rattle.std.specs.List.{AllByRecursion};
ghost use Rattle.ostore_schema_layout.specs.Lawful.{IsLawful};
ghost use Rattle.ostore_schema_layout.specs.Spells.{Spells};
ghost use Rattle.ostore_graph_model.specs.declared.commands.Script.{Script};
ghost use Rattle.ostore_graph_model.specs.History.{txn_at};
ghost use Rattle.ostore_page_service.specs.Holding.{IsEmpty};
ghost use Rattle.ostore_page_service.specs.Servers.{side_of, Serves};
ghost use Rattle.ostore_client_core.specs.Clients.{IsIdle, IsOwn};
ghost use Rattle.ostore_object_ops.specs.Suits.{IsOfInts, IsBuilt};

use super::*;
use ostore_address_space::{Low, Mapper};
use ostore_base::{ClientNo, ListOf, MemDisk, OutOfMemory, Text};
use ostore_client_core::{Client, GraphKind};
use ostore_graph_model::{
    Command, Entry, Operand, Refusal, Replies, Reply, Txn, Value, fresh_pages_are_empty,
};
use ostore_object_ops::{Progress, are_built, is_of_ints};
use ostore_page_service::{PageClaims, PageService, SeqServer};
use ostore_page_tags::fresh_pages;
use ostore_redo_journal::counting::Journal;
use ostore_schema_layout::{Schema, parse_schema};
use std::alloc::Global;
use std::test::Fail;

type Server = SeqServer<GraphKind, MemDisk>;

const PART: &[u8] = b"type Part\nid int\n";

/// A server of a fresh database of 20 pages.
fn fresh_server(alloc: Global, text: &[u8], schema: &Schema) -> Result<Server, OutOfMemory>
    requires { Spells text.now schema.now }
    ensures empty { IfOk result (λ server. (c : ℕ) → IsEmpty (side_of server c)) }
    ensures served { IfOk result
        (λ server. (s : Script) → s.schema ≡ schema.now → Serves server s) }
{
    let _schema = schema;
    let pages = fresh_pages(alloc, text, 20)?;
    fresh_pages_are_empty();
    let disk = MemDisk::new(Vec::new(alloc), Vec::new(alloc));
    match SeqServer::new(alloc, pages, Journal::fresh(disk)) {
        Ok(server) => Ok(server),
        Err(_) => Err(OutOfMemory),
    }
}

/// The int that the last reply gives.
fn last_int(replies: &Replies) -> Option<i64> {
    match replies.items().last() {
        Some(Reply::Value(Value::Int(value))) => Some(*value),
        _ => None,
    }
}

/// The refusal that the last reply gives.
fn last_refusal(replies: &Replies) -> Option<Refusal> {
    match replies.items().last() {
        Some(Reply::Refused(refusal)) => Some(*refusal),
        _ => None,
    }
}

/// Executes and commits an update, the first transaction of client 0, and gives the int that its last command
/// read and the commit number.
fn read_and_commit<M: Mapper, S: PageService<GraphKind>>(
    alloc: Global,
    client: &mut Client<'_, M>,
    service: &mut S,
    turn: S::Turn,
    schema: &Schema,
    txn: &Txn,
) -> Option<(i64, u64)>
    requires own { IsOwn (S.serves service.old) (S.tells service.old) client.old }
    requires idle { IsIdle client.old }
    requires schema { client.old.schema ≡ schema.now }
    requires lawful { IsLawful schema.now }
    requires ints { IsOfInts schema.now }
    requires built { AllByRecursion IsBuilt txn.now.commands }
    requires update { txn.now.update ≡ true }
    requires kept { txn.now.aborts ≡ false }
    requires writer { (S.tells service.old).may_write ≡ true }
    requires mine { (S.tells service.old).client ≡ 0 }
    requires first { (S.tells service.old).mine.records ≡ [] }
    requires script { (script : Script) × S.serves service.old script
        × (script.schema ≡ client.old.schema) × (txn_at script 0 1 ≡ Some txn.now) }
{
    if client.begin(service, true).is_err() {
        return None;
    }
    let Ok(replies) = execute(alloc, client, service, schema, txn) else {
        return None;
    };
    let Some(value) = last_int(&replies) else {
        return None;
    };
    let entry = Entry {
        client: ClientNo(0),
        ordinal: 1,
        update: true,
        replies,
    };
    made_fits(client, service, txn, &entry);
    match client.finish(service, turn, entry) {
        Ok(number) => Some((value, number)),
        Err(_) => None,
    }
}

/// Executes the only line of a transaction that reads, the first one of client 0, and commits it. It gives the
/// reply's refusal and the commit number.
fn read_a_line<M: Mapper, S: PageService<GraphKind>>(
    alloc: Global,
    client: &mut Client<'_, M>,
    service: &mut S,
    turn: S::Turn,
    schema: &Schema,
    txn: &Txn,
) -> Option<(Refusal, u64)>
    requires own { IsOwn (S.serves service.old) (S.tells service.old) client.old }
    requires idle { IsIdle client.old }
    requires schema { client.old.schema ≡ schema.now }
    requires lawful { IsLawful schema.now }
    requires ints { IsOfInts schema.now }
    requires built { AllByRecursion IsBuilt txn.now.commands }
    requires reads { txn.now.update ≡ false }
    requires one { length txn.now.commands ≡ 1 }
    requires kept { txn.now.aborts ≡ false }
    requires mine { (S.tells service.old).client ≡ 0 }
    requires first { (S.tells service.old).mine.records ≡ [] }
    requires script { (script : Script) × S.serves service.old script
        × (script.schema ≡ client.old.schema) × (txn_at script 0 1 ≡ Some txn.now) }
{
    if client.begin(service, false).is_err() {
        return None;
    }
    let mut progress = Progress::new(alloc);
    no_line_has_run(client, service, txn, &progress);
    let Ok(()) = execute_line(client, service, schema, txn, &mut progress) else {
        return None;
    };
    lines_have_made(client, service, txn, &progress);
    let replies = progress.into_replies();
    let Some(refusal) = last_refusal(&replies) else {
        return None;
    };
    let entry = Entry {
        client: ClientNo(0),
        ordinal: 1,
        update: false,
        replies,
    };
    made_fits(client, service, txn, &entry);
    match client.finish(service, turn, entry) {
        Ok(number) => Some((refusal, number)),
        Err(_) => None,
    }
}

/// A Part in segment 1, whose id is set to 7 and read.
fn part_of_seven(alloc: Global) -> Result<Txn, OutOfMemory>
    ensures update { IfOk result (λ txn. txn.update ≡ true) }
    ensures kept { IfOk result (λ txn. txn.aborts ≡ false) }
{
    let mut commands = ListOf::new(alloc);
    commands.push(Command::New {
        to: Text::from_bytes(alloc, b"$p")?,
        ty: Text::from_bytes(alloc, b"Part")?,
        segment: 1,
    })?;
    commands.push(Command::Set {
        object: Text::from_bytes(alloc, b"$p")?,
        member: Text::from_bytes(alloc, b"id")?,
        value: Operand::Int(7),
    })?;
    commands.push(Command::Get {
        object: Text::from_bytes(alloc, b"$p")?,
        member: Text::from_bytes(alloc, b"id")?,
    })?;
    Ok(Txn {
        update: true,
        commands,
        aborts: false,
    })
}

/// A transaction that reads a Part's id by a variable that isn't bound.
fn id_of_nothing(alloc: Global) -> Result<Txn, OutOfMemory>
    ensures reads { IfOk result (λ txn. txn.update ≡ false) }
    ensures one { IfOk result (λ txn. length txn.commands ≡ 1) }
    ensures kept { IfOk result (λ txn. txn.aborts ≡ false) }
{
    let mut commands = ListOf::new(alloc);
    commands.push(Command::Get {
        object: Text::from_bytes(alloc, b"$p")?,
        member: Text::from_bytes(alloc, b"id")?,
    })?;
    Ok(Txn {
        update: false,
        commands,
        aborts: false,
    })
}

#[test]
fn a_new_object_is_set_read_and_committed(rt: HostRuntime) -> Result<(), Fail> {
    let alloc = rt.alloc();
    let schema = parse_schema(alloc, PART)?;
    let txn = part_of_seven(alloc)?;
    let mut server = fresh_server(alloc, PART, &schema)?;
    let mut client = Client::new(alloc, &schema, &Low, ClientNo(0), 8, 12)?;
    let mut service = server.as_client(ClientNo(0));
    client.fresh_is_own(&service);
    if !is_of_ints(&schema) || !are_built(txn.commands.items()) {
        panic!(rt; "the commands don't run");
    }
    let done = read_and_commit(alloc, &mut client, &mut service, (), &schema, &txn);
    assert_eq!(rt; done, Some((7, 1)));
    Ok(())
}

#[test]
fn a_line_that_reads_is_refused_and_committed(rt: HostRuntime) -> Result<(), Fail> {
    let alloc = rt.alloc();
    let schema = parse_schema(alloc, PART)?;
    let txn = id_of_nothing(alloc)?;
    let mut server = fresh_server(alloc, PART, &schema)?;
    let mut client = Client::new(alloc, &schema, &Low, ClientNo(0), 8, 12)?;
    let mut service = server.as_client(ClientNo(0));
    client.fresh_is_own(&service);
    if !is_of_ints(&schema) || !are_built(txn.commands.items()) {
        panic!(rt; "the commands don't run");
    }
    let done = read_a_line(alloc, &mut client, &mut service, (), &schema, &txn);
    assert_eq!(rt; done, Some((Refusal::NoVariable, 0)));
    Ok(())
}
