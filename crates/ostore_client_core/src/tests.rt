//! A client over a server in one thread.

ghost use Rattle.std.specs.Prelude.{◌≡◌, ◌<◌, ◌≤◌, ℕ, true, [], length, IfOk, OnOk};
ghost use Rattle.ostore_schema_layout.specs.Spells.{Spells};
ghost use Rattle.ostore_graph_model.specs.declared.commands.Script.{Script};
ghost use Rattle.ostore_page_service.specs.Holding.{IsEmpty};
ghost use Rattle.ostore_page_service.specs.Servers.{side_of, opened_of, Serves};
ghost use Rattle.ostore_page_service.specs.Told.{SameRecords, StillServes};
ghost use Rattle.ostore_client_core.specs.Attempts.{Attempts};
ghost use Rattle.ostore_client_core.specs.Calls.{SameClient};
ghost use Rattle.ostore_client_core.specs.Clients.{IsIdle, IsOwn};
ghost use Rattle.ostore_client_core.specs.inside.Nothing.{MakesNothing, NamesNothing};

use super::*;
use ostore_address_space::{Low, Mapper};
use ostore_base::{ClientNo, ListOf, MemDisk, OutOfMemory, PageNo};
use ostore_graph_model::{Entry, fresh_pages_are_empty};
use ostore_page_service::{Busy, PageClaims, PageService, SeqServer};
use ostore_page_tags::fresh_pages;
use ostore_redo_journal::counting::Journal;
use ostore_schema_layout::{Schema, parse_schema};
use std::alloc::Global;
use std::test::Fail;

type Server = SeqServer<GraphKind, MemDisk>;

const NO_TYPES: &[u8] = b"";

/// A server of a fresh database.
fn fresh_server(alloc: Global, text: &[u8], schema: &Schema) -> Result<Server, OutOfMemory>
    requires { Spells text.now schema.now }
    ensures pages { IfOk result (λ server. 11 ≤ length (opened_of server)) }
    ensures empty { IfOk result (λ server. (c : ℕ) → IsEmpty (side_of server c)) }
    ensures served { IfOk result
        (λ server. (s : Script) → s.schema ≡ schema.now → Serves server s) }
{
    let _schema = schema;
    let pages = fresh_pages(alloc, text, 11)?;
    fresh_pages_are_empty();
    let disk = MemDisk::new(Vec::new(alloc), Vec::new(alloc));
    match SeqServer::new(alloc, pages, Journal::fresh(disk)) {
        Ok(server) => Ok(server),
        Err(_) => Err(OutOfMemory),
    }
}

/// Brings a page into use in an attempt of its own, which is aborted, and counts the fetches so far.
fn visit<M: Mapper, S: PageService<GraphKind>>(
    client: &mut Client<'_, M>,
    service: &mut S,
    page: PageNo,
) -> Result<u64, AttemptFault>
    requires own { IsOwn (S.serves service.old) (S.tells service.old) client.old }
    requires idle { IsIdle client.old }
    requires known { 11 ≤ length (S.tells service.old).opened }
    requires low { page.0 < 11 }
    ensures own { IsOwn (S.serves service.new) (S.tells service.new) client.new }
    ensures idle { IsIdle client.new }
    ensures same { SameRecords (S.tells service.old) (S.tells service.new) }
    ensures served { StillServes (S.serves service.old) (S.serves service.new) }
    ensures same_client { SameClient client.old client.new }
{
    if client.begin(service, false).is_err() {
        return Err(AttemptFault::OutOfMemory);
    }
    let entered = client.enter(service, page);
    client.abort(service);
    match entered {
        Ok(_) => Ok(client.fetches()),
        Err(fault) => Err(fault),
    }
}

/// Brings two pages into use.
fn enter_both<M: Mapper, S: PageService<GraphKind>>(
    client: &mut Client<'_, M>,
    service: &mut S,
    first: PageNo,
    second: PageNo,
) -> Result<(), AttemptFault>
    requires runs { Attempts (S.serves service.old) (S.tells service.old) client.old }
    requires known { 11 ≤ length (S.tells service.old).opened }
    requires low { first.0 < 11 }
    requires second { second.0 < 11 }
    ensures own { IsOwn (S.serves service.new) (S.tells service.new) client.new }
{
    if let Err(fault) = client.enter(service, first) {
        return Err(fault);
    }
    match client.enter(service, second) {
        Ok(_) => Ok(()),
        Err(fault) => Err(fault),
    }
}

/// Brings two pages into use in one attempt, which is aborted.
fn visit_both<M: Mapper, S: PageService<GraphKind>>(
    client: &mut Client<'_, M>,
    service: &mut S,
    first: PageNo,
    second: PageNo,
) -> Result<(), AttemptFault>
    requires own { IsOwn (S.serves service.old) (S.tells service.old) client.old }
    requires idle { IsIdle client.old }
    requires known { 11 ≤ length (S.tells service.old).opened }
    requires low { first.0 < 11 }
    requires second { second.0 < 11 }
{
    if client.begin(service, false).is_err() {
        return Err(AttemptFault::OutOfMemory);
    }
    let entered = enter_both(client, service, first, second);
    client.abort(service);
    entered
}

/// Brings a page into use in an attempt that owns it, and writes bytes at its first address. Says whether they are then
/// read there.
fn own_and_write<M: Mapper, S: PageService<GraphKind>>(
    client: &mut Client<'_, M>,
    service: &mut S,
    page: PageNo,
    bytes: &[u8],
) -> Result<bool, AttemptFault>
    requires own { IsOwn (S.serves service.old) (S.tells service.old) client.old }
    requires idle { IsIdle client.old }
    requires writer { (S.tells service.old).may_write ≡ true }
    requires known { 11 ≤ length (S.tells service.old).opened }
    requires low { page.0 < 11 }
    requires short { length bytes.now ≤ 8 }
{
    if client.begin(service, true).is_err() {
        return Err(AttemptFault::OutOfMemory);
    }
    let address = match client.enter(service, page) {
        Ok(address) => address,
        Err(fault) => return Err(fault),
    };
    if let Err(fault) = client.own(service, address) {
        return Err(fault);
    }
    client.store(address, bytes);
    match client.deref(address, bytes.len()) {
        Some(read) => Ok(read == bytes),
        None => Ok(false),
    }
}

/// Brings a page into use in an attempt that owns it, and writes nothing.
fn own_alone<M: Mapper, S: PageService<GraphKind>>(
    client: &mut Client<'_, M>,
    service: &mut S,
    page: PageNo,
) -> Result<(), AttemptFault>
    requires own { IsOwn (S.serves service.old) (S.tells service.old) client.old }
    requires idle { IsIdle client.old }
    requires writer { (S.tells service.old).may_write ≡ true }
    requires known { 11 ≤ length (S.tells service.old).opened }
    requires low { page.0 < 11 }
    ensures runs { OnOk result
        (Attempts (S.serves service.new) (S.tells service.new) client.new) }
    ensures nothing { OnOk result
        (MakesNothing (S.serves service.new) (S.tells service.new) client.new) }
    ensures room { OnOk result (0 < (S.tells service.new).mine.room) }
    ensures same { SameRecords (S.tells service.old) (S.tells service.new) }
    ensures served { StillServes (S.serves service.old) (S.serves service.new) }
    ensures same_client { SameClient client.old client.new }
{
    if client.begin(service, true).is_err() {
        return Err(AttemptFault::OutOfMemory);
    }
    let address = match client.enter(service, page) {
        Ok(address) => address,
        Err(fault) => return Err(fault),
    };
    client.own(service, address)
}

/// Brings a page into use in one attempt, and then by its address in another one. Says whether it was read there in
/// the second attempt, and not between the two.
fn come_back<M: Mapper, S: PageService<GraphKind>>(
    client: &mut Client<'_, M>,
    service: &mut S,
    page: PageNo,
) -> Result<bool, AttemptFault>
    requires own { IsOwn (S.serves service.old) (S.tells service.old) client.old }
    requires idle { IsIdle client.old }
    requires known { 11 ≤ length (S.tells service.old).opened }
    requires low { page.0 < 11 }
{
    if client.begin(service, false).is_err() {
        return Err(AttemptFault::OutOfMemory);
    }
    let entered = client.enter(service, page);
    client.abort(service);
    let address = match entered {
        Ok(address) => address,
        Err(fault) => return Err(fault),
    };
    let away = client.deref(address, 8).is_none();
    if client.begin(service, false).is_err() {
        return Err(AttemptFault::OutOfMemory);
    }
    if let Err(fault) = client.fault(service, address) {
        return Err(fault);
    }
    Ok(away && client.deref(address, 8).is_some())
}

/// Commits a transaction without commands, of which the script has one that the entry names.
fn commit_nothing<M: Mapper, S: PageService<GraphKind>>(
    client: &mut Client<'_, M>,
    service: &mut S,
    turn: S::Turn,
    entry: Entry,
) -> Result<u64, AttemptFault>
    requires own { IsOwn (S.serves service.old) (S.tells service.old) client.old }
    requires idle { IsIdle client.old }
    requires writer { (S.tells service.old).may_write ≡ true }
    requires mine { entry.client.0 ≡ (S.tells service.old).client }
    requires first { (S.tells service.old).mine.records ≡ [] }
    requires none { entry.replies ≡ [] }
    requires script { (script : Script) × S.serves service.old script
        × (script.schema ≡ client.old.schema) × NamesNothing script entry }
{
    if client.begin(service, entry.update).is_err() {
        return Err(AttemptFault::OutOfMemory);
    }
    client.finish(service, turn, entry)
}

#[test]
fn a_cache_of_two_pages_meets_three_in_turn(rt: HostRuntime) -> Result<(), Fail> {
    let alloc = rt.alloc();
    let schema = parse_schema(alloc, NO_TYPES)?;
    let mut server = fresh_server(alloc, NO_TYPES, &schema)?;
    let mut client = Client::new(alloc, &schema, &Low, ClientNo(0), 2, 12)?;
    let mut service = server.as_client(ClientNo(0));
    client.fresh_is_own(&service);
    assert_eq!(rt; visit(&mut client, &mut service, PageNo(8))?, 1);
    assert_eq!(rt; visit(&mut client, &mut service, PageNo(9))?, 2);
    assert_eq!(rt; visit(&mut client, &mut service, PageNo(8))?, 2);
    assert_eq!(rt; visit(&mut client, &mut service, PageNo(10))?, 3);
    assert_eq!(rt; visit(&mut client, &mut service, PageNo(8))?, 3);
    assert_eq!(rt; visit(&mut client, &mut service, PageNo(9))?, 4);
    Ok(())
}

#[test]
fn a_full_cache_claims_nothing(rt: HostRuntime) -> Result<(), Fail> {
    let alloc = rt.alloc();
    let schema = parse_schema(alloc, NO_TYPES)?;
    let mut server = fresh_server(alloc, NO_TYPES, &schema)?;
    let mut client = Client::new(alloc, &schema, &Low, ClientNo(0), 1, 12)?;
    let mut service = server.as_client(ClientNo(0));
    client.fresh_is_own(&service);
    let full = AttemptFault::CacheFull {
        used: 1,
        capacity: 1,
    };
    assert_eq!(rt;
        visit_both(&mut client, &mut service, PageNo(9), PageNo(10)),
        Err(full)
    );
    assert_eq!(rt; client.fetches(), 1);
    Ok(())
}

#[test]
fn a_page_without_a_frame_is_given_up(rt: HostRuntime) -> Result<(), Fail> {
    let alloc = rt.alloc();
    let schema = parse_schema(alloc, NO_TYPES)?;
    let mut server = fresh_server(alloc, NO_TYPES, &schema)?;
    let mut client = Client::new(alloc, &schema, &Low, ClientNo(0), 4, 1)?;
    let mut service = server.as_client(ClientNo(0));
    client.fresh_is_own(&service);
    let full = AttemptFault::SpaceFull { frames: 1 };
    assert_eq!(rt;
        visit_both(&mut client, &mut service, PageNo(9), PageNo(10)),
        Err(full)
    );
    assert_eq!(rt; client.fetches(), 2);
    Ok(())
}

#[test]
fn a_retained_page_comes_back_by_its_address(rt: HostRuntime) -> Result<(), Fail> {
    let alloc = rt.alloc();
    let schema = parse_schema(alloc, NO_TYPES)?;
    let mut server = fresh_server(alloc, NO_TYPES, &schema)?;
    let mut client = Client::new(alloc, &schema, &Low, ClientNo(0), 4, 12)?;
    let mut service = server.as_client(ClientNo(0));
    client.fresh_is_own(&service);
    assert!(rt; come_back(&mut client, &mut service, PageNo(10))?);
    assert_eq!(rt; client.fetches(), 1);
    Ok(())
}

#[test]
fn a_transaction_without_commands_has_a_number(rt: HostRuntime) -> Result<(), Fail> {
    let alloc = rt.alloc();
    let schema = parse_schema(alloc, NO_TYPES)?;
    let mut server = fresh_server(alloc, NO_TYPES, &schema)?;
    let mut client = Client::new(alloc, &schema, &Low, ClientNo(0), 4, 12)?;
    let mut service = server.as_client(ClientNo(0));
    client.fresh_is_own(&service);
    let entry = Entry {
        client: ClientNo(0),
        ordinal: 1,
        update: true,
        replies: ListOf::new(alloc),
    };
    assert_eq!(rt; commit_nothing(&mut client, &mut service, (), entry), Ok(1));
    Ok(())
}

#[test]
fn a_page_that_another_owns_is_busy_until_its_commit(rt: HostRuntime) -> Result<(), Fail> {
    let alloc = rt.alloc();
    let schema = parse_schema(alloc, NO_TYPES)?;
    let mut server = fresh_server(alloc, NO_TYPES, &schema)?;
    let mut owner = Client::new(alloc, &schema, &Low, ClientNo(0), 4, 12)?;
    let mut reader = Client::new(alloc, &schema, &Low, ClientNo(1), 4, 12)?;
    let entry = Entry {
        client: ClientNo(0),
        ordinal: 1,
        update: true,
        replies: ListOf::new(alloc),
    };
    let mut owners = server.as_client(ClientNo(0));
    owner.fresh_is_own(&owners);
    own_alone(&mut owner, &mut owners, PageNo(10))?;
    let mut readers = server.as_client(ClientNo(1));
    reader.fresh_is_own(&readers);
    // Client 0 uses, keeps and owns the page.
    let busy = Busy {
        page: PageNo(10),
        seen: 0x1_0001_0001,
        found: 0x1_0001_0001,
    };
    assert_eq!(rt;
        visit(&mut reader, &mut readers, PageNo(10)),
        Err(AttemptFault::Busy(busy))
    );
    let mut owners_again = server.as_client(ClientNo(0));
    let number = owner.finish(&mut owners_again, (), entry)?;
    assert_eq!(rt; number, 1);
    let mut readers_again = server.as_client(ClientNo(1));
    assert_eq!(rt; visit(&mut reader, &mut readers_again, PageNo(10)), Ok(1));
    Ok(())
}

#[test]
fn what_an_owner_stores_is_read_at_its_address(rt: HostRuntime) -> Result<(), Fail> {
    let alloc = rt.alloc();
    let schema = parse_schema(alloc, NO_TYPES)?;
    let mut server = fresh_server(alloc, NO_TYPES, &schema)?;
    let mut client = Client::new(alloc, &schema, &Low, ClientNo(0), 4, 12)?;
    let mut service = server.as_client(ClientNo(0));
    client.fresh_is_own(&service);
    assert!(rt; own_and_write(&mut client, &mut service, PageNo(8), b"stored")?);
    assert!(rt; client.is_in_use(PageNo(8)));
    Ok(())
}
