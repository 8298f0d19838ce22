//! Transactions that an attempt executes on its client's pages.

ghost use Rattle.std.specs.Prelude.{◌≡◌, true, IfOk, IfErr, OnOk};
ghost use Rattle.std.specs.List.{AllByRecursion};
ghost use Rattle.ostore_schema_layout.specs.Lawful.{IsLawful};
ghost use Rattle.ostore_client_core.specs.Clients.{IsIdle, IsOwn};
ghost use Rattle.ostore_client_core.specs.Calls.{SameClient};
ghost use Rattle.ostore_client_core.specs.Attempts.{Attempts};
ghost use Rattle.ostore_object_ops.specs.Suits.{IsOfInts, IsBuilt};
ghost use Rattle.ostore_object_ops.specs.Stops.{Stopped, IfNoSpace};
ghost use Rattle.ostore_client_access.specs.Accesses.{Passes, Fails};
ghost use Rattle.ostore_client_core.specs.Commits.{FitsClient};
ghost use Rattle.ostore_client_access.specs.Attempts.{HasMade, IsEntryOf, FitsNamed, LacksOnEach, IfCacheFull, CrowdsOnEach};

use crate::access::Access;
use ostore_address_space::Mapper;
use ostore_client_core::{AttemptFault, Client, GraphKind};
use ostore_graph_model::{Entry, Replies, Txn};
use ostore_object_ops::{Stop, run_transaction};
use ostore_page_service::{PageClaims, PageService};
use ostore_schema_layout::Schema;
use std::alloc::Global;

/// Executes the commands of a transaction, as [`execute`] does.
pub fn execute_on<M: Mapper, S: PageService<GraphKind>>(
    alloc: Global,
    access: &mut Access<'_, '_, M, S>,
    schema: &Schema,
    txn: &Txn,
) -> Result<Replies, Stop<AttemptFault>>
    requires kind { access.old.updates ≡ txn.now.update }
    requires runs { Attempts (S.serves access.old.service.now) (S.tells access.old.service.now)
        access.old.client.now }
    requires idle { IsIdle access.old.client.now }
    requires schema { access.old.client.now.schema ≡ schema.now }
    requires lawful { IsLawful schema.now }
    requires ints { IsOfInts schema.now }
    requires writer { txn.now.update ≡ true → (S.tells access.old.service.now).may_write ≡ true }
    requires built { AllByRecursion IsBuilt txn.now.commands }
    ensures made { IfOk result (HasMade (S.serves access.new.service.now)
        (S.tells access.new.service.now) access.new.client.now txn.now) }
    ensures passes { OnOk result (Passes txn.now.update (S.serves access.old.service.now)
        (S.serves access.new.service.now) (S.tells access.old.service.now)
        (S.tells access.new.service.now) access.old.client.now access.new.client.now) }
    ensures own { IsOwn (S.serves access.new.service.now) (S.tells access.new.service.now)
        access.new.client.now }
    ensures stops { IfErr result (λ stop. Stopped stop (λ fault. Fails txn.now.update fault
        (S.serves access.old.service.now) (S.serves access.new.service.now)
        (S.tells access.old.service.now) (S.tells access.new.service.now)
        access.old.client.now access.new.client.now)
        (Passes txn.now.update (S.serves access.old.service.now)
        (S.serves access.new.service.now) (S.tells access.old.service.now)
        (S.tells access.new.service.now) access.old.client.now access.new.client.now)) }
    ensures space { IfErr result (IfNoSpace (λ no. LacksOnEach (S.serves access.new.service.now)
        (S.tells access.new.service.now) access.new.client.now txn.now)) }
    ensures crowds { IfErr result (IfCacheFull (CrowdsOnEach (S.serves access.new.service.now)
        (S.tells access.new.service.now) access.new.client.now txn.now)) }
    ensures names { access.new.client.ghost_name ≡ access.old.client.ghost_name }
    ensures service { access.new.service.ghost_name ≡ access.old.service.ghost_name }
    ensures client { SameClient access.old.client.now access.new.client.now }
{
    let done = run_transaction(alloc, access, schema, txn);
    access.client.pages_differ();
    done
}

/// Executes the commands of a transaction in an attempt that has begun, and gives its replies. The schema is the
/// client's, and the commands are of those that run. NoSpace comes only where fewer pages were free than the
/// transaction may take, and CacheFull only where the cache may have fewer pages than 2, the data pages and those that
/// the transaction may take, together. Where it stops, the attempt is to be aborted.
pub fn execute<M: Mapper, S: PageService<GraphKind>>(
    alloc: Global,
    client: &mut Client<'_, M>,
    service: &mut S,
    schema: &Schema,
    txn: &Txn,
) -> Result<Replies, Stop<AttemptFault>>
    requires runs { Attempts (S.serves service.old) (S.tells service.old) client.old }
    requires idle { IsIdle client.old }
    requires schema { client.old.schema ≡ schema.now }
    requires lawful { IsLawful schema.now }
    requires ints { IsOfInts schema.now }
    requires writer { txn.now.update ≡ true → (S.tells service.old).may_write ≡ true }
    requires built { AllByRecursion IsBuilt txn.now.commands }
    ensures made { IfOk result (HasMade (S.serves service.new) (S.tells service.new) client.new
        txn.now) }
    ensures passes { OnOk result (Passes txn.now.update (S.serves service.old)
        (S.serves service.new) (S.tells service.old) (S.tells service.new) client.old client.new) }
    ensures own { IsOwn (S.serves service.new) (S.tells service.new) client.new }
    ensures stops { IfErr result (λ stop. Stopped stop (λ fault. Fails txn.now.update fault
        (S.serves service.old) (S.serves service.new) (S.tells service.old)
        (S.tells service.new) client.old client.new)
        (Passes txn.now.update (S.serves service.old) (S.serves service.new)
        (S.tells service.old) (S.tells service.new) client.old client.new)) }
    ensures space { IfErr result (IfNoSpace (λ no. LacksOnEach (S.serves service.new)
        (S.tells service.new) client.new txn.now)) }
    ensures crowds { IfErr result (IfCacheFull (CrowdsOnEach (S.serves service.new)
        (S.tells service.new) client.new txn.now)) }
    ensures client { SameClient client.old client.new }
{
    let mut access = Access {
        client,
        service,
        updates: txn.update,
    };
    execute_on(alloc, &mut access, schema, txn)
}

/// A law: the entry of a transaction fits, where its replies are those of the commands that the attempt has executed.
pub fn made_fits<M: Mapper, S: PageClaims<GraphKind>>(
    client: &Client<'_, M>,
    service: &S,
    txn: &Txn,
    entry: &Entry,
)
    requires made { HasMade (S.serves service.now) (S.tells service.now) client.now txn.now
        entry.now.replies }
    requires entry { IsEntryOf (S.serves service.now) (S.tells service.now) client.now txn.now
        entry.now }
    ensures fits { FitsClient (S.serves service.now) (S.tells service.now) client.now entry.now }
    ensures named { FitsNamed (S.serves service.now) (S.tells service.now) client.now txn.now
        entry.now }
{}
