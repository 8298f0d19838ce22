//! The lines of a transaction that an attempt executes on its client's pages, one by one.

ghost use Rattle.std.specs.Prelude.{◌≡◌, ◌<◌, ◌≤◌, ℕ, ⊤, true, List, None, [], length, IfErr, OnErr, OnOk};
ghost use Rattle.std.specs.List.{AllByRecursion};
ghost use Rattle.ostore_schema_layout.specs.Lawful.{IsLawful};
ghost use Rattle.ostore_client_core.specs.Clients.{IsIdle, IsOwn};
ghost use Rattle.ostore_client_core.specs.Attempts.{Attempts};
ghost use Rattle.ostore_client_core.specs.Calls.{SameClient};
ghost use Rattle.ostore_object_ops.specs.Progresses.{replies_of, bound_in};
ghost use Rattle.ostore_object_ops.specs.Suits.{IsOfInts, IsBuilt};
ghost use Rattle.ostore_object_ops.specs.Stops.{Stopped, IfNoSpace};
ghost use Rattle.ostore_object_ops.specs.Claiming.{BringsUsed, OwnsWritten, BringsWanted};
ghost use Rattle.ostore_client_access.specs.Accesses.{access_held, Passes, Fails, Stays};
ghost use Rattle.ostore_client_access.specs.Attempts.{HasRunLines, AddsReply, FindsNoPlace, FoundNoPlace, LacksOnEach, IfCacheFull, CrowdsOnEach, HasMade};

use crate::access::Access;
use ostore_address_space::Mapper;
use ostore_client_core::{AttemptFault, Client, GraphKind};
use ostore_graph_model::Txn;
use ostore_object_ops::{Progress, Stop, run_line};
use ostore_page_service::{PageClaims, PageService};
use ostore_schema_layout::Schema;

/// Executes the next line of a transaction, as [`execute_line`] does.
pub(crate) fn execute_line_on<M: Mapper, S: PageService<GraphKind>>(
    access: &mut Access<'_, '_, M, S>,
    schema: &Schema,
    txn: &Txn,
    progress: &mut Progress,
) -> Result<(), Stop<AttemptFault>>
    requires kind { access.old.updates ≡ txn.now.update }
    requires lines { HasRunLines (S.serves access.old.service.now) (S.tells access.old.service.now)
        access.old.client.now txn.now progress.old }
    requires left { length (replies_of progress.old) < length txn.now.commands }
    requires schema { access.old.client.now.schema ≡ schema.now }
    requires lawful { IsLawful schema.now }
    requires ints { IsOfInts schema.now }
    requires writer { txn.now.update ≡ true → (S.tells access.old.service.now).may_write ≡ true }
    requires built { AllByRecursion IsBuilt txn.now.commands }
    ensures lines { OnOk result (HasRunLines (S.serves access.new.service.now)
        (S.tells access.new.service.now) access.new.client.now txn.now progress.new) }
    ensures more { OnOk result (AddsReply (replies_of progress.old) (replies_of progress.new)) }
    ensures kept { OnErr result (replies_of progress.new ≡ replies_of progress.old) }
    ensures passes { OnOk result (Passes txn.now.update (S.serves access.old.service.now)
        (S.serves access.new.service.now) (S.tells access.old.service.now)
        (S.tells access.new.service.now) access.old.client.now access.new.client.now) }
    ensures own { IsOwn (S.serves access.new.service.now) (S.tells access.new.service.now)
        access.new.client.now }
    ensures stops { IfErr result (λ stop. Stopped stop (λ fault. Fails txn.now.update fault
        (S.serves access.old.service.now) (S.serves access.new.service.now)
        (S.tells access.old.service.now) (S.tells access.new.service.now)
        access.old.client.now access.new.client.now)
        (Passes txn.now.update (S.serves access.old.service.now)
        (S.serves access.new.service.now) (S.tells access.old.service.now)
        (S.tells access.new.service.now) access.old.client.now access.new.client.now)) }
    ensures space { IfErr result (IfNoSpace (λ no. LacksOnEach (S.serves access.new.service.now)
        (S.tells access.new.service.now) access.new.client.now txn.now)) }
    ensures crowds { IfErr result (IfCacheFull (CrowdsOnEach (S.serves access.new.service.now)
        (S.tells access.new.service.now) access.new.client.now txn.now)) }
    ensures updates { IfErr result (IfNoSpace (λ no. txn.now.update ≡ true)) }
    ensures place { IfErr result (IfNoSpace (FindsNoPlace (S.serves access.new.service.now)
        (S.tells access.new.service.now) access.new.client.now txn.now
        (replies_of progress.old))) }
    ensures names { access.new.client.ghost_name ≡ access.old.client.ghost_name }
    ensures service { access.new.service.ghost_name ≡ access.old.service.ghost_name }
    ensures client { SameClient access.old.client.now access.new.client.now }
    ensures found { IfErr result (IfNoSpace (FoundNoPlace (S.serves access.old.service.now)
        (S.tells access.old.service.now) access.old.client.now txn.now
        (replies_of progress.old))) }
    ensures brings { OnOk result (BringsUsed txn.now progress.old
        (access_held (S.serves access.old.service.now) (S.tells access.old.service.now)
        access.old.client.now)
        (access_held (S.serves access.new.service.now) (S.tells access.new.service.now)
        access.new.client.now)) }
    ensures owns { OnOk result (OwnsWritten txn.now progress.old
        (access_held (S.serves access.old.service.now) (S.tells access.old.service.now)
        access.old.client.now)
        (access_held (S.serves access.new.service.now) (S.tells access.new.service.now)
        access.new.client.now)) }
    ensures wants { IfErr result (λ stop. Stopped stop (λ fault. Stays fault
        → BringsWanted txn.now progress.old
        (access_held (S.serves access.old.service.now) (S.tells access.old.service.now)
        access.old.client.now)
        (access_held (S.serves access.new.service.now) (S.tells access.new.service.now)
        access.new.client.now)) ⊤) }
{
    let done = run_line(access, schema, txn, progress);
    access.client.pages_differ();
    done
}

/// Executes the next line of a transaction in an attempt whose earlier lines have run, and adds its reply to the
/// progress. The schema is the client's, and the commands are of those that run. NoSpace comes where the object of an
/// update's line finds no place, before the call and behind it, and only where fewer pages were free than the
/// transaction may take. CacheFull comes only where the cache may have fewer pages than 2, the data pages and those
/// that the transaction may take, together. A line that was executed brings into use only the pages that its command
/// uses, and owns only those that it writes: `get` none, `set` the object's page. One that a full cache stopped brings
/// into use only those that the command wanted. Where it stops, the replies stay, and the attempt is to be aborted.
pub fn execute_line<M: Mapper, S: PageService<GraphKind>>(
    client: &mut Client<'_, M>,
    service: &mut S,
    schema: &Schema,
    txn: &Txn,
    progress: &mut Progress,
) -> Result<(), Stop<AttemptFault>>
    requires lines { HasRunLines (S.serves service.old) (S.tells service.old) client.old txn.now
        progress.old }
    requires left { length (replies_of progress.old) < length txn.now.commands }
    requires schema { client.old.schema ≡ schema.now }
    requires lawful { IsLawful schema.now }
    requires ints { IsOfInts schema.now }
    requires writer { txn.now.update ≡ true → (S.tells service.old).may_write ≡ true }
    requires built { AllByRecursion IsBuilt txn.now.commands }
    ensures lines { OnOk result (HasRunLines (S.serves service.new) (S.tells service.new) client.new
        txn.now progress.new) }
    ensures more { OnOk result (AddsReply (replies_of progress.old) (replies_of progress.new)) }
    ensures kept { OnErr result (replies_of progress.new ≡ replies_of progress.old) }
    ensures passes { OnOk result (Passes txn.now.update (S.serves service.old)
        (S.serves service.new) (S.tells service.old) (S.tells service.new) client.old client.new) }
    ensures own { IsOwn (S.serves service.new) (S.tells service.new) client.new }
    ensures stops { IfErr result (λ stop. Stopped stop (λ fault. Fails txn.now.update fault
        (S.serves service.old) (S.serves service.new) (S.tells service.old)
        (S.tells service.new) client.old client.new)
        (Passes txn.now.update (S.serves service.old) (S.serves service.new)
        (S.tells service.old) (S.tells service.new) client.old client.new)) }
    ensures space { IfErr result (IfNoSpace (λ no. LacksOnEach (S.serves service.new)
        (S.tells service.new) client.new txn.now)) }
    ensures crowds { IfErr result (IfCacheFull (CrowdsOnEach (S.serves service.new)
        (S.tells service.new) client.new txn.now)) }
    ensures updates { IfErr result (IfNoSpace (λ no. txn.now.update ≡ true)) }
    ensures place { IfErr result (IfNoSpace (FindsNoPlace (S.serves service.new)
        (S.tells service.new) client.new txn.now (replies_of progress.old))) }
    ensures client { SameClient client.old client.new }
    ensures found { IfErr result (IfNoSpace (FoundNoPlace (S.serves service.old)
        (S.tells service.old) client.old txn.now (replies_of progress.old))) }
    ensures brings { OnOk result (BringsUsed txn.now progress.old
        (access_held (S.serves service.old) (S.tells service.old) client.old)
        (access_held (S.serves service.new) (S.tells service.new) client.new)) }
    ensures owns { OnOk result (OwnsWritten txn.now progress.old
        (access_held (S.serves service.old) (S.tells service.old) client.old)
        (access_held (S.serves service.new) (S.tells service.new) client.new)) }
    ensures wants { IfErr result (λ stop. Stopped stop (λ fault. Stays fault
        → BringsWanted txn.now progress.old
        (access_held (S.serves service.old) (S.tells service.old) client.old)
        (access_held (S.serves service.new) (S.tells service.new) client.new)) ⊤) }
{
    let mut access = Access {
        client,
        service,
        updates: txn.update,
    };
    execute_line_on(&mut access, schema, txn, progress)
}

/// A law: where an attempt has begun and no page is in use, the lines before the first one have run.
pub fn no_line_has_run<M: Mapper, S: PageClaims<GraphKind>>(
    client: &Client<'_, M>,
    service: &S,
    txn: &Txn,
    progress: &Progress,
)
    requires runs { Attempts (S.serves service.now) (S.tells service.now) client.now }
    requires idle { IsIdle client.now }
    requires replies { replies_of progress.now ≡ [] }
    requires vars { (variable : List ℕ) → bound_in progress.now variable ≡ None }
    ensures { HasRunLines (S.serves service.now) (S.tells service.now) client.now txn.now
        progress.now }
{}

/// A law: where all lines have run, the replies are the transaction's, and what the attempt has made is what the
/// transaction leaves.
pub fn lines_have_made<M: Mapper, S: PageClaims<GraphKind>>(
    client: &Client<'_, M>,
    service: &S,
    txn: &Txn,
    progress: &Progress,
)
    requires lines { HasRunLines (S.serves service.now) (S.tells service.now) client.now txn.now
        progress.now }
    requires end { length txn.now.commands ≤ length (replies_of progress.now) }
    ensures { HasMade (S.serves service.now) (S.tells service.now) client.now txn.now
        (replies_of progress.now) }
{}
