//! The kinds of line of a transaction.

ghost use Rattle.std.specs.Prelude.{◌≡◌, ◌+◌, ◌<◌, ◌≤◌, true, false, length, Some, None, IfOk, IfErr, OnOk};
ghost use Rattle.std.specs.List.{AllByRecursion};
ghost use Rattle.ostore_schema_layout.specs.Lawful.{IsLawful};
ghost use Rattle.ostore_client_core.specs.declared.release.Ending.TheVariants.{Aborted};
ghost use Rattle.ostore_client_core.specs.Clients.{IsIdle, IsOwn};
ghost use Rattle.ostore_client_core.specs.Calls.{SameClient};
ghost use Rattle.ostore_object_ops.specs.Progresses.{replies_of};
ghost use Rattle.ostore_object_ops.specs.Suits.{IsOfInts, IsBuilt};
ghost use Rattle.ostore_transactions.specs.Attempts.{last_line, replies_in, HasTxn, IsAlong, IsAt};
ghost use Rattle.ostore_transactions.specs.Lines.{AddsOwnReply, RepliesGoOn, IsGoing, IsLine, IsAborted, HasFailed};
ghost use Rattle.ostore_transactions.specs.Retained.{Retains, RetainsBy, WasAborted};
ghost use Rattle.ostore_transactions.specs.inside.Stopping.{fault_by};

use crate::attempt::Attempt;
use crate::copies::copied_replies;
use crate::line::Line;
use ostore_address_space::Mapper;
use ostore_client_access::{execute_line, lines_have_made, made_fits, no_line_has_run};
use ostore_client_core::{AttemptFault, Client, GraphKind};
use ostore_graph_model::{Entry, Txn};
use ostore_object_ops::{Progress, Stop};
use ostore_page_service::{PageClaims, PageService};
use ostore_schema_layout::Schema;
use std::alloc::Global;

/// The line that begins an attempt.
pub(crate) fn begin_attempt<M: Mapper, S: PageService<GraphKind>>(
    alloc: Global,
    attempt: &mut Attempt,
    client: &mut Client<'_, M>,
    service: &mut S,
    txn: &Txn,
) -> Result<(), AttemptFault>
    requires own { IsOwn (S.serves service.old) (S.tells service.old) client.old }
    requires idle { IsIdle client.old }
    requires first { attempt.old.progress ≡ None }
    requires writer { txn.now.update ≡ true → (S.tells service.old).may_write ≡ true }
    ensures going { OnOk result (IsGoing (S.serves service.old) (S.serves service.new)
        (S.tells service.old) (S.tells service.new) client.old client.new txn.now 0 attempt.new) }
    ensures replies { OnOk result (AddsOwnReply None (replies_in attempt.new.progress)) }
    ensures failed { IfErr result (HasFailed (S.serves service.old) (S.serves service.new)
        (S.tells service.old) (S.tells service.new) client.old client.new txn.now 0 attempt.new) }
    ensures aborted { IfErr result (WasAborted S.releases (S.tells service.old)
        (S.tells service.new) client.old client.new txn.now 0) }
    ensures own { IsOwn (S.serves service.new) (S.tells service.new) client.new }
    ensures at { IsAt (S.serves service.new) (S.tells service.new) client.new txn.now
        attempt.new }
    ensures client { SameClient client.old client.new }
{
    match client.begin(service, txn.update) {
        Ok(()) => {}
        Err(_) => return Err(AttemptFault::OutOfMemory),
    }
    let progress = Progress::new(alloc);
    no_line_has_run(client, service, txn, &progress);
    attempt.progress = Some(progress);
    Ok(())
}

/// The fault with which an attempt stops.
fn fault_by(stop: Stop<AttemptFault>) -> AttemptFault
    ensures { result ≡ fault_by stop }
{
    match stop {
        Stop::Fault(fault) => fault,
        Stop::NoSpace(lack) => AttemptFault::NoSpace {
            segment: lack.segment,
            need: lack.need,
        },
        Stop::OutOfMemory => AttemptFault::OutOfMemory,
    }
}

/// The line of a command. Where it fails, the attempt is aborted.
pub(crate) fn run_next<M: Mapper, S: PageService<GraphKind>>(
    attempt: &mut Attempt,
    client: &mut Client<'_, M>,
    service: &mut S,
    schema: &Schema,
    txn: &Txn,
    progress: Progress,
) -> Result<(), AttemptFault>
    requires first { attempt.old.progress ≡ None }
    requires along { IsAlong (S.serves service.old) (S.tells service.old) client.old txn.now
        progress }
    requires left { length (replies_of progress) < length txn.now.commands }
    requires schema { client.old.schema ≡ schema.now }
    requires lawful { IsLawful schema.now }
    requires ints { IsOfInts schema.now }
    requires writer { txn.now.update ≡ true → (S.tells service.old).may_write ≡ true }
    requires built { AllByRecursion IsBuilt txn.now.commands }
    ensures going { OnOk result (IsGoing (S.serves service.old) (S.serves service.new)
        (S.tells service.old) (S.tells service.new) client.old client.new txn.now
        (length (replies_of progress) + 1) attempt.new) }
    ensures replies { OnOk result (AddsOwnReply (Some progress)
        (replies_in attempt.new.progress)) }
    ensures failed { IfErr result (HasFailed (S.serves service.old) (S.serves service.new)
        (S.tells service.old) (S.tells service.new) client.old client.new txn.now
        (length (replies_of progress) + 1) attempt.new) }
    ensures aborted { IfErr result (WasAborted S.releases (S.tells service.old)
        (S.tells service.new) client.old client.new txn.now
        (length (replies_of progress) + 1)) }
    ensures own { IsOwn (S.serves service.new) (S.tells service.new) client.new }
    ensures at { IsAt (S.serves service.new) (S.tells service.new) client.new txn.now
        attempt.new }
    ensures client { SameClient client.old client.new }
{
    let mut progress = progress;
    match execute_line(client, service, schema, txn, &mut progress) {
        Ok(()) => {}
        Err(stop) => {
            service.holds_reached();
            client.abort(service);
            return Err(fault_by(stop));
        }
    }
    attempt.progress = Some(progress);
    Ok(())
}

/// The line that aborts a transaction of which each command has a reply, as its script says.
fn abort_attempt<M: Mapper, S: PageService<GraphKind>>(
    client: &mut Client<'_, M>,
    service: &mut S,
    txn: &Txn,
    progress: &Progress,
    attempt: &Attempt,
)
    requires own { IsOwn (S.serves service.old) (S.tells service.old) client.old }
    requires first { attempt.now.progress ≡ None }
    requires along { IsAlong (S.serves service.old) (S.tells service.old) client.old txn.now
        progress.now }
    requires end { length txn.now.commands ≤ length (replies_of progress.now) }
    requires aborts { txn.now.aborts ≡ true }
    ensures aborted { IsAborted (S.serves service.old) (S.serves service.new)
        (S.tells service.old) (S.tells service.new) client.old client.new txn.now
        (last_line txn.now) attempt.now }
    ensures retained { Retains S.releases (S.tells service.old) (S.tells service.new) client.old
        Aborted }
    ensures own { IsOwn (S.serves service.new) (S.tells service.new) client.new }
    ensures client { SameClient client.old client.new }
{
    let _attempt = attempt;
    lines_have_made(client, service, txn, progress);
    client.abort(service);
}

/// The line that commits a transaction of which each command has a reply. Where it fails, the attempt is aborted.
fn commit_attempt<M: Mapper, S: PageService<GraphKind>>(
    client: &mut Client<'_, M>,
    service: &mut S,
    turn: S::Turn,
    txn: &Txn,
    ordinal: u32,
    progress: Progress,
    attempt: &Attempt,
) -> Result<Line, AttemptFault>
    requires first { attempt.now.progress ≡ None }
    requires along { IsAlong (S.serves service.old) (S.tells service.old) client.old txn.now
        progress }
    requires end { length txn.now.commands ≤ length (replies_of progress) }
    requires txn { HasTxn (S.serves service.old) (S.tells service.old) client.old txn.now ordinal }
    requires kept { txn.now.aborts ≡ false }
    requires writer { txn.now.update ≡ true → (S.tells service.old).may_write ≡ true }
    ensures line { IfOk result (IsLine (S.serves service.old) (S.serves service.new)
        (S.tells service.old) (S.tells service.new) client.old client.new txn.now
        (last_line txn.now) attempt.now ordinal) }
    ensures replies { IfOk result (RepliesGoOn (Some progress) attempt.now.progress) }
    ensures failed { IfErr result (HasFailed (S.serves service.old) (S.serves service.new)
        (S.tells service.old) (S.tells service.new) client.old client.new txn.now
        (last_line txn.now) attempt.now) }
    ensures retained { IfOk result (RetainsBy S.releases (S.tells service.old)
        (S.tells service.new) client.old) }
    ensures aborted { IfErr result (WasAborted S.releases (S.tells service.old)
        (S.tells service.new) client.old client.new txn.now
        (last_line txn.now)) }
    ensures own { IsOwn (S.serves service.new) (S.tells service.new) client.new }
    ensures client { SameClient client.old client.new }
{
    let _attempt = attempt;
    lines_have_made(client, service, txn, &progress);
    let replies = progress.into_replies();
    let copy = match copied_replies(&replies) {
        Ok(copy) => copy,
        Err(_) => {
            client.abort(service);
            return Err(AttemptFault::OutOfMemory);
        }
    };
    let entry = Entry {
        client: service.client(),
        ordinal,
        update: txn.update,
        replies: copy,
    };
    made_fits(client, service, txn, &entry);
    match client.finish(service, turn, entry) {
        Ok(number) => Ok(Line::Committed { number, replies }),
        Err(fault) => {
            client.abort(service);
            Err(fault)
        }
    }
}

/// The line that ends an attempt: it commits the transaction, or aborts it where its script says so.
pub(crate) fn end_attempt<M: Mapper, S: PageService<GraphKind>>(
    client: &mut Client<'_, M>,
    service: &mut S,
    turn: S::Turn,
    txn: &Txn,
    ordinal: u32,
    progress: Progress,
    attempt: &Attempt,
) -> Result<Line, AttemptFault>
    requires first { attempt.now.progress ≡ None }
    requires along { IsAlong (S.serves service.old) (S.tells service.old) client.old txn.now
        progress }
    requires end { length txn.now.commands ≤ length (replies_of progress) }
    requires txn { HasTxn (S.serves service.old) (S.tells service.old) client.old txn.now ordinal }
    requires writer { txn.now.update ≡ true → (S.tells service.old).may_write ≡ true }
    ensures line { IfOk result (IsLine (S.serves service.old) (S.serves service.new)
        (S.tells service.old) (S.tells service.new) client.old client.new txn.now
        (last_line txn.now) attempt.now ordinal) }
    ensures replies { IfOk result (RepliesGoOn (Some progress) attempt.now.progress) }
    ensures failed { IfErr result (HasFailed (S.serves service.old) (S.serves service.new)
        (S.tells service.old) (S.tells service.new) client.old client.new txn.now
        (last_line txn.now) attempt.now) }
    ensures retained { IfOk result (RetainsBy S.releases (S.tells service.old)
        (S.tells service.new) client.old) }
    ensures aborted { IfErr result (WasAborted S.releases (S.tells service.old)
        (S.tells service.new) client.old client.new txn.now
        (last_line txn.now)) }
    ensures own { IsOwn (S.serves service.new) (S.tells service.new) client.new }
    ensures client { SameClient client.old client.new }
{
    if txn.aborts {
        abort_attempt(client, service, txn, &progress, attempt);
        return Ok(Line::Aborted);
    }
    commit_attempt(client, service, turn, txn, ordinal, progress, attempt)
}
