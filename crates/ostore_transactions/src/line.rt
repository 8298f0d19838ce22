//! The lines of a transaction.

ghost use Rattle.std.specs.Prelude.{◌≡◌, true, IfOk, IfErr};
ghost use Rattle.std.specs.List.{AllByRecursion};
ghost use Rattle.ostore_schema_layout.specs.Lawful.{IsLawful};
ghost use Rattle.ostore_client_core.specs.Clients.{IsOwn};
ghost use Rattle.ostore_client_core.specs.Calls.{SameClient};
ghost use Rattle.ostore_object_ops.specs.Suits.{IsOfInts, IsBuilt};
ghost use Rattle.ostore_transactions.specs.Attempts.{line_at, HasTxn, IsAt};
ghost use Rattle.ostore_transactions.specs.Lines.{RepliesGoOn, IsLine, HasFailed};
ghost use Rattle.ostore_transactions.specs.Retained.{RetainsBy, WasAborted};

use crate::attempt::Attempt;
use crate::steps::{begin_attempt, end_attempt, run_next};
use ostore_address_space::Mapper;
use ostore_client_core::{AttemptFault, Client, GraphKind};
use ostore_graph_model::{Replies, Txn};
use ostore_page_service::{PageClaims, PageService};
use ostore_schema_layout::Schema;
use std::alloc::Global;

/// What a line of a transaction gave.
#[derive(Debug, Drop)]
pub enum Line {
    /// It wasn't the last one.
    Going,
    /// The last line committed the transaction with this number: that of the update, or for a read that of the last update.
    Committed { number: u64, replies: Replies },
    /// The last line aborted the transaction, as its script says.
    Aborted,
}

/// Executes the next line of a client's transaction: the line that begins it, each of its commands, and the line that ends
/// it, which commits, or aborts where the script says so. The transaction is that which a script that is served has for the
/// client and the ordinal, above those of the client's records; its commands are of those that run, and the schema is the
/// client's. Going comes exactly where the line wasn't the last one; the attempt has then the replies that it had, and that
/// of the line where this was a command's. Those that are committed are the attempt's. After every other answer no page is
/// in use, and the attempt is before its first line; the copies of pages that were in use are kept exactly where the
/// service allows it, but for those that an aborted attempt owned. A fault has its cause: Busy, where another client owns
/// the page, or uses one that is to be owned; NoSpace, where fewer pages are free than the transaction may take, and the
/// object of its command finds no place; CacheFull and SpaceFull, where the cache or the frames are fewer than the pages of
/// the database, and CacheFull only where the cache has, besides, fewer than 2 pages, the data pages and those that the
/// transaction may take together; Commit, where the commit of an update failed; and want of memory. Where the cache or the
/// frames were full, each of them was in use or reserved before the attempt was aborted.
pub fn run_line<M: Mapper, S: PageService<GraphKind>>(
    alloc: Global,
    attempt: &mut Attempt,
    client: &mut Client<'_, M>,
    service: &mut S,
    turn: S::Turn,
    schema: &Schema,
    txn: &Txn,
    ordinal: u32,
) -> Result<Line, AttemptFault>
    requires own { IsOwn (S.serves service.old) (S.tells service.old) client.old }
    requires at { IsAt (S.serves service.old) (S.tells service.old) client.old txn.now
        attempt.old }
    requires txn { HasTxn (S.serves service.old) (S.tells service.old) client.old txn.now ordinal }
    requires schema { client.old.schema ≡ schema.now }
    requires lawful { IsLawful schema.now }
    requires ints { IsOfInts schema.now }
    requires writer { txn.now.update ≡ true → (S.tells service.old).may_write ≡ true }
    requires built { AllByRecursion IsBuilt txn.now.commands }
    ensures line { IfOk result (IsLine (S.serves service.old) (S.serves service.new)
        (S.tells service.old) (S.tells service.new) client.old client.new txn.now
        (line_at attempt.old) attempt.new ordinal) }
    ensures replies { IfOk result (RepliesGoOn attempt.old.progress attempt.new.progress) }
    ensures failed { IfErr result (HasFailed (S.serves service.old) (S.serves service.new)
        (S.tells service.old) (S.tells service.new) client.old client.new txn.now
        (line_at attempt.old) attempt.new) }
    ensures retained { IfOk result (RetainsBy S.releases (S.tells service.old)
        (S.tells service.new) client.old) }
    ensures aborted { IfErr result (WasAborted S.releases (S.tells service.old)
        (S.tells service.new) client.old client.new txn.now
        (line_at attempt.old)) }
    ensures own { IsOwn (S.serves service.new) (S.tells service.new) client.new }
    ensures at { IsAt (S.serves service.new) (S.tells service.new) client.new txn.now
        attempt.new }
    ensures client { SameClient client.old client.new }
{
    let Some(progress) = attempt.progress.take() else {
        return match begin_attempt(alloc, attempt, client, service, txn) {
            Ok(()) => Ok(Line::Going),
            Err(fault) => Err(fault),
        };
    };
    if progress.is_at_end(txn) {
        return end_attempt(client, service, turn, txn, ordinal, progress, attempt);
    }
    match run_next(attempt, client, service, schema, txn, progress) {
        Ok(()) => Ok(Line::Going),
        Err(fault) => Err(fault),
    }
}
