//! Whole attempts at transactions.

ghost use Rattle.std.specs.Prelude.{◌≡◌, true, IfOk, IfErr};
ghost use Rattle.std.specs.List.{AllByRecursion};
ghost use Rattle.ostore_schema_layout.specs.Lawful.{IsLawful};
ghost use Rattle.ostore_client_core.specs.Clients.{IsIdle, IsOwn};
ghost use Rattle.ostore_client_core.specs.Calls.{SameClient};
ghost use Rattle.ostore_object_ops.specs.Suits.{IsOfInts, IsBuilt};
ghost use Rattle.ostore_transactions.specs.Attempts.{HasTxn};
ghost use Rattle.ostore_transactions.specs.Ends.{IsEnd, HasGivenUp};

use crate::attempt::Attempt;
use crate::line::{Line, run_line};
use ostore_address_space::Mapper;
use ostore_client_core::{AttemptFault, Client, GraphKind};
use ostore_graph_model::{Replies, Txn};
use ostore_page_service::{PageClaims, PageService};
use ostore_schema_layout::Schema;
use std::alloc::Global;

/// How a transaction ended.
#[derive(Debug, Drop)]
pub enum Ended {
    /// It is committed with this number, and its commands have these replies.
    Committed { number: u64, replies: Replies },
    /// Its script aborted it.
    Aborted,
}

/// Executes all lines of a client's transaction, as [`run_line`] does, from no page in use to no page in use. Aborted comes
/// exactly where the script aborts the transaction, after all of its commands have run.
pub fn run_attempt<M: Mapper, S: PageService<GraphKind>>(
    alloc: Global,
    client: &mut Client<'_, M>,
    service: &mut S,
    turn: S::Turn,
    schema: &Schema,
    txn: &Txn,
    ordinal: u32,
) -> Result<Ended, AttemptFault>
    requires own { IsOwn (S.serves service.old) (S.tells service.old) client.old }
    requires idle { IsIdle client.old }
    requires txn { HasTxn (S.serves service.old) (S.tells service.old) client.old txn.now ordinal }
    requires schema { client.old.schema ≡ schema.now }
    requires lawful { IsLawful schema.now }
    requires ints { IsOfInts schema.now }
    requires writer { txn.now.update ≡ true → (S.tells service.old).may_write ≡ true }
    requires built { AllByRecursion IsBuilt txn.now.commands }
    ensures end { IfOk result (IsEnd (S.serves service.old) (S.serves service.new)
        (S.tells service.old) (S.tells service.new) client.old txn.now ordinal) }
    ensures failed { IfErr result (HasGivenUp (S.serves service.old) (S.serves service.new)
        (S.tells service.old) (S.tells service.new) client.old txn.now) }
    ensures own { IsOwn (S.serves service.new) (S.tells service.new) client.new }
    ensures idle { IsIdle client.new }
    ensures client { SameClient client.old client.new }
{
    let mut attempt = Attempt::new();
    for _line in 0..txn.commands.items().len() + 2 {
        let line = match run_line(
            alloc,
            &mut attempt,
            client,
            service,
            turn,
            schema,
            txn,
            ordinal,
        ) {
            Ok(line) => line,
            Err(fault) => return Err(fault),
        };
        match line {
            Line::Going => {}
            Line::Committed { number, replies } => {
                return Ok(Ended::Committed { number, replies });
            }
            Line::Aborted => return Ok(Ended::Aborted),
        }
    }
    unreachable!()
}
