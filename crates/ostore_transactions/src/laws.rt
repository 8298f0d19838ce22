//! Laws of attempts, each the contract of a function that does nothing.

ghost use Rattle.std.specs.Prelude.{◌≡◌};
ghost use Rattle.ostore_page_service.specs.Told.{Undisturbed};
ghost use Rattle.ostore_graph_model.specs.declared.commands.Script.{Script};
ghost use Rattle.ostore_client_core.specs.Clients.{IsOwn};
ghost use Rattle.ostore_transactions.specs.Attempts.{IsAt};

use crate::attempt::Attempt;
use ostore_address_space::Mapper;
use ostore_client_core::{Client, GraphKind};
use ostore_graph_model::Txn;
use ostore_page_service::PageClaims;

/// Calls for other clients leave a client's service its own, and its attempt where it was: of the pages that the
/// service keeps for it some may be gone, and scripts may be served no more, but not all of the client's schema.
pub fn others_leave_attempts<M: Mapper, S: PageClaims<GraphKind>>(
    client: &Client<'_, M>,
    attempt: &Attempt,
    txn: &Txn,
    before: &S,
    after: &S,
)
    requires own { IsOwn (S.serves before.now) (S.tells before.now) client.now }
    requires at { IsAt (S.serves before.now) (S.tells before.now) client.now txn.now attempt.now }
    requires script { (script : Script) × S.serves after.now script
        × (script.schema ≡ client.now.schema) }
    requires mine { Undisturbed (S.tells before.now).mine (S.tells after.now).mine }
    requires client { (S.tells after.now).client ≡ (S.tells before.now).client }
    requires opened { (S.tells after.now).opened ≡ (S.tells before.now).opened }
    ensures own { IsOwn (S.serves after.now) (S.tells after.now) client.now }
    ensures at { IsAt (S.serves after.now) (S.tells after.now) client.now txn.now attempt.now }
{}
