//! Which jobs are built.

ghost use Rattle.std.specs.Prelude.{◌↔◌, IsTrue};
ghost use Rattle.std.specs.List.{AllByRecursion};
ghost use Rattle.ostore_try_input.specs.Spelling.{IsBuiltTxn, IsBuiltClient, AreBuiltClients};

use ostore_graph_model::Txn;
use ostore_job_text::JobClient;
use ostore_object_ops::are_built;

/// Whether all commands of the transaction run.
fn is_built_txn(txn: &Txn) -> bool
    ensures { IsTrue result ↔ IsBuiltTxn txn.now }
{
    are_built(txn.commands.items())
}

/// Whether all transactions are built.
fn are_built_txns(txns: &[Txn]) -> bool
    ensures { IsTrue result ↔ AllByRecursion IsBuiltTxn txns.now }
{
    txns.iter().all(is_built_txn)
}

/// Whether the client is built.
fn is_built_client(client: &JobClient) -> bool
    ensures { IsTrue result ↔ IsBuiltClient client.now }
{
    are_built_txns(client.txns.items())
}

/// Whether all clients are built.
pub(super) fn are_built_clients(clients: &[JobClient]) -> bool
    ensures { IsTrue result ↔ AreBuiltClients clients.now }
{
    clients.iter().all(is_built_client)
}
