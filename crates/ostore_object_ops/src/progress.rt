//! How far a transaction has come.

ghost use Rattle.std.specs.Prelude.{◌≡◌, ◌↔◌, ◌≤◌, ℕ, List, [], None, IsTrue, length};
ghost use Rattle.ostore_object_ops.specs.Progresses.{replies_of, bound_in};

use crate::vars::Vars;
use ostore_base::ListOf;
use ostore_graph_model::{Replies, Reply, Txn};
use std::alloc::Global;

/// How far one attempt of a transaction has come: its variables, and its replies so far. The next line is the
/// one behind those that have a reply.
#[derive(Drop)]
pub struct Progress {
    pub(crate) vars: Vars,
    pub(crate) replies: Vec<Reply>,
}

impl Progress {
    /// At the first line: no variable is bound, and there is no reply.
    pub fn new(alloc: Global) -> Progress
        ensures replies { replies_of result ≡ [] }
        ensures vars { (variable : List ℕ) → bound_in result variable ≡ None }
    {
        Progress {
            vars: Vars::new(alloc),
            replies: Vec::new(alloc),
        }
    }

    /// Whether each command of a transaction has a reply.
    pub fn is_at_end(&self, txn: &Txn) -> bool
        ensures { IsTrue result ↔ (length txn.now.commands ≤ length (replies_of self.now)) }
    {
        txn.commands.items().len() <= self.replies.len()
    }

    /// The replies.
    pub fn into_replies(self) -> Replies
        ensures { result ≡ replies_of self }
    {
        ListOf::from_vec(self.replies)
    }
}
