//! Committed transactions.

use crate::values::Replies;
use ostore_base::ClientNo;

/// A transaction that ran to its end: whose it is, which of that client's transactions (from 1),
/// whether it is an update, and its replies.
#[derive(Debug, Drop)]
pub struct Entry {
    pub client: ClientNo,
    pub ordinal: u32,
    pub update: bool,
    pub replies: Replies,
}

/// An entry that committed, with its commit number: for an update its own number, for a read the
/// number of the last update that it saw.
#[derive(Debug, Drop)]
pub struct Committed {
    pub entry: Entry,
    pub number: u64,
}
