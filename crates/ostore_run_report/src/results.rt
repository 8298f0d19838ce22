//! What became of a job's transactions.

use ostore_base::{ListOf, PageNo};
use ostore_graph_model::Replies;

/// Why a transaction was given up: the end of its last attempt.
#[derive(Clone, Copy, Debug, PartialEq, Eq)]
pub enum Cause {
    /// Another client held the page: the page's word as it was loaded, and as it was found.
    Busy { page: PageNo, seen: u64, found: u64 },
    /// No page of the segment has so many bytes free, and no page is free.
    NoSpace { segment: u8, need: u16 },
    /// So many pages are in use, and the cache has no more room.
    CacheFull { used: u32, capacity: u32 },
    /// All of so many frames are reserved.
    SpaceFull { frames: u32 },
    /// A disk call failed.
    Disk,
    /// The journal had stopped, after so many commits.
    Stopped { after: u64 },
}

/// What became of a transaction. `number` is its commit number, or the number of the last update
/// that a read saw; `tries` counts its attempts.
#[derive(Debug, Drop)]
pub enum TxnResult {
    Commit {
        number: u64,
        tries: u32,
        replies: Replies,
    },
    Read {
        number: u64,
        tries: u32,
        replies: Replies,
    },
    /// Its script aborted it.
    Abort {
        tries: u32,
    },
    GaveUp {
        tries: u32,
        cause: Cause,
    },
    /// A disk fault ended the run before it.
    NotRun,
}

/// What became of one client's transactions, in script order.
pub type ClientResults = ListOf<TxnResult>;

/// One list for each client, in job order.
pub type Results = ListOf<ClientResults>;

/// The last lines of a report: after how many commits a disk call failed, where one did; how many
/// commits the database has; how many pages were fetched, where that is told.
#[derive(Clone, Copy, Debug, PartialEq, Eq)]
pub struct Tail {
    pub disk_fault_after: Option<u64>,
    pub commits: u64,
    pub fetches: Option<u64>,
}
