//! Why an attempt can't go on.

use ostore_page_service::{Busy, CommitFault};
use thiserror::Error;

/// Why an attempt can't go on. After it the attempt can only be aborted.
#[derive(Clone, Copy, Debug, PartialEq, Eq, Error)]
pub enum AttemptFault {
    /// Another client is at a page.
    #[error("another client is at a page")]
    Busy(Busy),
    /// A segment has no page with as many free bytes, and no page is free.
    #[error("segment {segment} has no room for {need} bytes")]
    NoSpace { segment: u8, need: u16 },
    /// As many pages are in use as the cache may have, and one more was needed.
    #[error("all {capacity} pages of the cache are in use")]
    CacheFull { used: u32, capacity: u32 },
    /// A page has no frame, and all are reserved.
    #[error("all {frames} frames are reserved")]
    SpaceFull { frames: u32 },
    /// The commit failed.
    #[error("the commit failed")]
    Commit(CommitFault),
    /// There was no memory.
    #[error("out of memory")]
    OutOfMemory,
}
