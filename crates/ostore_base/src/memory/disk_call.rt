//! The calls that a disk in memory records.

use crate::list::ListOf;

/// A call that changed a disk in memory, or made sure of what it holds.
#[derive(Debug, Drop)]
pub enum DiskCall {
    /// A write at a place.
    Written { at: u64, bytes: ListOf<u8> },
    /// A write of so many bytes that failed.
    Torn { at: u64, size: usize },
    /// A sync that succeeded, where there was something to make sure of.
    Synced,
}
