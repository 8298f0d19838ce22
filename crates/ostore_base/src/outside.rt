//! The outside, as traits with a written meaning: a source of bytes, a sink of bytes and a disk.
//! Each counts its faults, and a call answers `Failed` only where the count rose in that call.

mod disk;
mod sink;
mod source;
mod steps;

pub use disk::{Disk, LONGEST_DISK};
pub use sink::Sink;
pub use source::Source;
pub use steps::{write_gated, write_synced};
use thiserror::Error;

/// A call on the outside failed. The count of faults of its object rose.
#[derive(Clone, Copy, Debug, PartialEq, Eq, Error)]
#[error("a device failed")]
pub struct Failed;
