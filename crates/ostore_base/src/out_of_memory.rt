//! Want of memory, as an answer of its own.

use std::alloc::{AllocError, AllocFailed};
use thiserror::Error;

/// Memory was wanted and refused. It is the one answer that may come at any call that allocates,
/// and each fault type has a variant of its own for it.
#[derive(Clone, Copy, Debug, PartialEq, Eq, Error)]
#[error("out of memory")]
pub struct OutOfMemory;

impl From<AllocError> for OutOfMemory {
    fn from(_refused: AllocError) -> OutOfMemory {
        OutOfMemory
    }
}

impl<T: Drop> From<AllocFailed<T>> for OutOfMemory {
    fn from(_refused: AllocFailed<T>) -> OutOfMemory {
        OutOfMemory
    }
}
