//! Why commands stop before their last line.

use ostore_segments::NoSpace;

/// Why a command wasn't executed, or its reply isn't kept.
#[derive(Debug, Drop)]
pub enum Stop<F: Drop> {
    /// A page couldn't be had. What holds then, the holder of the pages says.
    Fault(F),
    /// No page of the segment has room for the new object's cell, and none is free. The pages stay.
    NoSpace(NoSpace),
    /// Memory was wanted and refused. The pages are valid, and may have the object that was to be made.
    OutOfMemory,
}
