//! The outside in memory: a source, a sink and a disk that tell everything, and that fail at the
//! calls that are named when they are made.

mod crashes;
mod disk;
mod disk_call;
mod held;
mod record;
mod sink;
mod source;

pub use crashes::Remains;
pub use disk::MemDisk;
pub use disk_call::DiskCall;
pub use sink::MemSink;
pub use source::MemSource;
