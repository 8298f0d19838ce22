//! The standard library's readers, writers and files as a source, a sink and a disk. They tell
//! nothing of bytes.

mod counted;
mod disk;
mod sink;
mod source;

pub use disk::FileDisk;
pub use sink::StdSink;
pub use source::StdSource;
