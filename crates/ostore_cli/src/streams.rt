//! Reading a source to its end, and writing a whole piece to a sink.

mod reading;
mod writing;

pub(crate) use reading::{InputFault, read_text};
pub(crate) use writing::write_whole;
