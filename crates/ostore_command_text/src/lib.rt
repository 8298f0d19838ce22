//! The commands of a job, read from the words of their lines.
#![tactic(auto)]

mod commands;
mod words;

pub use commands::read_command;
pub use words::around_byte;
