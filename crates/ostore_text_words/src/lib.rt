//! The words of the texts that the database reads: lines and words with their places, identifiers, and
//! numbers in their one form. Every language of the database is spelled in them.
#![tactic(auto)]

mod fault;
mod lines;
mod names;
mod numbers;
mod quoted;
mod utf8;

pub use fault::TextFault;
pub use lines::{Line, LineReader, Word, find_parting, read_lines};
pub use names::{is_identifier, read_dotted, read_name};
pub use numbers::{push_int, push_number, read_count, read_int};
pub use quoted::push_quoted;
pub use utf8::utf8_fault;

#[cfg(test)]
mod tests;
