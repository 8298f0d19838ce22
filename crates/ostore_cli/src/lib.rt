//! The program's top calls: from the words of a command line and the bytes of a source to the
//! bytes of a sink and a status.
#![tactic(auto)]

mod answers;
mod laws;
mod outcome;
mod streams;
mod top;
mod trying;
mod words;

pub use laws::one_report;
pub use ostore_address_space::{High, Low, Mapper, Mixed};
pub use outcome::{Gate, OpenGate, Outcome};
pub use top::{ostore, ostore_turns};
pub use words::Words;

#[cfg(test)]
mod tests;
