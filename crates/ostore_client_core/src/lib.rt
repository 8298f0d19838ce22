//! A client of the database: its address space, the pages that it has, and the attempts that read and write them
//! through a page service.
#![tactic(auto)]

mod client;
mod fault;
mod kind;
mod release;
mod writing;

pub use client::Client;
pub use fault::AttemptFault;
pub use kind::GraphKind;

#[cfg(test)]
mod tests;
