//! The clients of a job, executed by turns on the pages of a server.
#![tactic(auto)]

mod cause;
mod line;
mod run;
mod seat;
mod store;

pub use run::{Run, run_turns};

#[cfg(test)]
mod tests;
