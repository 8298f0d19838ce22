//! A run of a job by turns: which client executes its next line at each turn, and what becomes of the transactions.
#![tactic(auto)]

mod attempts;
mod laws;
mod place;
mod running;
mod schedule;
mod seat;

pub use attempts::{Attempts, Gave};
pub use laws::{clients_run_alone, disk_faults_are_told, results_are_records, results_are_right};
pub use place::Place;
pub use running::{TurnsRun, take_turns};
pub use schedule::one_after_the_other;

#[cfg(test)]
mod tests;
