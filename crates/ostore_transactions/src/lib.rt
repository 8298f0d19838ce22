//! Attempts of clients at transactions, executed line by line or whole.
#![tactic(auto)]

mod attempt;
mod copies;
mod laws;
mod line;
mod steps;
mod whole;

pub use attempt::Attempt;
pub use laws::others_leave_attempts;
pub use line::{Line, run_line};
pub use whole::{Ended, run_attempt};

#[cfg(test)]
mod tests;
