//! Callers of a page service, and of the server of all clients, as tests of what these promise.
#![tactic(auto)]

mod pairs;
mod sums;

pub use pairs::{claim_two, one_turn, two_turns};
pub use sums::{AddFault, Addition, Sums, add};

#[cfg(test)]
mod tests;
