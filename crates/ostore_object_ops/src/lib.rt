//! The commands of a transaction, executed on the pages of a database through any holder of them.
#![tactic(auto)]

mod commands;
mod laws;
mod lookup;
mod making;
mod members;
mod progress;
mod run;
mod stop;
mod suits;
mod vars;

pub use commands::run_command;
pub use laws::{
    line_is_run, no_line_is_run, run_has_meaning, run_is_transaction, used_pages_are_few,
};
pub use progress::Progress;
pub use run::{run_line, run_transaction};
pub use stop::Stop;
pub use suits::{are_built, is_built, is_of_ints};
pub use vars::Vars;

#[cfg(test)]
mod claims;
#[cfg(test)]
mod tests;
