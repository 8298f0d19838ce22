//! A client's pages as operations see and change them.
#![tactic(auto)]

mod access;
mod executing;
mod lines;
mod puts;

pub use access::Access;
pub use executing::{execute, execute_on, made_fits};
pub use lines::{execute_line, lines_have_made, no_line_has_run};

#[cfg(test)]
mod tests;
