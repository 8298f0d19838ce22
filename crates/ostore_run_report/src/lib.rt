//! The report of a run: what became of a job's transactions, and how that is printed.
#![tactic(auto)]

mod report;
mod results;

pub use report::print_report;
pub use results::{Cause, ClientResults, Results, Tail, TxnResult};
