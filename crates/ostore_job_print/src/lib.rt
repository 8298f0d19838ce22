//! Jobs, printed: the canonical text of a job, which is read as that job again.
#![tactic(auto)]

mod print;

pub use print::print_job;
