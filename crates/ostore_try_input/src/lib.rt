//! What `try` is given: a text of a schema and a job, read, or refused with a line that says why.
#![tactic(auto)]

mod fault_line;
mod input;
mod laws;
mod reading;

pub use fault_line::{print_job_fault, print_schema_fault, print_try_fault};
pub use input::TryInput;
pub use laws::{one_refusal, refusal_says_nothing};
pub use reading::{TryFault, read_try_input, schema_part_of};
