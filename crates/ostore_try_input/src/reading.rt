//! The text for `try`, read.

mod built;
mod fault;
mod input;

pub use fault::TryFault;
pub use input::{read_try_input, schema_part_of};
