//! Jobs and their texts: which job a text spells, and what it is read as.
#![tactic(auto)]

mod fault;
mod job;
mod laws;
mod reading;
mod said;

pub use fault::JobFault;
pub use job::{
    DEFAULT_CACHE, DEFAULT_FRAMES, DEFAULT_TRIES, Job, JobClient, JobClients, JobTurn, JobTurns,
};
pub use laws::{
    first_fault_is_read, one_job_is_spelled, read_is_spelled, spelled_can_run, spelled_is_read,
    spelled_is_within_limits, spelled_lines_are_few, spelled_settings_are_lawful,
};
pub use reading::{LONGEST_TEXT, parse_job, read_job_from};
