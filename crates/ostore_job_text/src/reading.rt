//! Texts of jobs, read.

mod clients;
mod draft;
mod jobs;
mod lines;
mod options;
#[cfg(test)]
mod tests;

pub use jobs::{LONGEST_TEXT, parse_job, read_job_from};
