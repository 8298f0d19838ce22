//! The input of `try`.

use ostore_job_text::Job;
use ostore_schema_layout::Schema;

/// What a text for `try` asks for: a schema, and a job to run on a fresh database with it.
#[derive(Debug, Drop)]
pub struct TryInput {
    pub schema: Schema,
    pub job: Job,
}
