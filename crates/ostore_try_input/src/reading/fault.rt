//! Why a text for `try` could not be read.

use ostore_job_text::JobFault;
use ostore_schema_layout::SchemaFault;
use thiserror::Error;

/// Why a text for `try` gave no input. The length of the whole text is judged first, then the part before the line
/// `job`, then the part behind it, and at last whether both are built.
#[derive(Clone, Copy, Debug, PartialEq, Eq, Error)]
pub enum TryFault {
    /// The part before the line `job` is no schema.
    #[error("{0}")]
    Schema(SchemaFault),
    /// The whole text is too long, or the part behind the line `job` is no job. The place counts from the start of
    /// the whole text.
    #[error("{0}")]
    Job(JobFault),
    /// The schema or the job is none of the forms that are built.
    #[error("the text is refused")]
    Refused,
    /// Memory was wanted and refused.
    #[error("out of memory")]
    OutOfMemory,
}
