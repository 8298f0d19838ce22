//! The whole text.

ghost use Rattle.std.specs.Prelude.{◌≡◌, ◌⊎◌, IfOk, IfErr, Err};
ghost use Rattle.ostore_try_input.specs.declared.input.TryInput.{TryInput};
ghost use Rattle.ostore_try_input.specs.Runnable.{CanBeRun};
ghost use Rattle.ostore_try_input.specs.Spelling.{Says, schema_part, job_start};
ghost use Rattle.ostore_try_input.specs.TryFaults.{IsRefusedFor, IsRefusedOrMemory};
ghost use Rattle.ostore_try_input.specs.inside.ReadFault.{IsReadOrMemory};

use crate::input::TryInput;
use crate::reading::built::are_built_clients;
use crate::reading::fault::TryFault;
use ostore_job_text::{
    JobFault, LONGEST_TEXT, read_job_from, spelled_can_run, spelled_settings_are_lawful,
};
use ostore_object_ops::is_of_ints;
use ostore_schema_layout::{SchemaFault, parse_schema};
use ostore_text_words::find_parting;
use std::alloc::Global;

/// The part before the first line `job`, and where the part behind it begins.
fn parts_of(text: &[u8]) -> (&[u8], usize)
    ensures schema { result.0.now ≡ schema_part text.now }
    ensures job { result.1 ≡ job_start text.now }
{
    match find_parting(text, b"job") {
        None => (text, text.len()),
        Some((start, next)) => (text.get(..start).unwrap_or(text), next),
    }
}

/// The part of a text for `try` that is the schema's: all before the first line `job`, or the whole text where there is none.
pub fn schema_part_of(text: &[u8]) -> &[u8]
    ensures { result.now ≡ schema_part text.now }
{
    parts_of(text).0
}

/// What the parts of the text are read as.
fn read_parts(alloc: Global, text: &[u8]) -> Result<TryInput, TryFault>
    ensures read { IfOk result (λ input. Says text.now input) }
    ensures refused { IfErr result (λ fault. IsReadOrMemory text.now fault) }
{
    if text.len() > LONGEST_TEXT {
        return Err(TryFault::Job(JobFault::TooLong { at: LONGEST_TEXT }));
    }
    let (schema_part, start) = parts_of(text);
    let schema = match parse_schema(alloc, schema_part) {
        Ok(schema) => schema,
        Err(SchemaFault::OutOfMemory) => return Err(TryFault::OutOfMemory),
        Err(fault) => return Err(TryFault::Schema(fault)),
    };
    let job = match read_job_from(alloc, text, start) {
        Ok(job) => job,
        Err(JobFault::OutOfMemory) => return Err(TryFault::OutOfMemory),
        Err(fault) => return Err(TryFault::Job(fault)),
    };
    if !is_of_ints(&schema) || !are_built_clients(job.clients.items()) {
        return Err(TryFault::Refused);
    }
    Ok(TryInput { schema, job })
}

/// Reads a text for `try`: a schema, and behind the line `job` a job, which run. A text above 4,194,304 bytes is
/// `Job(TooLong)`. Then come the faults of the schema's part, then those of the job's, whose places count from the
/// start of the whole text. `Refused` is a text without a fault whose schema or job isn't built.
pub fn read_try_input(alloc: Global, text: &[u8]) -> Result<TryInput, TryFault>
    // What is read is what the text says.
    ensures read { IfOk result (λ input. Says text.now input) }
    // It can be run.
    ensures runs { IfOk result (λ input. CanBeRun input) }
    // The text says nothing else.
    ensures only { IfOk result (λ input. (other : TryInput) → Says text.now other → other ≡ input) }
    // What isn't read is refused for what is answered.
    ensures refused { IfErr result (λ fault. IsRefusedOrMemory text.now fault) }
    // A text that is refused for something is answered so, and with nothing else.
    ensures exact { (fault : TryFault) → IsRefusedFor text.now fault
        → (result ≡ Err fault) ⊎ (result ≡ Err TryFault.OutOfMemory) }
{
    spelled_can_run();
    spelled_settings_are_lawful();
    read_parts(alloc, text)
}

#[cfg(test)]
mod tests;
