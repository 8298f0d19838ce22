//! Jobs, read from their texts.

ghost use Rattle.std.specs.Prelude.{◌≡◌, ◌⊎◌, ◌+◌, ◌^◌, ◌<◌, ◌≤◌, length, drop, IfOk, IfErr, IfSome, Err};
ghost use Rattle.ostore_text_words.specs.Gives.{GivesSame};
ghost use Rattle.ostore_text_words.specs.Lines.{utf8_fault};
ghost use Rattle.ostore_job_text.specs.ParsedJob.{IsOkOrMemory, IsOrMemory, drafted, job_drafted, parsed_from, parsed_job};
ghost use Rattle.ostore_job_text.specs.JobSpelling.{SpellsJob};
ghost use Rattle.ostore_job_text.specs.FaultsOf.{IsFaultOf, IsFaultOrMemory};
ghost use Rattle.ostore_job_text.specs.declared.job.Job.{Job};

use super::draft::Draft;
use super::lines::{ends, stand_after, take_line};
use crate::fault::JobFault;
use crate::job::Job;
use crate::said::Stand;
use ostore_text_words::{LineReader, TextFault, utf8_fault};
use std::alloc::Global;

/// The longest text that is read, in bytes.
pub const LONGEST_TEXT: usize = 4_194_304;

/// What the lines put together, up to the end of the text.
fn read_draft(alloc: Global, lines: &mut LineReader, end: usize) -> Result<Draft, TextFault>
    ensures { GivesSame result (drafted end lines.old.lines) }
{
    let mut draft = Draft::new(alloc);
    let mut stand = Stand::Start;
    while lines.has_line() {
        let said = take_line(alloc, stand, lines)?;
        let next = stand_after(&said);
        draft.put(said)?;
        stand = next;
    }
    ends(end, stand)?;
    Ok(draft)
}

/// The job that the lines spell, or its fault.
fn read_lines(alloc: Global, lines: &mut LineReader, end: usize) -> Result<Job, JobFault>
    ensures { IsOrMemory result (job_drafted (drafted end lines.old.lines)) }
{
    match read_draft(alloc, lines, end) {
        Ok(draft) => draft.finish(),
        Err(TextFault::Syntax { at }) => Err(JobFault::Syntax { at }),
        Err(TextFault::OutOfMemory) => Err(JobFault::OutOfMemory),
    }
}

/// What stands from a place on.
fn text_from(text: &[u8], start: usize) -> &[u8]
    ensures { result.now ≡ drop start text.now }
{
    text.get(start..).unwrap_or(&[])
}

/// The place where the text stops being UTF-8, from a place on.
fn bad_byte(text: &[u8], start: usize) -> Option<usize>
    ensures bad { result ≡ utf8_fault (drop start text.now) }
    ensures within { IfSome result (λ at. start + at < length text.now) }
{
    utf8_fault(text_from(text, start))
}

/// The job that stands in the text from a place on, at which a line begins. Places count from the text's start.
#[tactic(auto, unfolding(crate::specs::ParsedJob::parsed_from))]
pub fn read_job_from(alloc: Global, text: &[u8], start: usize) -> Result<Job, JobFault>
    ensures { IsOrMemory result (parsed_from start text.now) }
{
    if text.len() > LONGEST_TEXT {
        return Err(JobFault::TooLong { at: LONGEST_TEXT });
    }
    if let Some(at) = bad_byte(text, start) {
        return Err(JobFault::NotUtf8 { at: start + at });
    }
    let mut lines = LineReader::new(alloc, text, start)?;
    read_lines(alloc, &mut lines, text.len())
}

/// Reads a job. Ok comes exactly for the texts of a job, and gives that one; each fault comes exactly where the
/// text has it. A text that is too long is judged no further, nor is one behind the first byte that isn't UTF-8, or
/// behind the first word that can't stand. Of what names something wrongly the first in the text is answered, and where
/// two faults have one place, the one with the lower number.
pub fn parse_job(alloc: Global, bytes: &[u8]) -> Result<Job, JobFault>
    // What is answered is what the text says, a fault with its place.
    ensures exact { IsOrMemory result (parsed_job bytes.now) }
    // What is read is spelled in the text.
    ensures read { IfOk result (λ job. SpellsJob bytes.now job) }
    // What is spelled in the text is read, and nothing else.
    ensures spelled { (job : Job) → SpellsJob bytes.now job → IsOkOrMemory result job }
    // A fault that is answered is the text's, before all others that it has.
    ensures faulty { IfErr result (λ fault. IsFaultOrMemory bytes.now fault) }
    // The text's fault is answered, and nothing else.
    ensures told { (fault : JobFault) → IsFaultOf bytes.now fault
        → (result ≡ Err fault) ⊎ (result ≡ Err JobFault.OutOfMemory) }
{
    read_job_from(alloc, bytes, 0)
}
