//! The line that names what is wrong with a text.

ghost use Rattle.std.specs.Prelude.{◌≡◌, IfOk};
ghost use Rattle.ostore_try_input.specs.FaultLine.{fault_at_place, fault_line, job_fault_line, refusal_line};

use crate::reading::TryFault;
use ostore_base::{OutOfMemory, Text};
use ostore_job_text::JobFault;
use ostore_schema_layout::SchemaFault;
use ostore_text_words::push_number;
use std::alloc::Global;

/// The line `WORD fault NUMBER NAME at PLACE`, with its newline.
fn print_fault(
    alloc: Global,
    word: &[u8],
    number: u64,
    name: &str,
    place: u64,
) -> Result<Text, OutOfMemory>
    ensures { IfOk result (λ line. line ≡ fault_at_place word.now number name.now place) }
{
    let mut line = Text::from_bytes(alloc, word)?;
    line.push_bytes(b" fault ")?;
    push_number(&mut line, number)?;
    line.push_bytes(b" ")?;
    line.push_bytes(name.as_bytes())?;
    line.push_bytes(b" at ")?;
    push_number(&mut line, place)?;
    line.push_bytes(b"\n")?;
    Ok(line)
}

/// The line `schema fault NUMBER NAME at PLACE`, with its newline.
pub fn print_schema_fault(alloc: Global, fault: &SchemaFault) -> Result<Text, OutOfMemory>
    ensures { IfOk result (λ line. line ≡ fault_line fault.now) }
{
    let place = fault.place() as u64;
    print_fault(alloc, b"schema", fault.number(), fault.name(), place)
}

/// The line `job fault NUMBER NAME at PLACE`, with its newline.
pub fn print_job_fault(alloc: Global, fault: &JobFault) -> Result<Text, OutOfMemory>
    ensures { IfOk result (λ line. line ≡ job_fault_line fault.now) }
{
    let place = fault.place() as u64;
    print_fault(alloc, b"job", fault.number(), fault.name(), place)
}

/// The line that says what a text for `try` is refused for, with its newline: that of its fault, or `text refused`.
/// Want of memory has the line `out of memory`.
pub fn print_try_fault(alloc: Global, fault: &TryFault) -> Result<Text, OutOfMemory>
    ensures { IfOk result (λ line. line ≡ refusal_line fault.now) }
{
    match fault {
        TryFault::Schema(fault) => print_schema_fault(alloc, fault),
        TryFault::Job(fault) => print_job_fault(alloc, fault),
        TryFault::Refused => Text::from_bytes(alloc, b"text refused\n"),
        TryFault::OutOfMemory => Text::from_bytes(alloc, b"out of memory\n"),
    }
}

#[cfg(test)]
mod tests;
