//! What a top call answers, and how it is printed.

ghost use Rattle.std.specs.Prelude.{◌≡◌, ◌≢◌};
ghost use Rattle.ostore_cli.specs.Promise.{end_of};
ghost use Rattle.ostore_cli.specs.inside.Answer.{IsAnswerTo, IsTextAnswer, IsFaultAnswer, IsPrintOf, IsReportPrint, IsLinePrint, status_of};

use crate::streams::{InputFault, read_text, write_whole};
use crate::trying::{Reported, try_text};
use crate::words::Words;
use ostore_address_space::Mapper;
use ostore_base::{Sink, Source, Text};
use ostore_try_input::{TryFault, print_try_fault};
use std::alloc::Global;

/// What is to be printed.
#[derive(Debug, Drop)]
pub enum Answer {
    Report(Reported),
    WordsRefused,
    /// The line that says what the text is refused for.
    TextRefused(Text),
    SourceFault,
    OutOfMemory,
}

/// What the words ask for, of the text that the source has.
pub(crate) fn answer_to<S: Source, M: Mapper>(
    alloc: Global,
    words: &Words,
    source: &mut S,
    mapper: &M,
) -> Answer
    ensures { IsAnswerTo words.now
        (end_of S.left S.faults source.old) (end_of S.left S.faults source.new) result }
{
    if !words.are_row() {
        return Answer::WordsRefused;
    }
    match read_text(alloc, source) {
        Err(InputFault::SourceFailed) => Answer::SourceFault,
        Err(InputFault::OutOfMemory) => Answer::OutOfMemory,
        Ok(text) => answer_text(alloc, text.bytes(), mapper),
    }
}

/// What the text of `try` gets for an answer.
fn answer_text<M: Mapper>(alloc: Global, text: &[u8], mapper: &M) -> Answer
    ensures { IsTextAnswer text.now result }
{
    match try_text(alloc, text, mapper) {
        Ok(reported) => Answer::Report(reported),
        Err(fault) => answer_fault(alloc, &fault),
    }
}

/// What a text that gave no report gets for an answer.
fn answer_fault(alloc: Global, fault: &TryFault) -> Answer
    ensures { IsFaultAnswer fault.now result }
{
    match fault {
        TryFault::OutOfMemory => Answer::OutOfMemory,
        _ => answer_line(alloc, fault),
    }
}

/// The line of a fault that isn't want of memory.
fn answer_line(alloc: Global, fault: &TryFault) -> Answer
    requires { fault.now ≢ TryFault.OutOfMemory }
    ensures { IsFaultAnswer fault.now result }
{
    match print_try_fault(alloc, fault) {
        Ok(line) => Answer::TextRefused(line),
        Err(_) => Answer::OutOfMemory,
    }
}

/// Prints an answer, and gives its status. Only a report that can't be written has another status
/// for that.
pub(crate) fn print_answer<K: Sink>(sink: &mut K, answer: Answer) -> u8
    ensures { IsPrintOf answer
        (end_of K.written K.faults sink.old) (end_of K.written K.faults sink.new) result }
{
    match answer {
        Answer::Report(reported) => print_reported(sink, &reported),
        Answer::WordsRefused => print_line(sink, b"words refused\n", 2),
        Answer::TextRefused(line) => print_line(sink, line.bytes(), 3),
        Answer::SourceFault => print_line(sink, b"source fault\n", 6),
        Answer::OutOfMemory => print_line(sink, b"out of memory\n", 8),
    }
}

// The status of a report that was printed whole: 1 where a transaction was given up, and 0 where none was.
fn report_status(given_up: bool) -> u8
    ensures { result ≡ status_of given_up }
{
    if given_up { 1 } else { 0 }
}

// The status of a report, or 7 where it wasn't printed whole.
fn print_reported<K: Sink>(sink: &mut K, reported: &Reported) -> u8
    ensures { IsReportPrint reported.now.text (status_of reported.now.given_up)
        (end_of K.written K.faults sink.old) (end_of K.written K.faults sink.new) result }
{
    match write_whole(sink, reported.text.bytes()) {
        Ok(()) => report_status(reported.given_up),
        Err(_) => 7,
    }
}

// The status of the line, whether or not the sink takes it.
fn print_line<K: Sink>(sink: &mut K, line: &[u8], status: u8) -> u8
    ensures { IsLinePrint line.now status
        (end_of K.written K.faults sink.old) (end_of K.written K.faults sink.new) result }
{
    match write_whole(sink, line) {
        Ok(()) => status,
        Err(_) => status,
    }
}
