//! Outcomes of transactions, in a report.

ghost use Rattle.std.specs.Prelude.{◌≡◌, ◌++◌, codes, decimal, OnOk};
ghost use Rattle.std.specs.List.{flat_map};
ghost use Rattle.ostore_run_report.specs.Report.{reply_line, told_replies, outcome_text, tries_text, cause_text, word_text};

use crate::report::pieces::push_word;
use crate::report::replies::push_replies;
use crate::results::{Cause, TxnResult};
use ostore_base::{OutOfMemory, PageNo, Text};
use ostore_text_words::push_number;

/// Adds what became of a transaction.
pub fn push_outcome(out: &mut Text, txn: &TxnResult) -> Result<(), OutOfMemory>
    ensures { OnOk result (out.new ≡ out.old ++ outcome_text txn.now) }
{
    match txn {
        TxnResult::Commit { number, tries, .. } => push_end(out, b"commit ", *number, *tries),
        TxnResult::Read { number, tries, .. } => push_end(out, b"read ", *number, *tries),
        TxnResult::Abort { tries } => push_abort(out, *tries),
        TxnResult::GaveUp { tries, cause } => push_given_up(out, *tries, *cause),
        TxnResult::NotRun => out.push_bytes(b"notrun"),
    }
}

/// Adds the replies that are told of a transaction.
pub fn push_replies_told(out: &mut Text, txn: &TxnResult) -> Result<(), OutOfMemory>
    ensures { OnOk result (out.new ≡ out.old ++ flat_map reply_line (told_replies txn.now)) }
{
    match txn {
        TxnResult::Commit { replies, .. } => push_replies(out, replies.items()),
        TxnResult::Read { replies, .. } => push_replies(out, replies.items()),
        _ => Ok(()),
    }
}

/// Adds how a transaction ended with a number.
fn push_end(out: &mut Text, word: &[u8], number: u64, tries: u32) -> Result<(), OutOfMemory>
    ensures { OnOk result (out.new ≡ out.old ++ (word.now ++ decimal number ++ tries_text tries)) }
{
    out.push_bytes(word)?;
    push_number(out, number)?;
    push_tries(out, tries)
}

/// Adds that a script aborted its transaction.
fn push_abort(out: &mut Text, tries: u32) -> Result<(), OutOfMemory>
    ensures { OnOk result (out.new ≡ out.old ++ (codes "abort" ++ tries_text tries)) }
{
    out.push_bytes(b"abort")?;
    push_tries(out, tries)
}

/// Adds the number of attempts, where there was more than one.
fn push_tries(out: &mut Text, tries: u32) -> Result<(), OutOfMemory>
    ensures { OnOk result (out.new ≡ out.old ++ tries_text tries) }
{
    if tries > 1 {
        out.push_bytes(b" tries ")?;
        push_number(out, u64::from(tries))?;
    }
    Ok(())
}

/// Adds that a transaction was given up.
fn push_given_up(out: &mut Text, tries: u32, cause: Cause) -> Result<(), OutOfMemory>
    ensures { OnOk result (out.new ≡ out.old
        ++ (codes "gaveup " ++ decimal tries ++ codes " " ++ cause_text cause)) }
{
    out.push_bytes(b"gaveup ")?;
    push_number(out, u64::from(tries))?;
    out.push_bytes(b" ")?;
    push_cause(out, cause)
}

/// Adds why a transaction was given up.
fn push_cause(out: &mut Text, cause: Cause) -> Result<(), OutOfMemory>
    ensures { OnOk result (out.new ≡ out.old ++ cause_text cause) }
{
    match cause {
        Cause::Busy { page, seen, found } => push_busy(out, page, seen, found),
        Cause::NoSpace { segment, need } => push_pair(
            out,
            b"nospace ",
            u64::from(segment),
            u64::from(need),
        ),
        Cause::CacheFull { used, capacity } => push_pair(
            out,
            b"cachefull ",
            u64::from(used),
            u64::from(capacity),
        ),
        Cause::SpaceFull { frames } => push_single(out, b"spacefull ", u64::from(frames)),
        Cause::Disk => out.push_bytes(b"disk"),
        Cause::Stopped { after } => push_single(out, b"stopped ", after),
    }
}

/// Adds that a page was held, with its word as it was loaded and as it was found.
fn push_busy(out: &mut Text, page: PageNo, seen: u64, found: u64) -> Result<(), OutOfMemory>
    ensures { OnOk result (out.new ≡ out.old
        ++ (codes "busy " ++ decimal page.0 ++ codes " " ++ word_text seen ++ codes " "
        ++ word_text found)) }
{
    out.push_bytes(b"busy ")?;
    push_number(out, u64::from(page.0))?;
    out.push_bytes(b" ")?;
    push_word(out, seen)?;
    out.push_bytes(b" ")?;
    push_word(out, found)
}

/// Adds a word and a number.
fn push_single(out: &mut Text, word: &[u8], number: u64) -> Result<(), OutOfMemory>
    ensures { OnOk result (out.new ≡ out.old ++ (word.now ++ decimal number)) }
{
    out.push_bytes(word)?;
    push_number(out, number)
}

/// Adds a word and two numbers.
fn push_pair(out: &mut Text, word: &[u8], first: u64, second: u64) -> Result<(), OutOfMemory>
    ensures { OnOk result (out.new ≡ out.old
        ++ (word.now ++ decimal first ++ codes " " ++ decimal second)) }
{
    push_single(out, word, first)?;
    out.push_bytes(b" ")?;
    push_number(out, second)
}
