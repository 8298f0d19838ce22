//! The report of a run.

ghost use Rattle.std.specs.Prelude.{◌≡◌, ◌++◌, IfOk, OnOk};
ghost use Rattle.ostore_run_report.specs.Report.{result_text, client_text, told_line, tail_text, clients_text, report};

mod outcomes;
mod pieces;
mod replies;
#[cfg(test)]
mod tests;

use crate::results::{ClientResults, Results, Tail, TxnResult};
use ostore_base::{OutOfMemory, Text};
use ostore_job_text::{Job, JobClient};
use ostore_text_words::push_number;
use outcomes::{push_outcome, push_replies_told};
use std::alloc::Global;

/// The report of a run: what became of each transaction, client by client, and the last lines. The
/// results are those of the job's clients, in job order.
pub fn print_report(
    alloc: Global,
    job: &Job,
    results: &Results,
    tail: Tail,
) -> Result<Text, OutOfMemory>
    ensures { IfOk result (λ text. text ≡ report job.now results.now tail) }
{
    let mut out = Text::new(alloc);
    push_clients(&mut out, job.clients.items(), results.items())?;
    push_tail(&mut out, tail)?;
    Ok(out)
}

/// Adds each client's results.
fn push_clients(
    out: &mut Text,
    clients: &[JobClient],
    results: &[ClientResults],
) -> Result<(), OutOfMemory>
    ensures { OnOk result (out.new ≡ out.old ++ clients_text clients.now results.now) }
{
    for (client, results) in clients.iter().zip(results) {
        push_client(out, client.name.bytes(), results.items())?;
    }
    Ok(())
}

/// Adds the results of one client, numbered from 1.
fn push_client(out: &mut Text, name: &[u8], results: &[TxnResult]) -> Result<(), OutOfMemory>
    ensures { OnOk result (out.new ≡ out.old ++ client_text name.now results.now) }
{
    for (i, txn) in results.iter().enumerate() {
        push_result(out, name, i as u64 + 1, txn)?;
    }
    Ok(())
}

/// Adds the lines of one transaction.
fn push_result(
    out: &mut Text,
    name: &[u8],
    ordinal: u64,
    txn: &TxnResult,
) -> Result<(), OutOfMemory>
    ensures { OnOk result (out.new ≡ out.old ++ result_text name.now ordinal txn.now) }
{
    out.push_bytes(name)?;
    out.push_bytes(b".")?;
    push_number(out, ordinal)?;
    out.push_bytes(b" ")?;
    push_outcome(out, txn)?;
    out.push_bytes(b"\n")?;
    push_replies_told(out, txn)
}

/// Adds the last lines.
fn push_tail(out: &mut Text, tail: Tail) -> Result<(), OutOfMemory>
    ensures { OnOk result (out.new ≡ out.old ++ tail_text tail) }
{
    push_told(out, b"disk fault after", tail.disk_fault_after)?;
    push_told(out, b"commits", Some(tail.commits))?;
    push_told(out, b"fetches", tail.fetches)
}

/// Adds a line that tells a number, where it is told.
fn push_told(out: &mut Text, words: &[u8], number: Option<u64>) -> Result<(), OutOfMemory>
    ensures { OnOk result (out.new ≡ out.old ++ told_line words.now number) }
{
    if let Some(number) = number {
        out.push_bytes(words)?;
        out.push_bytes(b" ")?;
        push_number(out, number)?;
        out.push_bytes(b"\n")?;
    }
    Ok(())
}
