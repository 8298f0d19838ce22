//! Running the text of `try`.

ghost use Rattle.std.specs.Prelude.{IfOk, IfErr};
ghost use Rattle.ostore_try_input.specs.Runnable.{CanBeRun};
ghost use Rattle.ostore_try_input.specs.Spelling.{Says};
ghost use Rattle.ostore_try_input.specs.TryFaults.{IsRefusedOrMemory};
ghost use Rattle.ostore_cli.specs.Promise.{IsReportOf};

mod given_up;
mod running;

use given_up::is_any_given_up;
use ostore_address_space::Mapper;
use ostore_base::{OutOfMemory, Text};
use ostore_job_text::Job;
use ostore_run_report::{Tail, print_report};
use ostore_try_input::{TryFault, TryInput, read_try_input, schema_part_of};
use ostore_turns::one_after_the_other;
use running::run_alone;
use std::alloc::Global;

/// The report of a job that ran, and whether one of its transactions was given up.
#[derive(Debug, Drop)]
pub(crate) struct Reported {
    pub(crate) text: Text,
    pub(crate) given_up: bool,
}

/// Runs what a text asks for on a fresh database in memory, and gives the report.
pub(crate) fn try_text<M: Mapper>(
    alloc: Global,
    text: &[u8],
    mapper: &M,
) -> Result<Reported, TryFault>
    ensures report { IfOk result
        (λ reported. IsReportOf text.now reported.text reported.given_up) }
    ensures refused { IfErr result (λ fault. IsRefusedOrMemory text.now fault) }
{
    let input = read_try_input(alloc, text)?;
    match report_on(alloc, text, input, mapper) {
        Ok(reported) => Ok(reported),
        Err(_) => Err(TryFault::OutOfMemory),
    }
}

// Runs an input's clients one after the other, and prints what became of them.
fn report_on<M: Mapper>(
    alloc: Global,
    text: &[u8],
    input: TryInput,
    mapper: &M,
) -> Result<Reported, OutOfMemory>
    requires says { Says text.now input }
    requires runs { CanBeRun input }
    ensures { IfOk result (λ reported. IsReportOf text.now reported.text reported.given_up) }
{
    let TryInput { schema, job } = input;
    let turns = one_after_the_other(alloc, &job)?;
    let job = Job {
        clients: job.clients,
        turns,
    };
    let run = run_alone(alloc, schema_part_of(text), &schema, &job, mapper)?;
    let tail = Tail {
        disk_fault_after: run.tail.disk_fault_after,
        commits: run.tail.commits,
        fetches: None,
    };
    let report = print_report(alloc, &job, &run.results, tail)?;
    let given_up = is_any_given_up(run.results.items());
    Ok(Reported {
        text: report,
        given_up,
    })
}
