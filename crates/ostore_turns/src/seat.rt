//! A client of a run.

ghost use Rattle.std.specs.Prelude.{◌≡◌, [], IfOk};
ghost use Rattle.ostore_turns.specs.Places.{HasRoom, first_place};
ghost use Rattle.ostore_turns.specs.TurnResults.{committed_as, result_by, with_not_run};

use crate::attempts::Gave;
use crate::place::Place;
use ostore_base::OutOfMemory;
use ostore_graph_model::Replies;
use ostore_run_report::{ClientResults, TxnResult};
use std::alloc::Global;

/// Where a client of a run is in its script, and what became of its transactions so far.
#[derive(Debug, Drop)]
pub(crate) struct Seat {
    pub(crate) place: Place,
    pub(crate) results: ClientResults,
}

impl Seat {
    /// At the first line of its script.
    pub(crate) fn new(alloc: Global) -> Seat
        ensures { result ≡ record { place = first_place; results = [] } }
    {
        Seat {
            place: Place::first(),
            results: ClientResults::new(alloc),
        }
    }

    /// What became of its client's transactions, of which there are so many. Those that were not ended have not run.
    pub(crate) fn into_results(self, txns: usize) -> Result<ClientResults, OutOfMemory>
        ensures { IfOk result (λ results. results ≡ with_not_run txns self.results) }
    {
        let mut results = self.results;
        for _txn in 0..txns.saturating_sub(results.items().len()) {
            results.push(TxnResult::NotRun)?;
        }
        Ok(results)
    }
}

/// What becomes of a transaction by a line that gave this, and None where it isn't ended. It is an update or a
/// read, and its script gives it so many tries.
pub(crate) fn result_by(update: bool, tries: u32, at: Place, gave: Gave) -> Option<TxnResult>
    requires { HasRoom at }
    ensures { result ≡ result_by update tries at gave }
{
    match gave {
        Gave::Going => None,
        Gave::Committed { number, replies } => Some(committed(
            update,
            number,
            at.failed + 1,
            replies,
        )),
        Gave::Aborted => Some(TxnResult::Abort {
            tries: at.failed + 1,
        }),
        Gave::Failed(cause) => {
            if at.is_retried(tries, cause) {
                None
            } else {
                Some(TxnResult::GaveUp {
                    tries: at.failed + 1,
                    cause,
                })
            }
        }
    }
}

/// What becomes of a transaction that was committed.
fn committed(update: bool, number: u64, tries: u32, replies: Replies) -> TxnResult
    ensures { result ≡ committed_as update number tries replies }
{
    if update {
        TxnResult::Commit {
            number,
            tries,
            replies,
        }
    } else {
        TxnResult::Read {
            number,
            tries,
            replies,
        }
    }
}
