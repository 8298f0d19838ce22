//! Whether transactions of a job were given up.

ghost use Rattle.std.specs.Prelude.{◌≡◌};
ghost use Rattle.std.specs.List.{list_any};
ghost use Rattle.ostore_cli.specs.FreshRuns.{any_given_up, was_given_up};

use ostore_run_report::{ClientResults, TxnResult};

/// Whether the transaction was given up.
fn is_given_up(outcome: &TxnResult) -> bool
    ensures { result ≡ was_given_up outcome.now }
{
    matches!(outcome, TxnResult::GaveUp { .. })
}

/// Whether one of a client's transactions was given up.
fn has_given_up(mine: &ClientResults) -> bool
    ensures { result ≡ list_any was_given_up mine.now }
{
    mine.items().iter().any(is_given_up)
}

/// Whether a transaction of any client was given up.
pub(crate) fn is_any_given_up(results: &[ClientResults]) -> bool
    ensures { result ≡ any_given_up results.now }
{
    results.iter().any(has_given_up)
}
