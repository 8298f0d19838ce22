//! Laws of runs by turns, each the contract of a function that does nothing. A caller who needs a law calls its
//! function.

ghost use Rattle.ostore_turns.specs.RightResults.{ResultsAreRight, DiskFaultsAreTold, ResultsAreRecords};
ghost use Rattle.ostore_turns.specs.Alone.{ClientsRunAlone};

/// Each transaction has one result, and it is right: how it ended, how often it was tried, and why it was given up.
pub fn results_are_right()
    ensures { ResultsAreRight }
{}

/// Exactly one transaction was given up for a disk call where one failed, and none else.
pub fn disk_faults_are_told()
    ensures { DiskFaultsAreTold }
{}

/// At the end each client's records are those of its transactions that the results say have committed.
pub fn results_are_records()
    ensures { ResultsAreRecords }
{}

/// Where the entries give each client in turn all its lines at once, no transaction meets another client, and those
/// that committed ran one after the other.
pub fn clients_run_alone()
    ensures { ClientsRunAlone }
{}
