//! Why an attempt ended, as a report says it.

ghost use Rattle.std.specs.Prelude.{◌≡◌};
ghost use Rattle.ostore_client_turns.specs.Causes.{cause_of, cause_of_commit};

use ostore_client_core::AttemptFault;
use ostore_page_service::CommitFault;
use ostore_run_report::Cause;

/// Why an attempt ended that met this fault. Both faults of a disk are one. None for want of memory.
pub(crate) fn cause_of(fault: AttemptFault) -> Option<Cause>
    ensures { result ≡ cause_of fault }
{
    match fault {
        AttemptFault::Busy(busy) => Some(Cause::Busy {
            page: busy.page,
            seen: busy.seen,
            found: busy.found,
        }),
        AttemptFault::NoSpace { segment, need } => Some(Cause::NoSpace { segment, need }),
        AttemptFault::CacheFull { used, capacity } => Some(Cause::CacheFull { used, capacity }),
        AttemptFault::SpaceFull { frames } => Some(Cause::SpaceFull { frames }),
        AttemptFault::Commit(fault) => cause_of_commit(fault),
        AttemptFault::OutOfMemory => None,
    }
}

/// The same of a fault of a commit.
fn cause_of_commit(fault: CommitFault) -> Option<Cause>
    ensures { result ≡ cause_of_commit fault }
{
    match fault {
        CommitFault::DiskFault => Some(Cause::Disk),
        CommitFault::Stopped { .. } => Some(Cause::Disk),
        CommitFault::OutOfMemory => None,
    }
}
