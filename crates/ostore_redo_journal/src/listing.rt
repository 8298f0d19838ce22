//! Listing the records of a journal.

ghost use Rattle.std.specs.Prelude.{◌≡◌, ℕ, List, ◌+◌, ◌≤◌, ◌<◌, ◌^◌, IfOk, OnOk, IfSome, IsErrOf, None, length, take, drop};
ghost use Rattle.ostore_base.specs.Faults.{Rose, HasCause};
ghost use Rattle.ostore_base.specs.Images.{Keeps};
ghost use Rattle.ostore_base.specs.Limits.{longest_disk};
ghost use Rattle.ostore_redo_journal.specs.declared.layout.TheConstants.{GATE_BYTES, PAGES_IN_RECORD};
ghost use Rattle.ostore_redo_journal.specs.Records.{Logged};
ghost use Rattle.ostore_redo_journal.specs.OnDisk.{IsOpened};
ghost use Rattle.ostore_redo_journal.specs.Order.{IsInOrder};
ghost use Rattle.ostore_redo_journal.specs.Listed.{Lists};
ghost use Rattle.ostore_redo_journal.specs.inside.Bytes.{item_in};
ghost use Rattle.ostore_redo_journal.specs.declared.listing.HistoryFault.TheVariants.{DiskFault};

use crate::header::{Header, Scan};
use crate::journal::Journal;
use crate::layout::{
    CLIENT_IN_HEAD, COUNT_IN_HEAD, GATE_BYTES, LOGGED_BYTES, ORDINAL_IN_HEAD, PAGES_IN_RECORD,
};
use crate::numbers::{get_u16, get_u32};
use ostore_base::{ClientNo, Disk, Failed, ListOf, OutOfMemory, PAGE_SIZE};
use std::alloc::Global;
use thiserror::Error;

/// What is listed of a record: its commit number, the client whose transaction it is with that
/// client's number for it, and how many pages it writes.
#[derive(Clone, Copy, Debug, PartialEq, Eq)]
pub struct Item {
    pub number: u64,
    pub client: ClientNo,
    pub ordinal: u32,
    pub pages: u16,
}

/// Records in the order of their commit numbers.
pub type Items = ListOf<Item>;

/// Why the records were not listed.
#[derive(Clone, Copy, Debug, PartialEq, Eq, Error)]
pub enum HistoryFault {
    /// The disk failed.
    #[error("the disk failed")]
    DiskFault,
    /// Memory for the list was refused.
    #[error("out of memory")]
    OutOfMemory,
}

impl From<Failed> for HistoryFault {
    ghost from_gives = { λ _ e. e ≡ DiskFault };

    fn from(_failed: Failed) -> HistoryFault {
        HistoryFault::DiskFault
    }
}

impl From<OutOfMemory> for HistoryFault {
    ghost use Rattle.ostore_redo_journal.specs.declared.listing.HistoryFault.TheVariants.{OutOfMemory as NoMemory};

    ghost from_gives = { λ _ e. e ≡ NoMemory };

    fn from(_refused: OutOfMemory) -> HistoryFault {
        HistoryFault::OutOfMemory
    }
}

impl<D: Disk> Journal<D> {
    /// Lists the records, the first one first, by one read of each. The journal hasn't stopped. It
    /// stays as it is, also where its disk fails or memory is refused.
    pub fn history(&mut self, alloc: Global) -> Result<Items, HistoryFault>
        requires in_order { IsInOrder D.content D.may_leave self.old }
        requires running { self.old.stopped ≡ None }
        ensures items { IfOk result
            (Lists (D.content self.old.disk) self.old.header self.old.scan) }
        ensures in_order { IsInOrder D.content D.may_leave self.new }
        ensures same { self.new ≡ record self.old { disk = self.new.disk } }
        ensures content { D.content self.new.disk ≡ D.content self.old.disk }
        ensures images { Keeps (D.may_leave self.old.disk) (D.may_leave self.new.disk) }
        ensures later { D.faults self.old.disk ≤ D.faults self.new.disk }
        ensures failed { IsErrOf result HistoryFault.DiskFault
            → Rose (D.faults self.old.disk) (D.faults self.new.disk) }
        ensures kept { OnOk result (D.faults self.new.disk ≡ D.faults self.old.disk) }
    {
        list_records(alloc, &mut self.disk, self.header, self.scan)
    }
}

// The item of the record at a place of the disk.
fn read_item<D: Disk>(disk: &mut D, at: u64, number: u64) -> Result<Item, Failed>
    requires { IfSome (D.content disk.old) (λ held. at + PAGES_IN_RECORD ≤ length held) }
    ensures item { IfOk result (λ item. IfSome (D.content disk.old)
        (λ held. item
        ≡ item_in number (drop GATE_BYTES (take PAGES_IN_RECORD (drop at held))))) }
    ensures content { D.content disk.new ≡ D.content disk.old }
    ensures images { Keeps (D.may_leave disk.old) (D.may_leave disk.new) }
    ensures cause { HasCause (D.faults disk.old) (D.faults disk.new) result }
{
    let mut bytes = [0; PAGES_IN_RECORD];
    disk.read(at, &mut bytes)?;
    let head = &bytes[GATE_BYTES..];
    Ok(Item {
        number,
        client: ClientNo(get_u16(head, CLIENT_IN_HEAD)),
        ordinal: get_u32(head, ORDINAL_IN_HEAD),
        pages: get_u16(head, COUNT_IN_HEAD),
    })
}

// The records of a disk that was opened.
fn list_records<D: Disk>(
    alloc: Global,
    disk: &mut D,
    header: Header,
    scan: Scan,
) -> Result<Items, HistoryFault>
    requires numbers { header.base + scan.records < 2 ^ 64 }
    requires pages { header.pages < 2 ^ 32 }
    requires end { scan.end ≤ longest_disk }
    requires opened { (rs : List Logged)
        × IfSome (D.content disk.old) (λ held. IsOpened held header scan rs) }
    ensures items { IfOk result (Lists (D.content disk.old) header scan) }
    ensures content { D.content disk.new ≡ D.content disk.old }
    ensures images { Keeps (D.may_leave disk.old) (D.may_leave disk.new) }
    ensures later { D.faults disk.old ≤ D.faults disk.new }
    ensures failed { IsErrOf result HistoryFault.DiskFault
        → Rose (D.faults disk.old) (D.faults disk.new) }
    ensures kept { OnOk result (D.faults disk.new ≡ D.faults disk.old) }
{
    let mut items = ListOf::new(alloc);
    let mut at = PAGE_SIZE as u64 * (1 + header.pages as u64);
    for done in 0..scan.records {
        let item = read_item(disk, at, header.base + done + 1)?;
        items.push(item)?;
        // Only a disk that doesn't tell could pass the end of 64 bits.
        at = at.saturating_add((PAGES_IN_RECORD + LOGGED_BYTES * item.pages as usize) as u64);
    }
    Ok(items)
}
