//! A journal that only counts its records.

ghost use Rattle.std.specs.Prelude.{◌≡◌, ◌≢◌, ◌+◌, ◌<◌, ◌≤◌, ◌↔◌, IsTrue, Ok};
ghost use Rattle.ostore_redo_journal.specs.Limits.{most_records};

use crate::journal::JournalFault;
use crate::record::Record;
use ostore_base::Disk;

/// The most records that are ever counted. No run comes near it.
const MOST_RECORDS: u64 = 1 << 62;

/// A journal that counts its records and makes no call on its disk.
#[derive(Drop)]
pub struct Journal<D> {
    /// The disk, as it was given.
    pub disk: D,
    /// The number of the last record that was acknowledged.
    pub number: u64,
}

impl<D: Disk> Journal<D> {
    /// A journal without a record.
    pub fn fresh(disk: D) -> Journal<D>
        ensures disk { result.disk ≡ disk }
        ensures none { result.number ≡ 0 }
    {
        Journal { disk, number: 0 }
    }

    /// Whether it takes no more records.
    pub fn is_full(&self) -> bool
        ensures { IsTrue result ↔ (most_records ≤ self.now.number) }
    {
        self.number >= MOST_RECORDS
    }

    /// Appends a record of a transaction, and answers its number, which is one more than the last
    /// one's. Counting never fails.
    pub fn append(&mut self, rec: &mut Record) -> Result<u64, JournalFault>
        requires room { self.old.number < most_records }
        requires ordinal { rec.old.ordinal ≢ 0 }
        ensures number { result ≡ Ok (self.old.number + 1) }
        ensures counted { self.new.number ≡ self.old.number + 1 }
        ensures draft { rec.new ≡ rec.old }
        ensures disk { self.new.disk ≡ self.old.disk }
    {
        // Nothing of it is written yet.
        let _ = rec;
        self.number += 1;
        Ok(self.number)
    }
}
