//! Reading the open records of a journal.

ghost use Rattle.std.specs.Prelude.{◌≡◌, ℕ, List, ◌+◌, ◌*◌, ◌≤◌, ◌<◌, ◌^◌, ◌↔◌, IsTrue, true, false, IfOk, IfErr, OnOk, OnErr, IfSome, Ok, Err, IsErrOf, length, get_or, take, drop};
ghost use Rattle.ostore_base.specs.Faults.{Rose, HasCause};
ghost use Rattle.ostore_base.specs.Images.{Keeps};
ghost use Rattle.ostore_base.specs.Limits.{longest_disk, most_pages};
ghost use Rattle.ostore_redo_journal.specs.Limits.{greatest_base};
ghost use Rattle.ostore_redo_journal.specs.declared.layout.TheConstants.{COUNT_IN_HEAD, PAGES_IN_RECORD};
ghost use Rattle.ostore_redo_journal.specs.Records.{u16_at, u32_at, behind_size};
ghost use Rattle.ostore_redo_journal.specs.Headers.{journal_at};
ghost use Rattle.ostore_redo_journal.specs.OnDisk.{IsEnd, IsBad, HasRecord, HasRecords, IsScanned, IsBadAt};
ghost use Rattle.ostore_redo_journal.specs.inside.Bytes.{IsRecord, IsCounted};
ghost use Rattle.ostore_redo_journal.specs.declared.scanning.ScanFault.TheVariants.{DiskFault};
ghost use Rattle.ostore_redo_journal.specs.inside.Steps.{StepIs};
ghost use Rattle.ostore_redo_journal.specs.declared.header.Scan.{Scan};

use crate::decode::is_counted;
use crate::header::{Header, Scan};
use crate::layout::{
    COUNT_IN_HEAD, GATE_BYTES, GENERATION_IN_HEAD, HEAD_BYTES, LOGGED_BYTES, NUMBER_IN_HEAD,
    PAGES_IN_RECORD,
};
use crate::numbers::{get_gate, get_u16, get_u32};
use ostore_base::{Disk, Failed, OutOfMemory, PAGE_SIZE};
use std::alloc::Global;
use thiserror::Error;

/// Why the records of a journal were not read.
#[derive(Clone, Copy, Debug, PartialEq, Eq, Error)]
pub enum ScanFault {
    /// The open gate at this place, in bytes from the disk's start, has no lawful record behind it.
    #[error("bad record at {at}")]
    BadRecord { at: u64 },
    /// The disk failed.
    #[error("the disk failed")]
    DiskFault,
    /// Memory for a record was refused.
    #[error("out of memory")]
    OutOfMemory,
}

impl From<Failed> for ScanFault {
    ghost from_gives = { λ _ e. e ≡ DiskFault };

    fn from(_failed: Failed) -> ScanFault {
        ScanFault::DiskFault
    }
}

impl From<OutOfMemory> for ScanFault {
    ghost use Rattle.ostore_redo_journal.specs.declared.scanning.ScanFault.TheVariants.{OutOfMemory as NoMemory};

    ghost from_gives = { λ _ e. e ≡ NoMemory };

    fn from(_refused: OutOfMemory) -> ScanFault {
        ScanFault::OutOfMemory
    }
}

// What stands at a place of the journal that is not its end.
#[derive(Clone, Copy, Debug, PartialEq, Eq)]
pub(crate) enum Step {
    Bad,
    Record { size: u64 },
}

// The number of 2 bytes at a place of the disk.
fn read_u16<D: Disk>(disk: &mut D, at: u64) -> Result<u16, Failed>
    requires { IfSome (D.content disk.old) (λ held. at + 2 ≤ length held) }
    ensures number { IfOk result (λ n. IfSome (D.content disk.old) (λ held. n ≡ u16_at held at)) }
    ensures content { D.content disk.new ≡ D.content disk.old }
    ensures images { Keeps (D.may_leave disk.old) (D.may_leave disk.new) }
    ensures cause { HasCause (D.faults disk.old) (D.faults disk.new) result }
{
    let mut bytes = [0; 2];
    disk.read(at, &mut bytes)?;
    Ok(get_u16(&bytes, 0))
}

// The number of 4 bytes at a place of the disk.
fn read_u32<D: Disk>(disk: &mut D, at: u64) -> Result<u32, Failed>
    requires { IfSome (D.content disk.old) (λ held. at + 4 ≤ length held) }
    ensures number { IfOk result (λ n. IfSome (D.content disk.old) (λ held. n ≡ u32_at held at)) }
    ensures content { D.content disk.new ≡ D.content disk.old }
    ensures images { Keeps (D.may_leave disk.old) (D.may_leave disk.new) }
    ensures cause { HasCause (D.faults disk.old) (D.faults disk.new) result }
{
    let mut bytes = [0; 4];
    disk.read(at, &mut bytes)?;
    Ok(get_u32(&bytes, 0))
}

// The gate at a place of the disk.
fn read_gate<D: Disk>(disk: &mut D, at: u64) -> Result<u8, Failed>
    requires { IfSome (D.content disk.old) (λ held. at + 1 ≤ length held) }
    ensures gate { IfOk result (λ gate. IfSome (D.content disk.old)
        (λ held. gate ≡ get_or held at 0)) }
    ensures content { D.content disk.new ≡ D.content disk.old }
    ensures images { Keeps (D.may_leave disk.old) (D.may_leave disk.new) }
    ensures cause { HasCause (D.faults disk.old) (D.faults disk.new) result }
{
    let mut bytes = [0; 1];
    disk.read(at, &mut bytes)?;
    Ok(get_gate(&bytes, 0))
}

// Whether the journal ends at a place.
fn is_end<D: Disk>(disk: &mut D, length: u64, header: Header, scan: Scan) -> Result<bool, Failed>
    requires inside { scan.end < length }
    requires told { IfSome (D.content disk.old)
        (λ held. length ≡ Rattle.std.specs.Prelude.length held) }
    ensures ends { IfOk result (λ end. IfSome (D.content disk.old) (λ held. IsTrue end
        ↔ IsEnd header scan.records (drop scan.end held))) }
    ensures content { D.content disk.new ≡ D.content disk.old }
    ensures images { Keeps (D.may_leave disk.old) (D.may_leave disk.new) }
    ensures cause { HasCause (D.faults disk.old) (D.faults disk.new) result }
{
    if read_gate(disk, scan.end)? != 1 {
        return Ok(true);
    }
    if scan.records > 0 {
        return Ok(false);
    }
    // With fewer bytes no generation stands there.
    if length - scan.end < (GATE_BYTES + NUMBER_IN_HEAD) as u64 {
        return Ok(false);
    }
    Ok(read_u32(disk, scan.end + (GATE_BYTES + GENERATION_IN_HEAD) as u64)? < header.generation)
}

// The same, with the memory for them.
fn read_counted<D: Disk>(
    disk: &mut D,
    at: u64,
    bytes: &mut [u8],
    count: u16,
    header: Header,
    number: u64,
) -> Result<bool, Failed>
    requires inside { IfSome (D.content disk.old) (λ held. at + behind_size count ≤ length held) }
    requires size { length bytes.old ≡ behind_size count }
    ensures good { IfOk result (λ found. found ≡ true → IfSome (D.content disk.old)
        (λ held. IsCounted header.pages header.generation number count
        (take (behind_size count) (drop at held)))) }
    ensures bad { IfOk result (λ found. found ≡ false → IfSome (D.content disk.old)
        (λ held. u16_at (take (behind_size count) (drop at held)) COUNT_IN_HEAD ≡ count
        → IsRecord header.pages header.generation number
        (take (behind_size count) (drop at held)) → ⊥)) }
    ensures content { D.content disk.new ≡ D.content disk.old }
    ensures images { Keeps (D.may_leave disk.old) (D.may_leave disk.new) }
    ensures cause { HasCause (D.faults disk.old) (D.faults disk.new) result }
{
    disk.read(at, bytes)?;
    Ok(is_counted(bytes, count, header, number))
}

// So many zeros.
fn zeros(alloc: Global, size: usize) -> Result<Vec<u8>, OutOfMemory>
    ensures { IfOk result (λ bytes. length bytes.items ≡ size) }
{
    let mut bytes = Vec::new(alloc);
    bytes.resize(size, 0)?;
    Ok(bytes)
}

// Whether the bytes at a place are those behind the gate of a lawful record.
fn has_record<D: Disk>(
    alloc: Global,
    disk: &mut D,
    at: u64,
    count: u16,
    header: Header,
    number: u64,
) -> Result<bool, ScanFault>
    requires inside { IfSome (D.content disk.old) (λ held. at + behind_size count ≤ length held) }
    ensures good { IfOk result (λ found. found ≡ true → IfSome (D.content disk.old)
        (λ held. IsCounted header.pages header.generation number count
        (take (behind_size count) (drop at held)))) }
    ensures bad { IfOk result (λ found. found ≡ false → IfSome (D.content disk.old)
        (λ held. u16_at (take (behind_size count) (drop at held)) COUNT_IN_HEAD ≡ count
        → IsRecord header.pages header.generation number
        (take (behind_size count) (drop at held)) → ⊥)) }
    ensures content { D.content disk.new ≡ D.content disk.old }
    ensures images { Keeps (D.may_leave disk.old) (D.may_leave disk.new) }
    ensures later { D.faults disk.old ≤ D.faults disk.new }
    ensures failed { IsErrOf result ScanFault.DiskFault
        → Rose (D.faults disk.old) (D.faults disk.new) }
    ensures kept { OnOk result (D.faults disk.new ≡ D.faults disk.old) }
    ensures not_bad { (at : ℕ) → IsErrOf result (ScanFault.BadRecord at) → ⊥ }
{
    let size = HEAD_BYTES + LOGGED_BYTES * count as usize;
    let mut bytes = zeros(alloc, size)?;
    Ok(read_counted(disk, at, &mut bytes, count, header, number)?)
}

// What stands at a place where the journal doesn't end.
fn read_record<D: Disk>(
    alloc: Global,
    disk: &mut D,
    length: u64,
    header: Header,
    scan: Scan,
) -> Result<Step, ScanFault>
    requires inside { scan.end < length }
    requires numbers { header.base + scan.records + 1 < 2 ^ 64 }
    requires told { IfSome (D.content disk.old)
        (λ held. length ≡ Rattle.std.specs.Prelude.length held) }
    requires more { IfSome (D.content disk.old)
        (λ held. IsEnd header scan.records (drop scan.end held) → ⊥) }
    ensures step { IfOk result (λ step. IfSome (D.content disk.old)
        (λ held. StepIs header scan.records (drop scan.end held) step)) }
    ensures within { IfOk result (λ step. (size : ℕ) → step ≡ Step.Record size
        → (PAGES_IN_RECORD ≤ size) × (scan.end + size < length)) }
    ensures content { D.content disk.new ≡ D.content disk.old }
    ensures images { Keeps (D.may_leave disk.old) (D.may_leave disk.new) }
    ensures later { D.faults disk.old ≤ D.faults disk.new }
    ensures failed { IsErrOf result ScanFault.DiskFault
        → Rose (D.faults disk.old) (D.faults disk.new) }
    ensures kept { OnOk result (D.faults disk.new ≡ D.faults disk.old) }
    ensures not_bad { (at : ℕ) → IsErrOf result (ScanFault.BadRecord at) → ⊥ }
{
    let room = length - scan.end;
    let behind = scan.end + GATE_BYTES as u64;
    let least = PAGES_IN_RECORD as u64;
    if room <= least {
        return Ok(Step::Bad);
    }
    let count = read_u16(disk, behind + COUNT_IN_HEAD as u64)?;
    let size = (PAGES_IN_RECORD + LOGGED_BYTES * count as usize) as u64;
    if room <= size {
        return Ok(Step::Bad);
    }
    let number = header.base + scan.records + 1;
    if !has_record(alloc, disk, behind, count, header, number)? {
        return Ok(Step::Bad);
    }
    Ok(Step::Record { size })
}

/// Reads the open records of a journal, each by three reads. The first closed gate ends it, and so does
/// an open first gate of an older generation. Any other open gate is answered as BadRecord, with its
/// place, exactly where no lawful record stands behind it with a gate behind that.
pub fn scan<D: Disk>(alloc: Global, disk: &mut D, header: Header) -> Result<Scan, ScanFault>
    requires base { header.base ≤ greatest_base }
    requires pages { header.pages ≤ most_pages }
    requires long { IfSome (D.content disk.old) (λ held. journal_at header < length held) }
    ensures records { IfOk result (λ scan. IfSome (D.content disk.old) (IsScanned header scan)) }
    ensures limits { IfOk result (λ scan. (scan.records ≤ scan.end) × (scan.end ≤ longest_disk)) }
    ensures inside { IfOk result (λ scan. IfSome (D.content disk.old)
        (λ held. scan.end < length held)) }
    ensures bad { (at : ℕ) → IsErrOf result (ScanFault.BadRecord at)
        → IfSome (D.content disk.old) (IsBadAt header at) }
    ensures content { D.content disk.new ≡ D.content disk.old }
    ensures images { Keeps (D.may_leave disk.old) (D.may_leave disk.new) }
    ensures later { D.faults disk.old ≤ D.faults disk.new }
    ensures failed { IsErrOf result ScanFault.DiskFault
        → Rose (D.faults disk.old) (D.faults disk.new) }
    ensures kept { OnOk result (D.faults disk.new ≡ D.faults disk.old) }
{
    let length = disk.length()?;
    let mut scan = Scan {
        records: 0,
        end: PAGE_SIZE as u64 * (1 + header.pages as u64),
    };
    if length <= scan.end {
        return Err(ScanFault::BadRecord { at: scan.end });
    }
    loop {
        if is_end(disk, length, header, scan)? {
            return Ok(scan);
        }
        match read_record(alloc, disk, length, header, scan)? {
            Step::Bad => return Err(ScanFault::BadRecord { at: scan.end }),
            Step::Record { size } => {
                scan = Scan {
                    records: scan.records + 1,
                    end: scan.end + size,
                };
            }
        }
    }
}
