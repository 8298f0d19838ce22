//! What the first bytes of a database say.

ghost use Rattle.std.specs.Prelude.{◌≡◌, ◌+◌, ◌*◌, ◌%◌, ◌<◌, ◌≤◌, ◌⊎◌, ◌↔◌, ℕ, [], ◌∷◌, length, take, IsTrue, IfOk, IfSome, OnOk, IsErrOf};
ghost use Rattle.ostore_base.specs.Faults.{Rose};
ghost use Rattle.ostore_base.specs.Images.{Keeps};
ghost use Rattle.ostore_base.specs.Limits.{least_pages, most_pages};
ghost use Rattle.ostore_base.specs.declared.page.TheConstants.{PAGE_SIZE};
ghost use Rattle.ostore_redo_journal.specs.declared.layout.TheConstants.{NAME_BYTES, FORMAT_AT, SLOT_A_AT, SLOT_B_AT, GENERATION_IN_SLOT};
ghost use Rattle.ostore_redo_journal.specs.Limits.{greatest_base};
ghost use Rattle.ostore_redo_journal.specs.Records.{u32_at};
ghost use Rattle.ostore_redo_journal.specs.Headers.{SlotCounts, IsCurrent, IsOurs, IsPlaced, HasHeader, IsNotDatabase, IsNewer, IsBadBase, journal_at, front_of, database_name};
ghost use Rattle.ostore_redo_journal.specs.declared.header.HeaderFault.TheVariants.{DiskFault, NotDatabase, NewerFormat, BadRecord};

use crate::layout::{
    BASE_IN_SLOT, FORMAT_AT, GENERATION_IN_SLOT, NAME_BYTES, PAGES_AT, SLOT_A_AT, SLOT_B_AT,
};
use crate::numbers::{get_gate, get_u32, get_u64};
use ostore_base::{Disk, Failed, MAX_PAGES, PAGE_SIZE};
use thiserror::Error;

/// What the header of a database says: how many pages it has, the generation of its journal, and the
/// number of the last commit before the journal's first record.
#[derive(Clone, Copy, Debug, PartialEq, Eq)]
pub struct Header {
    pub pages: u32,
    pub generation: u32,
    pub base: u64,
}

/// How many records the journal has, and the place of the gate behind the last one, in bytes from the
/// disk's start.
#[derive(Clone, Copy, Debug, PartialEq, Eq)]
pub struct Scan {
    pub records: u64,
    pub end: u64,
}

/// Why a header was not read.
#[derive(Clone, Copy, Debug, PartialEq, Eq, Error)]
pub enum HeaderFault {
    /// The bytes are none of a database.
    #[error("no database")]
    NotDatabase,
    /// The bytes have a newer format.
    #[error("a newer format")]
    NewerFormat,
    /// The base in the slot at this place is too great.
    #[error("bad record at {at}")]
    BadRecord { at: u64 },
    /// The disk failed.
    #[error("the disk failed")]
    DiskFault,
}

impl From<Failed> for HeaderFault {
    ghost from_gives = { λ _ e. e ≡ DiskFault };

    fn from(_failed: Failed) -> HeaderFault {
        HeaderFault::DiskFault
    }
}

/// The fewest pages that a database has.
const LEAST_PAGES: u32 = 11;

/// The greatest base.
const GREATEST_BASE: u64 = 1 << 62;

// Whether a slot with this gate and generation counts, by its remainder by 2.
fn counts(gate: u8, generation: u32, parity: u32) -> bool
    ensures { IsTrue result ↔ ((gate ≡ 1) × (0 < generation) × (generation % 2 ≡ parity)) }
{
    gate == 1 && generation > 0 && generation % 2 == parity
}

// Whether the slot at a place counts. Its generation has this remainder by 2.
fn slot_counts(front: &[u8], at: usize, parity: u32) -> bool
    requires inside { at + GENERATION_IN_SLOT + 4 ≤ length front.now }
    requires parity { parity < 2 }
    ensures { IsTrue result ↔ SlotCounts front.now at parity }
{
    counts(
        get_gate(front, at),
        get_u32(front, at + GENERATION_IN_SLOT),
        parity,
    )
}

// Whether a slot counts.
fn has_slot(front: &[u8]) -> bool
    requires { length front.now ≡ PAGE_SIZE }
    ensures { IsTrue result
        ↔ (SlotCounts front.now SLOT_A_AT 1 ⊎ SlotCounts front.now SLOT_B_AT 0) }
{
    slot_counts(front, SLOT_A_AT, 1) || slot_counts(front, SLOT_B_AT, 0)
}

// The place of the current slot.
#[tactic(auto, using(crate::proofs::Slots::first_current, crate::proofs::Slots::second_current))]
fn current_slot(front: &[u8]) -> usize
    requires size { length front.now ≡ PAGE_SIZE }
    requires some { SlotCounts front.now SLOT_A_AT 1 ⊎ SlotCounts front.now SLOT_B_AT 0 }
    ensures current { IsCurrent front.now result }
    ensures within { result ≤ SLOT_B_AT }
{
    if !slot_counts(front, SLOT_A_AT, 1) {
        return SLOT_B_AT;
    }
    if !slot_counts(front, SLOT_B_AT, 0) {
        return SLOT_A_AT;
    }
    if get_u32(front, SLOT_A_AT + GENERATION_IN_SLOT)
        < get_u32(front, SLOT_B_AT + GENERATION_IN_SLOT)
    {
        return SLOT_B_AT;
    }
    SLOT_A_AT
}

// Whether the bytes begin with the name of this database.
fn has_name(front: &[u8]) -> bool
    requires { length front.now ≡ PAGE_SIZE }
    ensures { IsTrue result ↔ (take NAME_BYTES front.now ≡ database_name) }
{
    let name = &front[..NAME_BYTES];
    name == b"OSPAGES1".as_slice()
}

// Whether these are the bytes of a database of some format.
fn is_ours(front: &[u8], size: u64) -> bool
    requires { length front.now ≡ PAGE_SIZE }
    ensures { IsTrue result ↔ IsOurs front.now size }
{
    size >= PAGE_SIZE as u64 && has_name(front) && get_u32(front, FORMAT_AT) > 0
}

// Whether so many pages fit a database of this size.
fn fits(pages: u32, size: u64) -> bool
    ensures { IsTrue result ↔ ((least_pages ≤ pages) × (pages ≤ most_pages)
        × (PAGE_SIZE * (1 + pages) < size)) }
{
    (LEAST_PAGES..=MAX_PAGES as u32).contains(&pages)
        && PAGE_SIZE as u64 * (1 + pages as u64) < size
}

// Whether the pages fit, and a slot counts.
fn is_placed(front: &[u8], size: u64) -> bool
    requires { length front.now ≡ PAGE_SIZE }
    ensures { IsTrue result ↔ IsPlaced front.now size }
{
    fits(get_u32(front, PAGES_AT), size) && has_slot(front)
}

// What the header of a disk of this length says.
fn judge(front: &[u8], size: u64) -> Result<Header, HeaderFault>
    requires { length front.now ≡ PAGE_SIZE }
    ensures whole { length front.now ≡ PAGE_SIZE }
    ensures header { IfOk result (λ h. HasHeader front.now h × (journal_at h < size)) }
    ensures not_database { IsErrOf result NotDatabase → IsNotDatabase front.now size }
    ensures newer { IsErrOf result NewerFormat → IsNewer front.now size }
    ensures bad { (at : ℕ) → IsErrOf result (BadRecord at) → IsBadBase front.now size at }
    ensures no_disk { IsErrOf result DiskFault → ⊥ }
{
    if !is_ours(front, size) {
        return Err(HeaderFault::NotDatabase);
    }
    let format = get_u32(front, FORMAT_AT);
    if format > 1 {
        return Err(HeaderFault::NewerFormat);
    }
    if !is_placed(front, size) {
        return Err(HeaderFault::NotDatabase);
    }
    read_slot(front, size)
}

// What the current slot says, of the bytes of a database in format 1.
#[tactic(auto, using(crate::proofs::Slots::bad_base, crate::proofs::Slots::has_header))]
fn read_slot(front: &[u8], size: u64) -> Result<Header, HeaderFault>
    requires whole { length front.now ≡ PAGE_SIZE }
    requires ours { IsOurs front.now size }
    requires format { u32_at front.now FORMAT_AT ≤ 1 }
    requires placed { IsPlaced front.now size }
    ensures header { IfOk result (λ h. HasHeader front.now h × (journal_at h < size)) }
    ensures bad { (at : ℕ) → IsErrOf result (BadRecord at) → IsBadBase front.now size at }
    ensures only { (IsErrOf result DiskFault → ⊥) × (IsErrOf result NotDatabase → ⊥)
        × (IsErrOf result NewerFormat → ⊥) }
{
    let at = current_slot(front);
    let base = get_u64(front, at + BASE_IN_SLOT);
    if base > GREATEST_BASE {
        return Err(HeaderFault::BadRecord { at: at as u64 });
    }
    Ok(Header {
        pages: get_u32(front, PAGES_AT),
        generation: get_u32(front, at + GENERATION_IN_SLOT),
        base,
    })
}

/// Reads the header of a database. Its refusals are exactly by the bytes and the length, in the order
/// of the four clauses: bytes that aren't ours, a newer format, no place for the pages or no slot that
/// counts, and a base above 2^62.
pub fn read_header<D: Disk>(disk: &mut D) -> Result<Header, HeaderFault>
    ensures header { IfOk result (λ h. IfSome (D.content disk.old)
        (λ held. HasHeader (front_of held) h × (journal_at h < length held))) }
    ensures limits { IfOk result (λ h. (least_pages ≤ h.pages) × (h.pages ≤ most_pages)
        × (h.base ≤ greatest_base)) }
    ensures not_database { IsErrOf result NotDatabase → IfSome (D.content disk.old)
        (λ held. IsNotDatabase (front_of held) (length held)) }
    ensures newer { IsErrOf result NewerFormat → IfSome (D.content disk.old)
        (λ held. IsNewer (front_of held) (length held)) }
    ensures bad { (at : ℕ) → IsErrOf result (BadRecord at) → IfSome (D.content disk.old)
        (λ held. IsBadBase (front_of held) (length held) at) }
    ensures content { D.content disk.new ≡ D.content disk.old }
    ensures images { Keeps (D.may_leave disk.old) (D.may_leave disk.new) }
    ensures later { D.faults disk.old ≤ D.faults disk.new }
    ensures disk { IsErrOf result DiskFault → Rose (D.faults disk.old) (D.faults disk.new) }
    ensures kept { OnOk result (D.faults disk.new ≡ D.faults disk.old) }
{
    let size = disk.length()?;
    if size < PAGE_SIZE as u64 {
        return Err(HeaderFault::NotDatabase);
    }
    let mut front = [0; PAGE_SIZE];
    disk.read(0, &mut front)?;
    judge(&front, size)
}
