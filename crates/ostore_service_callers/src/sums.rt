//! Pages that hold one number each, and a caller that adds to one of them and commits the sum.

ghost use Rattle.std.specs.Prelude.{◌≡◌, ◌≢◌, ◌<◌, ℕ, true, length, IsSome, OnOk, OnErr, IfOk, IfErr, Some, None};
ghost use Rattle.ostore_page_service.specs.Told.{SameRecords, SameService, SameElsewhere, StillServes, InUse, Refuses, OwnedByAnother};

use ostore_base::{OutOfMemory, PageImage, PageNo};
use ostore_page_service::{Busy, CommitFault, Kind, PageClaims, PageService};
use ostore_redo_journal::Record;
use std::alloc::Global;

/// A transaction that adds `amount` to the number of a page, which was `seen`.
#[derive(Clone, Copy, Debug, PartialEq, Eq)]
pub struct Addition {
    pub client: u16,
    pub ordinal: u32,
    pub page: u32,
    pub amount: u8,
    pub seen: u8,
    pub updates: bool,
}

/// The kind of pages whose first byte is a number.
pub struct Sums;

impl Kind for Sums {
    type Entry = Addition;

    ghost use Rattle.ostore_service_callers.specs.Sums.{sums_meaning};

    /// How many pages there are.
    type Script = u32;

    ghost meaning = { sums_meaning };
}

/// Why nothing was added.
#[derive(Clone, Copy, Debug, PartialEq, Eq)]
pub enum AddFault {
    Busy(Busy),
    Commit(CommitFault),
    OutOfMemory,
}

ghost use Rattle.ostore_service_callers.specs.Held.{MayAdd, MayFetch, OwnsNone, OwnsOne, AreEarlier};
ghost use Rattle.ostore_service_callers.specs.Adding.{Adds, AddsNothing, IsWhy, AddsOrFails};

/// Brings a page into use of which the client keeps no copy.
fn fetch<S: PageService<Sums>>(
    service: &mut S,
    page: PageNo,
    into: &mut PageImage,
) -> Result<(), Busy>
    requires range { page.0 < length (S.tells service.old).opened }
    requires free { MayFetch (S.tells service.old).mine page.0 }
    ensures same { SameRecords (S.tells service.old) (S.tells service.new) }
    ensures served { StillServes (S.serves service.old) (S.serves service.new) }
    ensures claimed { OnOk result
        (InUse (S.tells service.old) (S.tells service.new) page.0 into.new) }
    ensures owned { OnOk result (OwnsNone (S.tells service.new).mine) }
    ensures refused { IfErr result
        (Refuses (S.tells service.old) (S.tells service.new) page.0) }
    ensures met { OnErr result (OwnedByAnother (S.tells service.old) page.0) }
{
    service.claim_read(page, into)?;
    Ok(())
}

/// Commits the sum of a page's number and the amount, and puts it into the image.
fn commit_sum<S: PageService<Sums>>(
    alloc: Global,
    service: &mut S,
    turn: S::Turn,
    ordinal: u32,
    page: PageNo,
    amount: u8,
    image: &mut PageImage,
) -> Result<u64, AddFault>
    requires room { 0 < (S.tells service.old).mine.room }
    requires writer { (S.tells service.old).may_write ≡ true }
    requires ordinal { ordinal ≢ 0 }
    requires earlier { AreEarlier (S.tells service.old).mine.records ordinal }
    requires held { (S.tells service.old).mine.held page.0 ≡ Some image.old }
    requires owned { OwnsOne (S.tells service.old).mine page.0 }
    requires served { (s : ℕ) × S.serves service.old s }
    ensures service { SameService (S.tells service.old) (S.tells service.new) }
    ensures held { IsSome ((S.tells service.new).mine.held page.0) }
    ensures sum { OnOk result ((S.tells service.new).mine.held page.0 ≡ Some image.new) }
    ensures elsewhere { SameElsewhere (S.tells service.old).mine (S.tells service.new).mine page.0 }
    ensures done { AddsOrFails (S.tells service.old) (S.tells service.new)
        ordinal page.0 amount result }
{
    let client = service.client();
    let seen = image.bytes[0];
    image.bytes[0] = seen.wrapping_add(amount);
    let Ok(mut rec) = Record::new(alloc, client, ordinal, 1) else {
        return Err(AddFault::OutOfMemory);
    };
    rec.add(page, image);
    let entry = Addition {
        client: client.0,
        ordinal,
        page: page.0,
        amount,
        seen,
        updates: true,
    };
    match service.commit(turn, &mut rec, entry) {
        Ok(number) => Ok(number),
        Err(fault) => Err(AddFault::Commit(fault)),
    }
}

/// Adds to a page's number and commits the sum. Whatever comes, the page is then in use no more. Busy and a
/// commit's fault are the service's own, and after a fault nothing is recorded.
pub fn add<S: PageService<Sums>>(
    alloc: Global,
    service: &mut S,
    turn: S::Turn,
    ordinal: u32,
    page: PageNo,
    amount: u8,
) -> Result<u64, AddFault>
    requires range { page.0 < length (S.tells service.old).opened }
    requires writer { (S.tells service.old).may_write ≡ true }
    requires ordinal { ordinal ≢ 0 }
    requires may { MayAdd (S.tells service.old).mine page.0 ordinal }
    requires served { (s : ℕ) × S.serves service.old s }
    ensures service { SameService (S.tells service.old) (S.tells service.new) }
    ensures ended { (S.tells service.new).mine.held page.0 ≡ None }
    ensures elsewhere { SameElsewhere (S.tells service.old).mine (S.tells service.new).mine page.0 }
    ensures done { AddsOrFails (S.tells service.old) (S.tells service.new)
        ordinal page.0 amount result }
{
    let Ok(()) = service.reserve() else {
        return Err(AddFault::OutOfMemory);
    };
    let mut image = PageImage::zeroed();
    if let Err(busy) = fetch(service, page, &mut image) {
        return Err(AddFault::Busy(busy));
    }
    if let Err(busy) = service.claim_own(page) {
        service.release(page);
        return Err(AddFault::Busy(busy));
    }
    let result = commit_sum(alloc, service, turn, ordinal, page, amount, &mut image);
    service.release(page);
    result
}
