//! Which page of a segment a cell goes to.

ghost use Rattle.std.specs.Prelude.{◌≡◌, ◌<◌, ◌≤◌, ◌+◌, ◌-◌, ◌*◌, ◌↔◌, true, IsTrue, IfOk, MatchOption, MatchResult, ⊤, OnOk, IfErr};
ghost use Rattle.ostore_base.specs.declared.page.TheConstants.{PAGE_SIZE};
ghost use Rattle.ostore_page_tags.specs.declared.layout.TheConstants.{ROW_BYTES};
ghost use Rattle.ostore_page_tags.specs.Limits.{largest_cell};
ghost use Rattle.ostore_page_tags.specs.PageChains.{IsSegment};
ghost use Rattle.ostore_page_tags.specs.Allocated.{IsAllocated};
ghost use Rattle.ostore_segments.specs.Holdings.{Stands, Becomes, Sees, BringsOnEach, OwnsOnly, OwnsOnEach, BreaksOff};
ghost use Rattle.ostore_segments.specs.Room.{EndsWithRoom, EndsFull, IsFirstWithRoom, LacksRoomAll};
ghost use Rattle.ostore_segments.specs.Placing.{Places, FindsNone};
ghost use Rattle.ostore_segments.specs.Naming.{IsNamedIn, IsWantedIn};

use crate::fields::{first_of, header_at};
use crate::growth::grow;
use crate::pages::Pages;
use ostore_base::{MAX_PAGES, PAGE_SIZE, PageNo};
use ostore_page_tags::PageHeader;
use ostore_page_tags::layout::ROW_BYTES;
use thiserror::Error;

/// No page of a segment has room for a cell and its row, and no page is free.
#[derive(Clone, Copy, Debug, PartialEq, Eq, Error)]
#[error("segment {segment} has no page with {need} free bytes, and no page is free")]
pub struct NoSpace {
    /// The segment.
    pub segment: u8,
    /// The cell's size and 8 for its row, in bytes.
    pub need: u16,
}

// Whether a page of objects with this header has so many free bytes.
fn has_room(header: &PageHeader, need: u16) -> bool
    requires { 0 < need }
    ensures { IsTrue result ↔ need ≤ PAGE_SIZE - ROW_BYTES * header.now.rows - header.now.end }
{
    let used = u32::from(ROW_BYTES) * u32::from(header.rows) + u32::from(header.end);
    used + u32::from(need) <= PAGE_SIZE as u32
}

// The segment's last page, where that has so many free bytes.
fn last_with_room<P: Pages>(
    pages: &mut P,
    segment: u8,
    need: u16,
) -> Result<Option<PageNo>, P::Fault>
    requires some { 0 < need }
    requires segment { IsSegment segment }
    requires allocated { Stands (P.held pages.old) IsAllocated }
    ensures lists { IfOk result (λ found. Becomes (P.held pages.old) (P.held pages.new)
        (Sees (λ list. MatchOption found (EndsFull list segment need)
        (λ page. EndsWithRoom list segment need page.0)))) }
    ensures passes { OnOk result (P.passes pages.old pages.new) }
    ensures brings { OnOk result (BringsOnEach (P.held pages.old) (P.held pages.new)
        (λ list. IsNamedIn list segment)) }
    ensures owns { OnOk result (OwnsOnly (P.held pages.old) (P.held pages.new) (λ named. ⊥)) }
    ensures fails { IfErr result (λ fault. P.fails pages.old fault pages.new) }
    ensures stays { IfErr result (λ fault. P.stays fault
        → BreaksOff (P.held pages.old) (P.held pages.new) (λ list. IsNamedIn list segment)) }
    ensures told { P.told pages.new ≡ P.told pages.old }
{
    let first = first_of(pages, segment)?;
    if first == 0 {
        return Ok(None);
    }
    let last = PageNo(header_at(pages, PageNo(first))?.last_page);
    let header = header_at(pages, last)?;
    if has_room(&header, need) {
        return Ok(Some(last));
    }
    Ok(None)
}

// The first page of the segment's chain with so many free bytes.
fn first_with_room<P: Pages>(
    pages: &mut P,
    segment: u8,
    need: u16,
) -> Result<Option<PageNo>, P::Fault>
    requires some { 0 < need }
    requires segment { IsSegment segment }
    requires allocated { Stands (P.held pages.old) IsAllocated }
    ensures lists { IfOk result (λ found. Becomes (P.held pages.old) (P.held pages.new)
        (Sees (λ list. MatchOption found (LacksRoomAll list segment need)
        (λ page. IsFirstWithRoom list segment need page.0)))) }
    ensures passes { OnOk result (P.passes pages.old pages.new) }
    ensures brings { OnOk result (BringsOnEach (P.held pages.old) (P.held pages.new)
        (λ list. IsNamedIn list segment)) }
    ensures owns { OnOk result (OwnsOnly (P.held pages.old) (P.held pages.new) (λ named. ⊥)) }
    ensures fails { IfErr result (λ fault. P.fails pages.old fault pages.new) }
    ensures stays { IfErr result (λ fault. P.stays fault
        → BreaksOff (P.held pages.old) (P.held pages.new) (λ list. IsNamedIn list segment)) }
    ensures told { P.told pages.new ≡ P.told pages.old }
{
    let mut page = first_of(pages, segment)?;
    for _walked in 0..MAX_PAGES {
        if page == 0 {
            return Ok(None);
        }
        let header = header_at(pages, PageNo(page))?;
        if has_room(&header, need) {
            return Ok(Some(PageNo(page)));
        }
        page = header.next;
    }
    Ok(None)
}

/// Finds a page of a segment with room for a cell of at most 1,000 bytes and its row: the segment's last page
/// where that has room, else a page from the free list, else the first page of its chain with room. NoSpace
/// comes exactly where no page of the segment has that room and the free list is empty, and then nothing has
/// changed.
pub fn place<P: Pages>(
    pages: &mut P,
    segment: u8,
    size: u16,
) -> Result<Result<PageNo, NoSpace>, P::Fault>
    requires may { (P.told pages.old).may_edit ≡ true }
    requires most { size ≤ largest_cell }
    requires segment { IsSegment segment }
    requires allocated { Stands (P.held pages.old) IsAllocated }
    ensures lists { IfOk result (λ placed. Becomes (P.held pages.old) (P.held pages.new)
        (λ old new. MatchResult placed (λ page. Places old new segment (size + ROW_BYTES) page.0)
        (λ no. FindsNone old new segment (size + ROW_BYTES)))) }
    ensures why { IfOk result (λ placed. MatchResult placed (λ _. ⊤)
        (λ no. (no.segment ≡ segment) × (no.need ≡ size + ROW_BYTES))) }
    ensures passes { OnOk result (P.passes pages.old pages.new) }
    ensures brings { OnOk result (BringsOnEach (P.held pages.old) (P.held pages.new)
        (λ list. IsNamedIn list segment)) }
    ensures owns { OnOk result (OwnsOnEach (P.held pages.old) (P.held pages.new)
        (λ list. IsNamedIn list segment)) }
    ensures fails { IfErr result (λ fault. P.fails pages.old fault pages.new) }
    ensures stays { IfErr result (λ fault. P.stays fault
        → BreaksOff (P.held pages.old) (P.held pages.new) (λ list. IsWantedIn list segment)) }
    ensures told { P.told pages.new ≡ P.told pages.old }
{
    let need = size + ROW_BYTES;
    match last_with_room(pages, segment, need)? {
        Some(page) => return Ok(Ok(page)),
        None => {}
    }
    match grow(pages, segment)? {
        Some(page) => return Ok(Ok(page)),
        None => {}
    }
    match first_with_room(pages, segment, need)? {
        Some(page) => Ok(Ok(page)),
        None => Ok(Err(NoSpace { segment, need })),
    }
}
