//! A page from the free list for a segment.

ghost use Rattle.std.specs.Prelude.{◌≡◌, ◌≢◌, [], true, OnOk, IfOk, MatchOption, IfErr};
ghost use Rattle.ostore_page_tags.specs.PageChains.{IsSegment};
ghost use Rattle.ostore_page_tags.specs.Allocated.{IsAllocated, HasFree};
ghost use Rattle.ostore_segments.specs.Holdings.{Stands, Becomes, BringsOnly, BringsOnEach, OwnsOnly, OwnsOnEach, BreaksOff};
ghost use Rattle.ostore_segments.specs.Growth.{Grows};
ghost use Rattle.ostore_segments.specs.Naming.{IsNamedIn, IsWantedIn};
ghost use Rattle.ostore_segments.specs.inside.Fields.{BeginsWith, BeginsBeside, Takes, IsFrontOr};

use crate::fields::{FRONT, first_of, first_place, header_at, put_number};
use crate::pages::Pages;
use ostore_base::PageNo;
use ostore_page_tags::layout::{HEADER_BYTES, KIND_AT, LAST_PAGE_AT, NEXT_AT, OBJECTS_KIND};

/// Where the cells of an empty page of objects end.
const CELLS_END: u8 = HEADER_BYTES as u8;

// Takes the head of the free list off it and makes it an empty page of a segment.
fn take_free<P: Pages>(pages: &mut P, segment: u8, page: PageNo) -> Result<(), P::Fault>
    requires may { (P.told pages.old).may_edit ≡ true }
    requires segment { IsSegment segment }
    requires stands { Stands (P.held pages.old) (λ list. BeginsWith list page.0) }
    ensures lists { OnOk result (Becomes (P.held pages.old) (P.held pages.new)
        (λ old new. Takes old new segment page.0)) }
    ensures passes { OnOk result (P.passes pages.old pages.new) }
    ensures brings { OnOk result (BringsOnly (P.held pages.old) (P.held pages.new)
        (IsFrontOr page.0)) }
    ensures owns { OnOk result (OwnsOnly (P.held pages.old) (P.held pages.new) (IsFrontOr page.0)) }
    ensures fails { IfErr result (λ fault. P.fails pages.old fault pages.new) }
    ensures stays { IfErr result (λ fault. P.stays fault
        → BreaksOff (P.held pages.old) (P.held pages.new) (λ list. IsFrontOr page.0)) }
    ensures told { P.told pages.new ≡ P.told pages.old }
{
    let rest = header_at(pages, page)?.next;
    put_number(pages, FRONT, NEXT_AT, rest)?;
    pages.edit(page, KIND_AT, &[OBJECTS_KIND, segment, 0, 0, CELLS_END, 0])?;
    put_number(pages, page, NEXT_AT, 0)
}

// Makes the head of the free list the one page of a segment.
fn begin_chain<P: Pages>(pages: &mut P, segment: u8, page: PageNo) -> Result<(), P::Fault>
    requires may { (P.told pages.old).may_edit ≡ true }
    requires segment { IsSegment segment }
    requires stands { Stands (P.held pages.old) (λ list. BeginsBeside list segment page.0 0) }
    ensures lists { OnOk result (Becomes (P.held pages.old) (P.held pages.new)
        (λ old new. Grows old new segment page.0)) }
    ensures passes { OnOk result (P.passes pages.old pages.new) }
    ensures brings { OnOk result (BringsOnly (P.held pages.old) (P.held pages.new)
        (IsFrontOr page.0)) }
    ensures owns { OnOk result (OwnsOnly (P.held pages.old) (P.held pages.new) (IsFrontOr page.0)) }
    ensures fails { IfErr result (λ fault. P.fails pages.old fault pages.new) }
    ensures stays { IfErr result (λ fault. P.stays fault
        → BreaksOff (P.held pages.old) (P.held pages.new) (λ list. IsFrontOr page.0)) }
    ensures told { P.told pages.new ≡ P.told pages.old }
{
    take_free(pages, segment, page)?;
    put_number(pages, FRONT, first_place(segment), page.0)?;
    put_number(pages, page, LAST_PAGE_AT, page.0)
}

// Adds the head of the free list to the end of a segment's chain.
fn extend_chain<P: Pages>(
    pages: &mut P,
    segment: u8,
    page: PageNo,
    first: PageNo,
) -> Result<(), P::Fault>
    requires may { (P.told pages.old).may_edit ≡ true }
    requires segment { IsSegment segment }
    requires some { first.0 ≢ 0 }
    requires stands { Stands (P.held pages.old) (λ list. BeginsBeside list segment page.0 first.0) }
    ensures lists { OnOk result (Becomes (P.held pages.old) (P.held pages.new)
        (λ old new. Grows old new segment page.0)) }
    ensures passes { OnOk result (P.passes pages.old pages.new) }
    ensures brings { OnOk result (BringsOnEach (P.held pages.old) (P.held pages.new)
        (λ list. IsNamedIn list segment)) }
    ensures owns { OnOk result (OwnsOnEach (P.held pages.old) (P.held pages.new)
        (λ list. IsNamedIn list segment)) }
    ensures fails { IfErr result (λ fault. P.fails pages.old fault pages.new) }
    ensures stays { IfErr result (λ fault. P.stays fault
        → BreaksOff (P.held pages.old) (P.held pages.new) (λ list. IsWantedIn list segment)) }
    ensures told { P.told pages.new ≡ P.told pages.old }
{
    let last = PageNo(header_at(pages, first)?.last_page);
    take_free(pages, segment, page)?;
    put_number(pages, last, NEXT_AT, page.0)?;
    put_number(pages, first, LAST_PAGE_AT, page.0)
}

/// Moves the head of the free list to the end of a segment's chain. None comes exactly where the free list is
/// empty, and then nothing has changed.
pub fn grow<P: Pages>(pages: &mut P, segment: u8) -> Result<Option<PageNo>, P::Fault>
    requires may { (P.told pages.old).may_edit ≡ true }
    requires segment { IsSegment segment }
    requires allocated { Stands (P.held pages.old) IsAllocated }
    ensures lists { IfOk result (λ grown. Becomes (P.held pages.old) (P.held pages.new)
        (λ old new. MatchOption grown ((new ≡ old) × HasFree old [])
        (λ page. Grows old new segment page.0))) }
    ensures passes { OnOk result (P.passes pages.old pages.new) }
    ensures brings { OnOk result (BringsOnEach (P.held pages.old) (P.held pages.new)
        (λ list. IsNamedIn list segment)) }
    ensures owns { OnOk result (OwnsOnEach (P.held pages.old) (P.held pages.new)
        (λ list. IsNamedIn list segment)) }
    ensures fails { IfErr result (λ fault. P.fails pages.old fault pages.new) }
    ensures stays { IfErr result (λ fault. P.stays fault
        → BreaksOff (P.held pages.old) (P.held pages.new) (λ list. IsWantedIn list segment)) }
    ensures told { P.told pages.new ≡ P.told pages.old }
{
    let head = header_at(pages, FRONT)?.next;
    if head == 0 {
        return Ok(None);
    }
    let page = PageNo(head);
    let first = first_of(pages, segment)?;
    if first == 0 {
        begin_chain(pages, segment, page)?;
        return Ok(Some(page));
    }
    extend_chain(pages, segment, page, PageNo(first))?;
    Ok(Some(page))
}
