//! A new object's cell, over any holder of pages.

ghost use Rattle.std.specs.Prelude.{◌≡◌, ◌+◌, true, Some, IfOk, MatchResult, ⊤, OnOk, IfErr};
ghost use Rattle.ostore_page_tags.specs.declared.layout.TheConstants.{ROW_BYTES};
ghost use Rattle.ostore_page_tags.specs.PageChains.{IsSegment};
ghost use Rattle.ostore_page_tags.specs.Allocated.{IsAllocated};
ghost use Rattle.ostore_segments.specs.Holdings.{Stands, Becomes, BringsOnEach, OwnsOnEach, BreaksOff};
ghost use Rattle.ostore_segments.specs.Serials.{AreLeft, AreSpent};
ghost use Rattle.ostore_segments.specs.Room.{IsPlaced};
ghost use Rattle.ostore_segments.specs.Placing.{FindsNone};
ghost use Rattle.ostore_segments.specs.Naming.{IsNamedIn, IsWantedIn};
ghost use Rattle.ostore_segments.specs.Making.{IsObjectAsked, DrawsAndAdds, Makes};

use crate::cells::add;
use crate::pages::Pages;
use crate::placement::{NoSpace, place};
use crate::serials::draw_serial;
use ostore_base::PageNo;

/// Where a new object's cell is, and the object's serial.
#[derive(Clone, Copy, Debug, PartialEq, Eq)]
pub struct NewCell {
    /// The page.
    pub page: PageNo,
    /// The object's number in its segment.
    pub serial: u32,
    /// Where the cell begins, in bytes from the page's start.
    pub offset: u16,
}

// Draws a serial and adds the cell on a page with room.
fn make_on<P: Pages>(
    pages: &mut P,
    page: PageNo,
    segment: u8,
    size: u16,
    code: u8,
) -> Result<NewCell, P::Fault>
    requires may { (P.told pages.old).may_edit ≡ true }
    requires segment { IsSegment segment }
    requires asked { IsObjectAsked size code }
    requires size { (P.told pages.old).sizes code ≡ Some size }
    requires placed { Stands (P.held pages.old)
        (λ list. IsPlaced list segment (size + ROW_BYTES) page.0) }
    requires left { Stands (P.held pages.old) (λ list. AreLeft list segment) }
    ensures page { IfOk result (λ made. made.page ≡ page) }
    ensures lists { IfOk result (λ made. Becomes (P.held pages.old) (P.held pages.new)
        (λ old new. DrawsAndAdds old new segment page.0 size code made.serial made.offset)) }
    ensures passes { OnOk result (P.passes pages.old pages.new) }
    ensures brings { OnOk result (BringsOnEach (P.held pages.old) (P.held pages.new)
        (λ list. IsNamedIn list segment)) }
    ensures owns { OnOk result (OwnsOnEach (P.held pages.old) (P.held pages.new)
        (λ list. IsNamedIn list segment)) }
    ensures fails { IfErr result (λ fault. P.fails pages.old fault pages.new) }
    ensures stays { IfErr result (λ fault. P.stays fault
        → BreaksOff (P.held pages.old) (P.held pages.new) (λ list. IsNamedIn list segment)) }
    ensures told { P.told pages.new ≡ P.told pages.old }
{
    let serial = draw_serial(pages, segment)?;
    let offset = add(pages, page, size, code, serial)?;
    Ok(NewCell {
        page,
        serial,
        offset,
    })
}

/// Makes an object's cell in a segment: finds its place, draws its serial and adds the cell, in this order. The
/// size is that of the code, which is a type's, and the segment's serials aren't spent. NoSpace comes as from
/// `place`, and then nothing has changed.
pub fn make<P: Pages>(
    pages: &mut P,
    segment: u8,
    size: u16,
    code: u8,
) -> Result<Result<NewCell, NoSpace>, P::Fault>
    requires may { (P.told pages.old).may_edit ≡ true }
    requires segment { IsSegment segment }
    requires asked { IsObjectAsked size code }
    requires size { (P.told pages.old).sizes code ≡ Some size }
    requires allocated { Stands (P.held pages.old) IsAllocated }
    requires left { Stands (P.held pages.old) (λ list. AreSpent list segment → ⊥) }
    ensures lists { IfOk result (λ made. Becomes (P.held pages.old) (P.held pages.new)
        (λ old new. MatchResult made
        (λ cell. Makes old new segment cell.page.0 size code cell.serial cell.offset)
        (λ no. FindsNone old new segment (size + ROW_BYTES)))) }
    ensures why { IfOk result (λ made. MatchResult made (λ _. ⊤)
        (λ no. (no.segment ≡ segment) × (no.need ≡ size + ROW_BYTES))) }
    ensures passes { OnOk result (P.passes pages.old pages.new) }
    ensures brings { OnOk result (BringsOnEach (P.held pages.old) (P.held pages.new)
        (λ list. IsNamedIn list segment)) }
    ensures owns { OnOk result (OwnsOnEach (P.held pages.old) (P.held pages.new)
        (λ list. IsNamedIn list segment)) }
    ensures fails { IfErr result (λ fault. P.fails pages.old fault pages.new) }
    ensures stays { IfErr result (λ fault. P.stays fault
        → BreaksOff (P.held pages.old) (P.held pages.new) (λ list. IsWantedIn list segment)) }
    ensures told { P.told pages.new ≡ P.told pages.old }
{
    match place(pages, segment, size)? {
        Ok(page) => Ok(Ok(make_on(pages, page, segment, size, code)?)),
        Err(no) => Ok(Err(no)),
    }
}
