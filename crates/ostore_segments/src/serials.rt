//! The serials of a segment.

ghost use Rattle.std.specs.Prelude.{◌≡◌, ◌↔◌, true, IsTrue, IfOk, OnOk, IfErr};
ghost use Rattle.ostore_page_tags.specs.PageChains.{IsSegment};
ghost use Rattle.ostore_page_tags.specs.Allocated.{IsAllocated};
ghost use Rattle.ostore_segments.specs.Holdings.{Stands, Becomes, Sees, BringsOnEach, OwnsOnly, OwnsOnEach, BreaksOff};
ghost use Rattle.ostore_segments.specs.Serials.{AreSpent, AreLeft, Draws};
ghost use Rattle.ostore_segments.specs.Naming.{IsPageOf, IsNamedIn};

use crate::fields::{first_of, header_at, put_number};
use crate::pages::Pages;
use ostore_base::PageNo;
use ostore_page_tags::layout::LAST_SERIAL_AT;

/// Whether the segment has a page and has drawn every serial.
pub fn serials_spent<P: Pages>(pages: &mut P, segment: u8) -> Result<bool, P::Fault>
    requires segment { IsSegment segment }
    requires allocated { Stands (P.held pages.old) IsAllocated }
    ensures lists { IfOk result (λ spent. Becomes (P.held pages.old) (P.held pages.new)
        (Sees (λ list. IsTrue spent ↔ AreSpent list segment))) }
    ensures passes { OnOk result (P.passes pages.old pages.new) }
    ensures brings { OnOk result (BringsOnEach (P.held pages.old) (P.held pages.new)
        (λ list. IsNamedIn list segment)) }
    ensures owns { OnOk result (OwnsOnly (P.held pages.old) (P.held pages.new) (λ named. ⊥)) }
    ensures fails { IfErr result (λ fault. P.fails pages.old fault pages.new) }
    ensures stays { IfErr result (λ fault. P.stays fault
        → BreaksOff (P.held pages.old) (P.held pages.new) (λ list. IsNamedIn list segment)) }
    ensures told { P.told pages.new ≡ P.told pages.old }
{
    let first = first_of(pages, segment)?;
    if first == 0 {
        return Ok(false);
    }
    Ok(header_at(pages, PageNo(first))?.last_serial >= u32::MAX)
}

/// Draws the next serial of a segment, the first one being 1. The segment has a page, and its serials aren't
/// spent.
pub fn draw_serial<P: Pages>(pages: &mut P, segment: u8) -> Result<u32, P::Fault>
    requires may { (P.told pages.old).may_edit ≡ true }
    requires segment { IsSegment segment }
    requires allocated { Stands (P.held pages.old) IsAllocated }
    requires left { Stands (P.held pages.old) (λ list. AreLeft list segment) }
    ensures lists { IfOk result (λ serial. Becomes (P.held pages.old) (P.held pages.new)
        (λ old new. Draws old new segment serial)) }
    ensures passes { OnOk result (P.passes pages.old pages.new) }
    ensures brings { OnOk result (BringsOnEach (P.held pages.old) (P.held pages.new)
        (λ list. IsNamedIn list segment)) }
    ensures owns { OnOk result (OwnsOnEach (P.held pages.old) (P.held pages.new)
        (λ list. IsPageOf list segment)) }
    ensures fails { IfErr result (λ fault. P.fails pages.old fault pages.new) }
    ensures stays { IfErr result (λ fault. P.stays fault
        → BreaksOff (P.held pages.old) (P.held pages.new) (λ list. IsNamedIn list segment)) }
    ensures told { P.told pages.new ≡ P.told pages.old }
{
    let first = PageNo(first_of(pages, segment)?);
    let serial = header_at(pages, first)?.last_serial + 1;
    put_number(pages, first, LAST_SERIAL_AT, serial)?;
    Ok(serial)
}
