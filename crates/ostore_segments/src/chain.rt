//! The pages of a segment.

ghost use Rattle.std.specs.Prelude.{◌≡◌, map, IfOk, OnOk, IfErr, ⊤};
ghost use Rattle.ostore_page_tags.specs.PageChains.{IsSegment};
ghost use Rattle.ostore_page_tags.specs.Allocated.{IsAllocated, HasChain};
ghost use Rattle.ostore_segments.specs.Holdings.{Stands, Becomes, Sees, BringsOnEach, OwnsOnly, BreaksOff};
ghost use Rattle.ostore_segments.specs.Listing.{MatchPagesOfFault};
ghost use Rattle.ostore_segments.specs.Naming.{IsNamedIn};

use crate::fields::{first_of, header_at};
use crate::pages::Pages;
use ostore_base::{MAX_PAGES, OutOfMemory, PageNo, PageNos};
use std::alloc::Global;

/// Why the pages of a segment can't be listed.
#[derive(Clone, Copy, Debug)]
pub enum PagesOfFault<F> {
    /// A page couldn't be had.
    Fault(F),
    /// Memory was wanted and refused.
    OutOfMemory(OutOfMemory),
}

/// The pages of a segment, in the order of its chain. Where memory is refused, each call of the holder answered
/// Ok, and nothing has changed.
pub fn pages_of<P: Pages>(
    alloc: Global,
    pages: &mut P,
    segment: u8,
) -> Result<PageNos, PagesOfFault<P::Fault>>
    requires segment { IsSegment segment }
    requires allocated { Stands (P.held pages.old) IsAllocated }
    ensures lists { IfOk result (λ found. Becomes (P.held pages.old) (P.held pages.new)
        (Sees (λ list. HasChain list segment (map (λ page. page.0) found)))) }
    ensures passes { OnOk result (P.passes pages.old pages.new) }
    ensures fails { IfErr result (λ why. MatchPagesOfFault why
        (λ fault. P.fails pages.old fault pages.new) (P.passes pages.old pages.new)) }
    ensures brings { OnOk result (BringsOnEach (P.held pages.old) (P.held pages.new)
        (λ list. IsNamedIn list segment)) }
    ensures owns { OnOk result (OwnsOnly (P.held pages.old) (P.held pages.new) (λ named. ⊥)) }
    ensures stays { IfErr result (λ why. MatchPagesOfFault why
        (λ fault. P.stays fault → BreaksOff (P.held pages.old) (P.held pages.new)
        (λ list. IsNamedIn list segment)) ⊤) }
    ensures memory { IfErr result (λ why. MatchPagesOfFault why (λ _. ⊤)
        (Becomes (P.held pages.old) (P.held pages.new) (λ old new. new ≡ old))) }
    ensures told { P.told pages.new ≡ P.told pages.old }
{
    let mut found = PageNos::new(alloc);
    let mut page = match first_of(pages, segment) {
        Ok(first) => first,
        Err(fault) => return Err(PagesOfFault::Fault(fault)),
    };
    for _walked in 0..MAX_PAGES {
        if page == 0 {
            return Ok(found);
        }
        let header = match header_at(pages, PageNo(page)) {
            Ok(header) => header,
            Err(fault) => return Err(PagesOfFault::Fault(fault)),
        };
        match found.push(PageNo(page)) {
            Ok(()) => {}
            Err(fault) => return Err(PagesOfFault::OutOfMemory(fault)),
        }
        page = header.next;
    }
    Ok(found)
}
