//! Fields of headers, read and written through a holder of pages.

ghost use Rattle.std.specs.Prelude.{◌≡◌, ◌+◌, ◌*◌, ◌-◌, true, OnOk, IfOk, IfErr};
ghost use Rattle.byteorder.specs.Endian.{little_bytes};
ghost use Rattle.ostore_page_tags.specs.PageLists.{header_at, first_of, with_bytes};
ghost use Rattle.ostore_page_tags.specs.declared.layout.TheConstants.{FRONT_PAGE};
ghost use Rattle.ostore_page_tags.specs.PageChains.{IsSegment};
ghost use Rattle.ostore_page_tags.specs.Allocated.{IsAllocated};
ghost use Rattle.ostore_segments.specs.Holdings.{Stands, Becomes, Sees, BringsOnly, OwnsOnly, Rests};
ghost use Rattle.ostore_segments.specs.Edits.{CanPut};
ghost use Rattle.ostore_segments.specs.inside.Fields.{HasHeaderAt};

use crate::pages::Pages;
use ostore_base::PageNo;
use ostore_page_tags::layout::{FIRST_PAGE_BYTES, FIRST_PAGES_AT, FRONT_PAGE};
use ostore_page_tags::{PageHeader, get_u32, header};

/// The page that says where all else begins.
pub(crate) const FRONT: PageNo = PageNo(FRONT_PAGE);

/// Where the first page of a segment stands on page 0.
pub(crate) fn first_place(segment: u8) -> u16
    requires { IsSegment segment }
    ensures { result ≡ FIRST_PAGES_AT + FIRST_PAGE_BYTES * (segment - 1) }
{
    FIRST_PAGES_AT + FIRST_PAGE_BYTES * (u16::from(segment) - 1)
}

/// The header of a page with a header.
pub(crate) fn header_at<P: Pages>(pages: &mut P, page: PageNo) -> Result<PageHeader, P::Fault>
    requires { Stands (P.held pages.old) (λ list. HasHeaderAt list page.0) }
    ensures seen { IfOk result (λ header. Becomes (P.held pages.old) (P.held pages.new)
        (Sees (λ list. header_at list page.0 ≡ header))) }
    ensures passes { OnOk result (P.passes pages.old pages.new) }
    ensures brings { OnOk result (BringsOnly (P.held pages.old) (P.held pages.new)
        (λ named. named ≡ page.0)) }
    ensures owns { OnOk result (OwnsOnly (P.held pages.old) (P.held pages.new) (λ named. ⊥)) }
    ensures fails { IfErr result (λ fault. P.fails pages.old fault pages.new) }
    ensures stays { IfErr result (λ fault. P.stays fault
        → Rests (P.held pages.old) (P.held pages.new)) }
    ensures told { P.told pages.new ≡ P.told pages.old }
{
    pages.enter(page)?;
    Ok(header(pages.image(page)))
}

/// The first page of a segment, 0 for none.
pub(crate) fn first_of<P: Pages>(pages: &mut P, segment: u8) -> Result<u32, P::Fault>
    requires segment { IsSegment segment }
    requires allocated { Stands (P.held pages.old) IsAllocated }
    ensures seen { IfOk result (λ first. Becomes (P.held pages.old) (P.held pages.new)
        (Sees (λ list. first_of list segment ≡ first))) }
    ensures passes { OnOk result (P.passes pages.old pages.new) }
    ensures brings { OnOk result (BringsOnly (P.held pages.old) (P.held pages.new)
        (λ named. named ≡ FRONT_PAGE)) }
    ensures owns { OnOk result (OwnsOnly (P.held pages.old) (P.held pages.new) (λ named. ⊥)) }
    ensures fails { IfErr result (λ fault. P.fails pages.old fault pages.new) }
    ensures stays { IfErr result (λ fault. P.stays fault
        → Rests (P.held pages.old) (P.held pages.new)) }
    ensures told { P.told pages.new ≡ P.told pages.old }
{
    pages.enter(FRONT)?;
    Ok(get_u32(pages.image(FRONT), first_place(segment)))
}

/// Writes a number of 4 bytes in a page.
pub(crate) fn put_number<P: Pages>(
    pages: &mut P,
    page: PageNo,
    at: u16,
    value: u32,
) -> Result<(), P::Fault>
    requires may { (P.told pages.old).may_edit ≡ true }
    requires puts { Stands (P.held pages.old)
        (CanPut (P.told pages.old) page.0 at (little_bytes 4 value)) }
    ensures lists { OnOk result (Becomes (P.held pages.old) (P.held pages.new)
        (λ old new. new ≡ with_bytes old page.0 at (little_bytes 4 value))) }
    ensures passes { OnOk result (P.passes pages.old pages.new) }
    ensures brings { OnOk result (BringsOnly (P.held pages.old) (P.held pages.new)
        (λ named. named ≡ page.0)) }
    ensures owns { OnOk result (OwnsOnly (P.held pages.old) (P.held pages.new)
        (λ named. named ≡ page.0)) }
    ensures fails { IfErr result (λ fault. P.fails pages.old fault pages.new) }
    ensures stays { IfErr result (λ fault. P.stays fault
        → Rests (P.held pages.old) (P.held pages.new)) }
    ensures told { P.told pages.new ≡ P.told pages.old }
{
    pages.edit(page, at, &value.to_le_bytes())
}
