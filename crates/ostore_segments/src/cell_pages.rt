//! Pages whose cells are reached by resident pointers and changed.

ghost use Rattle.std.specs.Prelude.{◌≡◌, ◌<◌, ◌+◌, ◌*◌, ◌%◌, true, length, Some, OnOk, IfErr, IsSome};
ghost use Rattle.ostore_base.specs.declared.page.TheConstants.{PAGE_SIZE};
ghost use Rattle.ostore_page_tags.specs.Limits.{most_pages};
ghost use Rattle.ostore_page_tags.specs.PageLists.{with_bytes};
ghost use Rattle.ostore_segments.specs.Holdings.{Stands, Becomes, BringsOnly, OwnsOnly, Rests};
ghost use Rattle.ostore_segments.specs.Edits.{HasBytesInCell};

use crate::pages::Pages;
use ostore_base::PageNo;

/// A holder of pages whose cells are reached by resident pointers. A resident pointer and the stored one for
/// which it stands lead to the same place of the same page.
pub trait CellPages: Pages {
    /// The page that a resident pointer leads to.
    fn page_at(&self, pointer: u32) -> PageNo
        requires { IsSome ((Self.held self.now).home pointer) }
        ensures { (Self.held self.now).home pointer
            ≡ Some (result.0 * PAGE_SIZE + pointer % PAGE_SIZE) };

    /// The resident pointer to a place of a page in view.
    fn pointer_to(&self, page: PageNo, at: u16) -> u32
        requires view { (Self.held self.now).in_view page.0 }
        requires low { page.0 < most_pages }
        requires within { at < PAGE_SIZE }
        ensures { (Self.held self.now).home result ≡ Some (page.0 * PAGE_SIZE + at) };

    /// Replaces bytes of a live cell that are none of its pointers'. The cell begins at `offset`, and the bytes
    /// at a place that counts from the cell's start. The page may come into view.
    fn edit_cell(
        &mut self,
        page: PageNo,
        offset: u16,
        at: u16,
        bytes: &[u8],
    ) -> Result<(), Self::Fault>
        requires may { (Self.told self.old).may_edit ≡ true }
        requires there { Stands (Self.held self.old)
            (HasBytesInCell (Self.told self.old) page.0 offset at (length bytes.now)) }
        ensures lists { OnOk result (Becomes (Self.held self.old) (Self.held self.new)
            (λ old new. new ≡ with_bytes old page.0 (offset + at) bytes.now)) }
        ensures passes { OnOk result (Self.passes self.old self.new) }
        ensures brings { OnOk result (BringsOnly (Self.held self.old) (Self.held self.new)
            (λ named. named ≡ page.0)) }
        ensures owns { OnOk result (OwnsOnly (Self.held self.old) (Self.held self.new)
            (λ named. named ≡ page.0)) }
        ensures fails { IfErr result (λ fault. Self.fails self.old fault self.new) }
        ensures stays { IfErr result (λ fault. Self.stays fault
            → Rests (Self.held self.old) (Self.held self.new)) }
        ensures told { Self.told self.new ≡ Self.told self.old };
}
