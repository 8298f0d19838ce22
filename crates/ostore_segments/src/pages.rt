//! The pages that segments stand on.

ghost use Rattle.std.specs.Prelude.{◌≡◌, ◌<◌, true, OnOk, IfErr, IsSome, length};
ghost use Rattle.ostore_page_tags.specs.Limits.{most_roots};
ghost use Rattle.ostore_page_tags.specs.PageLists.{with_bytes};
ghost use Rattle.ostore_segments.specs.Holdings.{PagesTold, PagesHeld, Stands, Becomes, BringsOnly, OwnsOnly, Rests};
ghost use Rattle.ostore_segments.specs.Seen.{Shows};
ghost use Rattle.ostore_segments.specs.Edits.{CanPut, HasPointer, IsRootAsked, stored_or_null, with_pointer_at, with_root};

use ostore_base::{PageImage, PageNo};
use ostore_page_tags::layout::ROOTS_PAGE;

/// The pages of a database, as they are seen and changed by one attempt. The holder knows only the pages that
/// it has looked at, so it may stand for several lists of pages. A call may rule out some of them, never all,
/// and what it answers holds of each that is left. All lists have one length.
///
/// Pointers that the holder shows and takes may be resident: `home` says for which stored one each stands.
/// After a fault nothing is told of the lists, but where `stays` says that this fault leaves all as it was. What
/// else holds then, as that a count of faults rose, each holder says by `fails`, and by `passes` what holds after
/// calls that were Ok. Code for any holder knows only the laws of these two, so a fault that it answers is one
/// that the holder answered, after calls that were Ok.
///
/// A call that answers Ok brings no page into view but the one that it is on, and owns no page but the one that it
/// edits: a page is owned once it was claimed for writing.
pub trait Pages {
    /// Why a page can't be had.
    type Fault;

    /// The sizes and pointers of cells by their codes, whether pages may be changed, and the borrows behind
    /// the holder.
    ghost told: { Self → PagesTold };

    /// The lists for which it may stand, the pages in view, and the homes of resident pointers.
    ghost held: { Self → PagesHeld };

    /// What holds from one moment to a later one where each call between them answered Ok.
    ghost passes: { Self → Self → Type 0 };

    /// What holds from one moment to a later one where the last call between them answered this fault, and each
    /// one before it Ok.
    ghost fails: { Self → Self.Fault → Self → Type 0 };

    /// The faults that leave all as it was before the call that answered them.
    ghost stays: { Self.Fault → Type 0 };

    /// Brings a page into view, where it stays.
    fn enter(&mut self, page: PageNo) -> Result<(), Self::Fault>
        requires { Stands (held self.old) (λ list. page.0 < length list) }
        ensures lists { OnOk result (Becomes (held self.old) (held self.new)
            (λ old new. new ≡ old)) }
        ensures view { OnOk result ((held self.new).in_view page.0) }
        ensures passes { OnOk result (passes self.old self.new) }
        ensures brings { OnOk result (BringsOnly (held self.old) (held self.new)
            (λ named. named ≡ page.0)) }
        ensures owns { OnOk result (OwnsOnly (held self.old) (held self.new) (λ named. ⊥)) }
        ensures fails { IfErr result (λ fault. fails self.old fault self.new) }
        ensures stays { IfErr result (λ fault. stays fault
            → Rests (held self.old) (held self.new)) }
        ensures told { told self.new ≡ told self.old };

    /// The image of a page in view. It is the page of each list, but for its pointers, which are resident.
    fn image(&self, page: PageNo) -> &PageImage
        requires { (held self.now).in_view page.0 }
        ensures { Shows (told self.now) (held self.now) page.0 result.now.bytes };

    /// Replaces bytes of a page other than that of roots, beside all cells and tag rows that it has. One cell
    /// of zeros may be added by them, with a row whose code's size is told. The page may come into view.
    fn edit(&mut self, page: PageNo, at: u16, bytes: &[u8]) -> Result<(), Self::Fault>
        requires may { (told self.old).may_edit ≡ true }
        requires puts { Stands (held self.old) (CanPut (told self.old) page.0 at bytes.now) }
        ensures lists { OnOk result (Becomes (held self.old) (held self.new)
            (λ old new. new ≡ with_bytes old page.0 at bytes.now)) }
        ensures passes { OnOk result (passes self.old self.new) }
        ensures brings { OnOk result (BringsOnly (held self.old) (held self.new)
            (λ named. named ≡ page.0)) }
        ensures owns { OnOk result (OwnsOnly (held self.old) (held self.new)
            (λ named. named ≡ page.0)) }
        ensures fails { IfErr result (λ fault. fails self.old fault self.new) }
        ensures stays { IfErr result (λ fault. stays fault
            → Rests (held self.old) (held self.new)) }
        ensures told { told self.new ≡ told self.old };

    /// Replaces a pointer of a live cell by a resident one that leads to a page, or is 0. The page may come into
    /// view.
    fn edit_pointer(&mut self, page: PageNo, at: u16, pointer: u32) -> Result<(), Self::Fault>
        requires may { (told self.old).may_edit ≡ true }
        requires there { Stands (held self.old) (HasPointer (told self.old) page.0 at) }
        requires leads { IsSome ((held self.old).home pointer) }
        ensures lists { let stored = stored_or_null ((held self.old).home pointer) in
            OnOk result (Becomes (held self.old) (held self.new)
            (λ old new. new ≡ with_pointer_at stored page.0 at old)) }
        ensures passes { OnOk result (passes self.old self.new) }
        ensures brings { OnOk result (BringsOnly (held self.old) (held self.new)
            (λ named. named ≡ page.0)) }
        ensures owns { OnOk result (OwnsOnly (held self.old) (held self.new)
            (λ named. named ≡ page.0)) }
        ensures fails { IfErr result (λ fault. fails self.old fault self.new) }
        ensures stays { IfErr result (λ fault. stays fault
            → Rests (held self.old) (held self.new)) }
        ensures told { told self.new ≡ told self.old };

    /// Replaces row `i` of the page of roots by one with a name of at most 31 bytes and a resident pointer
    /// that leads to a page, or is 0. A row with no name is free, and its pointer is 0. The page may come into
    /// view.
    fn edit_root(&mut self, i: u16, name: &[u8], pointer: u32) -> Result<(), Self::Fault>
        requires may { (told self.old).may_edit ≡ true }
        requires there { i < most_roots }
        requires some { Stands (held self.old) (λ list. ROOTS_PAGE < length list) }
        requires row { IsRootAsked name.now pointer }
        requires leads { IsSome ((held self.old).home pointer) }
        ensures lists { let stored = stored_or_null ((held self.old).home pointer) in
            OnOk result (Becomes (held self.old) (held self.new)
            (λ old new. new ≡ with_root i name.now stored old)) }
        ensures passes { OnOk result (passes self.old self.new) }
        ensures brings { OnOk result (BringsOnly (held self.old) (held self.new)
            (λ named. named ≡ ROOTS_PAGE)) }
        ensures owns { OnOk result (OwnsOnly (held self.old) (held self.new)
            (λ named. named ≡ ROOTS_PAGE)) }
        ensures fails { IfErr result (λ fault. fails self.old fault self.new) }
        ensures stays { IfErr result (λ fault. stays fault
            → Rests (held self.old) (held self.new)) }
        ensures told { told self.new ≡ told self.old };

    /// From a moment to itself there is no call.
    ghost passes_at_once: { (a : Self) → passes a a };

    /// Calls that were Ok, and more of them.
    ghost passes_on: { (a b c : Self) → passes a b → passes b c → passes a c };

    /// Calls that were Ok, and then some of which the last one failed.
    ghost fails_later: { (a b c : Self) (fault : Self.Fault)
        → passes a b → fails b fault c → fails a fault c };
}
