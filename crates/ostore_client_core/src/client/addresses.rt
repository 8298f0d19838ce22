//! What a client is asked by address.

ghost use Rattle.std.specs.Prelude.{◌≡◌, ◌≤◌, ◌<◌, ◌+◌, ◌/◌, ◌%◌, true, nat_eq, length, Err, IsSome, IfSome, IfErr, OnOk};
ghost use Rattle.std.specs.Map.{set_value};
ghost use Rattle.ostore_base.specs.declared.page.TheConstants.{PAGE_SIZE};
ghost use Rattle.ostore_address_space.specs.Frames.{page_in};
ghost use Rattle.ostore_page_service.specs.Told.{SameRecords, StillServes, NoBusy};
ghost use Rattle.ostore_client_cache.specs.Entries.{is_owned, with_bytes};
ghost use Rattle.ostore_client_core.specs.Clients.{entry_of, is_page_used, with_pages, IsOwn};
ghost use Rattle.ostore_client_core.specs.Arrivals.{cache_full, Arrives, LeavesOthers, NeedsOneMore, StaysBeside};
ghost use Rattle.ostore_client_core.specs.Retaining.{any_page, KeepsCopies};
ghost use Rattle.ostore_client_core.specs.Attempts.{Attempts, Narrows};
ghost use Rattle.ostore_client_core.specs.Calls.{BringsPage, IsBusy, OwnsNoMore, OwnsPage, Refused, SameClient};

use crate::client::Client;
use crate::fault::AttemptFault;
use crate::kind::GraphKind;
use ostore_address_space::{Frame, Mapper};
use ostore_base::{PAGE_SIZE, PageNo};
use ostore_page_service::{PageClaims, PageService};

/// The bytes of a page, by which the number of a frame is multiplied in an address.
const PAGE_BYTES: u32 = PAGE_SIZE as u32;

impl<'a, M: Mapper> Client<'a, M> {
    /// The page in an address's frame, in use or not, and None exactly where the frame has none.
    pub fn page_at(&self, address: u32) -> Option<PageNo>
        ensures { result ≡ page_in self.now.frames.pages (address / 4096) }
    {
        self.space.page_at(Frame(address / PAGE_BYTES))
    }

    /// Brings the page of a reserved frame into use, as `enter` does.
    pub fn fault<S: PageService<GraphKind>>(
        &mut self,
        service: &mut S,
        address: u32,
    ) -> Result<(), AttemptFault>
        requires runs { Attempts (S.serves service.old) (S.tells service.old) self.old }
        requires framed { IsSome (page_in self.old.frames.pages (address / 4096)) }
        requires known { IfSome (page_in self.old.frames.pages (address / 4096)) (λ page.
            page.0 < length (S.tells service.old).opened) }
        ensures own { IsOwn (S.serves service.new) (S.tells service.new) self.new }
        ensures narrows { OnOk result (Narrows (S.serves service.old) (S.serves service.new)
            (S.tells service.old) (S.tells service.new) self.old self.new) }
        ensures same_client { SameClient self.old self.new }
        ensures owned { OwnsNoMore self.old self.new }
        ensures used { IfSome (page_in self.old.frames.pages (address / 4096)) (λ page.
            OnOk result (is_page_used self.new page.0)) }
        ensures brings { IfSome (page_in self.old.frames.pages (address / 4096)) (λ page.
            OnOk result (BringsPage self.old self.new page.0)) }
        ensures calm { OnOk result (NoBusy (S.tells service.old) (S.tells service.new)) }
        ensures refused { IfSome (page_in self.old.frames.pages (address / 4096)) (λ page.
            IfErr result (λ fault. Refused fault self.old self.new page
            (S.tells service.old) (S.tells service.new))) }
        ensures same { SameRecords (S.tells service.old) (S.tells service.new) }
        ensures served { StillServes (S.serves service.old) (S.serves service.new) }
        ensures arrives { IfSome (page_in self.old.frames.pages (address / 4096)) (λ page.
            OnOk result (Arrives self.old self.new page.0)) }
        ensures full { IfSome (page_in self.old.frames.pages (address / 4096)) (λ page.
            NeedsOneMore self.old page.0 → result ≡ Err (cache_full self.old)) }
        ensures leaves { IfSome (page_in self.old.frames.pages (address / 4096)) (λ page.
            IfErr result (λ fault. LeavesOthers fault self.old self.new page.0)) }
        ensures copies { IfSome (page_in self.old.frames.pages (address / 4096)) (λ page.
            KeepsCopies (StaysBeside self.old page.0)
            (S.tells service.old).mine (S.tells service.new).mine) }
    {
        let Some(page) = self.page_at(address) else {
            unreachable!();
        };
        self.bring(service, page)
    }

    /// Makes the attempt the owner of the page in use at an address. Busy comes where another client uses the page, and
    /// leaves the client as it was.
    pub fn own<S: PageService<GraphKind>>(
        &mut self,
        service: &mut S,
        address: u32,
    ) -> Result<(), AttemptFault>
        requires runs { Attempts (S.serves service.old) (S.tells service.old) self.old }
        requires writer { (S.tells service.old).may_write ≡ true }
        requires framed { IsSome (page_in self.old.frames.pages (address / 4096)) }
        requires used { IfSome (page_in self.old.frames.pages (address / 4096)) (λ page.
            is_page_used self.old page.0) }
        ensures own { IsOwn (S.serves service.new) (S.tells service.new) self.new }
        ensures narrows { OnOk result (Narrows (S.serves service.old) (S.serves service.new)
            (S.tells service.old) (S.tells service.new) self.old self.new) }
        ensures same_client { SameClient self.old self.new }
        ensures owned { IfSome (page_in self.old.frames.pages (address / 4096)) (λ page.
            OnOk result (OwnsPage self.old self.new page.0)) }
        ensures calm { OnOk result (NoBusy (S.tells service.old) (S.tells service.new)) }
        ensures refused { IfSome (page_in self.old.frames.pages (address / 4096)) (λ page.
            IfErr result (λ fault. (self.new ≡ self.old)
            × IsBusy fault (S.tells service.old) (S.tells service.new) page.0)) }
        ensures same { SameRecords (S.tells service.old) (S.tells service.new) }
        ensures served { StillServes (S.serves service.old) (S.serves service.new) }
        ensures copies { KeepsCopies any_page (S.tells service.old).mine
            (S.tells service.new).mine }
    {
        let Some(page) = self.page_at(address) else {
            unreachable!();
        };
        self.own_page(service, page)
    }

    /// Writes bytes at an address, which lie in one page that the attempt owns. It takes no memory.
    pub fn store(&mut self, address: u32, bytes: &[u8])
        requires within { address % 4096 + length bytes.now ≤ PAGE_SIZE }
        requires framed { IsSome (page_in self.old.frames.pages (address / 4096)) }
        requires owned { IfSome (page_in self.old.frames.pages (address / 4096)) (λ page.
            is_owned (entry_of self.old page.0) ≡ true) }
        ensures { IfSome (page_in self.old.frames.pages (address / 4096)) (λ page.
            IfSome (entry_of self.old page.0) (λ entry. let at = address % 4096 in
            self.new ≡ with_pages (set_value (nat_eq page.0) self.old.pages
            (with_bytes entry at bytes.now)) self.old)) }
    {
        let Some(page) = self.page_at(address) else {
            unreachable!();
        };
        self.cache.store(page, (address % PAGE_BYTES) as u16, bytes);
    }
}
