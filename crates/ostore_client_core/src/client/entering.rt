//! Bringing pages into use.

ghost use Rattle.std.specs.Prelude.{◌≡◌, ◌<◌, ◌*◌, true, length, None, Some, Err, IfOk, IfErr, OnOk, IsSome};
ghost use Rattle.ostore_base.specs.Limits.{most_pages};
ghost use Rattle.ostore_address_space.specs.Frames.{frame_of};
ghost use Rattle.ostore_page_service.specs.Told.{SameRecords, StillServes, NoBusy};
ghost use Rattle.ostore_client_cache.specs.declared.entries.Hold.TheVariants.{Retained};
ghost use Rattle.ostore_client_cache.specs.Entries.{hold_of, is_in_use};
ghost use Rattle.ostore_client_cache.specs.Caches.{used_pages};
ghost use Rattle.ostore_client_core.specs.Clients.{entry_of, is_page_used, IsOwn};
ghost use Rattle.ostore_client_core.specs.Arrivals.{cache_full, Arrives, ComesFirst, LeavesOthers, NeedsOneMore, StaysBeside};
ghost use Rattle.ostore_client_core.specs.Retaining.{KeepsCopies};
ghost use Rattle.ostore_client_core.specs.Attempts.{Attempts, Narrows};
ghost use Rattle.ostore_client_core.specs.Calls.{BringsPage, IsFitPage, OwnsNoMore, SameClient, Takes, Loses, Refused, IsAddressOf};

use crate::client::Client;
use crate::fault::AttemptFault;
use crate::kind::GraphKind;
use crate::release::give_back;
use ostore_address_space::{Mapper, frames_are_paired};
use ostore_base::{PAGE_SIZE, PageImage, PageNo};
use ostore_page_service::{Claim, PageClaims, PageService};

/// The bytes of a page, by which the number of a frame is multiplied in an address.
const PAGE_BYTES: u32 = PAGE_SIZE as u32;

impl<'a, M: Mapper> Client<'a, M> {
    /// Gives a retained page that was claimed its fetched image, and brings it into use. Where there is no frame it
    /// is released, and its copy dropped.
    fn take<S: PageService<GraphKind>>(
        &mut self,
        service: &mut S,
        page: PageNo,
        image: &PageImage,
    ) -> Result<(), AttemptFault>
        requires range { page.0 < most_pages }
        requires known { page.0 < length (S.tells service.old).opened }
        requires there { hold_of (entry_of self.old page.0) ≡ Some Retained }
        requires room { length (used_pages self.old.pages) < self.old.most }
        requires fit { IsFitPage self.old.schema page.0 image.now }
        requires held { IsSome ((S.tells service.old).mine.held page.0) }
        ensures taken { OnOk result (Takes self.old self.new page.0 image.now) }
        ensures still { OnOk result (service.new ≡ service.old) }
        ensures lost { IfErr result (λ fault. Loses fault self.old self.new page image.now
            (S.tells service.old).mine (S.tells service.new).mine) }
        ensures same { SameRecords (S.tells service.old) (S.tells service.new) }
        ensures served { StillServes (S.serves service.old) (S.serves service.new) }
        ensures calm { NoBusy (S.tells service.old) (S.tells service.new) }
    {
        if let Err(full) = self.settle(page, image) {
            give_back(service, page, true);
            self.forget(page);
            return Err(AttemptFault::SpaceFull {
                frames: full.frames,
            });
        }
        self.use_page(page);
        Ok(())
    }

    /// Brings a retained page into use.
    fn bring_retained<S: PageService<GraphKind>>(
        &mut self,
        service: &mut S,
        page: PageNo,
    ) -> Result<(), AttemptFault>
        requires runs { Attempts (S.serves service.old) (S.tells service.old) self.old }
        requires known { page.0 < length (S.tells service.old).opened }
        requires there { hold_of (entry_of self.old page.0) ≡ Some Retained }
        requires room { length (used_pages self.old.pages) < self.old.most }
        ensures own { IsOwn (S.serves service.new) (S.tells service.new) self.new }
        ensures narrows { OnOk result (Narrows (S.serves service.old) (S.serves service.new)
            (S.tells service.old) (S.tells service.new) self.old self.new) }
        ensures same_client { SameClient self.old self.new }
        ensures owned { OwnsNoMore self.old self.new }
        ensures used { OnOk result (is_page_used self.new page.0) }
        ensures brings { OnOk result (BringsPage self.old self.new page.0) }
        ensures calm { OnOk result (NoBusy (S.tells service.old) (S.tells service.new)) }
        ensures refused { IfErr result (λ fault. Refused fault self.old self.new page
            (S.tells service.old) (S.tells service.new)) }
        ensures same { SameRecords (S.tells service.old) (S.tells service.new) }
        ensures served { StillServes (S.serves service.old) (S.serves service.new) }
        ensures first { OnOk result (ComesFirst self.old self.new page.0) }
        ensures leaves { IfErr result (λ fault. LeavesOthers fault self.old self.new page.0) }
        ensures copies { KeepsCopies (StaysBeside self.old page.0)
            (S.tells service.old).mine (S.tells service.new).mine }
    {
        self.pages_differ();
        let mut image = PageImage::zeroed();
        match service.claim_read(page, &mut image) {
            Ok(Claim::Kept) => {
                self.use_page(page);
                Ok(())
            }
            Ok(Claim::Fetched) => {
                if let Err(fault) = self.take(service, page, &image) {
                    return Err(fault);
                }
                Ok(())
            }
            Err(busy) => Err(AttemptFault::Busy(busy)),
        }
    }

    /// Brings a page into use that the client hasn't.
    fn bring_new<S: PageService<GraphKind>>(
        &mut self,
        service: &mut S,
        page: PageNo,
    ) -> Result<(), AttemptFault>
        requires runs { Attempts (S.serves service.old) (S.tells service.old) self.old }
        requires known { page.0 < length (S.tells service.old).opened }
        requires absent { entry_of self.old page.0 ≡ None }
        requires room { length (used_pages self.old.pages) < self.old.most }
        ensures own { IsOwn (S.serves service.new) (S.tells service.new) self.new }
        ensures narrows { OnOk result (Narrows (S.serves service.old) (S.serves service.new)
            (S.tells service.old) (S.tells service.new) self.old self.new) }
        ensures same_client { SameClient self.old self.new }
        ensures owned { OwnsNoMore self.old self.new }
        ensures used { OnOk result (is_page_used self.new page.0) }
        ensures brings { OnOk result (BringsPage self.old self.new page.0) }
        ensures calm { OnOk result (NoBusy (S.tells service.old) (S.tells service.new)) }
        ensures refused { IfErr result (λ fault. Refused fault self.old self.new page
            (S.tells service.old) (S.tells service.new)) }
        ensures same { SameRecords (S.tells service.old) (S.tells service.new) }
        ensures served { StillServes (S.serves service.old) (S.serves service.new) }
        ensures first { OnOk result (ComesFirst self.old self.new page.0) }
        ensures leaves { IfErr result (λ fault. LeavesOthers fault self.old self.new page.0) }
        ensures copies { KeepsCopies (StaysBeside self.old page.0)
            (S.tells service.old).mine (S.tells service.new).mine }
    {
        self.pages_differ();
        if self.admit(page).is_err() {
            return Err(AttemptFault::OutOfMemory);
        }
        let mut image = PageImage::zeroed();
        match service.claim_read(page, &mut image) {
            Ok(_) => {
                self.trim(service);
                if let Err(fault) = self.take(service, page, &image) {
                    return Err(fault);
                }
                Ok(())
            }
            Err(busy) => {
                self.forget(page);
                Err(AttemptFault::Busy(busy))
            }
        }
    }

    /// Brings a page into use.
    pub(crate) fn bring<S: PageService<GraphKind>>(
        &mut self,
        service: &mut S,
        page: PageNo,
    ) -> Result<(), AttemptFault>
        requires runs { Attempts (S.serves service.old) (S.tells service.old) self.old }
        requires known { page.0 < length (S.tells service.old).opened }
        ensures own { IsOwn (S.serves service.new) (S.tells service.new) self.new }
        ensures narrows { OnOk result (Narrows (S.serves service.old) (S.serves service.new)
            (S.tells service.old) (S.tells service.new) self.old self.new) }
        ensures same_client { SameClient self.old self.new }
        ensures owned { OwnsNoMore self.old self.new }
        ensures used { OnOk result (is_page_used self.new page.0) }
        ensures brings { OnOk result (BringsPage self.old self.new page.0) }
        ensures calm { OnOk result (NoBusy (S.tells service.old) (S.tells service.new)) }
        ensures refused { IfErr result (λ fault. Refused fault self.old self.new page
            (S.tells service.old) (S.tells service.new)) }
        ensures same { SameRecords (S.tells service.old) (S.tells service.new) }
        ensures served { StillServes (S.serves service.old) (S.serves service.new) }
        ensures arrives { OnOk result (Arrives self.old self.new page.0) }
        ensures full { NeedsOneMore self.old page.0 → result ≡ Err (cache_full self.old) }
        ensures leaves { IfErr result (λ fault. LeavesOthers fault self.old self.new page.0) }
        ensures copies { KeepsCopies (StaysBeside self.old page.0)
            (S.tells service.old).mine (S.tells service.new).mine }
    {
        if self.cache.is_in_use(page) {
            return Ok(());
        }
        if self.cache.is_full() {
            self.pages_differ();
            return Err(AttemptFault::CacheFull {
                used: self.cache.used(),
                capacity: self.cache.most(),
            });
        }
        match self.cache.hold(page) {
            Some(_) => self.bring_retained(service, page),
            None => self.bring_new(service, page),
        }
    }

    /// The first address of a frame, that of a page which has one.
    #[tactic(auto, using(crate::proofs::FrameLaws::first_leads))]
    pub fn address_of(&self, page: PageNo) -> u32
        requires { IsSome (frame_of self.now.frames.pages page.0) }
        ensures { IsAddressOf self.now page.0 result }
    {
        frames_are_paired(&self.space);
        match self.space.frame_of(page) {
            Some(frame) => frame.0 * PAGE_BYTES,
            None => unreachable!(),
        }
    }

    /// Brings a page into use, and no other one, and answers its frame's first address. It owns none. CacheFull comes
    /// exactly where the pages in use are as many as there may be, and one more is needed; then no claim was made. Busy
    /// comes where another client owns the page. Busy and want of memory leave the client as it was. SpaceFull comes after the
    /// claim: a page that the image needs has no frame, and none is free. The page was then fetched and released, and
    /// its copy dropped. Neither of the two comes where there is room for all pages of the database. Where the client
    /// has as many pages as there may be and hadn't this one, the retained page that was used least recently is
    /// dropped, directly after the claim. All other pages stay, also where SpaceFull comes.
    pub fn enter<S: PageService<GraphKind>>(
        &mut self,
        service: &mut S,
        page: PageNo,
    ) -> Result<u32, AttemptFault>
        requires runs { Attempts (S.serves service.old) (S.tells service.old) self.old }
        requires known { page.0 < length (S.tells service.old).opened }
        ensures own { IsOwn (S.serves service.new) (S.tells service.new) self.new }
        ensures narrows { OnOk result (Narrows (S.serves service.old) (S.serves service.new)
            (S.tells service.old) (S.tells service.new) self.old self.new) }
        ensures same_client { SameClient self.old self.new }
        ensures owned { OwnsNoMore self.old self.new }
        ensures used { OnOk result (is_page_used self.new page.0) }
        ensures brings { OnOk result (BringsPage self.old self.new page.0) }
        ensures calm { OnOk result (NoBusy (S.tells service.old) (S.tells service.new)) }
        ensures address { IfOk result (IsAddressOf self.new page.0) }
        ensures refused { IfErr result (λ fault. Refused fault self.old self.new page
            (S.tells service.old) (S.tells service.new)) }
        ensures same { SameRecords (S.tells service.old) (S.tells service.new) }
        ensures served { StillServes (S.serves service.old) (S.serves service.new) }
        ensures arrives { OnOk result (Arrives self.old self.new page.0) }
        ensures full { NeedsOneMore self.old page.0 → result ≡ Err (cache_full self.old) }
        ensures leaves { IfErr result (λ fault. LeavesOthers fault self.old self.new page.0) }
        ensures copies { KeepsCopies (StaysBeside self.old page.0)
            (S.tells service.old).mine (S.tells service.new).mine }
    {
        if let Err(fault) = self.bring(service, page) {
            return Err(fault);
        }
        Ok(self.address_of(page))
    }
}
