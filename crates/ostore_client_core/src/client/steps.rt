//! What calls of a client do to its pages, one by one.

ghost use Rattle.std.specs.Prelude.{◌≡◌, ◌≤◌, ◌<◌, ◌∷◌, true, false, nat_eq, length, None, Some, IsSome, IfErr, OnOk, OnErr};
ghost use Rattle.std.specs.List.{IsDistinct};
ghost use Rattle.std.specs.Map.{remove_entry, keys_of};
ghost use Rattle.ostore_base.specs.Limits.{most_pages};
ghost use Rattle.ostore_base.specs.declared.numbers.PageNo.{PageNo};
ghost use Rattle.ostore_page_service.specs.Told.{SameRecords, StillServes};
ghost use Rattle.ostore_client_cache.specs.declared.entries.Hold.TheVariants.{Retained, InUse};
ghost use Rattle.ostore_client_cache.specs.Entries.{first_as, hold_of, is_in_use};
ghost use Rattle.ostore_client_cache.specs.Caches.{fresh, surplus, used_pages};
ghost use Rattle.ostore_client_core.specs.Clients.{entry_of, with_pages};
ghost use Rattle.ostore_client_core.specs.Calls.{trimmed, Drops, FindsNoFrame, IsFitPage, Settles};

use crate::client::Client;
use crate::kind::GraphKind;
use ostore_address_space::{Mapper, SpaceFull, frames_are_paired};
use ostore_base::{OutOfMemory, PageImage, PageNo};
use ostore_page_service::PageClaims;
use ostore_page_tags::image_is_whole;
use ostore_relocation::relocate_in;

impl<'a, M: Mapper> Client<'a, M> {
    /// A law: no page is there twice.
    pub fn pages_differ(&self)
        ensures { IsDistinct nat_eq (keys_of self.now.pages) }
    {
        self.cache.pages_differ();
    }

    /// Makes an entry for a page that isn't there. It is retained, and has no image yet.
    pub(crate) fn admit(&mut self, page: PageNo) -> Result<(), OutOfMemory>
        requires apart { entry_of self.old page.0 ≡ None }
        requires short { length self.old.pages ≤ self.old.most }
        ensures ok { OnOk result
            (self.new ≡ with_pages ((page.0, fresh) ∷ self.old.pages) self.old) }
        ensures err { OnErr result (self.new ≡ self.old) }
    {
        self.cache.admit(page)
    }

    /// Takes out a page that isn't in use.
    pub(crate) fn forget(&mut self, page: PageNo)
        requires { is_in_use (entry_of self.old page.0) ≡ false }
        ensures { self.new
            ≡ with_pages (remove_entry (nat_eq page.0) self.old.pages) self.old }
    {
        self.cache.pages_differ();
        self.cache.forget(page);
    }

    /// Drops the page that was used least recently, where there are more pages than there may be. The service keeps
    /// it no more.
    pub(crate) fn trim<S: PageClaims<GraphKind>>(&mut self, service: &mut S)
        requires oldest { (q : PageNo) → surplus self.old.pages self.old.most ≡ Some q
            → (is_in_use (entry_of self.old q.0) ≡ false)
            × (q.0 < length (S.tells service.old).opened)
            × ((S.tells service.old).mine.droppable q.0 ≡ true) }
        ensures pages { self.new ≡ with_pages (trimmed self.old.most self.old.pages) self.old }
        ensures dropped { Drops (surplus self.old.pages self.old.most) (S.tells service.old)
            (S.tells service.new) }
        ensures same { SameRecords (S.tells service.old) (S.tells service.new) }
        ensures served { StillServes (S.serves service.old) (S.serves service.new) }
    {
        self.cache.pages_differ();
        if let Some(oldest) = self.cache.drop_oldest() {
            service.drop_kept(oldest);
        }
    }

    /// Makes a retained page the most recently used one, and in use.
    pub(crate) fn use_page(&mut self, page: PageNo)
        requires there { hold_of (entry_of self.old page.0) ≡ Some Retained }
        requires room { length (used_pages self.old.pages) < self.old.most }
        ensures { self.new ≡ with_pages (first_as InUse self.old.pages page.0) self.old }
    {
        self.cache.pages_differ();
        self.used.push_reserved(page);
        self.cache.use_again(page);
    }

    /// Makes a fetched image resident, and gives it to a page that is there.
    pub(crate) fn settle(&mut self, page: PageNo, image: &PageImage) -> Result<(), SpaceFull>
        requires range { page.0 < most_pages }
        requires there { IsSome (entry_of self.old page.0) }
        requires fit { IsFitPage self.old.schema page.0 image.now }
        ensures ok { OnOk result (Settles self.old self.new page.0 image.now) }
        ensures full { IfErr result
            (λ full. FindsNoFrame self.old self.new page image.now full.frames) }
    {
        self.fetches = self.fetches.saturating_add(1);
        let mut resident = *image;
        image_is_whole(&resident);
        if let Err(full) = relocate_in(
            &mut resident,
            page,
            self.schema,
            &mut self.space,
            self.mapper,
        ) {
            frames_are_paired(&self.space);
            return Err(full);
        }
        frames_are_paired(&self.space);
        self.cache.set_image(page, &resident);
        Ok(())
    }
}
