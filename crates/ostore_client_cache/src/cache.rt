//! A client's cache: the pages that it has, by their last use.

ghost use Rattle.std.specs.Prelude.{◌≡◌, true, ◌∷◌, [], ◌≤◌, ◌<◌, ◌+◌, ◌-◌, ◌==◌, nat_eq, length, take, None, IfOk, IfSome, OnOk, OnErr, IsSome, option_copied};
ghost use Rattle.std.specs.List.{IsDistinct};
ghost use Rattle.std.specs.Map.{lookup, remove_entry, set_value, keys_of};
ghost use Rattle.ostore_base.specs.Limits.{most_pages};
ghost use Rattle.ostore_base.specs.declared.page.TheConstants.{PAGE_SIZE};
ghost use Rattle.ostore_client_cache.specs.Entries.{used_image, first_as, hold_of, held_as, imaged_as, is_owned, is_in_use, with_bytes};
ghost use Rattle.ostore_client_cache.specs.Caches.{cached, fresh, surplus, used_pages, without_one};
ghost use Rattle.ostore_client_cache.specs.declared.entries.Hold.TheVariants.{Retained, InUse, Owned};

use crate::boxed_image::BoxedImage;
use crate::entries::{
    CachedPage, Hold, forget_entry, image_in_use, is_owner, is_used, own_page, retain_entry,
    set_image, store, use_entry,
};
use lru::LruCache;
use ostore_base::{OutOfMemory, PageImage, PageNo};
use std::alloc::Global;
use std::marker::Model;
use std::num::NonZeroUsize;

/// The pages that a client has, which contracts see as a list, the page that was used last first, and
/// how many there may be. There is room for one more, which is there while a page comes in.
#[derive(Drop)]
pub struct Cache {
    /// Where the images of its pages are.
    alloc: Global,
    entries: LruCache<u32, CachedPage>,
    /// How many of them are in use.
    used: u32,
    most: u32,
}

impl Model for Cache {
    ghost use Rattle.ostore_client_cache.specs.Caches.{Cached, cached};
    ghost use Rattle.ostore_client_cache.specs.inside.Kept.{IsCache};

    ghost Value = { Cached };

    ghost view = { λ c. cached c.entries.entries c.most };

    ghost invariant = { λ c. IsCache c.entries c.used c.most };
}

impl Cache {
    /// No page, and room for as many as said: at most 16,384.
    pub fn new(alloc: Global, most: u32) -> Result<Cache, OutOfMemory>
        requires { most ≤ most_pages }
        ensures { IfOk result (λ cache. cache ≡ cached [] most) }
    {
        let room = NonZeroUsize::MIN.saturating_add(most as usize);
        let entries = LruCache::new(alloc, room)?;
        Ok(Cache {
            alloc,
            entries,
            used: 0,
            most,
        })
    }

    /// How many pages are in use.
    pub fn used(&self) -> u32
        ensures { result ≡ length (used_pages self.now.pages) }
    {
        self.used
    }

    /// Whether as many pages are in use as there may be.
    pub fn is_full(&self) -> bool
        ensures { result ≡ (length (used_pages self.now.pages) == self.now.most) }
    {
        self.used == self.most
    }

    /// The image of a page in use, and None exactly where the page isn't in use.
    pub fn image(&self, page: PageNo) -> Option<&PageImage>
        ensures { option_copied result ≡ used_image (lookup (nat_eq page.0) self.now.pages) }
    {
        image_in_use(&self.entries, page.0)
    }

    /// How many pages there may be: at most 16,384.
    pub fn most(&self) -> u32
        ensures most { result ≡ self.now.most }
        ensures few { result ≤ most_pages }
    {
        self.most
    }

    /// How a page is held, and None exactly where it isn't there.
    pub fn hold(&self, page: PageNo) -> Option<Hold>
        ensures { result ≡ hold_of (lookup (nat_eq page.0) self.now.pages) }
    {
        let entry = self.entries.peek(&page.0)?;
        Some(entry.hold)
    }

    /// Whether a page is in use.
    pub fn is_in_use(&self, page: PageNo) -> bool
        ensures { result ≡ is_in_use (lookup (nat_eq page.0) self.now.pages) }
    {
        match self.hold(page) {
            Some(hold) => is_used(hold),
            None => false,
        }
    }

    /// Whether the transaction owns a page.
    pub fn is_owned(&self, page: PageNo) -> bool
        ensures { result ≡ is_owned (lookup (nat_eq page.0) self.now.pages) }
    {
        match self.entries.peek(&page.0) {
            Some(entry) => is_owner(entry.hold),
            None => false,
        }
    }

    /// Makes an entry for a page that isn't there. It is the most recently used one, and retained, with an image
    /// of zeros. Where there is no memory the cache is as it was.
    pub fn admit(&mut self, page: PageNo) -> Result<(), OutOfMemory>
        requires apart { lookup (nat_eq page.0) self.old.pages ≡ None }
        requires room { length self.old.pages ≤ self.old.most }
        ensures ok { OnOk result
            (self.new ≡ cached ((page.0, fresh) ∷ self.old.pages) self.old.most) }
        ensures err { OnErr result (self.new ≡ self.old) }
    {
        let image = BoxedImage::zeroed(self.alloc)?;
        let entry = CachedPage {
            image,
            hold: Hold::Retained,
        };
        self.entries.put(page.0, entry)?;
        Ok(())
    }

    /// Makes a page the most recently used one, and in use.
    pub fn use_again(&mut self, page: PageNo)
        ensures { self.new ≡ cached (first_as InUse self.old.pages page.0) self.old.most }
    {
        if use_entry(&mut self.entries, page.0) {
            self.used += 1;
        }
    }

    /// Makes the transaction the owner of a page in use. The order stays.
    pub fn own(&mut self, page: PageNo)
        requires { is_in_use (lookup (nat_eq page.0) self.old.pages) ≡ true }
        ensures { IfSome (lookup (nat_eq page.0) self.old.pages) (λ entry.
            self.new ≡ cached (set_value (nat_eq page.0) self.old.pages (held_as Owned entry))
            self.old.most) }
    {
        own_page(&mut self.entries, page.0);
    }

    /// Gives a page another image. The order stays.
    pub fn set_image(&mut self, page: PageNo, image: &PageImage)
        requires { IsSome (lookup (nat_eq page.0) self.old.pages) }
        ensures { IfSome (lookup (nat_eq page.0) self.old.pages) (λ entry.
            self.new ≡ cached (set_value (nat_eq page.0) self.old.pages
            (imaged_as image.now entry)) self.old.most) }
    {
        set_image(&mut self.entries, page.0, image);
    }

    /// Writes bytes of a page. The order stays, and it takes no memory.
    pub fn store(&mut self, page: PageNo, at: u16, bytes: &[u8])
        requires there { IsSome (lookup (nat_eq page.0) self.old.pages) }
        requires within { at + length bytes.now ≤ PAGE_SIZE }
        ensures { IfSome (lookup (nat_eq page.0) self.old.pages) (λ entry.
            self.new ≡ cached (set_value (nat_eq page.0) self.old.pages
            (with_bytes entry at bytes.now)) self.old.most) }
    {
        store(&mut self.entries, page.0, at as usize, bytes);
    }

    /// A law: no page is there twice.
    pub fn pages_differ(&self)
        ensures { IsDistinct nat_eq (keys_of self.now.pages) }
    {
        let _count = self.entries.len();
    }

    /// Makes a page the most recently used one, and retained.
    pub fn retain(&mut self, page: PageNo)
        ensures { self.new ≡ cached (first_as Retained self.old.pages page.0) self.old.most }
    {
        if retain_entry(&mut self.entries, page.0) {
            self.used -= 1;
        }
    }

    /// Takes a page out.
    pub fn forget(&mut self, page: PageNo)
        ensures { self.new ≡ cached (remove_entry (nat_eq page.0) self.old.pages) self.old.most }
    {
        if forget_entry(&mut self.entries, page.0) {
            self.used -= 1;
        }
    }

    /// Takes out the page that was used least recently, where there are more pages than there may be, and
    /// tells which it was.
    pub fn drop_oldest(&mut self) -> Option<PageNo>
        ensures dropped { result ≡ surplus self.old.pages self.old.most }
        ensures pages { self.new ≡ cached (without_one result self.old.pages) self.old.most }
    {
        if self.entries.len() <= self.most as usize {
            return None;
        }
        let (page, _) = self.entries.peek_lru()?;
        let oldest = PageNo(*page);
        self.forget(oldest);
        Some(oldest)
    }
}
