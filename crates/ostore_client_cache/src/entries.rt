//! Entries of the cache. Its list has the page that was used most recently first.

ghost use Rattle.std.specs.Prelude.{◌≡◌, ◌≤◌, ◌<◌, ◌+◌, nat_eq, length, IfSome, option_copied};
ghost use Rattle.std.specs.Map.{lookup, set_value, remove_entry};
ghost use Rattle.lru.specs.LruCache.{lru_cache};
ghost use Rattle.ostore_base.specs.declared.page.TheConstants.{PAGE_SIZE};
ghost use Rattle.ostore_client_cache.specs.Entries.{used_image, held_as, with_bytes, first_as, is_used, is_in_use, is_retained, is_owner, imaged_as};
ghost use Rattle.ostore_client_cache.specs.declared.entries.Hold.TheVariants.{Retained, InUse, Owned};

use crate::boxed_image::BoxedImage;
use lru::LruCache;
use ostore_base::{PAGE_SIZE, PageImage};

/// What the running transaction does with a page.
#[derive(Clone, Copy, Debug, PartialEq, Eq)]
pub enum Hold {
    /// Nothing: the page is retained from an earlier transaction.
    Retained,
    /// It reads the page.
    InUse,
    /// It may write the page.
    Owned,
}

/// A page that a client has.
#[derive(Debug, Drop)]
pub struct CachedPage {
    pub image: BoxedImage,
    pub hold: Hold,
}

/// Whether a page that is held so is in use.
pub(crate) fn is_used(hold: Hold) -> bool
    ensures { result ≡ is_used hold }
{
    match hold {
        Hold::Retained => false,
        Hold::InUse => true,
        Hold::Owned => true,
    }
}

/// Whether the transaction owns a page that is held so.
pub(crate) fn is_owner(hold: Hold) -> bool
    ensures { result ≡ is_owner hold }
{
    match hold {
        Hold::Retained => false,
        Hold::InUse => false,
        Hold::Owned => true,
    }
}

/// The image of a page in use, and None exactly where the page isn't in use.
pub(crate) fn image_in_use(cache: &LruCache<u32, CachedPage>, page: u32) -> Option<&PageImage>
    ensures { option_copied result ≡ used_image (lookup (nat_eq page) cache.now.entries) }
{
    let entry = cache.peek(&page)?;
    match entry.hold {
        Hold::Retained => None,
        Hold::InUse => Some(entry.image.get()),
        Hold::Owned => Some(entry.image.get()),
    }
}

/// Makes the transaction the owner of a page that is in the cache. The order stays.
pub(crate) fn own_page(cache: &mut LruCache<u32, CachedPage>, page: u32)
    ensures entry { IfSome (lookup (nat_eq page) cache.old.entries)
        (λ entry. cache.new.entries
        ≡ set_value (nat_eq page) cache.old.entries (held_as Owned entry)) }
    ensures capacity { cache.new.cap ≡ cache.old.cap }
{
    if let Some(entry) = cache.peek_mut(&page) {
        entry.hold = Hold::Owned;
    }
}

/// Gives a page that is in the cache another image. The order stays.
pub(crate) fn set_image(cache: &mut LruCache<u32, CachedPage>, page: u32, image: &PageImage)
    ensures entry { IfSome (lookup (nat_eq page) cache.old.entries)
        (λ entry. cache.new.entries
        ≡ set_value (nat_eq page) cache.old.entries (imaged_as image.now entry)) }
    ensures capacity { cache.new.cap ≡ cache.old.cap }
{
    if let Some(entry) = cache.peek_mut(&page) {
        entry.image.set(image);
    }
}

/// Writes bytes of a page that is in the cache. The order stays, and it takes no memory.
pub(crate) fn store(cache: &mut LruCache<u32, CachedPage>, page: u32, at: usize, bytes: &[u8])
    requires within { at + length bytes.now ≤ PAGE_SIZE }
    ensures entry { IfSome (lookup (nat_eq page) cache.old.entries)
        (λ entry. cache.new.entries
        ≡ set_value (nat_eq page) cache.old.entries (with_bytes entry at bytes.now)) }
    ensures capacity { cache.new.cap ≡ cache.old.cap }
{
    if let Some(entry) = cache.peek_mut(&page) {
        entry.image.write(at, bytes);
    }
}

/// Makes a page that is in the cache the most recently used one, and retained, and says whether it was in
/// use.
pub(crate) fn retain_entry(cache: &mut LruCache<u32, CachedPage>, page: u32) -> bool
    ensures entries { cache.new.entries ≡ first_as Retained cache.old.entries page }
    ensures capacity { cache.new.cap ≡ cache.old.cap }
    ensures used { result ≡ is_in_use (lookup (nat_eq page) cache.old.entries) }
{
    let Some(entry) = cache.get_mut(&page) else {
        return false;
    };
    let was = is_used(entry.hold);
    entry.hold = Hold::Retained;
    was
}

/// Makes a page that is in the cache the most recently used one, and in use, and says whether it was
/// retained.
pub(crate) fn use_entry(cache: &mut LruCache<u32, CachedPage>, page: u32) -> bool
    ensures entries { cache.new.entries ≡ first_as InUse cache.old.entries page }
    ensures capacity { cache.new.cap ≡ cache.old.cap }
    ensures retained { result ≡ is_retained (lookup (nat_eq page) cache.old.entries) }
{
    let Some(entry) = cache.get_mut(&page) else {
        return false;
    };
    let was = is_used(entry.hold);
    entry.hold = Hold::InUse;
    !was
}

/// Takes a page out of the cache, and says whether it was in use.
pub(crate) fn forget_entry(cache: &mut LruCache<u32, CachedPage>, page: u32) -> bool
    ensures entries { cache.new
        ≡ lru_cache (remove_entry (nat_eq page) cache.old.entries) cache.old.cap }
    ensures used { result ≡ is_in_use (lookup (nat_eq page) cache.old.entries) }
{
    let Some(entry) = cache.pop(&page) else {
        return false;
    };
    is_used(entry.hold)
}
