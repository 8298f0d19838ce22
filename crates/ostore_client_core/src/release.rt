//! What becomes of a client's pages when its attempt ends.

ghost use Rattle.std.specs.Prelude.{◌≡◌, ◌<◌, ◌≤◌, ℕ, true, false, length, nat_eq, IsTrue, IsSome, All};
ghost use Rattle.std.specs.List.{AllPairs, Contains};
ghost use Rattle.std.specs.Map.{lookup};
ghost use Rattle.ostore_base.specs.declared.page.PageImage.{PageImage};
ghost use Rattle.ostore_page_service.specs.Told.{SameRecords, StillServes, NoBusy};
ghost use Rattle.ostore_client_cache.specs.Caches.{cached};
ghost use Rattle.ostore_client_cache.specs.Entries.{is_in_use};
ghost use Rattle.ostore_client_cache.specs.Releases.{numbers_of, released_all};
ghost use Rattle.ostore_client_core.specs.Calls.{is_void, keeps};
ghost use Rattle.ostore_client_core.specs.Retaining.{IsReleased, KeepsCopies};
ghost use Rattle.ostore_client_core.specs.inside.Releasing.{GivesBack, HaveImages, EndsWith};

use ostore_base::PageNo;
use ostore_client_cache::Cache;
use ostore_page_service::{Kind, PageClaims, Released};

/// How an attempt ended.
#[derive(Clone, Copy, Debug, PartialEq, Eq)]
pub enum Ending {
    Committed,
    /// What it wrote is void.
    Aborted,
}

/// Whether the client's copy of a page is void: the attempt was aborted, and it owned the page.
fn is_void(cache: &Cache, page: PageNo, ending: Ending) -> bool
    ensures { result ≡ is_void ending (lookup (nat_eq page.0) cache.now.pages) }
{
    match ending {
        Ending::Committed => false,
        Ending::Aborted => cache.is_owned(page),
    }
}

/// Gives a page in use back, and says whether the client keeps its copy. It gives up one that is void.
pub(crate) fn give_back<K: Kind, S: PageClaims<K>>(
    service: &mut S,
    page: PageNo,
    void: bool,
) -> bool
    requires range { page.0 < length (S.tells service.old).opened }
    requires used { IsSome ((S.tells service.old).mine.held page.0) }
    ensures gives { GivesBack result (S.tells service.old).mine (S.tells service.new).mine page.0 }
    ensures void { IsTrue void → result ≡ false }
    ensures same { SameRecords (S.tells service.old) (S.tells service.new) }
    ensures served { StillServes (S.serves service.old) (S.serves service.new) }
    ensures calm { NoBusy (S.tells service.old) (S.tells service.new) }
    ensures answered { IsReleased S.releases void (S.tells service.new).mine page.0 }
{
    if let Released::GivenUp = service.release(page) {
        return false;
    }
    if void {
        service.drop_kept(page);
        return false;
    }
    true
}

/// Gives pages in use back, which ascend. Those of which the client keeps its copy are retained: they
/// become the most recently used ones, the last of them the most recently. The others go, among them those
/// whose copy is void. It takes no memory.
pub(crate) fn release_all<K: Kind, S: PageClaims<K>>(
    cache: &mut Cache,
    service: &mut S,
    pages: &[PageNo],
    ending: Ending,
)
    requires ascending { AllPairs (λ page later. page < later) (numbers_of pages.now) }
    requires range { let count = length (S.tells service.old).opened in
        All (λ page. page < count) (numbers_of pages.now) }
    requires used { let held = (S.tells service.old).mine.held in
        All (λ page. IsSome (held page)) (numbers_of pages.now) }
    ensures pages { let kept = keeps (S.tells service.new).mine in
        let released = released_all cache.old.pages kept (numbers_of pages.now) in
        cache.new ≡ cached released cache.old.most }
    ensures void { All (λ page. is_void ending (lookup (nat_eq page) cache.old.pages) ≡ true
        → (S.tells service.new).mine.kept page ≡ None) (numbers_of pages.now) }
    ensures idle { All (λ page. is_in_use (lookup (nat_eq page) cache.new.pages) ≡ false)
        (numbers_of pages.now) }
    ensures others { (page : ℕ) → (Contains (numbers_of pages.now) page → ⊥)
        → lookup (nat_eq page) cache.new.pages ≡ lookup (nat_eq page) cache.old.pages }
    ensures long { length cache.new.pages ≤ length cache.old.pages }
    ensures images { HaveImages cache.old.pages cache.new.pages }
    ensures ends { (stored : ℕ → PageImage → PageImage)
        → EndsWith ending stored (S.tells service.old).mine cache.old.pages
        → EndsWith ending stored (S.tells service.new).mine cache.new.pages }
    ensures same { SameRecords (S.tells service.old) (S.tells service.new) }
    ensures served { StillServes (S.serves service.old) (S.serves service.new) }
    ensures calm { NoBusy (S.tells service.old) (S.tells service.new) }
    ensures answered { All (λ page. IsReleased S.releases
        (is_void ending (lookup (nat_eq page) cache.old.pages)) (S.tells service.new).mine page)
        (numbers_of pages.now) }
    ensures copies { KeepsCopies (λ page. Contains (numbers_of pages.now) page → ⊥)
        (S.tells service.old).mine (S.tells service.new).mine }
{
    for page in pages {
        let void = is_void(cache, *page, ending);
        cache.pages_differ();
        if give_back(service, *page, void) {
            cache.retain(*page);
        } else {
            cache.forget(*page);
        }
    }
}
