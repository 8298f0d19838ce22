//! The end of an attempt.

ghost use Rattle.std.specs.Prelude.{◌≡◌, ◌<◌, ◌≤◌, ℕ, true, false, length, IsSome};
ghost use Rattle.ostore_base.specs.declared.page.PageImage.{PageImage};
ghost use Rattle.ostore_page_service.specs.Told.{SameRecords, StillServes, NoBusy};
ghost use Rattle.ostore_client_cache.specs.Entries.{is_in_use};
ghost use Rattle.ostore_client_core.specs.declared.release.Ending.TheVariants.{Aborted};
ghost use Rattle.ostore_client_core.specs.Clients.{entry_of, AreUsedFirst, IsIdle, IsOwn};
ghost use Rattle.ostore_client_core.specs.Calls.{is_void, Releases, SameClient};
ghost use Rattle.ostore_client_core.specs.Retaining.{IsReleased, KeepsCopies};
ghost use Rattle.ostore_client_core.specs.inside.Releasing.{EndsWith, HaveImages};

use crate::client::Client;
use crate::kind::GraphKind;
use crate::release::{Ending, release_all};
use ostore_address_space::Mapper;
use ostore_page_service::{PageClaims, PageService};

impl<'a, M: Mapper> Client<'a, M> {
    /// Gives all pages in use back. It takes no memory.
    pub(crate) fn release_used<S: PageClaims<GraphKind>>(&mut self, service: &mut S, ending: Ending)
        requires known { (page : ℕ) → is_in_use (entry_of self.old page) ≡ true
            → page < length (S.tells service.old).opened }
        requires held { (page : ℕ) → is_in_use (entry_of self.old page) ≡ true
            → IsSome ((S.tells service.old).mine.held page) }
        ensures released { Releases ending self.old self.new (S.tells service.new).mine }
        ensures idle { IsIdle self.new }
        ensures long { length self.new.pages ≤ length self.old.pages }
        ensures first { AreUsedFirst self.new.pages }
        ensures images { HaveImages self.old.pages self.new.pages }
        ensures ends { (stored : ℕ → PageImage → PageImage)
            → EndsWith ending stored (S.tells service.old).mine self.old.pages
            → EndsWith ending stored (S.tells service.new).mine self.new.pages }
        ensures same { SameRecords (S.tells service.old) (S.tells service.new) }
        ensures served { StillServes (S.serves service.old) (S.serves service.new) }
        ensures calm { NoBusy (S.tells service.old) (S.tells service.new) }
        ensures answered { (page : ℕ) → is_in_use (entry_of self.old page) ≡ true
            → IsReleased S.releases (is_void ending (entry_of self.old page))
            (S.tells service.new).mine page }
        ensures copies { KeepsCopies (λ page. is_in_use (entry_of self.old page) ≡ false)
            (S.tells service.old).mine (S.tells service.new).mine }
    {
        self.cache.pages_differ();
        self.used.sort_unstable();
        release_all(&mut self.cache, service, &self.used, ending);
        self.cache.pages_differ();
        self.used.clear();
    }

    /// Ends an attempt, also one that met a fault. Every page in use is given back. Those that the attempt owned
    /// are gone, their copies void; every other one is retained, unless the service gave it up. It takes no memory.
    pub fn abort<S: PageService<GraphKind>>(&mut self, service: &mut S)
        requires own { IsOwn (S.serves service.old) (S.tells service.old) self.old }
        ensures same_client { SameClient self.old self.new }
        ensures released { Releases Aborted self.old self.new (S.tells service.new).mine }
        ensures idle { IsIdle self.new }
        ensures own { IsOwn (S.serves service.new) (S.tells service.new) self.new }
        ensures same { SameRecords (S.tells service.old) (S.tells service.new) }
        ensures served { StillServes (S.serves service.old) (S.serves service.new) }
        ensures calm { NoBusy (S.tells service.old) (S.tells service.new) }
        ensures answered { (page : ℕ) → is_in_use (entry_of self.old page) ≡ true
            → IsReleased S.releases (is_void Aborted (entry_of self.old page))
            (S.tells service.new).mine page }
        ensures copies { KeepsCopies (λ page. is_in_use (entry_of self.old page) ≡ false)
            (S.tells service.old).mine (S.tells service.new).mine }
    {
        self.release_used(service, Ending::Aborted);
    }
}
