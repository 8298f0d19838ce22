//! A client.

ghost use Rattle.std.specs.Prelude.{◌≡◌, ◌<◌, ◌≤◌, ℕ, [], true, replicate, None, IfOk, OnOk};
ghost use Rattle.ostore_base.specs.Limits.{most_pages};
ghost use Rattle.ostore_schema_layout.specs.Lawful.{IsLawful};
ghost use Rattle.ostore_address_space.specs.Frames.{most_frames, frames_of};
ghost use Rattle.ostore_page_service.specs.Told.{SameRecords, StillServes, NoBusy};
ghost use Rattle.ostore_client_cache.specs.Entries.{is_in_use};
ghost use Rattle.ostore_client_core.specs.Clients.{client_view, entry_of, AreFree, IsAbsent, IsIdle, IsOwn};
ghost use Rattle.ostore_graph_model.specs.declared.commands.Script.{Script};
ghost use Rattle.ostore_client_core.specs.Attempts.{Attempts};
ghost use Rattle.ostore_client_core.specs.Retaining.{any_page, KeepsCopies};

mod addresses;
mod ending;
mod entering;
mod finishing;
mod owning;
mod steps;

use crate::kind::GraphKind;
use ostore_address_space::{Mapper, Space, frames_are_paired};
use ostore_base::{ClientNo, OutOfMemory, PageNo};
use ostore_client_cache::Cache;
use ostore_page_service::{PageClaims, PageService};
use ostore_schema_layout::Schema;
use std::alloc::Global;
use std::marker::Model;

/// A client of the database: its frames, and the pages that it has, in use or retained from earlier attempts. A
/// contract sees it as a `ClientView`.
#[derive(Drop)]
pub struct Client<'a, M: Mapper> {
    alloc: Global,
    schema: &'a Schema,
    mapper: &'a M,
    space: Space,
    cache: Cache,
    /// The pages in use, in the order in which they came. There is room for as many as there may be.
    used: Vec<PageNo>,
    fetches: u64,
}

impl<'a, M: Mapper> Model for Client<'a, M> {
    ghost use Rattle.std.specs.Prelude.{vec_capacity};
    ghost use Rattle.ostore_client_core.specs.Clients.{ClientView, client_view};
    ghost use Rattle.ostore_client_core.specs.inside.Kept.{IsClient};

    ghost Value = { ClientView };

    ghost view = { λ c. client_view c.schema.now c.space c.cache.pages c.cache.most c.fetches };

    ghost invariant = { λ c. let room = vec_capacity c.used in
        IsClient c.schema.now c.cache.pages c.used.items room c.cache.most };
}

impl<'a, M: Mapper> Client<'a, M> {
    /// A client without a page. It may have as many pages as `cache` says, and has the frames 1 to `frames`: at
    /// most 16,384 and 65,536.
    pub fn new(
        alloc: Global,
        schema: &'a Schema,
        mapper: &'a M,
        client: ClientNo,
        cache: u32,
        frames: u32,
    ) -> Result<Client<'a, M>, OutOfMemory>
        requires lawful { IsLawful schema.now }
        requires pages { cache ≤ most_pages }
        requires frames { frames ≤ most_frames }
        ensures made { let space = frames_of client (replicate frames None) in
            IfOk result (λ made. made ≡ client_view schema.now space [] cache 0) }
        ensures unframed { IfOk result (λ made. AreFree made.frames.pages) }
    {
        let space = Space::new(alloc, client, frames)?;
        let pages = Cache::new(alloc, cache)?;
        let used = Vec::with_capacity(alloc, cache as usize)?;
        Ok(Client {
            alloc,
            schema,
            mapper,
            space,
            cache: pages,
            used,
            fetches: 0,
        })
    }

    /// A law: a client without a page, also in its frames, is its service's own, where the service holds nothing for it.
    pub fn fresh_is_own<S: PageClaims<GraphKind>>(&self, service: &S)
        requires number { (S.tells service.now).client ≡ self.now.frames.client.0 }
        requires script { (script : Script) × S.serves service.now script
            × (script.schema ≡ self.now.schema) }
        requires without { self.now.pages ≡ [] }
        requires unframed { AreFree self.now.frames.pages }
        requires nothing { (page : ℕ) → IsAbsent (S.tells service.now).mine page }
        ensures { IsOwn (S.serves service.now) (S.tells service.now) self.now }
    {
        let _service = service;
        frames_are_paired(&self.space);
    }

    /// The claims that were Fetched so far. The count stays at 2^64 - 1 once it is there.
    pub fn fetches(&self) -> u64
        ensures { result ≡ self.now.fetches }
    {
        self.fetches
    }

    /// Whether a page is in use.
    pub fn is_in_use(&self, page: PageNo) -> bool
        ensures { result ≡ is_in_use (entry_of self.now page.0) }
    {
        self.cache.is_in_use(page)
    }

    /// Begins an attempt, which updates or only reads. No page is in use. The service makes room for its entry.
    pub fn begin<S: PageService<GraphKind>>(
        &mut self,
        service: &mut S,
        update: bool,
    ) -> Result<(), OutOfMemory>
        requires own { IsOwn (S.serves service.old) (S.tells service.old) self.old }
        requires idle { IsIdle self.old }
        requires writer { update ≡ true → (S.tells service.old).may_write ≡ true }
        ensures client { self.new ≡ self.old }
        ensures same { SameRecords (S.tells service.old) (S.tells service.new) }
        ensures served { StillServes (S.serves service.old) (S.serves service.new) }
        ensures calm { NoBusy (S.tells service.old) (S.tells service.new) }
        ensures touched { (S.tells service.new).touched ≡ (S.tells service.old).touched }
        ensures own { IsOwn (S.serves service.new) (S.tells service.new) self.new }
        ensures runs { OnOk result
            (Attempts (S.serves service.new) (S.tells service.new) self.new) }
        ensures room { OnOk result (0 < (S.tells service.new).mine.room) }
        ensures copies { KeepsCopies any_page (S.tells service.old).mine
            (S.tells service.new).mine }
    {
        let _updates = update;
        service.reserve()
    }
}
