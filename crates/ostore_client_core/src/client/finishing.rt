//! Committing an attempt.

ghost use Rattle.std.specs.Prelude.{◌≡◌, ◌<◌, ◌≤◌, ℕ, true, false, length, IfOk, IfErr, OnOk, OnErr};
ghost use Rattle.ostore_page_service.specs.Told.{StillServes};
ghost use Rattle.ostore_client_core.specs.declared.release.Ending.TheVariants.{Committed};
ghost use Rattle.ostore_client_cache.specs.Entries.{is_in_use};
ghost use Rattle.ostore_client_core.specs.Clients.{entry_of, IsIdle, IsOwn};
ghost use Rattle.ostore_client_core.specs.Attempts.{Attempts};
ghost use Rattle.ostore_client_core.specs.Calls.{Releases, SameClient};
ghost use Rattle.ostore_client_core.specs.Commits.{FailsToCommit, Finishes, FitsClient, ServesStill, WritesOwned};
ghost use Rattle.ostore_client_core.specs.Retaining.{IsReleased, KeepsCopies};
ghost use Rattle.ostore_client_core.specs.inside.Writing.{AreFitOwned};

use crate::client::Client;
use crate::fault::AttemptFault;
use crate::kind::GraphKind;
use crate::release::Ending;
use crate::writing::write_owned;
use ostore_address_space::Mapper;
use ostore_base::{ClientNo, OutOfMemory};
use ostore_graph_model::Entry;
use ostore_page_service::{PageClaims, PageService};
use ostore_redo_journal::Record;

impl<'a, M: Mapper> Client<'a, M> {
    /// What the attempt owns, as a record of a transaction.
    fn draft(&mut self, client: ClientNo, ordinal: u32) -> Result<Record, OutOfMemory>
        requires fit { AreFitOwned self.old.schema self.old.pages }
        requires short { length self.old.pages ≤ self.old.most }
        ensures same { self.new ≡ self.old }
        ensures client { IfOk result (λ rec. rec.client ≡ client.0) }
        ensures ordinal { IfOk result (λ rec. rec.ordinal ≡ ordinal) }
        ensures writes { IfOk result (λ rec. WritesOwned self.old rec.pages) }
    {
        // at most 16,384, as the pages of a cache are: so their count is a u16
        let _most = self.cache.most();
        let count = self.cache.used();
        self.used.sort_unstable();
        let mut rec = Record::new(self.alloc, client, ordinal, count as u16)?;
        write_owned(&mut rec, &self.cache, &self.used, self.schema, &self.space);
        Ok(rec)
    }

    /// Commits an update as `finish` does.
    fn update<S: PageService<GraphKind>>(
        &mut self,
        service: &mut S,
        turn: S::Turn,
        entry: Entry,
    ) -> Result<u64, AttemptFault>
        requires runs { Attempts (S.serves service.old) (S.tells service.old) self.old }
        requires room { 0 < (S.tells service.old).mine.room }
        requires updates { entry.update ≡ true }
        requires writer { (S.tells service.old).may_write ≡ true }
        requires fits { FitsClient (S.serves service.old) (S.tells service.old) self.old entry }
        ensures own { IsOwn (S.serves service.new) (S.tells service.new) self.new }
        ensures done { IfOk result
            (Finishes (S.tells service.old) (S.tells service.new) self.old entry) }
        ensures same_client { SameClient self.old self.new }
        ensures released { OnOk result
            (Releases Committed self.old self.new (S.tells service.new).mine) }
        ensures idle { OnOk result (IsIdle self.new) }
        ensures served { OnOk result (ServesStill (S.serves service.old) (S.serves service.new)
            (S.tells service.old) self.old entry) }
        ensures failed { IfErr result (λ fault.
            FailsToCommit fault (S.tells service.old) (S.tells service.new) entry) }
        ensures client { OnErr result (self.new ≡ self.old) }
        ensures still { OnErr result (StillServes (S.serves service.old) (S.serves service.new)) }
        ensures answered { OnOk result ((page : ℕ) → is_in_use (entry_of self.old page) ≡ true
            → IsReleased S.releases false (S.tells service.new).mine page) }
        ensures copies { KeepsCopies (λ page. is_in_use (entry_of self.old page) ≡ false)
            (S.tells service.old).mine (S.tells service.new).mine }
    {
        let Ok(mut rec) = self.draft(entry.client, entry.ordinal) else {
            return Err(AttemptFault::OutOfMemory);
        };
        match service.commit(turn, &mut rec, entry) {
            Ok(number) => {
                self.release_used(service, Ending::Committed);
                Ok(number)
            }
            Err(fault) => Err(AttemptFault::Commit(fault)),
        }
    }

    /// Commits what the attempt has made, and gives every page in use back. All of them are retained, unless the service
    /// gave them up, the highest as the most recently used one. It answers the commit number. After a fault the client is
    /// as it was; want of memory comes before the commit, and only an update meets it or a fault of the commit.
    pub fn finish<S: PageService<GraphKind>>(
        &mut self,
        service: &mut S,
        turn: S::Turn,
        entry: Entry,
    ) -> Result<u64, AttemptFault>
        requires runs { Attempts (S.serves service.old) (S.tells service.old) self.old }
        requires room { 0 < (S.tells service.old).mine.room }
        requires writer { entry.update ≡ true → (S.tells service.old).may_write ≡ true }
        requires fits { FitsClient (S.serves service.old) (S.tells service.old) self.old entry }
        ensures own { IsOwn (S.serves service.new) (S.tells service.new) self.new }
        ensures done { IfOk result
            (Finishes (S.tells service.old) (S.tells service.new) self.old entry) }
        ensures same_client { SameClient self.old self.new }
        ensures released { OnOk result
            (Releases Committed self.old self.new (S.tells service.new).mine) }
        ensures idle { OnOk result (IsIdle self.new) }
        ensures served { OnOk result (ServesStill (S.serves service.old) (S.serves service.new)
            (S.tells service.old) self.old entry) }
        ensures failed { IfErr result (λ fault.
            FailsToCommit fault (S.tells service.old) (S.tells service.new) entry) }
        ensures client { OnErr result (self.new ≡ self.old) }
        ensures still { OnErr result (StillServes (S.serves service.old) (S.serves service.new)) }
        ensures answered { OnOk result ((page : ℕ) → is_in_use (entry_of self.old page) ≡ true
            → IsReleased S.releases false (S.tells service.new).mine page) }
        ensures copies { KeepsCopies (λ page. is_in_use (entry_of self.old page) ≡ false)
            (S.tells service.old).mine (S.tells service.new).mine }
    {
        if entry.update {
            return self.update(service, turn, entry);
        }
        let number = service.commit_read(entry);
        self.release_used(service, Ending::Committed);
        Ok(number)
    }
}
