//! The words of a server: read, put, and wanted.

ghost use Rattle.std.specs.Prelude.{◌≡◌, ◌<◌, ◌≤◌, ℕ, Some, length, slice_get, slice_set};
ghost use Rattle.ostore_base.specs.Limits.{most_clients};
ghost use Rattle.ostore_base.specs.Faults.{Rose};
ghost use Rattle.ostore_page_service.specs.inside.Quiet.{IsQuiet};

use crate::answers::Busy;
use crate::kind::Kind;
use crate::server::SeqServer;
use crate::word::Word;
use ostore_base::{ClientNo, PageNo};

impl<K: Kind, D> SeqServer<K, D> {
    ghost use Rattle.ostore_page_service.specs.Exclusion.{Exclusive};
    ghost use Rattle.ostore_page_service.specs.Words.{fetcher};
    ghost use Rattle.ostore_page_service.specs.Servers.{pages_of, opened_of};
    ghost use Rattle.ostore_page_service.specs.inside.Frames.{IsWanted, LeavesThere, LeavesOthers, LeavesElsewhere, LeavesPages};

    /// A page's word. Between two calls nobody is fetching the page's image.
    pub fn word(&self, page: PageNo) -> Word
        requires { page.0 < length (opened_of self.now) }
        ensures word { slice_get (pages_of self.now).words page.0 ≡ Some result }
        ensures exclusive { Exclusive result.0 }
        ensures idle { fetcher result.0 ≡ 0 }
    {
        self.quiet_word(page)
    }

    /// A page's word.
    pub(super) fn quiet_word(&self, page: PageNo) -> Word
        requires { page.0 < length self.now.opened }
        ensures word { slice_get self.now.words.items page.0 ≡ Some result }
        ensures quiet { IsQuiet result.0 }
    {
        self.words[page.0 as usize]
    }

    /// Puts another word for a page, by a step of a client that leaves the others' parts.
    pub(super) fn set_word(&mut self, client: ClientNo, page: PageNo, word: Word)
        requires range { page.0 < length self.old.opened }
        requires quiet { IsQuiet word.0 }
        requires leaves { LeavesThere self.old page.0 word.0 client.0 }
        ensures words { self.new.words.items ≡ slice_set self.old.words.items page.0 word }
        ensures here { slice_get self.new.words.items page.0 ≡ Some word }
        ensures others { LeavesOthers self.old self.new client.0 }
        ensures elsewhere { LeavesElsewhere self.old self.new client.0 page.0 }
        ensures last { self.new.last ≡ self.old.last }
        ensures opened { self.new.opened ≡ self.old.opened }
        ensures records { self.new.records ≡ self.old.records }
        ensures first { self.new.first ≡ self.old.first }
        ensures busy { self.new.busy ≡ self.old.busy }
        ensures journal { self.new.journal ≡ self.old.journal }
    {
        self.words[page.0 as usize] = word;
    }

    /// Refuses a claim by a page's word. The page is wanted from then on.
    pub(super) fn refuse(&mut self, client: ClientNo, page: PageNo, word: Word) -> Busy
        requires client { client.0 < most_clients }
        requires range { page.0 < length self.old.opened }
        requires word { slice_get self.old.words.items page.0 ≡ Some word }
        ensures busy { result ≡ record { page = page; seen = word.0; found = word.0 } }
        ensures wanted { IsWanted self.old self.new page.0 word.0 }
        ensures later { self.old.busy ≤ self.new.busy }
        ensures rose { Rose self.old.busy self.new.busy }
        ensures others { LeavesOthers self.old self.new client.0 }
        ensures pages { LeavesPages self.old self.new client.0 }
        ensures last { self.new.last ≡ self.old.last }
        ensures opened { self.new.opened ≡ self.old.opened }
        ensures records { self.new.records ≡ self.old.records }
        ensures first { self.new.first ≡ self.old.first }
        ensures journal { self.new.journal ≡ self.old.journal }
    {
        let wanted = word.want();
        self.set_word(client, page, wanted);
        self.busy = self.busy.saturating_add(1);
        Busy {
            page,
            seen: word.0,
            found: word.0,
        }
    }
}
