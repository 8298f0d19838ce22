//! Laws of permission words, each the contract of a function that does nothing. A caller who needs a
//! law calls its function.

ghost use Rattle.std.specs.Prelude.{◌≡◌, ◌≢◌, ◌<◌, ◌+◌, ℕ, Bool};
ghost use Rattle.ostore_base.specs.Limits.{most_clients};
ghost use Rattle.ostore_page_service.specs.Words.{use_of, owner, fetcher, Hits, Misses, EndsFetch, Owns, Disowns, Releases, GivesUp, Wants, MayHit, MayMiss, MayEndFetch, MayOwn, MayDisown, MayRelease, MayGiveUp, ReadConflict, OwnConflict, HaveSameParts};
ghost use Rattle.ostore_page_service.specs.Exclusion.{Exclusive, LeadsToExclusive, NamesAnother};

use crate::word::Word;
use ostore_base::ClientNo;

/// The transitions of readers keep the exclusion where they are permitted. The use of a page ends only
/// after its fetch.
pub fn steps_keep_exclusion(word: Word, client: ClientNo)
    requires low { client.0 < most_clients }
    requires exclusive { Exclusive word.0 }
    ensures hit { LeadsToExclusive (MayHit word.0 client.0) (λ n. Hits word.0 n client.0) }
    ensures miss { LeadsToExclusive (MayMiss word.0 client.0) (λ n. Misses word.0 n client.0) }
    ensures fetched { LeadsToExclusive (MayEndFetch word.0 client.0)
        (λ n. EndsFetch word.0 n client.0) }
    ensures release { LeadsToExclusive
        (MayRelease word.0 client.0 × (fetcher word.0 ≢ client.0 + 1))
        (λ n. Releases word.0 n client.0) }
    ensures give_up { (released : Bool) → LeadsToExclusive (MayGiveUp word.0 client.0)
        (λ n. GivesUp word.0 n client.0 released) }
{}

/// And so do those of owners, and of a client that waits.
pub fn steps_of_ownership_keep_exclusion(word: Word, client: ClientNo)
    requires low { client.0 < most_clients }
    requires exclusive { Exclusive word.0 }
    ensures own { LeadsToExclusive (MayOwn word.0 client.0) (λ n. Owns word.0 n client.0) }
    ensures disown { LeadsToExclusive (MayDisown word.0 client.0) (λ n. Disowns word.0 n client.0) }
    ensures want { (new : ℕ) → Wants word.0 new → Exclusive new }
{}

/// A conflict of a claim to read, of a client that doesn't use the page, names another client as owner
/// or fetcher. One of a claim to own names a client that uses the page. Where there is none, a client
/// that uses the page, neither owns nor fetches it, may own it.
pub fn conflicts_name_another(word: Word, client: ClientNo)
    requires low { client.0 < most_clients }
    requires exclusive { Exclusive word.0 }
    ensures read { use_of word.0 client.0 ≡ 0 → ReadConflict word.0 client.0
        → NamesAnother word.0 client.0 }
    ensures own { use_of word.0 client.0 ≡ 1 → fetcher word.0 ≢ client.0 + 1
        → owner word.0 ≢ client.0 + 1 → (OwnConflict word.0 client.0 → ⊥)
        → MayOwn word.0 client.0 }
{}

/// A word, as a number, is determined by its parts.
pub fn words_are_their_parts(one: u64, other: u64)
    requires { HaveSameParts one other }
    ensures { one ≡ other }
{}
