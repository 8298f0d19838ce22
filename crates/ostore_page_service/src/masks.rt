//! Masks for words that several threads share: what an exclusive or, an and, or an or with a mask makes
//! of a word is the transition, whatever else has changed in the word since it was read.

ghost use Rattle.std.specs.Prelude.{◌<◌};
ghost use Rattle.ostore_base.specs.Limits.{most_clients};
ghost use Rattle.ostore_page_service.specs.Masks.{XorEndsFetch, XorDisowns, AndReleases, AndGivesUp, OrWants};

use crate::word::Word;
use ostore_base::ClientNo;

/// By an exclusive or, the client has fetched the image. The client is the fetcher, and keeps no copy.
pub fn fetched_mask(client: ClientNo) -> u64
    requires { client.0 < most_clients }
    ensures { XorEndsFetch result client.0 }
{
    let fetcher = Word(0).with_fetcher(client.0 as u64 + 1);
    fetcher.with_keep(client, 1).0
}

/// By an exclusive or, the owner is no longer one. The client is the owner.
pub fn disown_mask(client: ClientNo) -> u64
    requires { client.0 < most_clients }
    ensures { XorDisowns result client.0 }
{
    Word(0).with_owner(client.0 as u64 + 1).0
}

/// By an and, the client uses the page no longer.
pub fn release_mask(client: ClientNo) -> u64
    requires { client.0 < most_clients }
    ensures { AndReleases result client.0 }
{
    Word(u64::MAX).with_use(client, 0).0
}

/// By an and, the client keeps the page no longer, and after a release nobody waits for it.
pub fn give_up_mask(client: ClientNo, released: bool) -> u64
    requires { client.0 < most_clients }
    ensures { AndGivesUp result client.0 released }
{
    let given_up = Word(u64::MAX).with_keep(client, 0);
    if released {
        return given_up.with_wanted(0).0;
    }
    given_up.0
}

/// By an or, a client waits for the page.
pub fn want_mask() -> u64
    ensures { OrWants result }
{
    Word(0).with_wanted(1).0
}
