//! A caller that claims two pages or none, and two clients in turn.

ghost use Rattle.std.specs.Prelude.{◌≡◌, ◌≢◌, ◌<◌, ℕ, length, OnOk, OnErr, IfErr};
ghost use Rattle.ostore_base.specs.Limits.{most_clients};
ghost use Rattle.ostore_page_service.specs.Told.{SameRecords, NoBusy, Undisturbed, StillServes, HoldsReached};
ghost use Rattle.ostore_page_service.specs.Servers.{side_of, opened_of, told_of, Serves};
ghost use Rattle.ostore_service_callers.specs.Held.{HoldsBoth, HoldsNone};
ghost use Rattle.ostore_service_callers.specs.Claimed.{SameBeside, ComesIntoUse, MeetsAt, MeetsOwner};

use ostore_base::{ClientNo, Disk, PageImage, PageNo};
use ostore_page_service::{Busy, Kind, PageClaims, SeqServer, SeqService};

/// Claims two pages, or none where one of them is Busy, which is that page's Busy. What is held are images of
/// one reached list, and of a page that was fetched the image is put out.
pub fn claim_two<K: Kind, S: PageClaims<K>>(
    service: &mut S,
    one: PageNo,
    two: PageNo,
    into: &mut PageImage,
    other: &mut PageImage,
) -> Result<(), Busy>
    requires one { one.0 < length (S.tells service.old).opened }
    requires two { two.0 < length (S.tells service.old).opened }
    requires apart { one.0 ≢ two.0 }
    requires free { HoldsNone (S.tells service.old).mine.held }
    ensures same { SameRecords (S.tells service.old) (S.tells service.new) }
    ensures served { StillServes (S.serves service.old) (S.serves service.new) }
    ensures held { OnOk result (HoldsBoth (S.tells service.new).mine.held one.0 two.0) }
    ensures reached { OnOk result
        (HoldsReached K.meaning (S.serves service.old) (S.tells service.new)) }
    ensures one { OnOk result (ComesIntoUse (S.tells service.old).mine
        (S.tells service.new).mine one.0 into.new) }
    ensures two { OnOk result (ComesIntoUse (S.tells service.old).mine
        (S.tells service.new).mine two.0 other.new) }
    ensures free { OnErr result (HoldsNone (S.tells service.new).mine.held) }
    ensures beside { SameBeside (S.tells service.old).mine (S.tells service.new).mine one.0 two.0 }
    ensures calm { OnOk result (NoBusy (S.tells service.old) (S.tells service.new)) }
    ensures busy { IfErr result
        (MeetsAt (S.tells service.old) (S.tells service.new) one.0 two.0) }
{
    service.claim_read(one, into)?;
    if let Err(busy) = service.claim_read(two, other) {
        service.release(one);
        return Err(busy);
    }
    Ok(())
}

/// The same at the server's service.
fn claim_two_there<K: Kind, D: Disk>(
    service: &mut SeqService<'_, K, D>,
    one: PageNo,
    two: PageNo,
    into: &mut PageImage,
    other: &mut PageImage,
) -> Result<(), Busy>
    requires one { one.0 < length (opened_of service.old.server.now) }
    requires two { two.0 < length (opened_of service.old.server.now) }
    requires apart { one.0 ≢ two.0 }
    requires free { HoldsNone (side_of service.old.server.now service.old.seat.client.0).held }
    ensures same { SameRecords
        (told_of service.old.server.ghost_name D.faults service.old.seat.client.0
        service.old.server.now)
        (told_of service.new.server.ghost_name D.faults service.new.seat.client.0
        service.new.server.now) }
    ensures served { StillServes (Serves service.old.server.now) (Serves service.new.server.now) }
    ensures held { OnOk result
        (HoldsBoth (side_of service.new.server.now service.new.seat.client.0).held one.0 two.0) }
    ensures one { OnOk result
        (ComesIntoUse (side_of service.old.server.now service.old.seat.client.0)
        (side_of service.new.server.now service.new.seat.client.0) one.0 into.new) }
    ensures two { OnOk result
        (ComesIntoUse (side_of service.old.server.now service.old.seat.client.0)
        (side_of service.new.server.now service.new.seat.client.0) two.0 other.new) }
    ensures free { OnErr result
        (HoldsNone (side_of service.new.server.now service.new.seat.client.0).held) }
    ensures busy { IfErr result (MeetsOwner (side_of service.old.server.now)
        service.old.seat.client.0 one.0 two.0) }
{
    claim_two(service, one, two, into, other)
}

/// One client's turn at the server.
pub fn one_turn<K: Kind, D: Disk>(
    server: &mut SeqServer<K, D>,
    client: ClientNo,
    one: PageNo,
    two: PageNo,
    into: &mut PageImage,
    other: &mut PageImage,
) -> Result<(), Busy>
    requires client { client.0 < most_clients }
    requires one { one.0 < length (opened_of server.old) }
    requires two { two.0 < length (opened_of server.old) }
    requires apart { one.0 ≢ two.0 }
    requires free { HoldsNone (side_of server.old client.0).held }
    ensures opened { opened_of server.new ≡ opened_of server.old }
    ensures served { StillServes (Serves server.old) (Serves server.new) }
    ensures others { (d : ℕ) → d < most_clients → d ≢ client.0
        → Undisturbed (side_of server.old d) (side_of server.new d) }
    ensures held { OnOk result (HoldsBoth (side_of server.new client.0).held one.0 two.0) }
    ensures one { OnOk result (ComesIntoUse (side_of server.old client.0)
        (side_of server.new client.0) one.0 into.new) }
    ensures two { OnOk result (ComesIntoUse (side_of server.old client.0)
        (side_of server.new client.0) two.0 other.new) }
    ensures free { OnErr result (HoldsNone (side_of server.new client.0).held) }
    ensures busy { IfErr result (MeetsOwner (side_of server.old) client.0 one.0 two.0) }
{
    let mut service = server.as_client(client);
    claim_two_there(&mut service, one, two, into, other)
}

/// Two clients in turn: the second one's turn leaves what the first one holds. Busy comes only where a client
/// other than the first one owned a page before. The images that the second one fetched are put out.
pub fn two_turns<K: Kind, D: Disk>(
    server: &mut SeqServer<K, D>,
    one: PageNo,
    two: PageNo,
    into: &mut PageImage,
    other: &mut PageImage,
) -> Result<(), Busy>
    requires one { one.0 < length (opened_of server.old) }
    requires two { two.0 < length (opened_of server.old) }
    requires apart { one.0 ≢ two.0 }
    requires first { HoldsNone (side_of server.old 0).held }
    requires second { HoldsNone (side_of server.old 1).held }
    ensures served { StillServes (Serves server.old) (Serves server.new) }
    ensures first { OnOk result (HoldsBoth (side_of server.new 0).held one.0 two.0) }
    ensures second { OnOk result (HoldsBoth (side_of server.new 1).held one.0 two.0) }
    ensures one { OnOk result
        (ComesIntoUse (side_of server.old 1) (side_of server.new 1) one.0 into.new) }
    ensures two { OnOk result
        (ComesIntoUse (side_of server.old 1) (side_of server.new 1) two.0 other.new) }
    ensures busy { IfErr result (MeetsOwner (side_of server.old) 0 one.0 two.0) }
{
    one_turn(server, ClientNo(0), one, two, into, other)?;
    one_turn(server, ClientNo(1), one, two, into, other)
}
