ghost use Rattle.std.specs.Prelude.{◌≡◌, ◌≢◌, ◌<◌, ℕ, length, IfOk};
ghost use Rattle.ostore_base.specs.Limits.{most_clients};
ghost use Rattle.ostore_page_service.specs.Holding.{IsEmpty};
ghost use Rattle.ostore_page_service.specs.Servers.{side_of, opened_of, Serves};
ghost use Rattle.ostore_page_service.specs.Told.{Undisturbed};
ghost use Rattle.ostore_service_callers.specs.Held.{HoldsNone};

use super::*;
use ostore_base::{ClientNo, MemDisk, OutOfMemory, PageImage, PageList, PageNo};
use ostore_page_service::{Busy, Claim, PageClaims, Released, SeqServer, Word};
use ostore_redo_journal::counting::Journal;
use std::alloc::Global;
use std::process::Abort;
use std::test::Fail;

type Server = SeqServer<Sums, MemDisk>;

/// A call of a client.
#[derive(Clone, Copy, Debug)]
enum Call {
    Read,
    Own,
    Release,
    Drop,
}

/// What it answered. `NotAllowed` is none of a service's answers: the call wasn't made, since the page's
/// word doesn't allow it.
#[derive(Clone, Copy, Debug, PartialEq, Eq)]
enum Answer {
    Fetched,
    Kept,
    Owner,
    GivenUp,
    Dropped,
    Busy(u64, u64),
    NotAllowed,
}

/// A server of twelve pages of zeros.
fn twelve_pages(alloc: Global) -> Result<Server, OutOfMemory>
    ensures pages { IfOk result (λ server. length (opened_of server) ≡ 12) }
    ensures empty { IfOk result (λ server. (c : ℕ) → IsEmpty (side_of server c)) }
    ensures served { IfOk result (λ server. Serves server 12) }
{
    let zeros = PageImage::zeroed();
    let mut last = PageList::new(alloc);
    last.push(&zeros)?;
    last.push(&zeros)?;
    last.push(&zeros)?;
    last.push(&zeros)?;
    last.push(&zeros)?;
    last.push(&zeros)?;
    last.push(&zeros)?;
    last.push(&zeros)?;
    last.push(&zeros)?;
    last.push(&zeros)?;
    last.push(&zeros)?;
    last.push(&zeros)?;
    let disk = MemDisk::new(Vec::new(alloc), Vec::new(alloc));
    match SeqServer::new(alloc, last, Journal::fresh(disk)) {
        Ok(server) => Ok(server),
        Err(_) => Err(OutOfMemory),
    }
}

fn read(server: &mut Server, client: ClientNo, page: PageNo, into: &mut PageImage) -> Answer
    requires client { client.0 < most_clients }
    requires range { page.0 < length (opened_of server.old) }
    ensures opened { opened_of server.new ≡ opened_of server.old }
    ensures others { (d : ℕ) → d < most_clients → d ≢ client.0
        → Undisturbed (side_of server.old d) (side_of server.new d) }
{
    let Some(_) = server.word(page).give_up(client, false) else {
        return Answer::NotAllowed;
    };
    let mut service = server.as_client(client);
    match service.claim_read(page, into) {
        Ok(Claim::Kept) => Answer::Kept,
        Ok(Claim::Fetched) => Answer::Fetched,
        Err(busy) => Answer::Busy(busy.seen, busy.found),
    }
}

fn answer_of(claim: Result<(), Busy>) -> Answer {
    match claim {
        Ok(()) => Answer::Owner,
        Err(busy) => Answer::Busy(busy.seen, busy.found),
    }
}

fn own(server: &mut Server, client: ClientNo, page: PageNo) -> Answer
    requires client { client.0 < most_clients }
    requires range { page.0 < length (opened_of server.old) }
    ensures opened { opened_of server.new ≡ opened_of server.old }
    ensures others { (d : ℕ) → d < most_clients → d ≢ client.0
        → Undisturbed (side_of server.old d) (side_of server.new d) }
{
    let None = server.word(page).give_up(client, false) else {
        return Answer::NotAllowed;
    };
    let mut service = server.as_client(client);
    answer_of(service.claim_own(page))
}

fn release(server: &mut Server, client: ClientNo, page: PageNo) -> Answer
    requires client { client.0 < most_clients }
    requires range { page.0 < length (opened_of server.old) }
    ensures { opened_of server.new ≡ opened_of server.old }
{
    let None = server.word(page).give_up(client, false) else {
        return Answer::NotAllowed;
    };
    let mut service = server.as_client(client);
    match service.release(page) {
        Released::Kept => Answer::Kept,
        Released::GivenUp => Answer::GivenUp,
    }
}

fn drop_kept(server: &mut Server, client: ClientNo, page: PageNo) -> Answer
    requires client { client.0 < most_clients }
    requires range { page.0 < length (opened_of server.old) }
    ensures { opened_of server.new ≡ opened_of server.old }
{
    let Some(_) = server.word(page).give_up(client, false) else {
        return Answer::NotAllowed;
    };
    let mut service = server.as_client(client);
    service.drop_kept(page);
    Answer::Dropped
}

fn answer_to(server: &mut Server, call: Call, client: ClientNo, page: PageNo) -> Answer
    requires client { client.0 < most_clients }
    requires range { page.0 < length (opened_of server.old) }
    ensures { opened_of server.new ≡ opened_of server.old }
{
    match call {
        Call::Read => read(server, client, page, &mut PageImage::zeroed()),
        Call::Own => own(server, client, page),
        Call::Release => release(server, client, page),
        Call::Drop => drop_kept(server, client, page),
    }
}

/// Makes calls on page 10 one after the other. Each has this answer, and leaves this word.
fn play(rt: &impl Abort, server: &mut Server, steps: &[(u16, Call, Answer, u64)])
    requires { 10 < length (opened_of server.old) }
{
    for (client, call, answer, word) in steps {
        let client = ClientNo(*client);
        assert!(rt; client.is_within_limit());
        let given = answer_to(server, *call, client, PageNo(10));
        assert_eq!(rt; given, *answer, "{call:?} of client {}", client.0);
        assert_eq!(rt;
            server.word(PageNo(10)),
            Word(*word),
            "{call:?} of client {}",
            client.0
        );
    }
}

#[test]
fn a_client_uses_keeps_and_owns_a_page(rt: HostRuntime) -> Result<(), Fail> {
    let mut server = twelve_pages(rt.alloc())?;
    play(
        &rt,
        &mut server,
        &[
            (0, Call::Read, Answer::Fetched, 0x0000_0000_0001_0001),
            (0, Call::Own, Answer::Owner, 0x0000_0001_0001_0001),
            (0, Call::Own, Answer::Owner, 0x0000_0001_0001_0001),
            (0, Call::Release, Answer::Kept, 0x0000_0000_0001_0000),
            (0, Call::Read, Answer::Kept, 0x0000_0000_0001_0001),
            (0, Call::Release, Answer::Kept, 0x0000_0000_0001_0000),
            (0, Call::Drop, Answer::Dropped, 0),
            (0, Call::Read, Answer::Fetched, 0x0000_0000_0001_0001),
        ],
    );
    Ok(())
}

#[test]
fn a_claim_to_own_beside_a_user_makes_the_first_release_give_up(
    rt: HostRuntime,
) -> Result<(), Fail> {
    let mut server = twelve_pages(rt.alloc())?;
    let (before, wanted) = (0x0000_0000_0003_0003, 0x0000_0400_0003_0003);
    play(
        &rt,
        &mut server,
        &[
            (0, Call::Read, Answer::Fetched, 0x0000_0000_0001_0001),
            (1, Call::Read, Answer::Fetched, before),
            (1, Call::Own, Answer::Busy(before, before), wanted),
            (0, Call::Own, Answer::Busy(wanted, wanted), wanted),
            (1, Call::Release, Answer::GivenUp, 0x0000_0000_0001_0001),
            (0, Call::Own, Answer::Owner, 0x0000_0001_0001_0001),
        ],
    );
    Ok(())
}

#[test]
fn an_owner_takes_the_copies_of_the_others(rt: HostRuntime) -> Result<(), Fail> {
    let mut server = twelve_pages(rt.alloc())?;
    let owned = 0x0000_0001_0001_0001;
    play(
        &rt,
        &mut server,
        &[
            (1, Call::Read, Answer::Fetched, 0x0000_0000_0002_0002),
            (1, Call::Release, Answer::Kept, 0x0000_0000_0002_0000),
            (0, Call::Read, Answer::Fetched, 0x0000_0000_0003_0001),
            (0, Call::Own, Answer::Owner, owned),
            (1, Call::Drop, Answer::Dropped, owned),
            (
                1,
                Call::Read,
                Answer::Busy(owned, owned),
                0x0000_0401_0001_0001,
            ),
            (0, Call::Release, Answer::GivenUp, 0),
            (1, Call::Read, Answer::Fetched, 0x0000_0000_0002_0002),
        ],
    );
    Ok(())
}

/// The number of a page as a client fetches it.
fn number_of(server: &mut Server, client: ClientNo, page: PageNo) -> Option<u8>
    requires client { client.0 < most_clients }
    requires range { page.0 < length (opened_of server.old) }
    ensures { opened_of server.new ≡ opened_of server.old }
{
    let mut image = PageImage::zeroed();
    match read(server, client, page, &mut image) {
        Answer::Fetched => Some(image.bytes[0]),
        _ => None,
    }
}

/// An addition by client 0 at the server.
fn add_at(
    alloc: Global,
    server: &mut Server,
    ordinal: u32,
    page: PageNo,
    amount: u8,
) -> Result<u64, AddFault>
    requires range { page.0 < length (opened_of server.old) }
    requires ordinal { ordinal ≢ 0 }
    requires empty { IsEmpty (side_of server.old 0) }
    requires served { Serves server.old 12 }
    ensures { opened_of server.new ≡ opened_of server.old }
{
    let mut service = server.as_client(ClientNo(0));
    add(alloc, &mut service, (), ordinal, page, amount)
}

#[test]
fn a_commit_puts_its_image_in_place_and_an_abort_leaves_it(rt: HostRuntime) -> Result<(), Fail> {
    let mut server = twelve_pages(rt.alloc())?;
    let page = PageNo(10);
    assert_eq!(rt; add_at(rt.alloc(), &mut server, 1, page, 5), Ok(1));
    assert_eq!(rt; number_of(&mut server, ClientNo(1), page), Some(5));
    assert_eq!(rt; release(&mut server, ClientNo(1), page), Answer::Kept);
    let mut copy = PageImage::zeroed();
    assert_eq!(rt;
        read(&mut server, ClientNo(2), page, &mut copy),
        Answer::Fetched
    );
    assert_eq!(rt; own(&mut server, ClientNo(2), page), Answer::Owner);
    copy.bytes[0] = 9;
    assert_eq!(rt; release(&mut server, ClientNo(2), page), Answer::Kept);
    assert_eq!(rt; number_of(&mut server, ClientNo(1), page), Some(5));
    assert_eq!(rt; server.into_journal().number, 1);
    Ok(())
}

#[test]
fn two_clients_read_the_same_two_pages(rt: HostRuntime) -> Result<(), Fail> {
    let mut server = twelve_pages(rt.alloc())?;
    let (mut into, mut other) = (PageImage::zeroed(), PageImage::zeroed());
    assert_eq!(rt;
        two_turns(&mut server, PageNo(3), PageNo(4), &mut into, &mut other),
        Ok(())
    );
    assert_eq!(rt; server.word(PageNo(4)), Word(0x0000_0000_0003_0003));
    Ok(())
}

#[test]
fn two_pages_are_claimed_or_none(rt: HostRuntime) -> Result<(), Fail> {
    let mut server = twelve_pages(rt.alloc())?;
    let (mut into, mut other) = (PageImage::zeroed(), PageImage::zeroed());
    assert_eq!(rt;
        read(&mut server, ClientNo(1), PageNo(4), &mut into),
        Answer::Fetched
    );
    assert_eq!(rt; own(&mut server, ClientNo(1), PageNo(4)), Answer::Owner);
    let busy = Busy {
        page: PageNo(4),
        seen: 0x0000_0002_0002_0002,
        found: 0x0000_0002_0002_0002,
    };
    let turn = one_turn(
        &mut server,
        ClientNo(0),
        PageNo(3),
        PageNo(4),
        &mut into,
        &mut other,
    );
    assert_eq!(rt; turn, Err(busy));
    assert_eq!(rt; server.word(PageNo(3)), Word(0x0000_0000_0001_0000));
    Ok(())
}
