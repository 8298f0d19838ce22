//! Texts of jobs against what the grammar says of them.

use crate::fault::JobFault;
use crate::reading::jobs::parse_job;
use ostore_base::ClientNo;
use std::alloc::Global;
use std::fmt::Write;
use std::process::Abort;
use std::test::Fail;

/// The text is no job, for this reason.
fn expect_fault(rt: &impl Abort, alloc: Global, text: &[u8], fault: JobFault) {
    assert!(rt;
        matches!(parse_job(alloc, text), Err(found) if found == fault),
        "{text:?}"
    );
}

const FOUR: &[u8] = b"client a tries 3 cache 2 frames 7
begin
new $p Part 1
set $p.name \"a \\\"b\"
query $p.parts home.code >= -7
abort
read
get $p.id
commit
client b cache 16384
begin
commit
read
abort
client c
client d tries 1000
turns a b*2 c*1000000 d a
";

#[test]
fn a_job_of_four_clients(rt: HostRuntime) -> Result<(), Fail> {
    let job = parse_job(rt.alloc(), FOUR)?;
    let clients = job.clients.items();
    assert_eq!(rt; clients.len(), 4);
    assert_eq!(rt;
        [clients[0].tries, clients[0].cache, clients[0].frames],
        [3, 2, 7]
    );
    assert_eq!(rt;
        [clients[1].tries, clients[1].cache, clients[1].frames],
        [16, 16384, 65536]
    );
    let txns = clients[0].txns.items();
    assert_eq!(rt; txns.len(), 2);
    assert!(rt; txns[0].update && txns[0].aborts && !txns[1].update && !txns[1].aborts);
    let turns = job.turns.items();
    assert_eq!(rt; turns.len(), 5);
    assert_eq!(rt; turns[2].client, ClientNo(2));
    assert_eq!(rt; turns[2].count, 1_000_000);
    Ok(())
}

#[test]
fn words_that_cannot_stand(rt: HostRuntime) {
    for (text, at) in [
        (b"client a\nbegin\n".as_slice(), 15),
        (b"client a\nbegin".as_slice(), 14),
        (b"begin\n".as_slice(), 0),
        (b"client\n".as_slice(), 6),
        (b"client job\n".as_slice(), 7),
        (b"client a tries \n".as_slice(), 15),
        (b"client a tries 01\n".as_slice(), 15),
        (b"client a tries x\n".as_slice(), 15),
        (b"client a \"q 2\n".as_slice(), 9),
        (b"client a mail\n".as_slice(), 13),
        (b"client a\nbegin now\ncommit\n".as_slice(), 15),
        (b"client a\nbegin\ncommit 1\n".as_slice(), 22),
        (b"client a\nbegin\nbegin\ncommit\n".as_slice(), 15),
        (b"client a\nread\nabort\nabort\n".as_slice(), 20),
        (b"client a\n# \x01\n".as_slice(), 11),
        (b"client a\nturns\n".as_slice(), 14),
        (b"client a\nturns a*0\n".as_slice(), 15),
        (b"client a\nturns a*1000001\n".as_slice(), 15),
        (b"client a\nturns a\nclient b\n".as_slice(), 17),
    ] {
        expect_fault(&rt, rt.alloc(), text, JobFault::Syntax { at });
    }
}

#[test]
fn words_of_commands_that_cannot_stand(rt: HostRuntime) {
    for (text, at) in [
        (
            b"client a\nbegin\nset $p.n \"a\tb\"\ncommit\n".as_slice(),
            26,
        ),
        (
            b"client a\nbegin\nset $p.n \"a\\b\"\ncommit\n".as_slice(),
            24,
        ),
        (b"client a\nbegin\nset $p.n \"a\"b\ncommit\n".as_slice(), 24),
        (b"client a\nbegin\nnew $p Part 0\ncommit\n".as_slice(), 27),
        (b"client a\nbegin\nnew $p Part 256\ncommit\n".as_slice(), 27),
        (b"client a\nbegin\nfind $p 1.0\ncommit\n".as_slice(), 23),
        (
            b"client a\nbegin\nat $q $p.s 4294967296\ncommit\n".as_slice(),
            26,
        ),
        (
            b"client a\nbegin\nindex $p.s a.b.c.d\ncommit\n".as_slice(),
            26,
        ),
        (
            b"client a\nbegin\nquery $p.s a == 1\ncommit\n".as_slice(),
            28,
        ),
        (b"client a\nbegin\nset $p.id +1\ncommit\n".as_slice(), 25),
        (b"client a\nbegin\nget $p.id 1\ncommit\n".as_slice(), 25),
        (b"client a\nbegin\nget $p\ncommit\n".as_slice(), 19),
    ] {
        expect_fault(&rt, rt.alloc(), text, JobFault::Syntax { at });
    }
}

#[test]
fn bytes_names_and_options_at_fault(rt: HostRuntime) {
    for (text, fault) in [
        (b"\xff".as_slice(), JobFault::NotUtf8 { at: 0 }),
        (b"begin\n# \xc3".as_slice(), JobFault::NotUtf8 { at: 8 }),
        (
            b"client a\nclient a\n".as_slice(),
            JobFault::DuplicateClient { at: 16 },
        ),
        (
            b"client a tries 0\n".as_slice(),
            JobFault::BadOption { at: 9 },
        ),
        (
            b"client a tries 1001\n".as_slice(),
            JobFault::BadOption { at: 9 },
        ),
        (
            b"client a cache 16385\n".as_slice(),
            JobFault::BadOption { at: 9 },
        ),
        (
            b"client a frames 65537\n".as_slice(),
            JobFault::BadOption { at: 9 },
        ),
        (
            b"client a tries 99999999999999999999999\n".as_slice(),
            JobFault::BadOption { at: 9 },
        ),
        (
            b"client a mail 3\n".as_slice(),
            JobFault::BadOption { at: 9 },
        ),
        (b"client a $x 3\n".as_slice(), JobFault::BadOption { at: 9 }),
        (
            b"client a \"q r\" 3\n".as_slice(),
            JobFault::BadOption { at: 9 },
        ),
        (
            b"client a tries 2 cache 3 tries 2\n".as_slice(),
            JobFault::BadOption { at: 25 },
        ),
    ] {
        expect_fault(&rt, rt.alloc(), text, fault);
    }
}

#[test]
fn the_first_fault_is_told(rt: HostRuntime) {
    for (text, fault) in [
        (b"turns a\n".as_slice(), JobFault::UnknownTurn { at: 6 }),
        (
            b"client a\nturns a b*2\n".as_slice(),
            JobFault::UnknownTurn { at: 17 },
        ),
        (
            b"client a\nclient a mail 1\n".as_slice(),
            JobFault::DuplicateClient { at: 16 },
        ),
        (
            b"client a mail 1\nclient a\n".as_slice(),
            JobFault::BadOption { at: 9 },
        ),
        (b"turns a\nturns\n".as_slice(), JobFault::Syntax { at: 13 }),
        (
            b"client a\nclient a\nbegin\n".as_slice(),
            JobFault::Syntax { at: 24 },
        ),
    ] {
        expect_fault(&rt, rt.alloc(), text, fault);
    }
}

/// So many clients, each on a line of 11 bytes.
fn clients(alloc: Global, count: u32) -> Result<String, Fail> {
    let mut text = String::new(alloc);
    for i in 0..count {
        writeln!(text, "client c{i:02}")?;
    }
    Ok(text)
}

#[test]
fn clients_to_the_limit(rt: HostRuntime) -> Result<(), Fail> {
    let alloc = rt.alloc();
    assert_eq!(rt;
        parse_job(alloc, clients(alloc, 16)?.as_bytes())?
            .clients
            .len(),
        16
    );
    for count in [17, 18] {
        let text = clients(alloc, count)?;
        expect_fault(
            &rt,
            alloc,
            text.as_bytes(),
            JobFault::TooManyClients { at: 16 * 11 + 7 },
        );
    }
    Ok(())
}

#[test]
fn a_text_cut_anywhere_has_its_fault_within(rt: HostRuntime) {
    for length in 0..FOUR.len() {
        if let Err(fault) = parse_job(rt.alloc(), &FOUR[..length]) {
            assert!(rt; fault.number() != 0 && fault.place() <= length);
        }
    }
}

#[test]
fn texts_to_the_limit(rt: HostRuntime) -> Result<(), Fail> {
    let alloc = rt.alloc();
    let mut text = String::from_str(alloc, "client a\nbegin\n")?;
    for i in 0..20_000u32 {
        writeln!(text, "set $p.id {i}")?;
    }
    text.push_str("commit\n")?;
    for i in 0..2_000u32 {
        writeln!(text, "read\nget $v{i}.id\nabort")?;
    }
    for _ in 0..2_000u32 {
        text.push_str("turns a a*2 a\n")?;
    }
    let job = parse_job(alloc, text.as_bytes())?;
    assert_eq!(rt; job.turns.len(), 6_000);
    if let [client] = job.clients.items() {
        assert_eq!(rt; client.txns.len(), 2_001);
    }
    let mut long = vec![in alloc; b'#'; 4_194_304]?;
    assert!(rt; parse_job(alloc, &long).is_ok());
    long.push(b'#')?;
    expect_fault(&rt, alloc, &long, JobFault::TooLong { at: 4_194_304 });
    Ok(())
}
