//! Runs of the top calls over the outside in memory.

mod ample;
mod clients;
mod room;
mod runs;
mod slow;

use super::*;
use ostore_base::{ClientNo, PageNo};
use runs::{FIRST, TWICE, expect_run, expect_under, run_over, run_words};
use slow::{SlowSink, SlowSource};
use std::test::Fail;

#[test]
fn texts_and_their_reports(rt: HostRuntime) -> Result<(), Fail> {
    for (text, report) in [
        (FIRST, "a.1 commit 1\n  1.1\n  ok\n  7\ncommits 1\n"),
        (
            "type Part\nid int\njob\nclient a\nbegin\nnew $p Part 1\nset $p.id 9223372036854775807\nget $p.id\nset $p.id -9223372036854775808\nget $p.id\ncommit\n",
            "a.1 commit 1\n  1.1\n  ok\n  9223372036854775807\n  ok\n  -9223372036854775808\ncommits 1\n",
        ),
        (
            "type Part\nid int\njob\nclient a\nbegin\nget $p.id\nnew $p Box 1\nset $p.id 1\nnew $p Part 1\nget $p.size\ncommit\n",
            "a.1 commit 1\n  refused 1 NoVariable\n  refused 4 WrongType\n  refused 1 NoVariable\n  1.1\n  refused 2 NoMember\ncommits 1\n",
        ),
        ("type Part\nid int\njob\n", "commits 0\n"),
        ("type Part\n", "commits 0\n"),
        ("", "commits 0\n"),
        ("job\n", "commits 0\n"),
        (
            "type Part\nid int\ntype Box\nwidth int\nheight int\njob\nclient a\nbegin\nnew $p Part 1\nnew $b Box 1\nset $b.height 3\nset $p.id 4\nget $b.width\nget $b.height\nget $p.id\nget $p.height\ncommit\n",
            "a.1 commit 1\n  1.1\n  1.2\n  ok\n  ok\n  0\n  3\n  4\n  refused 2 NoMember\ncommits 1\n",
        ),
        (
            TWICE,
            "a.1 commit 1\n  1.1\n  1.2\na.2 commit 2\n  1.3\n  2.1\n  refused 1 NoVariable\na.3 commit 3\ncommits 3\n",
        ),
        // each cache has 2 pages more than the three commands may take
        (
            "type Part\nid int\njob\nclient a cache 8\nbegin\nnew $p Part 1\nnew $q Part 2\ncommit\nclient b cache 8\nbegin\nnew $r Part 1\ncommit\n",
            "a.1 commit 1\n  1.1\n  2.1\nb.1 commit 2\n  1.2\ncommits 2\n",
        ),
    ] {
        expect_run(&rt, rt.alloc(), text, 0, report)?;
    }
    Ok(())
}

#[test]
fn texts_that_are_not_built(rt: HostRuntime) -> Result<(), Fail> {
    for text in [
        "type Part\nid int\njob\nclient a\nbegin\nfind $p 1.1\ncommit\n",
        "type Part\nnext ref Part\njob\n",
        "type Part\ntype Box\nname text 8\njob\n",
    ] {
        expect_run(&rt, rt.alloc(), text, 3, "text refused\n")?;
    }
    Ok(())
}

#[test]
fn schemas_at_fault(rt: HostRuntime) -> Result<(), Fail> {
    for (text, line) in [
        ("type A\nx ref B\n", "schema fault 4 UnknownType at 13\n"),
        (
            "type A\nx ref B\njob\nclient a\nread\n",
            "schema fault 4 UnknownType at 13\n",
        ),
        (
            "type A\ntype A\njob\n",
            "schema fault 2 DuplicateType at 12\n",
        ),
        ("type\njob\n", "schema fault 1 Syntax at 4\n"),
    ] {
        expect_run(&rt, rt.alloc(), text, 3, line)?;
    }
    Ok(())
}

#[test]
fn refused_words(rt: HostRuntime) -> Result<(), Fail> {
    for words in [&[][..], &["run"], &["try", "try"], &["tries"]] {
        let ran = run_words(rt.alloc(), words, FIRST)?;
        assert_eq!(rt; ran.status, 2);
        assert!(rt; ran.sink.bytes() == b"words refused\n".as_slice());
        assert_eq!(rt; ran.sink.calls(), 1);
        assert_eq!(rt; ran.source.calls(), 0);
    }
    Ok(())
}

#[test]
fn the_call_that_takes_threads(rt: HostRuntime) -> Result<(), Fail> {
    let alloc = rt.alloc();
    let mut words = Words::new(alloc);
    words.push("try")?;
    let mut source = runs::source_of(alloc, FIRST)?;
    let mut sink = ostore_base::MemSink::new(alloc, Vec::new(alloc));
    let disk = ostore_base::MemDisk::new([1, 2].to_vec(alloc)?, Vec::new(alloc));
    let outcome = ostore(
        rt,
        alloc,
        &words,
        &mut source,
        &mut sink,
        disk,
        &Mixed,
        &OpenGate,
    );
    assert_eq!(rt; outcome.status, 0);
    assert_eq!(rt; outcome.disk.calls(), 0);
    assert_eq!(rt; outcome.disk.bytes(), [1, 2].as_slice());
    assert!(rt; sink.bytes() == b"a.1 commit 1\n  1.1\n  ok\n  7\ncommits 1\n".as_slice());
    Ok(())
}

#[test]
fn each_read_fails_in_turn(rt: HostRuntime) -> Result<(), Fail> {
    let alloc = rt.alloc();
    let reads = TWICE.len() as u64 + 1;
    for failing in 1..=reads {
        let mut source = SlowSource::new(alloc, TWICE, failing)?;
        let mut sink = SlowSink::new(alloc, 0)?;
        assert_eq!(rt; run_over(alloc, &mut source, &mut sink)?, 6);
        assert!(rt; sink.bytes() == b"source fault\n".as_slice());
        assert_eq!(rt; source.faults(), 1);
        assert_eq!(rt; source.calls(), failing);
    }
    Ok(())
}

#[test]
fn each_write_fails_in_turn(rt: HostRuntime) -> Result<(), Fail> {
    let alloc = rt.alloc();
    let text = "job\nclient a\nbegin\ncommit\n";
    let report = b"a.1 commit 1\ncommits 1\n".as_slice();
    let mut source = SlowSource::new(alloc, text, 0)?;
    let mut whole = SlowSink::new(alloc, 0)?;
    assert_eq!(rt; run_over(alloc, &mut source, &mut whole)?, 0);
    assert_eq!(rt; source.calls(), text.len() as u64 + 1);
    assert!(rt; whole.bytes() == report);
    let writes = report.len() as u64;
    assert_eq!(rt; whole.calls(), writes);
    for failing in 1..=writes {
        let mut source = SlowSource::new(alloc, text, 0)?;
        let mut sink = SlowSink::new(alloc, failing)?;
        assert_eq!(rt; run_over(alloc, &mut source, &mut sink)?, 7);
        assert_eq!(rt; sink.bytes().len() as u64, failing - 1);
        assert_eq!(rt; sink.calls(), failing);
        assert!(rt; report.starts_with(sink.bytes()));
    }
    Ok(())
}

#[test]
fn the_longest_text(rt: HostRuntime) -> Result<(), Fail> {
    let alloc = rt.alloc();
    for (length, status) in [(4194304usize, 0), (4194305, 3), (4194400, 3)] {
        let mut text = FIRST.as_bytes().to_vec(alloc)?;
        text.push(b'#')?;
        for _ in text.len()..length {
            text.push(b'x')?;
        }
        let mut source = ostore_base::MemSource::new(text, Vec::new(alloc));
        let mut sink = SlowSink::new(alloc, 0)?;
        assert_eq!(rt; run_over(alloc, &mut source, &mut sink)?, status);
        if status == 3 {
            assert!(rt; sink.bytes() == b"job fault 7 TooLong at 4194304\n".as_slice());
        }
        // 512 whole pieces, and the read of one byte that tells the two lengths apart
        assert_eq!(rt; source.calls(), 513);
    }
    Ok(())
}

/// Three clients that change and read each other's objects, in several segments.
const THREE: &str =
    "type Part\nid int\nsize int\njob\nclient a\nbegin\nnew $p Part 1\nset $p.id 7\nnew $q Part 200\nset $q.size 8\ncommit\nread\nget $p.id\ncommit\nclient b\nbegin\nnew $p Part 1\nset $p.id 9\nget $p.size\nabort\nbegin\nnew $p Part 1\nset $p.size -1\nget $p.size\ncommit\nclient c\nread\ncommit\nbegin\nnew $r Part 200\nget $r.id\nset $r.id 5\nget $r.id\ncommit\n";

const THREE_REPORTED: &str =
    "a.1 commit 1\n  1.1\n  ok\n  200.1\n  ok\na.2 read 1\n  refused 1 NoVariable\nb.1 abort\nb.2 commit 2\n  1.2\n  ok\n  -1\nc.1 read 2\nc.2 commit 3\n  200.2\n  0\n  ok\n  5\ncommits 3\n";

#[test]
fn each_mapper_gives_the_same_bytes(rt: HostRuntime) -> Result<(), Fail> {
    for (text, report) in [
        (FIRST, "a.1 commit 1\n  1.1\n  ok\n  7\ncommits 1\n"),
        (THREE, THREE_REPORTED),
    ] {
        expect_under(&rt, rt.alloc(), text, &Low, report)?;
        expect_under(&rt, rt.alloc(), text, &High, report)?;
        expect_under(&rt, rt.alloc(), text, &Mixed, report)?;
    }
    Ok(())
}

fn choose<M: Mapper>(mapper: &M) -> u32 {
    mapper.choose(ClientNo(2), PageNo(3), 10)
}

fn pass<G: Gate>(gate: &G) {
    gate.before(ClientNo(0), 0);
}

#[test]
fn mappers_and_the_open_gate(rt: HostRuntime) {
    assert_eq!(rt; choose(&Low), 0);
    assert_eq!(rt; choose(&High), 9);
    assert_eq!(rt; choose(&Mixed), 3);
    pass(&OpenGate);
}
