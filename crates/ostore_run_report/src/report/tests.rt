//! Reports against bytes that were written by hand from the format's description.

use crate::report::print_report;
use crate::results::{Cause, ClientResults, Tail, TxnResult};
use ostore_base::{ListOf, OutOfMemory, PageNo, Text};
use ostore_graph_model::{Listed, Name, Refusal, Replies, Reply, Value};
use ostore_job_text::{Job, JobClient};
use std::alloc::Global;
use std::fmt::Write;
use std::test::Fail;

const EXPECTED: &[u8] = b"a.1 commit 1
  1.1
  ok
  7
a.2 gaveup 16 busy 10 0000000100010001 0123456789abcdef
a.3 read 1 tries 2
  1.2 !1.3
  empty
  \"say \\\"a\\\\b\\\"\"
  refused 5 Dangling
  !255.4294967295
  -9223372036854775808
  null
a.4 abort
a.5 notrun
b.1 abort tries 3
b.2 gaveup 1 nospace 255 1000
b.3 gaveup 1 cachefull 4 4
b.4 gaveup 1 spacefull 8
b.5 gaveup 1 disk
b.6 gaveup 1 stopped 18446744073709551615
b.7 commit 2
disk fault after 2
commits 2
fetches 9
";

fn name(segment: u8, serial: u32) -> Name {
    Name { segment, serial }
}

fn client(alloc: Global, name: &[u8]) -> Result<JobClient, OutOfMemory> {
    Ok(JobClient {
        name: Text::from_bytes(alloc, name)?,
        tries: 16,
        cache: 256,
        frames: 65536,
        txns: ListOf::new(alloc),
    })
}

fn updated(alloc: Global) -> Result<Replies, OutOfMemory> {
    let replies = vec![in alloc; Reply::Named(name(1, 1)), Reply::Done, Reply::Count(7)]?;
    Ok(ListOf::from_vec(replies))
}

fn read(alloc: Global) -> Result<Replies, OutOfMemory> {
    let names = vec![in alloc;
        Listed {
            name: name(1, 2),
            dead: false,
        },
        Listed {
            name: name(1, 3),
            dead: true,
        },
    ]?;
    let said = Text::from_bytes(alloc, b"say \"a\\b\"")?;
    let replies = vec![in alloc;
        Reply::Names(ListOf::from_vec(names)),
        Reply::Names(ListOf::new(alloc)),
        Reply::Value(Value::Text(said)),
        Reply::Refused(Refusal::Dangling),
        Reply::Value(Value::Dead(name(255, 4294967295))),
        Reply::Value(Value::Int(i64::MIN)),
        Reply::Value(Value::Null),
    ]?;
    Ok(ListOf::from_vec(replies))
}

fn first_results(alloc: Global) -> Result<ClientResults, OutOfMemory> {
    let commit = TxnResult::Commit {
        number: 1,
        tries: 1,
        replies: updated(alloc)?,
    };
    let busy = TxnResult::GaveUp {
        tries: 16,
        cause: Cause::Busy {
            page: PageNo(10),
            seen: 0x1_0001_0001,
            found: 0x0123_4567_89ab_cdef,
        },
    };
    let read = TxnResult::Read {
        number: 1,
        tries: 2,
        replies: read(alloc)?,
    };
    let abort = TxnResult::Abort { tries: 1 };
    let results = vec![in alloc; commit, busy, read, abort, TxnResult::NotRun]?;
    Ok(ListOf::from_vec(results))
}

fn given_up(cause: Cause) -> TxnResult {
    TxnResult::GaveUp { tries: 1, cause }
}

fn second_results(alloc: Global) -> Result<ClientResults, OutOfMemory> {
    let results = vec![in alloc;
        TxnResult::Abort { tries: 3 },
        given_up(Cause::NoSpace {
            segment: 255,
            need: 1000,
        }),
        given_up(Cause::CacheFull {
            used: 4,
            capacity: 4,
        }),
        given_up(Cause::SpaceFull { frames: 8 }),
        given_up(Cause::Disk),
        given_up(Cause::Stopped { after: u64::MAX }),
        TxnResult::Commit {
            number: 2,
            tries: 1,
            replies: ListOf::new(alloc),
        },
    ]?;
    Ok(ListOf::from_vec(results))
}

#[test]
fn every_outcome_is_printed(rt: HostRuntime) -> Result<(), Fail> {
    let alloc = rt.alloc();
    let clients = vec![in alloc; client(alloc, b"a")?, client(alloc, b"b")?]?;
    let job = Job {
        clients: ListOf::from_vec(clients),
        turns: ListOf::new(alloc),
    };
    let results = vec![in alloc; first_results(alloc)?, second_results(alloc)?]?;
    let results = ListOf::from_vec(results);
    let tail = Tail {
        disk_fault_after: Some(2),
        commits: 2,
        fetches: Some(9),
    };
    let text = print_report(alloc, &job, &results, tail)?;
    assert_eq!(rt; text.bytes(), EXPECTED);
    Ok(())
}

#[test]
fn an_empty_job_has_its_last_line(rt: HostRuntime) -> Result<(), Fail> {
    let alloc = rt.alloc();
    let job = Job {
        clients: ListOf::new(alloc),
        turns: ListOf::new(alloc),
    };
    let tail = Tail {
        disk_fault_after: None,
        commits: 0,
        fetches: None,
    };
    let text = print_report(alloc, &job, &ListOf::new(alloc), tail)?;
    assert_eq!(rt; text.bytes(), b"commits 0\n".as_slice());
    Ok(())
}

/// So many transactions, each with the replies `ok` and its number's name in segment 1.
fn many_results(alloc: Global, count: u32) -> Result<ClientResults, OutOfMemory> {
    let mut results = ListOf::new(alloc);
    for i in 1..=count {
        let replies = vec![in alloc; Reply::Done, Reply::Named(name(1, i))]?;
        results.push(TxnResult::Commit {
            number: u64::from(i),
            tries: 1,
            replies: ListOf::from_vec(replies),
        })?;
    }
    Ok(results)
}

/// The report of a client with these results, which has so many commits.
fn report_of_one(alloc: Global, results: ClientResults, commits: u64) -> Result<Text, OutOfMemory> {
    let clients = vec![in alloc; client(alloc, b"a")?]?;
    let job = Job {
        clients: ListOf::from_vec(clients),
        turns: ListOf::new(alloc),
    };
    let results = ListOf::from_vec(vec![in alloc; results]?);
    let tail = Tail {
        disk_fault_after: None,
        commits,
        fetches: None,
    };
    print_report(alloc, &job, &results, tail)
}

#[test]
fn a_long_report(rt: HostRuntime) -> Result<(), Fail> {
    let alloc = rt.alloc();
    let text = report_of_one(alloc, many_results(alloc, 2000)?, 2000)?;
    let mut expected = String::new(alloc);
    for i in 1..=2000u32 {
        writeln!(expected, "a.{i} commit {i}\n  ok\n  1.{i}")?;
    }
    expected.push_str("commits 2000\n")?;
    assert!(rt; text.bytes() == expected.as_bytes());
    Ok(())
}

const EXPECTED_REFUSALS: &[u8] = b"a.1 commit 1
  refused 1 NoVariable
  refused 2 NoMember
  refused 3 WrongKind
  refused 4 WrongType
  refused 5 Dangling
  refused 6 Null
  refused 7 NoRoot
  refused 8 TextTooLong
  refused 9 NoKey
  refused 10 OutOfRange
  refused 11 NotMember
  refused 12 AlreadyMember
  refused 13 NotIndexable
  refused 14 IndexThere
  refused 15 NoIndex
  refused 16 ReadOnly
  refused 17 NoObject
  refused 18 SerialsSpent
  refused 19 RootsFull
commits 1
";

const REFUSALS: [Refusal; 19] = [
    Refusal::NoVariable,
    Refusal::NoMember,
    Refusal::WrongKind,
    Refusal::WrongType,
    Refusal::Dangling,
    Refusal::Null,
    Refusal::NoRoot,
    Refusal::TextTooLong,
    Refusal::NoKey,
    Refusal::OutOfRange,
    Refusal::NotMember,
    Refusal::AlreadyMember,
    Refusal::NotIndexable,
    Refusal::IndexThere,
    Refusal::NoIndex,
    Refusal::ReadOnly,
    Refusal::NoObject,
    Refusal::SerialsSpent,
    Refusal::RootsFull,
];

#[test]
fn every_refusal_is_printed(rt: HostRuntime) -> Result<(), Fail> {
    let alloc = rt.alloc();
    let mut replies = ListOf::new(alloc);
    for refusal in REFUSALS {
        replies.push(Reply::Refused(refusal))?;
    }
    let mut results = ListOf::new(alloc);
    results.push(TxnResult::Commit {
        number: 1,
        tries: 1,
        replies,
    })?;
    let text = report_of_one(alloc, results, 1)?;
    assert_eq!(rt; text.bytes(), EXPECTED_REFUSALS);
    Ok(())
}
