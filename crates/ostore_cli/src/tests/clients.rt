//! Jobs of several clients, with reads and aborts, and the lines of jobs at fault.

use super::runs::expect_run;
use std::test::Fail;

#[test]
fn reads_and_aborts(rt: HostRuntime) -> Result<(), Fail> {
    for (job, report) in [
        // a writing command in a read
        (
            "client a\nbegin\nnew $p Part 1\ncommit\nread\nnew $q Part 1\nget $q.id\ncommit\n",
            "a.1 commit 1\n  1.1\na.2 read 1\n  refused 16 ReadOnly\n  refused 1 NoVariable\ncommits 1\n",
        ),
        // the serial of an aborted transaction is drawn again, and its object isn't there
        (
            "client a\nbegin\nnew $p Part 1\nset $p.id 5\nabort\nbegin\nnew $q Part 1\nget $q.id\nget $p.id\ncommit\n",
            "a.1 abort\na.2 commit 1\n  1.1\n  0\n  refused 1 NoVariable\ncommits 1\n",
        ),
        ("client a\nread\nabort\n", "a.1 abort\ncommits 0\n"),
        ("client a\nread\ncommit\n", "a.1 read 0\ncommits 0\n"),
    ] {
        let text = format!(in rt.alloc(); "type Part\nid int\njob\n{job}")?;
        expect_run(&rt, rt.alloc(), text.as_str(), 0, report)?;
    }
    Ok(())
}

#[test]
fn clients_in_job_order(rt: HostRuntime) -> Result<(), Fail> {
    expect_run(
        &rt,
        rt.alloc(),
        "type Part\nid int\njob\nclient a tries 3 cache 5\nbegin\nnew $p Part 1\ncommit\nread\ncommit\nclient b frames 7\nread\nget $p.id\ncommit\nbegin\nnew $p Part 1\nabort\nbegin\nnew $p Part 1\ncommit\nclient c\nturns b a*2 c\nturns b\n",
        0,
        "a.1 commit 1\n  1.1\na.2 read 1\nb.1 read 1\n  refused 1 NoVariable\nb.2 abort\nb.3 commit 2\n  1.2\ncommits 2\n",
    )
}

#[test]
fn jobs_at_fault(rt: HostRuntime) -> Result<(), Fail> {
    for (text, line) in [
        // an int beyond 64 bits, and a transaction that has no end
        (
            "type Part\nid int\njob\nclient a\nbegin\nnew $p Part 1\nset $p.id 9223372036854775808\nget $p.id\ncommit\n",
            "job fault 2 Syntax at 60\n",
        ),
        (
            "type Part\nid int\njob\nclient a\nbegin\n",
            "job fault 2 Syntax at 36\n",
        ),
        (
            "type Part\nid int\njob\nclient a\nclient a\n",
            "job fault 3 DuplicateClient at 37\n",
        ),
        (
            "type Part\nid int\njob\nclient a\nturns b\n",
            "job fault 6 UnknownTurn at 36\n",
        ),
        // the option before the client's name behind it
        (
            "type Part\nid int\njob\nclient a mail 1\nclient a\n",
            "job fault 5 BadOption at 30\n",
        ),
        // a job at fault is told before a schema that isn't built, and a schema at fault before it
        (
            "type Part\nnext ref Part\njob\nclient a tries 0\n",
            "job fault 5 BadOption at 37\n",
        ),
        (
            "type A\nx ref B\njob\nclient\n",
            "schema fault 4 UnknownType at 13\n",
        ),
    ] {
        expect_run(&rt, rt.alloc(), text, 3, line)?;
    }
    Ok(())
}
