//! Jobs that have too little room, and what becomes of the transactions behind those that are given up.

use super::runs::expect_run;
use std::alloc::Global;
use std::test::Fail;

/// A schema whose one type has 32 members, so that an object takes 264 bytes, and a page has room for 15 of them.
fn large_schema(alloc: Global) -> Result<String, Fail> {
    let mut schema = String::from_str(alloc, "type Part\n")?;
    for i in 0..32u32 {
        write!(schema, "m{i} int\n")?;
    }
    Ok(schema)
}

/// A segment takes all 1,014 free pages, and another one finds none.
#[test]
fn no_page_is_free(rt: HostRuntime) -> Result<(), Fail> {
    let mut text = large_schema(rt.alloc())?;
    text.push_str("job\nclient a cache 1024\nbegin\n")?;
    let mut report = String::from_str(rt.alloc(), "a.1 commit 1\n")?;
    for serial in 1..=15_210u32 {
        text.push_str("new $p Part 7\n")?;
        write!(report, "  7.{serial}\n")?;
    }
    text.push_str(
        "commit\nbegin\nnew $q Part 255\ncommit\nread\nget $p.m0\ncommit\nbegin\ncommit\n",
    )?;
    report.push_str(
        "a.2 gaveup 1 nospace 255 264\na.3 read 1\n  refused 1 NoVariable\na.4 commit 2\ncommits 2\n",
    )?;
    expect_run(&rt, rt.alloc(), text.as_str(), 1, report.as_str())
}

#[test]
fn caches_and_frames_that_are_too_few(rt: HostRuntime) -> Result<(), Fail> {
    for (job, report) in [
        (
            "client a cache 1\nbegin\nnew $p Part 1\ncommit\nbegin\ncommit\n",
            "a.1 gaveup 1 cachefull 1 1\na.2 commit 1\ncommits 1\n",
        ),
        (
            "client a frames 1\nbegin\nnew $p Part 1\ncommit\nclient b\nbegin\nnew $p Part 1\ncommit\n",
            "a.1 gaveup 1 spacefull 1\nb.1 commit 1\n  1.1\ncommits 1\n",
        ),
        // it would be aborted, but has no room for that
        (
            "client a cache 1\nbegin\nnew $p Part 1\nabort\n",
            "a.1 gaveup 1 cachefull 1 1\ncommits 0\n",
        ),
        (
            "client a cache 2 frames 2\nbegin\nnew $p Part 1\nset $p.id 3\ncommit\nbegin\nnew $q Part 1\nnew $r Part 2\ncommit\nbegin\nnew $r Part 1\ncommit\n",
            "a.1 commit 1\n  1.1\n  ok\na.2 gaveup 1 cachefull 2 2\na.3 commit 2\n  1.2\ncommits 2\n",
        ),
    ] {
        let text = format!(in rt.alloc(); "type Part\nid int\njob\n{job}")?;
        expect_run(&rt, rt.alloc(), text.as_str(), 1, report)?;
    }
    Ok(())
}
