//! Running a text, and what is expected of it.

use crate::{Low, Mapper, Words, ostore_turns};
use ostore_base::{MemDisk, MemSink, MemSource, Sink, Source};
use std::alloc::Global;
use std::process::Abort;
use std::test::Fail;

/// One transaction that makes a part, numbers it and reads the number.
pub(super) const FIRST: &str =
    "type Part\nid int\njob\nclient a\nbegin\nnew $p Part 1\nset $p.id 7\nget $p.id\ncommit\n";

/// Three transactions, with lines that are passed over and a last line without its end.
pub(super) const TWICE: &str =
    "# parts\n\n type  Part\nid int\nsize int\njob\nclient a\nbegin\nnew $p Part 1\nnew $q Part 1\ncommit\n  # more\nbegin\nnew $r Part 1\nnew $s Part 2 \nget $p.id\ncommit\nbegin\ncommit";

/// What a run over the outside in memory came to.
#[derive(Drop)]
pub(super) struct MemRun {
    pub(super) status: u8,
    pub(super) source: MemSource,
    pub(super) sink: MemSink,
}

/// A source in memory that has a text.
pub(super) fn source_of(alloc: Global, text: &str) -> Result<MemSource, Fail> {
    Ok(MemSource::new(text.as_bytes().to_vec(alloc)?, Vec::new(alloc)))
}

/// How many reads of up to 8,192 bytes a text in memory takes, with the one that meets its end.
fn reads_of(text: &str) -> u64 {
    text.len().div_ceil(8192) as u64 + 1
}

/// Runs `try` over a source and a sink, and gives the status.
pub(super) fn run_over<S: Source, K: Sink>(
    alloc: Global,
    source: &mut S,
    sink: &mut K,
) -> Result<u8, Fail> {
    let mut words = Words::new(alloc);
    words.push("try")?;
    let disk = MemDisk::new(Vec::new(alloc), Vec::new(alloc));
    Ok(ostore_turns(alloc, &words, source, sink, disk, &Low).status)
}

/// Runs words over a text.
pub(super) fn run_words(alloc: Global, words: &[&str], text: &str) -> Result<MemRun, Fail> {
    run_under(alloc, words, text, &Low)
}

/// Runs words over a text, where the mapper chooses the frames of pages.
fn run_under<M: Mapper>(
    alloc: Global,
    words: &[&str],
    text: &str,
    mapper: &M,
) -> Result<MemRun, Fail> {
    let mut line = Words::new(alloc);
    for word in words {
        line.push(word)?;
    }
    let mut source = source_of(alloc, text)?;
    let mut sink = MemSink::new(alloc, Vec::new(alloc));
    let disk = MemDisk::new(Vec::new(alloc), Vec::new(alloc));
    let status = ostore_turns(alloc, &line, &mut source, &mut sink, disk, mapper).status;
    Ok(MemRun {
        status,
        source,
        sink,
    })
}

/// Runs `try` on a text, which must print this with status 0, where the mapper chooses the frames of pages.
pub(super) fn expect_under<M: Mapper>(
    rt: &impl Abort,
    alloc: Global,
    text: &str,
    mapper: &M,
    printed: &str,
) -> Result<(), Fail> {
    let ran = run_under(alloc, &["try"], text, mapper)?;
    assert!(rt; ran.sink.bytes() == printed.as_bytes(), "{text}");
    assert_eq!(rt; ran.status, 0, "{text}");
    Ok(())
}

/// Runs `try` on a text, which must give this status and print this in one write, and must read
/// the text once and its end once.
pub(super) fn expect_run(
    rt: &impl Abort,
    alloc: Global,
    text: &str,
    status: u8,
    printed: &str,
) -> Result<(), Fail> {
    let ran = run_words(alloc, &["try"], text)?;
    assert!(rt; ran.sink.bytes() == printed.as_bytes(), "{text}");
    assert_eq!(rt; ran.status, status, "{text}");
    assert_eq!(rt; ran.source.calls(), reads_of(text), "{text}");
    assert_eq!(rt; ran.sink.calls(), 1, "{text}");
    Ok(())
}
