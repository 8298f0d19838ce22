use super::*;
use ostore_base::ListOf;

/// How many commits a disk with these bytes opens with, and none where it doesn't open.
fn commits_in(alloc: Global, image: &ListOf<u8>) -> Result<Option<u64>, Fail> {
    let bytes = Vec::from_slice(alloc, image.items())?;
    let disk = MemDisk::new(bytes, Vec::new(alloc));
    Ok(opened(alloc, disk).map(|journal| journal.scan.records))
}

/// What the second append answers, and the third one; and the least and the greatest number of commits
/// with which the images open that a crash since the second one began might have left.
#[derive(Debug, Drop, PartialEq, Eq)]
struct Outcome {
    second: Result<u64, JournalFault>,
    third: Result<u64, JournalFault>,
    least: u64,
    greatest: u64,
}

/// Two appends, where the second one's call of this number fails, and all later ones too where the
/// disk stops.
fn two_appends(alloc: Global, call: u64, stops: bool) -> Result<Outcome, Fail> {
    // Six calls open the journal, and four append the first record.
    let at = call.saturating_add(10);
    let fails = if stops { 0 } else { at };
    let mut disk = MemDisk::new(database(alloc)?, [fails].to_vec(alloc)?);
    if stops {
        disk.stop_at(at);
    }
    let mut empty = Record::new(alloc, ClientNo(0), 1, 0)?;
    let Some(mut journal) = opened(alloc, disk) else {
        return Err(Fail::new("the journal was not opened"));
    };
    let first = journal.append(&mut empty);
    let since = journal.disk.moment();
    if first != Ok(1) || journal.disk.calls() != 10 {
        return Err(Fail::new("the journal was not opened"));
    }
    let second = journal.append(&mut empty);
    let images = journal.disk.crash_images(since, 1)?;
    let third = journal.append(&mut empty);
    let mut found = Outcome {
        second,
        third,
        least: u64::MAX,
        greatest: 0,
    };
    for image in images.items() {
        let Some(commits) = commits_in(alloc, image)? else {
            return Err(Fail::new("the journal was not opened"));
        };
        found.least = found.least.min(commits);
        found.greatest = found.greatest.max(commits);
    }
    Ok(found)
}

#[test]
fn a_crash_leaves_the_records_with_one_more_or_without(rt: HostRuntime) -> Result<(), Fail> {
    for (call, greatest) in [(1, 1), (2, 1), (3, 2), (4, 2)] {
        for stops in [true, false] {
            let want = Outcome {
                second: Err(JournalFault::DiskFault),
                third: Err(JournalFault::Stopped { after: 1 }),
                least: 1,
                greatest,
            };
            assert_eq!(rt; two_appends(rt.alloc(), call, stops)?, want);
        }
    }
    Ok(())
}

#[test]
fn an_acknowledged_record_is_sure(rt: HostRuntime) -> Result<(), Fail> {
    let alloc = rt.alloc();
    let disk = MemDisk::new(database(alloc)?, Vec::new(alloc));
    let mut empty = Record::new(alloc, ClientNo(0), 1, 0)?;
    let Some(mut journal) = opened(alloc, disk) else {
        return Err(Fail::new("the journal was not opened"));
    };
    assert_eq!(rt; journal.append(&mut empty), Ok(1));
    assert_eq!(rt; journal.append(&mut empty), Ok(2));
    let images = journal.disk.crash_images(journal.disk.moment(), 1)?;
    assert_eq!(rt; images.len(), 10);
    for image in images.items() {
        assert_eq!(rt; commits_in(alloc, image)?, Some(2));
    }
    Ok(())
}
