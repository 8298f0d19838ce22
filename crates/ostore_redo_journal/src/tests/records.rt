ghost use Rattle.std.specs.Prelude.{◌≡◌, ◌≢◌, []};
ghost use Rattle.ostore_redo_journal.specs.Order.{IsInOrder};

use super::*;

#[test]
fn a_record_gives_its_pages_in_their_order(rt: HostRuntime) -> Result<(), Fail> {
    let mut record = Record::new(rt.alloc(), ClientNo(3), 1, 2)?;
    assert_eq!(rt; record.len(), 0);
    record.add(PageNo(9), &filled(1));
    record.add(PageNo(300), &filled(2));
    assert_eq!(rt; record.len(), 2);
    let mut image = PageImage::zeroed();
    for (at, page, byte) in [(0, 9, 1), (1, 300, 2)] {
        assert_eq!(rt; record.page(at), PageNo(page));
        record.image(at, &mut image);
        assert!(rt; image == filled(byte));
    }
    Ok(())
}

#[test]
fn the_first_record_has_these_bytes(rt: HostRuntime) -> Result<(), Fail> {
    let alloc = rt.alloc();
    let disk = MemDisk::new(database(alloc)?, Vec::new(alloc));
    let Some(mut journal) = opened(alloc, disk) else {
        return Err(Fail::new("the journal was not opened"));
    };
    let mut record = Record::new(alloc, ClientNo(0), 1, 3)?;
    record.add(PageNo(0), &filled(5));
    record.add(PageNo(9), &filled(6));
    record.add(PageNo(10), &filled(7));
    assert_eq!(rt; journal.append(&mut record), Ok(1));
    assert_eq!(rt; journal.scan.end, 98337);
    // Everything from the first gate to the next one: 12,321 bytes and a closed gate.
    let pieces: [(usize, &[u8]); 9] = [
        (0, &[1]),
        (1, &[1, 0, 0, 0]),
        (5, &[1, 0, 0, 0, 0, 0, 0, 0]),
        (15, &[1, 0, 0, 0]),
        (19, &[3, 0]),
        (25, &[5; 4096]),
        (4121, &[9, 0, 0, 0]),
        (4125, &[6; 4096]),
        (8221, &[10, 0, 0, 0]),
    ];
    let mut want = bytes_with(alloc, 12322, &pieces)?;
    for place in want.iter_mut().skip(8225).take(4096) {
        *place = 7;
    }
    let held = journal.disk.bytes();
    assert_eq!(rt; held.len(), 98338);
    assert!(rt; held.get(86016..) == Some(want.as_slice()));
    Ok(())
}

/// A record of no page, by its fields.
fn empty_record(generation: u8, number: u8, ordinal: u8, count: u8) -> [u8; 21] {
    let mut bytes = [0; 21];
    bytes[0] = 1;
    bytes[1] = generation;
    bytes[5] = number;
    bytes[15] = ordinal;
    bytes[19] = count;
    bytes
}

/// What a scan of a database of 20 pages at generation 2 with base 0 finds, with these bytes at the
/// journal's place, where the disk's call of this number fails.
fn scanned_failing(alloc: Global, log: &[u8], call: u64) -> Result<Result<Scan, ScanFault>, Fail> {
    let mut bytes = bytes_with(alloc, 86016, &FRESH)?;
    bytes.extend_from_slice(log)?;
    let mut disk = MemDisk::new(bytes, [call].to_vec(alloc)?);
    let header = Header {
        pages: 20,
        generation: 2,
        base: 0,
    };
    Ok(if disk.bytes().len() > 86016 {
        scan(alloc, &mut disk, header)
    } else {
        Err(ScanFault::DiskFault)
    })
}

/// The same, where no call fails.
fn scanned(alloc: Global, log: &[u8]) -> Result<Result<Scan, ScanFault>, Fail> {
    scanned_failing(alloc, log, 0)
}

/// So many records, and the place of the gate behind them.
fn found(records: u64, end: u64) -> Result<Scan, ScanFault> {
    Ok(Scan { records, end })
}

#[test]
fn records_are_read_up_to_the_first_closed_gate(rt: HostRuntime) -> Result<(), Fail> {
    let alloc = rt.alloc();
    let good = empty_record(2, 1, 1, 0);
    let next = bytes_with(alloc, 22, &[(0, &empty_record(2, 2, 1, 0))])?;
    // The first record, what stands behind it, and what is found.
    let cases: [([u8; 21], &[u8], Result<Scan, ScanFault>); 6] = [
        ([0; 21], &[1], found(0, 86016)),
        (good, &[0], found(1, 86037)),
        (good, &[7, 1, 1], found(1, 86037)),
        (good, next.as_slice(), found(2, 86058)),
        (empty_record(1, 1, 1, 0), &[], found(0, 86016)),
        (empty_record(1, 9, 0, 5), &[1], found(0, 86016)),
    ];
    for (first, behind, want) in cases {
        let mut log = Vec::from_slice(alloc, &first)?;
        log.extend_from_slice(behind)?;
        assert_eq!(rt; scanned(alloc, &log)?, want);
    }
    // Of an open first gate the generation alone is asked.
    assert_eq!(rt; scanned(alloc, &[1, 1, 0, 0, 0])?, found(0, 86016));
    Ok(())
}

#[test]
fn an_open_gate_without_its_record_is_bad(rt: HostRuntime) -> Result<(), Fail> {
    let alloc = rt.alloc();
    let good = empty_record(2, 1, 1, 0);
    let skips = bytes_with(alloc, 22, &[(0, &empty_record(2, 3, 1, 0))])?;
    // The first record, what stands behind it, and the place of the bad gate.
    let cases: [([u8; 21], &[u8], u64); 10] = [
        (good, &[], 86016),
        (good, &[1], 86037),
        (empty_record(3, 1, 1, 0), &[0], 86016),
        (empty_record(2, 2, 1, 0), &[0], 86016),
        (empty_record(2, 1, 0, 0), &[0], 86016),
        (empty_record(2, 1, 1, 1), &[0], 86016),
        (good, &empty_record(2, 2, 1, 0), 86037),
        (good, &empty_record(1, 2, 1, 0), 86037),
        (good, &[1, 1, 0, 0, 0], 86037),
        (good, skips.as_slice(), 86037),
    ];
    for (first, behind, at) in cases {
        let mut log = Vec::from_slice(alloc, &first)?;
        log.extend_from_slice(behind)?;
        assert_eq!(rt; scanned(alloc, &log)?, Err(ScanFault::BadRecord { at }));
    }
    let want = Err(ScanFault::BadRecord { at: 86016 });
    assert_eq!(rt; scanned(alloc, &[1, 1, 0, 0])?, want);
    Ok(())
}

#[test]
fn each_failed_read_of_a_record_is_answered(rt: HostRuntime) -> Result<(), Fail> {
    let alloc = rt.alloc();
    let log = bytes_with(alloc, 22, &[(0, &empty_record(2, 1, 1, 0))])?;
    // The length, the gate, the generation, the count, the record, and the gate behind it.
    for call in [1, 2, 3, 4, 5, 6] {
        let want = Err(ScanFault::DiskFault);
        assert_eq!(rt; scanned_failing(alloc, &log, call)?, want);
    }
    assert_eq!(rt; scanned_failing(alloc, &log, 7)?, found(1, 86037));
    Ok(())
}

#[test]
fn pages_ascend_below_the_page_count(rt: HostRuntime) -> Result<(), Fail> {
    let alloc = rt.alloc();
    let good = found(1, 94237);
    let bad = Err(ScanFault::BadRecord { at: 86016 });
    for (first, second, want) in [
        (0, 19, good),
        (3, 4, good),
        (3, 3, bad),
        (4, 3, bad),
        (0, 20, bad),
    ] {
        let head = empty_record(2, 1, 1, 2);
        let pieces: [(usize, &[u8]); 3] = [(0, &head), (21, &[first]), (4121, &[second])];
        let log = bytes_with(alloc, 8222, &pieces)?;
        assert_eq!(rt; scanned(alloc, &log)?, want);
    }
    Ok(())
}

/// Appends an empty record so many times, and counts the times that it is acknowledged.
fn append_many<D: Disk>(journal: &mut Journal<D>, rec: &mut Record, times: u64) -> u64
    requires in_order { IsInOrder D.content D.may_leave journal.old }
    requires ordinal { rec.old.ordinal ≢ 0 }
    requires empty { rec.old.pages ≡ [] }
{
    let mut done: u64 = 0;
    for time in 0..times {
        let _ = time;
        if journal.append(rec).is_ok() {
            done = done.saturating_add(1);
        }
    }
    done
}

#[test]
fn thousands_of_records_are_scanned(rt: HostRuntime) -> Result<(), Fail> {
    let alloc = rt.alloc();
    let disk = MemDisk::new(database(alloc)?, Vec::new(alloc));
    let mut record = Record::new(alloc, ClientNo(15), u32::MAX, 0)?;
    let Some(mut journal) = opened(alloc, disk) else {
        return Err(Fail::new("the journal was not opened"));
    };
    assert_eq!(rt; append_many(&mut journal, &mut record, 2000), 2000);
    let header = journal.header;
    let before = journal.disk.calls();
    let long = journal.disk.bytes().len() > 86016;
    if header.pages == 20 && header.base == 0 && long {
        let read = scan(alloc, &mut journal.disk, header);
        assert_eq!(rt; read, found(2000, 128016));
    }
    // The length, four reads at most a record, and the gate at the end.
    assert!(rt; journal.disk.calls().saturating_sub(before) <= 8002);
    Ok(())
}
