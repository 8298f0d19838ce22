ghost use Rattle.std.specs.Prelude.{◌≡◌, ◌≢◌, ◌<◌, IfSome, None, false, get_or, length};
ghost use Rattle.ostore_base.specs.Images.{Keeps};
ghost use Rattle.ostore_redo_journal.specs.Order.{IsInOrder};

use super::*;
use crate::scanning::scan;
use ostore_base::{ClientNo, Disk, MemDisk, PageImage, PageNo};
use std::alloc::Global;
use std::test::Fail;

mod crashes;
mod headers;
mod histories;
mod records;

/// An image whose bytes are all the same.
fn filled(byte: u8) -> PageImage {
    PageImage {
        bytes: [byte; 4096],
    }
}

/// What stands at the start of a database of 20 pages in format 1, at generation 1 with base 0.
const FRESH: [(usize, &[u8]); 4] = [
    (0, b"OSPAGES1"),
    (8, &[1, 0, 0, 0]),
    (12, &[20, 0, 0, 0]),
    (64, &[1, 1, 0, 0, 0]),
];

/// Zeros, with pieces at their places.
fn bytes_with(alloc: Global, size: usize, pieces: &[(usize, &[u8])]) -> Result<Vec<u8>, Fail> {
    let mut bytes = Vec::new(alloc);
    bytes.resize(size, 0)?;
    for (at, piece) in pieces {
        for (i, byte) in piece.iter().enumerate() {
            if let Some(place) = bytes.get_mut(at.saturating_add(i)) {
                *place = *byte;
            }
        }
    }
    Ok(bytes)
}

/// A fresh database of 20 pages. Its journal begins at 86,016.
fn database(alloc: Global) -> Result<Vec<u8>, Fail> {
    bytes_with(alloc, 86017, &FRESH)
}

/// Whether the gate at a place is open, as far as the disk can be read.
fn gate_is_open<D: Disk>(disk: &mut D, at: u64) -> bool
    requires { IfSome (D.content disk.old) (λ held. at < length held) }
    ensures closed { result ≡ false → IfSome (D.content disk.old) (λ held. get_or held at 0 ≢ 1) }
    ensures content { D.content disk.new ≡ D.content disk.old }
    ensures images { Keeps (D.may_leave disk.old) (D.may_leave disk.new) }
{
    let mut gate = [0; 1];
    disk.read(at, &mut gate).is_err() || gate[0] == 1
}

/// The journal of a disk whose header and records are read, where they can be. It is refused too where
/// the gate at its end is open, as one of an older generation is.
fn opened<D: Disk + Drop>(alloc: Global, mut disk: D) -> Option<Journal<D>>
    ensures in_order { IfSome result (λ j. IsInOrder D.content D.may_leave j) }
    ensures running { IfSome result (λ j. j.stopped ≡ None) }
{
    if disk.sync().is_err() {
        return None;
    }
    let Ok(header) = read_header(&mut disk) else {
        return None;
    };
    let Ok(found) = scan(alloc, &mut disk, header) else {
        return None;
    };
    if gate_is_open(&mut disk, found.end) {
        return None;
    }
    Some(Journal {
        disk,
        header,
        scan: found,
        stopped: None,
    })
}

#[test]
fn counted_records_are_numbered_from_one(rt: HostRuntime) -> Result<(), Fail> {
    let disk = MemDisk::new(Vec::new(rt.alloc()), Vec::new(rt.alloc()));
    let mut journal = counting::Journal::fresh(disk);
    let mut record = Record::new(rt.alloc(), ClientNo(0), 1, 0)?;
    assert_eq!(rt; journal.append(&mut record), Ok(1));
    assert_eq!(rt; journal.append(&mut record), Ok(2));
    assert!(rt; !journal.is_full());
    Ok(())
}
