use super::*;

/// What a disk with these pieces says of itself, at a size.
fn header_at(
    alloc: Global,
    size: usize,
    pieces: &[(usize, &[u8])],
) -> Result<Result<Header, HeaderFault>, Fail> {
    let mut bytes = bytes_with(alloc, size, &FRESH)?;
    for (at, piece) in pieces {
        for (i, byte) in piece.iter().enumerate() {
            if let Some(place) = bytes.get_mut(at.saturating_add(i)) {
                *place = *byte;
            }
        }
    }
    let mut disk = MemDisk::new(bytes, Vec::new(alloc));
    Ok(read_header(&mut disk))
}

#[test]
fn the_newest_slot_that_counts_is_read(rt: HostRuntime) -> Result<(), Fail> {
    let alloc = rt.alloc();
    // Slot B, and the generation and base that are read.
    let cases: [(&[u8], u32, u64); 6] = [
        (&[0, 2, 0, 0, 0, 9], 1, 0),
        (&[1, 2, 0, 0, 0, 9], 2, 9),
        (&[2, 2, 0, 0, 0, 9], 1, 0),
        (&[1, 0, 0, 0, 0, 9], 1, 0),
        (&[1, 3, 0, 0, 0, 9], 1, 0),
        (&[1, 0, 1, 0, 0, 0, 0, 0, 0, 0, 0, 0, 0x40], 256, 1 << 62),
    ];
    for (slot, generation, base) in cases {
        let found = header_at(alloc, 86017, &[(128, slot)])?;
        let want = Header {
            pages: 20,
            generation,
            base,
        };
        assert_eq!(rt; found, Ok(want));
    }
    Ok(())
}

#[test]
fn a_header_is_refused_in_order(rt: HostRuntime) -> Result<(), Fail> {
    let alloc = rt.alloc();
    let none = Err(HeaderFault::NotDatabase);
    // The size, what else stands there, and the answer.
    let cases: [(usize, usize, &[u8], Result<Header, HeaderFault>); 12] = [
        (4095, 8, &[2], none),
        (86017, 7, b"2", none),
        (86017, 8, &[0], none),
        (4096, 8, &[2], Err(HeaderFault::NewerFormat)),
        (86017, 8, &[1, 0, 0, 1], Err(HeaderFault::NewerFormat)),
        (86016, 8, &[1], none),
        (86017, 12, &[10], none),
        (86017, 12, &[21], none),
        (86017, 12, &[1, 64], none),
        (86017, 64, &[0], none),
        (86017, 65, &[2], none),
        (
            86017,
            69,
            &[1, 0, 0, 0, 0, 0, 0, 0x40],
            Err(HeaderFault::BadRecord { at: 64 }),
        ),
    ];
    for (size, at, piece, want) in cases {
        assert_eq!(rt; header_at(alloc, size, &[(at, piece)])?, want);
    }
    let slot: (usize, &[u8]) = (128, &[1, 2, 0, 0, 0, 0, 0, 0, 0, 0, 0, 0, 0x80]);
    let want = Err(HeaderFault::BadRecord { at: 128 });
    assert_eq!(rt; header_at(alloc, 86017, &[slot])?, want);
    Ok(())
}

#[test]
fn each_failed_read_of_a_header_is_answered(rt: HostRuntime) -> Result<(), Fail> {
    let alloc = rt.alloc();
    // The length, and the first bytes.
    for call in [1, 2] {
        let mut disk = MemDisk::new(database(alloc)?, [call].to_vec(alloc)?);
        assert_eq!(rt; read_header(&mut disk), Err(HeaderFault::DiskFault));
    }
    Ok(())
}
