//! The pages of a fresh database.

use super::*;
use ostore_base::{OutOfMemory, PageNo};

#[test]
fn a_fresh_database_has_its_text_and_a_free_list(rt: HostRuntime) -> Result<(), OutOfMemory> {
    let list = fresh_pages(rt.alloc(), b"type Part\n", 12)?;
    assert_eq!(rt; list.len(), 12);
    for (page, start) in [
        (0, [3, 0, 0, 0, 0, 0, 0, 0, 10, 0, 0, 0, 0, 0, 0, 0]),
        (1, *b"\x0a\0\0\0type Part\n\0\0"),
        (2, [0; 16]),
        (8, [0; 16]),
        (9, [4, 0, 0, 0, 0, 0, 0, 0, 0, 0, 0, 0, 0, 0, 0, 0]),
        (10, [1, 0, 0, 0, 0, 0, 0, 0, 11, 0, 0, 0, 0, 0, 0, 0]),
        (11, [1, 0, 0, 0, 0, 0, 0, 0, 0, 0, 0, 0, 0, 0, 0, 0]),
    ] {
        assert!(rt; page < list.len());
        let image = list.page(PageNo(page));
        assert_eq!(rt; &image.bytes[..16], start.as_slice());
        assert_eq!(rt; &image.bytes[16..], [0; 4080].as_slice());
    }
    Ok(())
}

#[test]
fn the_longest_text_and_the_most_pages_fit(rt: HostRuntime) -> Result<(), OutOfMemory> {
    let text = [b'a'; 32_764];
    let list = fresh_pages(rt.alloc(), &text, 16_384)?;
    assert_eq!(rt; list.len(), 16_384);
    for (page, start, next, end) in [
        (1, [0xfc, 0x7f, 0, 0], *b"aaaa", *b"aaaa"),
        (8, *b"aaaa", *b"aaaa", *b"aaaa"),
        (9, [4, 0, 0, 0], [0; 4], [0; 4]),
        (16_382, [1, 0, 0, 0], [0xff, 0x3f, 0, 0], [0; 4]),
        (16_383, [1, 0, 0, 0], [0; 4], [0; 4]),
    ] {
        assert!(rt; page < list.len());
        let image = list.page(PageNo(page));
        assert_eq!(rt; &image.bytes[..4], start.as_slice());
        assert_eq!(rt; &image.bytes[8..12], next.as_slice());
        assert_eq!(rt; &image.bytes[4092..], end.as_slice());
    }
    Ok(())
}
