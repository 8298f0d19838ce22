mod cells;
mod fresh;

use super::*;
use ostore_base::PageImage;
use std::alloc::AllocError;

/// A good page of three cells: an object, a dead object, and a chunk whose bytes are zero.
fn good_page() -> PageImage {
    let mut image = PageImage::zeroed();
    image.bytes[..20].copy_from_slice(&[
        2, 7, 3, 0, 56, 0, 0, 0, 9, 0, 0, 0, 4, 3, 2, 1, 5, 0, 0, 0,
    ]);
    image.bytes[32..44].copy_from_slice(b"twelve bytes");
    image.bytes[4072..].copy_from_slice(&[
        52, 0, 246, 1, 0, 0, 0, 0, // a live chunk at 52
        44, 0, 64, 0, 2, 0, 0, 0, // a dead object at 44, with the serial 2
        32, 0, 1, 1, 1, 0, 0, 0, // a live object at 32, with the serial 1
    ]);
    image
}

/// A good page of objects with one byte changed.
fn changed(at: u16, byte: u8) -> PageImage {
    let mut image = good_page();
    if let Some(place) = image.bytes.get_mut(usize::from(at)) {
        *place = byte;
    }
    image
}

#[test]
fn numbers_are_read_low_byte_first(rt: HostRuntime) {
    let mut image = PageImage::zeroed();
    image.bytes[100..104].copy_from_slice(&[0x34, 0x12, 0x78, 0x56]);
    image.bytes[4088..].copy_from_slice(&[0xfe, 0xff, 0xff, 0xff, 0xff, 0xff, 0xff, 0xff]);
    assert_eq!(rt; get_u8(&image, 100), 0x34);
    assert_eq!(rt; get_u16(&image, 100), 0x1234);
    assert_eq!(rt; get_u32(&image, 100), 0x5678_1234);
    assert_eq!(rt; get_i64(&image, 4088), -2);
}

#[test]
fn numbers_are_written_low_byte_first(rt: HostRuntime) {
    let mut image = PageImage {
        bytes: [0xaa; ostore_base::PAGE_SIZE],
    };
    put_u8(&mut image, 0, 0x12);
    put_u16(&mut image, 2, 0x1234);
    put_u32(&mut image, 5, 0x1234_5678);
    put_i64(&mut image, 10, -2);
    let want = [
        0x12, 0xaa, 0x34, 0x12, 0xaa, 0x78, 0x56, 0x34, 0x12, 0xaa, 0xfe, 0xff, 0xff, 0xff, 0xff,
        0xff, 0xff, 0xff, 0xaa,
    ];
    assert_eq!(rt; &image.bytes[..19], want.as_slice());
}

#[test]
fn a_header_is_read(rt: HostRuntime) {
    assert_eq!(rt;
        header(&good_page()),
        PageHeader {
            kind: 2,
            segment: 7,
            rows: 3,
            end: 56,
            next: 9,
            last_serial: 0x0102_0304,
            last_page: 5,
        }
    );
}

#[test]
fn a_header_is_written_between_the_bytes_with_no_field(rt: HostRuntime) {
    let mut image = PageImage {
        bytes: [0xaa; ostore_base::PAGE_SIZE],
    };
    set_header(
        &mut image,
        &PageHeader {
            kind: 1,
            segment: 2,
            rows: 0x0304,
            end: 0x0506,
            next: 0x0708_090a,
            last_serial: 0x0b0c_0d0e,
            last_page: 0x0f10_1112,
        },
    );
    let want = [
        1, 2, 4, 3, 6, 5, 0xaa, 0xaa, 10, 9, 8, 7, 14, 13, 12, 11, 18, 17, 16, 15, 0xaa,
    ];
    assert_eq!(rt; &image.bytes[..21], want.as_slice());
}

#[test]
fn each_broken_rule_is_named(rt: HostRuntime) {
    assert_eq!(rt; check_page(&good_page()), Ok(()));
    for (at, byte, number, name) in [
        (0, 3, 1, "BadHeader"),
        (7, 1, 1, "BadHeader"),
        (31, 1, 1, "BadHeader"),
        (56, 1, 1, "BadHeader"),
        (4071, 1, 1, "BadHeader"),
        (3, 2, 2, "RowsOverlap"),
        (4088, 36, 3, "RowOrder"),
        (4080, 45, 3, "RowOrder"),
        (4080, 32, 3, "RowOrder"),
        (4083, 2, 3, "RowOrder"),
        (4090, 65, 4, "BadType"),
        (4074, 239, 4, "BadType"),
        (4074, 247, 4, "BadType"),
        (4092, 0, 4, "BadType"),
        (4076, 1, 4, "BadType"),
        (4, 58, 5, "CellPastEnd"),
        (4, 52, 5, "CellPastEnd"),
    ] {
        let fault = check_page(&changed(at, byte)).err();
        assert_eq!(rt; fault.map(|fault| fault.number()), Some(number));
        assert_eq!(rt; fault.map(|fault| fault.name()), Some(name));
    }
}

#[test]
fn a_fault_is_printed_with_its_number(rt: HostRuntime) -> Result<(), AllocError> {
    let printed = format!(in rt.alloc(); "{}", PageFault::RowOrder)?;
    assert_eq!(rt; printed.as_str(), "rule 3 RowOrder");
    Ok(())
}

#[test]
fn an_empty_page_ends_behind_its_header(rt: HostRuntime) {
    let mut image = PageImage::zeroed();
    image.bytes[0] = 2;
    assert_eq!(rt; check_page(&image), Err(PageFault::CellPastEnd));
    image.bytes[4] = 32;
    assert_eq!(rt; check_page(&image), Ok(()));
}

#[test]
fn rows_are_found(rt: HostRuntime) {
    let image = good_page();
    let dead = Row {
        offset: 44,
        code: 64,
        live: false,
        serial: 2,
    };
    assert!(rt; check_page(&image).is_ok());
    assert_eq!(rt; row_at(&image, 44), Some(dead));
    assert_eq!(rt; row_at(&image, 40), None);
    assert_eq!(rt; row_of(&image, 2), Some(dead));
    assert_eq!(rt; row_of(&image, 3), None);
}

#[test]
fn a_page_is_walked_row_by_row(rt: HostRuntime) {
    let image = good_page();
    assert!(rt; check_page(&image).is_ok());
    assert_eq!(rt; rows(&image), 3);
    assert_eq!(rt; nth_row(&image, 0).offset, 32);
    assert_eq!(rt; cell_end(&image, 0), 44);
    assert_eq!(rt; nth_row(&image, 2).offset, 52);
    assert_eq!(rt; cell_end(&image, 2), 56);
}
