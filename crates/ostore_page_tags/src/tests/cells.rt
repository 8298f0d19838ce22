//! Cells that are added and marked dead.

use super::*;

/// A good page of one cell that ends at a place, from which 4,088 less the place are free.
fn page_up_to(end: u16) -> PageImage {
    let mut image = PageImage::zeroed();
    image.bytes[..4].copy_from_slice(&[2, 1, 1, 0]);
    image.bytes[4..6].copy_from_slice(&end.to_le_bytes());
    image.bytes[4088..].copy_from_slice(&[32, 0, 1, 1, 1, 0, 0, 0]);
    image
}

/// A page of objects with no cell.
fn empty_page() -> PageImage {
    let mut image = PageImage::zeroed();
    image.bytes[0] = 2;
    image.bytes[4] = 32;
    image
}

#[test]
fn a_cell_needs_its_bytes_and_eight(rt: HostRuntime) {
    let mut image = page_up_to(4072);
    let before = image;
    assert!(rt; check_page(&image).is_ok());
    assert_eq!(rt;
        add_cell(&mut image, 12, 1, 2),
        Err(NoRoom { free: 16, need: 20 })
    );
    assert_eq!(rt; image, before);
}

#[test]
fn a_cell_takes_the_last_bytes(rt: HostRuntime) {
    let mut image = page_up_to(4068);
    assert!(rt; check_page(&image).is_ok());
    assert_eq!(rt; add_cell(&mut image, 12, 246, 0), Ok(4068));
    assert_eq!(rt; &image.bytes[2..6], [2, 0, 240, 15].as_slice());
    assert_eq!(rt;
        &image.bytes[4080..4088],
        [228, 15, 246, 1, 0, 0, 0, 0].as_slice()
    );
    assert!(rt; check_page(&image).is_ok());
    // The laws of a good page are calls too.
    image_is_whole(&image);
    cells_are_apart(&image);
    page_is_its_parts(&image);
    same_parts_are_one_page(&image, &image);
}

#[test]
fn a_full_page_is_read_row_by_row(rt: HostRuntime) {
    let mut image = empty_page();
    for i in 0..338u16 {
        assert!(rt; check_page(&image).is_ok());
        let size = if i == 337 { 12 } else { 4 };
        assert_eq!(rt;
            add_cell(&mut image, size, 64, u32::from(i) + 1),
            Ok(32 + 4 * i)
        );
    }
    assert!(rt; check_page(&image).is_ok());
    assert_eq!(rt; rows(&image), 338);
    for i in 0..338u16 {
        assert!(rt; check_page(&image).is_ok() && i < rows(&image));
        let row = Row {
            offset: 32 + 4 * i,
            code: 64,
            live: true,
            serial: u32::from(i) + 1,
        };
        assert_eq!(rt; nth_row(&image, i), row);
        assert_eq!(rt; row_at(&image, row.offset), Some(row));
        assert_eq!(rt; row_at(&image, row.offset + 2), None);
        assert_eq!(rt; row_of(&image, row.serial), Some(row));
        assert_eq!(rt;
            cell_end(&image, i),
            if i == 337 { 1392 } else { 36 + 4 * i }
        );
    }
    assert_eq!(rt; row_at(&image, 0), None);
    assert_eq!(rt; row_at(&image, 1392), None);
    assert_eq!(rt;
        add_cell(&mut image, 4, 64, 400),
        Err(NoRoom { free: 0, need: 12 })
    );
}

#[test]
fn a_dead_cell_is_zeros_and_others_stay(rt: HostRuntime) {
    let mut image = good_page();
    image.bytes[52..56].copy_from_slice(b"four");
    assert!(rt; check_page(&image).is_ok());
    assert!(rt; row_at(&image, 32).is_some());
    mark_dead(&mut image, 32);
    assert_eq!(rt; &image.bytes[32..44], [0; 12].as_slice());
    assert_eq!(rt; &image.bytes[52..56], b"four".as_slice());
    assert_eq!(rt; &image.bytes[4088..], [32, 0, 1, 0, 1, 0, 0, 0].as_slice());
    assert_eq!(rt;
        &image.bytes[4072..4080],
        [52, 0, 246, 1, 0, 0, 0, 0].as_slice()
    );
}
