//! The header of a page, its first 32 bytes.

ghost use Rattle.std.specs.Prelude.{◌≡◌};
ghost use Rattle.ostore_page_tags.specs.Header.{header_of, with_header};

use crate::laws::image_is_whole;
use crate::layout::{END_AT, KIND_AT, LAST_PAGE_AT, LAST_SERIAL_AT, NEXT_AT, ROWS_AT, SEGMENT_AT};
use crate::numbers::{get_u8, get_u16, get_u32, put_u8, put_u16, put_u32};
use ostore_base::PageImage;

/// The fields of a page's header.
#[derive(Clone, Copy, Debug, PartialEq, Eq)]
pub struct PageHeader {
    /// 1 on a free page, 2 on a page of objects, 3 on page 0, 4 on the page of roots.
    pub kind: u8,
    /// The segment of a page of objects, else 0.
    pub segment: u8,
    /// How many tag rows there are.
    pub rows: u16,
    /// Where the cells end, in bytes from the page's start: 32 on an empty page of objects.
    pub end: u16,
    /// The next page of the segment or of the free list, 0 for none.
    pub next: u32,
    /// The last serial drawn, in a segment's first page, else 0.
    pub last_serial: u32,
    /// The segment's last page, in its first page, else 0.
    pub last_page: u32,
}

/// Reads the header. Any image has one.
pub fn header(image: &PageImage) -> PageHeader
    ensures { result ≡ header_of image.now.bytes }
{
    PageHeader {
        kind: get_u8(image, KIND_AT),
        segment: get_u8(image, SEGMENT_AT),
        rows: get_u16(image, ROWS_AT),
        end: get_u16(image, END_AT),
        next: get_u32(image, NEXT_AT),
        last_serial: get_u32(image, LAST_SERIAL_AT),
        last_page: get_u32(image, LAST_PAGE_AT),
    }
}

/// Writes the header's fields. All other bytes stay, those of the header that no field has among them.
pub fn set_header(image: &mut PageImage, header: &PageHeader)
    ensures written { image.new.bytes ≡ with_header header.now image.old.bytes }
    ensures read_back { header_of image.new.bytes ≡ header.now }
{
    image_is_whole(image);
    put_u8(image, KIND_AT, header.kind);
    put_u8(image, SEGMENT_AT, header.segment);
    put_u16(image, ROWS_AT, header.rows);
    put_u16(image, END_AT, header.end);
    put_u32(image, NEXT_AT, header.next);
    put_u32(image, LAST_SERIAL_AT, header.last_serial);
    put_u32(image, LAST_PAGE_AT, header.last_page);
}
