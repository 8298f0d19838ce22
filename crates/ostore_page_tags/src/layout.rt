//! Where the parts of a page stand, and by which codes its cells and rows are told apart. Each place and each
//! code is named here alone. A place counts bytes from 0: from the start of the page where its name ends in
//! `_AT`, else from the start of the row or chunk that the name speaks of.

/// The kind of a free page.
pub const FREE_KIND: u8 = 1;

/// The kind of a page of objects.
pub const OBJECTS_KIND: u8 = 2;

/// The kind of page 0.
pub const FRONT_KIND: u8 = 3;

/// The kind of the page of roots.
pub const ROOTS_KIND: u8 = 4;

/// The bytes of a header. What a page holds begins behind it.
pub const HEADER_BYTES: u16 = 32;

/// Where the kind stands in a header, 1 byte.
pub const KIND_AT: u16 = 0;

/// Where the segment stands in a header, 1 byte.
pub const SEGMENT_AT: u16 = 1;

/// Where the number of tag rows stands in a header, 2 bytes.
pub const ROWS_AT: u16 = 2;

/// Where the end of the cells stands in a header, 2 bytes.
pub const END_AT: u16 = 4;

/// Where the two bytes stand in a header that no field has.
pub const SPARE_AT: u16 = 6;

/// Where the next page stands in a header, 4 bytes.
pub const NEXT_AT: u16 = 8;

/// Where the last serial stands in a header, 4 bytes.
pub const LAST_SERIAL_AT: u16 = 12;

/// Where the last page stands in a header, 4 bytes.
pub const LAST_PAGE_AT: u16 = 16;

/// Behind the last field. From here on a header has no field.
pub const FIELDS_END: u16 = 20;

/// A cell begins and ends at a multiple of this.
pub const CELL_STEP: u16 = 4;

/// The bytes of a tag row. It begins with the cell's offset, 2 bytes.
pub const ROW_BYTES: u16 = 8;

/// Where the code stands in a tag row, 1 byte.
pub const CODE_IN_ROW: u16 = 2;

/// Where the state stands in a tag row, 1 byte.
pub const STATE_IN_ROW: u16 = 3;

/// Where the serial stands in a tag row, 4 bytes.
pub const SERIAL_IN_ROW: u16 = 4;

/// The state of a dead row.
pub const DEAD_STATE: u8 = 0;

/// The state of a live row.
pub const LIVE_STATE: u8 = 1;

/// The page that says where the free list and each segment begin.
pub const FRONT_PAGE: u32 = 0;

/// Where the first pages of the segments stand on page 0, from segment 1 on.
pub const FIRST_PAGES_AT: u16 = 32;

/// The bytes of a segment's first page on page 0.
pub const FIRST_PAGE_BYTES: u16 = 4;

/// The first of the pages that hold the schema's text. They have no header.
pub const FIRST_SCHEMA_PAGE: u32 = 1;

/// How many pages hold the schema's text.
pub const SCHEMA_PAGES: u32 = 8;

/// The bytes of the length before the schema's text.
pub const SCHEMA_LENGTH_BYTES: u16 = 4;

/// The page of roots.
pub const ROOTS_PAGE: u32 = 9;

/// The first of the pages that are free or belong to a segment.
pub const FIRST_OPEN_PAGE: u32 = 10;

/// Where the first root's row stands on the page of roots.
pub const ROOTS_AT: u16 = 32;

/// The bytes of a root's row.
pub const ROOT_BYTES: u16 = 40;

/// Where the length of the name stands in a root's row, 1 byte: 0 in a free row.
pub const NAME_LENGTH_IN_ROOT: u16 = 0;

/// Where the name stands in a root's row.
pub const NAME_IN_ROOT: u16 = 1;

/// Where the stored pointer stands in a root's row, behind the name's zeros, 4 bytes.
pub const POINTER_IN_ROOT: u16 = 32;

/// Where the four zeros at the end of a root's row stand.
pub const ZEROS_IN_ROOT: u16 = 36;
