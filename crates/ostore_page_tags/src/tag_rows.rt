//! Tag rows, read. They stand at the end of the page, the first one last.

ghost use Rattle.std.specs.Prelude.{◌≡◌, ◌≢◌, ◌+◌, ◌<◌, length, Some};
ghost use Rattle.std.specs.List.{slice_get};
ghost use Rattle.std.specs.Option.{option_map};
ghost use Rattle.ostore_page_tags.specs.Rows.{row_place, row_in, state_in, rows_of, row_at, row_of};
ghost use Rattle.ostore_page_tags.specs.Cells.{cells_of};
ghost use Rattle.ostore_page_tags.specs.Rules.{IsPage};
ghost use Rattle.ostore_page_tags.specs.inside.RowsFit.{RowFits};
ghost use Rattle.ostore_page_tags.specs.inside.PartsRows.{PartsRows};

use crate::layout::{CODE_IN_ROW, LIVE_STATE, ROW_BYTES, SERIAL_IN_ROW, STATE_IN_ROW};
use crate::numbers::{get_u8, get_u16, get_u32};
use crate::page_header::header;
use ostore_base::{PAGE_SIZE, PageImage};

/// A tag row: the cell that it names, and what stands in it.
#[derive(Clone, Copy, Debug, PartialEq, Eq)]
pub struct Row {
    /// Where the cell begins, in bytes from the page's start.
    pub offset: u16,
    /// 1 to 64 for the schema's types in order, 240 to 246 for chunks and descriptors.
    pub code: u8,
    /// Whether the object, chunk or descriptor is there. Marking it dead zeroes its cell.
    pub live: bool,
    /// The object's number in its segment, from 1 on; 0 for a chunk or descriptor.
    pub serial: u32,
}

/// Where row i stands.
pub(crate) fn row_place(i: u16) -> u16
    requires { RowFits i }
    ensures { result ≡ row_place i }
{
    PAGE_SIZE as u16 - ROW_BYTES * (i + 1)
}

/// Row i as it is stored, in any image.
pub(crate) fn stored_row(image: &PageImage, i: u16) -> Row
    requires { RowFits i }
    ensures { result ≡ row_in image.now.bytes i }
{
    let place = row_place(i);
    Row {
        offset: get_u16(image, place),
        code: get_u8(image, place + CODE_IN_ROW),
        live: get_u8(image, place + STATE_IN_ROW) == LIVE_STATE,
        serial: get_u32(image, place + SERIAL_IN_ROW),
    }
}

/// The state of row i as it is stored, in any image.
pub(crate) fn stored_state(image: &PageImage, i: u16) -> u8
    requires { RowFits i }
    ensures { result ≡ state_in image.now.bytes i }
{
    get_u8(image, row_place(i) + STATE_IN_ROW)
}

/// The offset of row i as it is stored, in any image.
fn stored_offset(image: &PageImage, i: u16) -> u16
    requires { RowFits i }
    ensures { result ≡ (row_in image.now.bytes i).offset }
{
    get_u16(image, row_place(i))
}

/// How many rows the page has.
pub fn rows(image: &PageImage) -> u16
    requires { IsPage image.now.bytes }
    ensures { result ≡ length (rows_of image.now.bytes) }
{
    header(image).rows
}

/// Row i, counted from 0. A caller that walks a page asks for each row in turn, and for the end of its
/// cell by [`cell_end`], in constant time each.
pub fn nth_row(image: &PageImage, i: u16) -> Row
    requires page { IsPage image.now.bytes }
    requires there { i < length (rows_of image.now.bytes) }
    ensures { slice_get (rows_of image.now.bytes) i ≡ Some result }
{
    stored_row(image, i)
}

/// Where the cell of row i ends.
pub fn cell_end(image: &PageImage, i: u16) -> u16
    requires page { IsPage image.now.bytes }
    requires there { i < length (rows_of image.now.bytes) }
    ensures { let cell = slice_get (cells_of image.now.bytes) i in
        option_map (λ cell. cell.row.offset + length cell.bytes) cell ≡ Some result }
{
    if i + 1 < rows(image) {
        stored_row(image, i + 1).offset
    } else {
        header(image).end
    }
}

/// The first row whose cell doesn't begin before an offset, or the number of rows where there is none. The
/// offsets rise from row to row, so the rows that are left are halved until none is.
pub(crate) fn first_row_from(image: &PageImage, offset: u16) -> u16
    requires { IsPage image.now.bytes }
    ensures { PartsRows image.now.bytes offset result }
{
    let mut low = 0;
    let mut high = rows(image);
    while low < high {
        let middle = low + (high - low) / 2;
        if stored_offset(image, middle) < offset {
            low = middle + 1;
        } else {
            high = middle;
        }
    }
    low
}

/// The row whose cell begins at an offset, and None exactly where there is none. It reads some ten offsets at
/// most.
pub fn row_at(image: &PageImage, offset: u16) -> Option<Row>
    requires { IsPage image.now.bytes }
    ensures { result ≡ row_at image.now.bytes offset }
{
    let i = first_row_from(image, offset);
    if i >= rows(image) {
        return None;
    }
    let row = stored_row(image, i);
    if row.offset == offset {
        Some(row)
    } else {
        None
    }
}

/// The first row with a serial, and None exactly where there is none. The serial isn't 0, which all
/// chunks and descriptors have.
pub fn row_of(image: &PageImage, serial: u32) -> Option<Row>
    requires page { IsPage image.now.bytes }
    requires some { serial ≢ 0 }
    ensures { result ≡ row_of image.now.bytes serial }
{
    for i in 0..rows(image) {
        let row = stored_row(image, i);
        if row.serial == serial {
            return Some(row);
        }
    }
    None
}
