//! Whether an image is a good page of objects.

ghost use Rattle.std.specs.Prelude.{◌≡◌, ◌↔◌, nat_le, IsOk, Some};
ghost use Rattle.std.specs.List.{list_all};
ghost use Rattle.ostore_page_tags.specs.Header.{header_of};
ghost use Rattle.ostore_page_tags.specs.Rows.{states_of};
ghost use Rattle.ostore_page_tags.specs.Rules.{IsPage, fault_of, first_fault, has_good_header, have_rows_room, are_rows_in_order, have_rows_types, is_end_behind_cells, are_zero, gap_of, begin_at, rise_by_step, offsets_of, is_tag, end_behind};
ghost use Rattle.ostore_page_tags.specs.FaultNames.{fault_number, fault_name, fault_text};
ghost use Rattle.ostore_page_tags.specs.inside.RowsFit.{RowsFit};

use crate::laws::image_is_whole;
use crate::layout::{
    CELL_STEP, FIELDS_END, HEADER_BYTES, LIVE_STATE, OBJECTS_KIND, ROW_BYTES, SPARE_AT,
};
use crate::numbers::get_u16;
use crate::page_header::header;
use crate::tag_rows::{stored_row, stored_state};
use ostore_base::cell_codes::{SET_CHUNK, TEXT_INDEX_CHUNK};
use ostore_base::{PAGE_SIZE, PageImage};
use std::fmt;

/// The first rule of a page of objects that an image breaks. The rules are tried in this order.
#[derive(Clone, Copy, Debug, PartialEq, Eq)]
pub enum PageFault {
    /// The kind isn't 2, or a byte of the header that has no field, or one between the cells and the
    /// rows, isn't zero.
    BadHeader,
    /// The rows would reach into the cells.
    RowsOverlap,
    /// The first cell isn't behind the header, or the offsets don't rise by multiples of 4, or a state is
    /// neither live nor dead.
    RowOrder,
    /// A code is none, or an object has no serial, or a chunk or descriptor has one.
    BadType,
    /// The last cell has no bytes, or the cells' end is no multiple of 4, or is wrong on an empty page.
    CellPastEnd,
}

impl PageFault {
    /// The number of the broken rule.
    pub fn number(&self) -> u8
        ensures { result ≡ fault_number self.now }
    {
        match self {
            PageFault::BadHeader => 1,
            PageFault::RowsOverlap => 2,
            PageFault::RowOrder => 3,
            PageFault::BadType => 4,
            PageFault::CellPastEnd => 5,
        }
    }

    /// The name of the broken rule.
    pub fn name(&self) -> &'static str
        ensures { result.now ≡ fault_name self.now }
    {
        match self {
            PageFault::BadHeader => "BadHeader",
            PageFault::RowsOverlap => "RowsOverlap",
            PageFault::RowOrder => "RowOrder",
            PageFault::BadType => "BadType",
            PageFault::CellPastEnd => "CellPastEnd",
        }
    }
}

/// Writes `rule`, the number and the name.
impl fmt::Display for PageFault {
    ghost output = { λ fault. Some (fault_text fault) };

    fn fmt<W: fmt::Write>(&self, f: &mut fmt::Formatter<W>) -> fmt::Result {
        let number = self.number();
        let name = self.name();
        write!(f, "rule {number} {name}")
    }
}

impl std::error::Error for PageFault {}

/// Whether all bytes are zero.
fn are_zero(bytes: &[u8]) -> bool
    ensures { result ≡ are_zero bytes.now }
{
    bytes.iter().all(|byte| *byte == 0)
}

/// Whether the bytes between the cells and the rows are zero. Where the header leaves none, they are.
fn is_gap_zero(image: &PageImage) -> bool
    ensures { result ≡ are_zero (gap_of image.now.bytes) }
{
    let header = header(image);
    let start = usize::from(header.end.max(HEADER_BYTES));
    let stop = PAGE_SIZE.saturating_sub(usize::from(header.rows) * usize::from(ROW_BYTES));
    start >= stop || are_zero(&image.bytes[start..stop])
}

/// Whether the kind is that of objects, and the bytes that belong to nothing are zero.
fn has_good_header(image: &PageImage) -> bool
    ensures { result ≡ has_good_header image.now.bytes }
{
    header(image).kind == OBJECTS_KIND
        && get_u16(image, SPARE_AT) == 0
        && are_zero(&image.bytes[usize::from(FIELDS_END)..usize::from(HEADER_BYTES)])
        && is_gap_zero(image)
}

/// Whether the rows begin behind the cells.
fn have_rows_room(image: &PageImage) -> bool
    ensures { result ≡ have_rows_room image.now.bytes }
{
    let header = header(image);
    u32::from(ROW_BYTES) * u32::from(header.rows) + u32::from(header.end) <= PAGE_SIZE as u32
}

/// Whether the first cell, if any, begins behind the header.
fn do_cells_begin(image: &PageImage) -> bool
    requires { RowsFit image.now.bytes }
    ensures { result ≡ begin_at HEADER_BYTES (offsets_of image.now.bytes) }
{
    header(image).rows == 0 || stored_row(image, 0).offset == HEADER_BYTES
}

/// Whether each offset but the first is a multiple of 4 above the one before it.
fn do_offsets_rise(image: &PageImage) -> bool
    requires { RowsFit image.now.bytes }
    ensures { result ≡ rise_by_step (offsets_of image.now.bytes) }
{
    for i in 0..header(image).rows.saturating_sub(1) {
        let row = stored_row(image, i);
        let next = stored_row(image, i + 1);
        if next.offset <= row.offset || (next.offset - row.offset) % CELL_STEP != 0 {
            return false;
        }
    }
    true
}

/// Whether each row is live or dead.
fn have_rows_states(image: &PageImage) -> bool
    requires { RowsFit image.now.bytes }
    ensures { result ≡ list_all (λ state. nat_le state LIVE_STATE) (states_of image.now.bytes) }
{
    for i in 0..header(image).rows {
        if stored_state(image, i) > LIVE_STATE {
            return false;
        }
    }
    true
}

/// Whether the first cell is behind the header, the offsets rise, and each row is live or dead.
fn are_rows_in_order(image: &PageImage) -> bool
    requires { RowsFit image.now.bytes }
    ensures { result ≡ are_rows_in_order image.now.bytes }
{
    do_cells_begin(image) && do_offsets_rise(image) && have_rows_states(image)
}

/// How many types a schema has at most.
const MOST_TYPES: u8 = 64;

/// Whether the code is that of a type and there is a serial, or it is that of a chunk or a descriptor
/// and there is none.
fn is_tag(code: u8, serial: u32) -> bool
    ensures { result ≡ is_tag code serial }
{
    match code {
        1..=MOST_TYPES => serial != 0,
        SET_CHUNK..=TEXT_INDEX_CHUNK => serial == 0,
        _ => false,
    }
}

/// Whether each row has a code, and a serial exactly where it is an object's.
fn have_rows_types(image: &PageImage) -> bool
    requires { RowsFit image.now.bytes }
    ensures { result ≡ have_rows_types image.now.bytes }
{
    for i in 0..header(image).rows {
        let row = stored_row(image, i);
        if !is_tag(row.code, row.serial) {
            return false;
        }
    }
    true
}

/// Whether the last cell has bytes, or the end is the header's where there is no cell.
fn is_last_offset_below_end(image: &PageImage) -> bool
    requires { RowsFit image.now.bytes }
    ensures { result ≡ end_behind (header_of image.now.bytes).end (offsets_of image.now.bytes) }
{
    let header = header(image);
    if header.rows == 0 {
        header.end == HEADER_BYTES
    } else {
        stored_row(image, header.rows - 1).offset < header.end
    }
}

/// Whether the last cell has bytes, and the cells end at a multiple of 4.
fn is_end_behind_cells(image: &PageImage) -> bool
    requires { RowsFit image.now.bytes }
    ensures { result ≡ is_end_behind_cells image.now.bytes }
{
    is_last_offset_below_end(image) && header(image).end % CELL_STEP == 0
}

/// Says which rule an image breaks first, if any.
#[tactic(auto, unfolding(crate::specs::Rules::first_fault))]
pub fn check_page(image: &PageImage) -> Result<(), PageFault>
    ensures why { fault_of result ≡ first_fault image.now.bytes }
    ensures good { IsOk result ↔ IsPage image.now.bytes }
{
    if !has_good_header(image) {
        return Err(PageFault::BadHeader);
    }
    if !have_rows_room(image) {
        return Err(PageFault::RowsOverlap);
    }
    if !are_rows_in_order(image) {
        return Err(PageFault::RowOrder);
    }
    if !have_rows_types(image) {
        return Err(PageFault::BadType);
    }
    if !is_end_behind_cells(image) {
        return Err(PageFault::CellPastEnd);
    }
    image_is_whole(image);
    Ok(())
}
