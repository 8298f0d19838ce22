//! Cells, added and marked dead.

ghost use Rattle.std.specs.Prelude.{◌≡◌, ◌≢◌, ◌↔◌, ◌<◌, ◌≤◌, ◌+◌, ◌-◌, ◌*◌, IsErr, IfErr, OnErr, IfOk, OnOk, None, length, replicate};
ghost use Rattle.ostore_base.specs.Disk.{replaced};
ghost use Rattle.ostore_page_tags.specs.Header.{header_of};
ghost use Rattle.ostore_page_tags.specs.Rows.{row_in, rows_of, row_at};
ghost use Rattle.ostore_page_tags.specs.Cells.{free_bytes};
ghost use Rattle.ostore_page_tags.specs.Rules.{IsPage};
ghost use Rattle.ostore_page_tags.specs.Changes.{IsCellAsked, AddsCell, MarksDead};
ghost use Rattle.ostore_page_tags.specs.inside.RowsFit.{RowFits};
ghost use Rattle.ostore_page_tags.specs.inside.WithRow.{with_row};

use crate::layout::{CODE_IN_ROW, DEAD_STATE, LIVE_STATE, ROW_BYTES, SERIAL_IN_ROW, STATE_IN_ROW};
use crate::numbers::{put_u8, put_u16, put_u32};
use crate::page_header::{PageHeader, header, set_header};
use crate::tag_rows::{Row, cell_end, first_row_from, row_place};
use ostore_base::{PAGE_SIZE, PageImage};
use thiserror::Error;

/// A page has too few free bytes for a cell and its row.
#[derive(Clone, Copy, Debug, PartialEq, Eq, Error)]
#[error("{free} bytes are free and {need} are needed")]
pub struct NoRoom {
    /// The bytes between the cells and the rows.
    pub free: u16,
    /// The cell's size and 8 for its row.
    pub need: u16,
}

// Writes row i. All other bytes stay.
fn put_row(image: &mut PageImage, i: u16, row: &Row)
    requires { RowFits i }
    ensures { image.new.bytes ≡ with_row i row.now image.old.bytes }
{
    let place = row_place(i);
    put_u16(image, place, row.offset);
    put_u8(image, place + CODE_IN_ROW, row.code);
    let state = if row.live { LIVE_STATE } else { DEAD_STATE };
    put_u8(image, place + STATE_IN_ROW, state);
    put_u32(image, place + SERIAL_IN_ROW, row.serial);
}

/// Adds a cell of zeros behind the last one, with a live row, and gives the cell's offset. The size is a
/// positive multiple of 4 and at most 1,000. A code of a type comes with the object's serial, one of a chunk
/// or descriptor with 0. NoRoom comes exactly where fewer bytes are free than the cell and its row take, and
/// then the image is unchanged.
pub fn add_cell(image: &mut PageImage, size: u16, code: u8, serial: u32) -> Result<u16, NoRoom>
    requires page { IsPage image.old.bytes }
    requires asked { IsCellAsked size code serial }
    ensures refused { IsErr result ↔ free_bytes image.old.bytes < size + ROW_BYTES }
    ensures free { IfErr result (λ no. no.free ≡ free_bytes image.old.bytes) }
    ensures need { IfErr result (λ no. no.need ≡ size + ROW_BYTES) }
    ensures unchanged { OnErr result (image.new ≡ image.old) }
    ensures at { IfOk result (λ offset. offset ≡ (header_of image.old.bytes).end) }
    ensures added { OnOk result (AddsCell image.old.bytes image.new.bytes size code serial) }
{
    let old = header(image);
    let free = PAGE_SIZE as u16 - ROW_BYTES * old.rows - old.end;
    let need = size + ROW_BYTES;
    if free < need {
        return Err(NoRoom { free, need });
    }
    let row = Row {
        offset: old.end,
        code,
        live: true,
        serial,
    };
    put_row(image, old.rows, &row);
    let grown = PageHeader {
        rows: old.rows + 1,
        end: old.end + size,
        ..old
    };
    set_header(image, &grown);
    Ok(old.end)
}

// The number of the row whose cell begins at an offset, where there is one.
fn index_of(image: &PageImage, offset: u16) -> u16
    requires page { IsPage image.now.bytes }
    requires there { row_at image.now.bytes offset ≢ None }
    ensures below { result < length (rows_of image.now.bytes) }
    ensures at { (row_in image.now.bytes result).offset ≡ offset }
{
    first_row_from(image, offset)
}

// Makes every byte zero.
fn zero(bytes: &mut [u8])
    ensures { bytes.new ≡ replicate (length bytes.old) 0 }
{
    bytes.fill(0);
}

// Makes the bytes from one place up to another zero. All other bytes stay.
fn zero_between(image: &mut PageImage, start: u16, stop: u16)
    requires order { start ≤ stop }
    requires within { stop ≤ PAGE_SIZE }
    ensures { image.new.bytes ≡ replaced start (replicate (stop - start) 0) image.old.bytes }
{
    zero(&mut image.bytes[start as usize..stop as usize]);
}

/// Marks the row of a cell dead and zeroes the cell. A row has that offset.
pub fn mark_dead(image: &mut PageImage, offset: u16)
    requires page { IsPage image.old.bytes }
    requires there { row_at image.old.bytes offset ≢ None }
    ensures { MarksDead image.old.bytes image.new.bytes offset }
{
    let i = index_of(image, offset);
    let end = cell_end(image, i);
    put_u8(image, row_place(i) + STATE_IN_ROW, DEAD_STATE);
    zero_between(image, offset, end);
}
