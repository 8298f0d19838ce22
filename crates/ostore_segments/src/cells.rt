//! Cells added to a page, through a holder of pages.

ghost use Rattle.std.specs.Prelude.{◌≡◌, ◌+◌, ◌++◌, true, Some, IfOk, OnOk, IfErr};
ghost use Rattle.byteorder.specs.Endian.{little_bytes};
ghost use Rattle.ostore_page_tags.specs.declared.layout.TheConstants.{ROW_BYTES};
ghost use Rattle.ostore_page_tags.specs.Changes.{IsCellAsked};
ghost use Rattle.ostore_page_tags.specs.PageLists.{header_at};
ghost use Rattle.ostore_segments.specs.Holdings.{Stands, Becomes, BringsOnly, OwnsOnly, BreaksOff};
ghost use Rattle.ostore_segments.specs.Room.{HasRoomOn};
ghost use Rattle.ostore_segments.specs.Adding.{Adds};
ghost use Rattle.ostore_segments.specs.inside.Fields.{row_of_live};

use crate::fields::header_at;
use crate::pages::Pages;
use ostore_base::{PAGE_SIZE, PageNo};
use ostore_page_tags::layout::{LIVE_STATE, ROW_BYTES, ROWS_AT};

// The bytes of a live row.
fn row_bytes(offset: u16, code: u8, serial: u32) -> [u8; 8]
    ensures { result ≡ row_of_live offset code serial }
{
    let [low, high] = offset.to_le_bytes();
    let [first, second, third, fourth] = serial.to_le_bytes();
    [low, high, code, LIVE_STATE, first, second, third, fourth]
}

// The bytes of a header's number of rows and end of the cells.
fn counts(rows: u16, end: u16) -> [u8; 4]
    ensures { result ≡ little_bytes 2 rows ++ little_bytes 2 end }
{
    let [rows_low, rows_high] = rows.to_le_bytes();
    let [end_low, end_high] = end.to_le_bytes();
    [rows_low, rows_high, end_low, end_high]
}

/// Adds a cell of zeros behind the last one of a page of objects, with a live row, and gives the cell's offset.
/// The size is that of the code, and there is room. A code of a type comes with the object's serial, one of a
/// chunk or descriptor with 0.
pub fn add<P: Pages>(
    pages: &mut P,
    page: PageNo,
    size: u16,
    code: u8,
    serial: u32,
) -> Result<u16, P::Fault>
    requires may { (P.told pages.old).may_edit ≡ true }
    requires asked { IsCellAsked size code serial }
    requires size { (P.told pages.old).sizes code ≡ Some size }
    requires room { Stands (P.held pages.old) (λ list. HasRoomOn list (size + ROW_BYTES) page.0) }
    ensures lists { IfOk result (λ offset. Becomes (P.held pages.old) (P.held pages.new)
        (λ old new. (offset ≡ (header_at old page.0).end) × Adds old new page.0 size code serial)) }
    ensures passes { OnOk result (P.passes pages.old pages.new) }
    ensures brings { OnOk result (BringsOnly (P.held pages.old) (P.held pages.new)
        (λ named. named ≡ page.0)) }
    ensures owns { OnOk result (OwnsOnly (P.held pages.old) (P.held pages.new)
        (λ named. named ≡ page.0)) }
    ensures fails { IfErr result (λ fault. P.fails pages.old fault pages.new) }
    ensures stays { IfErr result (λ fault. P.stays fault
        → BreaksOff (P.held pages.old) (P.held pages.new) (λ list. λ named. named ≡ page.0)) }
    ensures told { P.told pages.new ≡ P.told pages.old }
{
    let header = header_at(pages, page)?;
    let place = PAGE_SIZE as u16 - ROW_BYTES * (header.rows + 1);
    pages.edit(page, place, &row_bytes(header.end, code, serial))?;
    pages.edit(page, ROWS_AT, &counts(header.rows + 1, header.end + size))?;
    Ok(header.end)
}
