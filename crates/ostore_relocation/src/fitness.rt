//! Whether an image can be relocated.

ghost use Rattle.std.specs.Prelude.{◌≡◌, ◌<◌, ◌≤◌, ◌+◌, ◌↔◌, map, IsTrue};
ghost use Rattle.std.specs.List.{AllByRecursion};
ghost use Rattle.ostore_base.specs.Limits.{most_pages};
ghost use Rattle.ostore_base.specs.declared.page.TheConstants.{PAGE_SIZE};
ghost use Rattle.ostore_schema_layout.specs.Cells.{HasCode};
ghost use Rattle.ostore_schema_layout.specs.Lawful.{IsLawful};
ghost use Rattle.ostore_page_tags.specs.Rules.{IsPage};
ghost use Rattle.ostore_relocation.specs.Places.{cell_pointers, root_pointers};
ghost use Rattle.ostore_relocation.specs.Pointers.{target};
ghost use Rattle.ostore_relocation.specs.Fitness.{HasCells, IsFit, LeadToPages, LeadsToPages};
ghost use Rattle.ostore_relocation.specs.inside.RowFit.{IsRowFit};

use crate::pointer::{PAGE_BYTES, get_pointer};
use crate::relocate::holds_objects;
use crate::roots::{ROOTS, name_length_place, pointer_place};
use ostore_base::cell_codes::{SET_CHUNK, TEXT_INDEX_CHUNK};
use ostore_base::{MAX_PAGES, PAGE_SIZE, PageImage, PageNo};
use ostore_page_tags::layout::ROOTS_PAGE;
use ostore_page_tags::{Row, cell_end, check_page, get_u8, nth_row, rows};
use ostore_schema_layout::{Pointers, Schema, code_size};

// ---- cells

/// Whether a code is that of a type of the schema, or of a chunk or descriptor.
fn has_code(schema: &Schema, code: u8) -> bool
    ensures { IsTrue result ↔ HasCode schema.now code }
{
    if code >= 1 && usize::from(code) <= schema.types.items().len() {
        return true;
    }
    code >= SET_CHUNK && code <= TEXT_INDEX_CHUNK
}

/// Whether a row, if it is live, has a code of the schema and a cell of that code's size.
fn is_row_fit(schema: &Schema, row: Row, end: u16) -> bool
    requires { IsLawful schema.now }
    ensures { IsTrue result ↔ IsRowFit schema.now row end }
{
    if !row.live {
        return true;
    }
    if !has_code(schema, row.code) {
        return false;
    }
    u32::from(row.offset) + u32::from(code_size(schema, row.code)) == u32::from(end)
}

/// Whether the live cells of a good page are cells of the schema.
fn are_rows_fit(image: &PageImage, schema: &Schema) -> bool
    requires lawful { IsLawful schema.now }
    requires page { IsPage image.now.bytes }
    ensures { IsTrue result ↔ HasCells schema.now image.now.bytes }
{
    for i in 0..rows(image) {
        if !is_row_fit(schema, nth_row(image, i), cell_end(image, i)) {
            return false;
        }
    }
    true
}

/// Whether an image is a good page of objects whose live cells have codes of the schema, and those codes'
/// sizes.
pub fn has_cells(image: &PageImage, schema: &Schema) -> bool
    requires { IsLawful schema.now }
    ensures { IsTrue result ↔ HasCells schema.now image.now.bytes }
{
    if check_page(image).is_err() {
        return false;
    }
    are_rows_fit(image, schema)
}

/// Whether an image can be relocated, as long as its pointers lead to pages: of a page of objects,
/// [`has_cells`]. Of other pages nothing is asked.
pub fn is_fit(image: &PageImage, page: PageNo, schema: &Schema) -> bool
    requires { IsLawful schema.now }
    ensures { IsTrue result ↔ IsFit schema.now page.0 image.now.bytes }
{
    if holds_objects(page, image) {
        return has_cells(image, schema);
    }
    true
}

// ---- targets

/// Whether a stored pointer leads to a page that a database can have.
fn leads_to_page(pointer: u32) -> bool
    ensures { IsTrue result ↔ (target pointer < most_pages) }
{
    pointer / PAGE_BYTES < MAX_PAGES as u32
}

/// Whether the pointers of a cell lead to pages. The walk gives their places, counted from the cell's start.
fn cell_leads(image: &PageImage, offset: u16, pointers: Pointers<'_>) -> bool
    requires { AllByRecursion (λ at. offset + at + 4 ≤ PAGE_SIZE) pointers }
    ensures { IsTrue result ↔ LeadToPages image.now.bytes (map (λ at. offset + at) pointers.entry) }
{
    let mut pointers = pointers;
    while let Some(at) = pointers.next() {
        if !leads_to_page(get_pointer(image, offset + at)) {
            return false;
        }
    }
    true
}

/// Whether the pointers of all cells lead to pages.
fn cells_lead(image: &PageImage, schema: &Schema) -> bool
    requires lawful { IsLawful schema.now }
    requires cells { HasCells schema.now image.now.bytes }
    ensures { let places = cell_pointers schema.now image.now.bytes in
        IsTrue result ↔ LeadToPages image.now.bytes places }
{
    for i in 0..rows(image) {
        let row = nth_row(image, i);
        if row.live && !cell_leads(image, row.offset, Pointers::new(schema, row.code)) {
            return false;
        }
    }
    true
}

/// Whether the pointers of all roots lead to pages.
fn roots_lead(image: &PageImage) -> bool
    ensures { IsTrue result ↔ LeadToPages image.now.bytes (root_pointers image.now.bytes) }
{
    for i in 0..ROOTS {
        if get_u8(image, name_length_place(i)) != 0
            && !leads_to_page(get_pointer(image, pointer_place(i)))
        {
            return false;
        }
    }
    true
}

/// Whether every pointer of a stored image leads to a page below 16,384. A page of objects has the schema's
/// cells ([`is_fit`]).
pub fn leads_to_pages(image: &PageImage, page: PageNo, schema: &Schema) -> bool
    requires lawful { IsLawful schema.now }
    requires fit { IsFit schema.now page.0 image.now.bytes }
    ensures { IsTrue result ↔ LeadsToPages schema.now page.0 image.now.bytes }
{
    if page.0 == ROOTS_PAGE {
        roots_lead(image)
    } else if holds_objects(page, image) {
        cells_lead(image, schema)
    } else {
        true
    }
}
