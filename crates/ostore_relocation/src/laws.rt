//! Laws of resident images, each the contract of a function that does nothing. A caller who needs a law
//! calls its function. The stored form stands for what a resident image means, so each law says of a write
//! to the one what it is to the other.

ghost use Rattle.std.specs.Prelude.{◌≡◌, ◌<◌, ◌≤◌, ◌+◌, length, true, Some, IsTrue};
ghost use Rattle.std.specs.List.{AllByRecursion, slice_get};
ghost use Rattle.ostore_base.specs.Limits.{most_roots};
ghost use Rattle.ostore_base.specs.Disk.{replaced};
ghost use Rattle.ostore_page_tags.specs.Numbers.{number_at, with_number};
ghost use Rattle.ostore_page_tags.specs.Rows.{rows_of};
ghost use Rattle.ostore_schema_layout.specs.Cells.{code_size, pointers_of};
ghost use Rattle.ostore_relocation.specs.Places.{IsBeside, IsOneOf, holds_objects, page_pointers, root_place};
ghost use Rattle.ostore_relocation.specs.Pointers.{stored_pointer};
ghost use Rattle.ostore_relocation.specs.Fitness.{HasCells};
ghost use Rattle.ostore_relocation.specs.Forms.{IsResidentPage, stored_form};
ghost use Rattle.ostore_relocation.specs.Stores.{LeadsToFrame, PutsBeside, StoreTheSame, StoresAs, stored_root};

use ostore_address_space::{Space, frames_are_paired};
use ostore_base::{PageImage, PageNo};
use ostore_page_tags::Row;
use ostore_page_tags::layout::{POINTER_IN_ROOT, ROOT_BYTES, ROOTS_PAGE};
use ostore_schema_layout::Schema;

/// Bytes that are put beside the pointers of a resident image are put there in its stored form. The page may
/// gain pointers by them, as with the row of a new cell, where those are 0.
pub fn bytes_are_stored(
    image: &PageImage,
    page: PageNo,
    schema: &Schema,
    space: &Space,
    at: u16,
    bytes: &[u8],
)
    requires resident { IsResidentPage space.now.pages schema.now page.0 image.now.bytes }
    requires beside { let stored = stored_form space.now.pages schema.now page.0 image.now.bytes in
        PutsBeside schema.now page.0 at bytes.now stored }
    ensures { let stored = stored_form space.now.pages schema.now page.0 image.now.bytes in
        StoresAs space.now.pages schema.now page.0 (replaced at bytes.now image.now.bytes)
        (replaced at bytes.now stored) }
{
    frames_are_paired(space);
}

/// A pointer that is written into a resident image is written, in its stored form, into the image's.
pub fn pointer_is_stored(
    image: &PageImage,
    page: PageNo,
    schema: &Schema,
    space: &Space,
    at: u16,
    pointer: u32,
)
    requires resident { IsResidentPage space.now.pages schema.now page.0 image.now.bytes }
    requires there { IsOneOf at (page_pointers schema.now page.0 image.now.bytes) }
    requires leads { LeadsToFrame space.now.pages pointer }
    ensures { let stored = stored_form space.now.pages schema.now page.0 image.now.bytes in
        StoresAs space.now.pages schema.now page.0 (with_number 4 at pointer image.now.bytes)
        (with_number 4 at (stored_pointer space.now.pages pointer) stored) }
{}

/// A root's row that is written into the resident page of roots, name and pointer together, is written, with
/// the pointer stored, into the page's stored form. A row whose name has no length is free.
pub fn root_row_is_stored(image: &PageImage, schema: &Schema, space: &Space, i: u16, row: &[u8])
    requires resident { IsResidentPage space.now.pages schema.now ROOTS_PAGE image.now.bytes }
    requires there { i < most_roots }
    requires whole { length row.now ≡ ROOT_BYTES }
    requires leads { LeadsToFrame space.now.pages (number_at 4 POINTER_IN_ROOT row.now) }
    ensures { let stored = stored_form space.now.pages schema.now ROOTS_PAGE image.now.bytes in
        StoresAs space.now.pages schema.now ROOTS_PAGE
        (replaced (root_place i) row.now image.now.bytes)
        (replaced (root_place i) (stored_root space.now.pages row.now) stored) }
{}

/// Every image that was resident before further pages got frames stays so, and keeps its stored form. A
/// client calls it once they have them, and knows it of all images in its cache.
pub fn more_frames_store_the_same(schema: &Schema, space: &Space)
    ensures { StoreTheSame space.now.pages schema.now }
{}

/// A pointer of a live row's cell is one of the page's, so that [`pointer_is_stored`] may be called for it.
/// The row is the page's row i, counted from 0, and the place counts from the cell's start.
pub fn row_has_pointer(image: &PageImage, page: PageNo, schema: &Schema, i: u16, row: Row, at: u16)
    requires objects { IsTrue (holds_objects page.0 image.now.bytes) }
    requires row { slice_get (rows_of image.now.bytes) i ≡ Some row }
    requires live { row.live ≡ true }
    requires pointer { IsOneOf at (pointers_of schema.now row.code) }
    ensures { IsOneOf (row.offset + at) (page_pointers schema.now page.0 image.now.bytes) }
{}

/// Bytes that are put into a live row's cell of a resident page of objects, beside the cell's pointers, are
/// put there in the page's stored form. They stand at a place that counts from the cell's start. The page's
/// cells are then still the schema's.
pub fn cell_bytes_are_stored(
    image: &PageImage,
    page: PageNo,
    schema: &Schema,
    space: &Space,
    i: u16,
    row: Row,
    at: u16,
    bytes: &[u8],
)
    requires resident { IsResidentPage space.now.pages schema.now page.0 image.now.bytes }
    requires objects { IsTrue (holds_objects page.0 image.now.bytes) }
    requires cells { HasCells schema.now image.now.bytes }
    requires there { i < length (rows_of image.now.bytes) }
    requires row { slice_get (rows_of image.now.bytes) i ≡ Some row }
    requires live { row.live ≡ true }
    requires within { at + length bytes.now ≤ code_size schema.now row.code }
    requires beside { let count = length bytes.now in
        AllByRecursion (IsBeside at count) (pointers_of schema.now row.code) }
    ensures stored { let stored = stored_form space.now.pages schema.now page.0 image.now.bytes in
        StoresAs space.now.pages schema.now page.0
        (replaced (row.offset + at) bytes.now image.now.bytes)
        (replaced (row.offset + at) bytes.now stored) }
    ensures cells { HasCells schema.now (replaced (row.offset + at) bytes.now image.now.bytes) }
{
    frames_are_paired(space);
}
