//! Pages in memory, whose cells are those of a schema.

ghost use Rattle.std.specs.Prelude.{◌≡◌, ◌<◌, ◌≤◌, ◌+◌, length};
ghost use Rattle.ostore_base.specs.Disk.{replaced};
ghost use Rattle.ostore_base.specs.declared.page.TheConstants.{PAGE_SIZE};
ghost use Rattle.ostore_schema_layout.specs.Lawful.{IsLawful};
ghost use Rattle.ostore_page_tags.specs.PageLists.{with_bytes};
ghost use Rattle.ostore_segments.specs.Edits.{IsRootAsked, root_row};
ghost use Rattle.ostore_segments.specs.SchemaCells.{size_told};

use crate::cell_pages::CellPages;
use crate::pages::Pages;
use ostore_base::cell_codes::{SET_CHUNK, TEXT_INDEX_CHUNK};
use ostore_base::{PAGE_SIZE, PageImage, PageList, PageNo};
use ostore_page_tags::layout::{
    NAME_IN_ROOT, NAME_LENGTH_IN_ROOT, POINTER_IN_ROOT, ROOT_BYTES, ROOTS_AT, ROOTS_PAGE,
};
use ostore_schema_layout::{Schema, code_size};
use std::convert::Infallible;

/// A list of pages in memory. It stands for that list alone, and is told the sizes and pointers of a schema's
/// cells. Its pointers are stored ones. No call of it fails.
#[derive(Drop)]
pub struct SchemaPages<'a> {
    pub pages: PageList,
    pub schema: &'a Schema,
}

/// The size of a cell of a code, in bytes. None comes exactly where the schema has no such type and the code is
/// none of a chunk's or descriptor's.
pub fn size_told(schema: &Schema, code: u8) -> Option<u16>
    requires lawful { IsLawful schema.now }
    ensures { result ≡ size_told schema.now code }
{
    if code >= 1 && usize::from(code) <= schema.types.items().len() {
        return Some(code_size(schema, code));
    }
    if code >= SET_CHUNK && code <= TEXT_INDEX_CHUNK {
        return Some(code_size(schema, code));
    }
    None
}

// Replaces bytes of a row.
fn put(row: &mut [u8; 40], at: u16, bytes: &[u8])
    requires { at + length bytes.now ≤ ROOT_BYTES }
    ensures { row.new ≡ replaced at bytes.now row.old }
{
    let start = usize::from(at);
    row[start..start + bytes.len()].copy_from_slice(bytes);
}

/// The row of a root with a name of at most 31 bytes, or of none: the name's length, the name, zeros, the
/// pointer, and zeros.
pub fn root_row(name: &[u8], pointer: u32) -> [u8; 40]
    requires { IsRootAsked name.now pointer }
    ensures { result ≡ root_row name.now pointer }
{
    let mut row = [0; 40];
    put(&mut row, NAME_LENGTH_IN_ROOT, &[name.len() as u8]);
    put(&mut row, NAME_IN_ROOT, name);
    put(&mut row, POINTER_IN_ROOT, &pointer.to_le_bytes());
    row
}

// Replaces bytes of a page.
fn put_bytes(pages: &mut PageList, page: PageNo, at: u16, bytes: &[u8])
    requires there { page.0 < length pages.old }
    requires within { at + length bytes.now ≤ PAGE_SIZE }
    ensures { pages.new ≡ with_bytes pages.old page.0 at bytes.now }
{
    let mut image = *pages.page(page);
    let start = usize::from(at);
    image.bytes[start..start + bytes.len()].copy_from_slice(bytes);
    pages.set(page, &image);
}

impl<'a> Pages for SchemaPages<'a> {
    ghost use Rattle.std.specs.Prelude.{⊤};
    ghost use Rattle.ostore_segments.specs.Holdings.{alone};
    ghost use Rattle.ostore_segments.specs.SchemaCells.{told_of};

    type Fault = Infallible;

    ghost told = { λ it. told_of it.schema.now };

    ghost held = { λ it. alone it.pages };

    ghost passes = { λ earlier later. ⊤ };

    ghost fails = { λ earlier fault later. ⊥ };

    ghost stays = { λ fault. ⊥ };

    fn enter(&mut self, _page: PageNo) -> Result<(), Infallible> {
        Ok(())
    }

    fn image(&self, page: PageNo) -> &PageImage {
        self.pages.page(page)
    }

    fn edit(&mut self, page: PageNo, at: u16, bytes: &[u8]) -> Result<(), Infallible> {
        put_bytes(&mut self.pages, page, at, bytes);
        Ok(())
    }

    fn edit_pointer(&mut self, page: PageNo, at: u16, pointer: u32) -> Result<(), Infallible> {
        put_bytes(&mut self.pages, page, at, &pointer.to_le_bytes());
        Ok(())
    }

    fn edit_root(&mut self, i: u16, name: &[u8], pointer: u32) -> Result<(), Infallible> {
        let row = root_row(name, pointer);
        put_bytes(
            &mut self.pages,
            PageNo(ROOTS_PAGE),
            ROOTS_AT + ROOT_BYTES * i,
            &row,
        );
        Ok(())
    }

    ghost passes_at_once = { λ a. tt };

    ghost passes_on = { λ a b c first second. tt };

    ghost fails_later = { λ a b c fault passed failed. failed };
}

impl<'a> CellPages for SchemaPages<'a> {
    fn page_at(&self, pointer: u32) -> PageNo {
        PageNo(pointer / PAGE_SIZE as u32)
    }

    fn pointer_to(&self, page: PageNo, at: u16) -> u32 {
        page.0 * PAGE_SIZE as u32 + u32::from(at)
    }

    fn edit_cell(
        &mut self,
        page: PageNo,
        offset: u16,
        at: u16,
        bytes: &[u8],
    ) -> Result<(), Infallible> {
        put_bytes(&mut self.pages, page, offset + at, bytes);
        Ok(())
    }
}
