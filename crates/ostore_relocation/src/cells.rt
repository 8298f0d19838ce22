//! The pointers of the cells of a page of objects.

ghost use Rattle.std.specs.Prelude.{◌≡◌, ◌≤◌, ◌+◌, map};
ghost use Rattle.std.specs.List.{AllByRecursion};
ghost use Rattle.ostore_base.specs.declared.page.TheConstants.{PAGE_SIZE};
ghost use Rattle.ostore_schema_layout.specs.Lawful.{IsLawful};
ghost use Rattle.ostore_relocation.specs.Places.{LieBetween, cell_pointers};
ghost use Rattle.ostore_relocation.specs.Pointers.{pointer_in, with_pointers};
ghost use Rattle.ostore_relocation.specs.Fitness.{HasCells};

use crate::pointer::{Form, change_pointer};
use ostore_address_space::Space;
use ostore_base::{PAGE_SIZE, PageImage};
use ostore_page_tags::{nth_row, rows};
use ostore_schema_layout::{Pointers, Schema};

/// Changes the pointers of a cell into a form. The walk gives their places, counted from the cell's start.
fn change_cell(
    image: &mut PageImage,
    offset: u16,
    pointers: Pointers<'_>,
    space: &Space,
    form: Form,
)
    requires within { AllByRecursion (λ at. offset + at + 4 ≤ PAGE_SIZE) pointers }
    ensures { let places = map (λ at. offset + at) pointers.entry in
        image.new.bytes ≡ with_pointers (pointer_in form space.now.pages) places image.old.bytes }
{
    let mut pointers = pointers;
    while let Some(at) = pointers.next() {
        change_pointer(image, offset + at, space, form);
    }
}

/// Changes the pointers of all cells into a form.
pub(crate) fn change_cells(image: &mut PageImage, schema: &Schema, space: &Space, form: Form)
    requires lawful { IsLawful schema.now }
    requires cells { HasCells schema.now image.old.bytes }
    ensures changed { let places = cell_pointers schema.now image.old.bytes in
        image.new.bytes ≡ with_pointers (pointer_in form space.now.pages) places image.old.bytes }
{
    for i in 0..rows(image) {
        let row = nth_row(image, i);
        if row.live {
            change_cell(
                image,
                row.offset,
                Pointers::new(schema, row.code),
                space,
                form,
            );
        }
    }
}
