//! A page's image into a client's address space, and out of it.

ghost use Rattle.std.specs.Prelude.{◌≡◌, ◌<◌, ℕ, slice_index, OnOk, OnErr};
ghost use Rattle.ostore_base.specs.Limits.{most_pages};
ghost use Rattle.ostore_schema_layout.specs.Lawful.{IsLawful};
ghost use Rattle.ostore_address_space.specs.Frames.{KeepsFrames};
ghost use Rattle.ostore_relocation.specs.Places.{holds_objects, page_pointers};
ghost use Rattle.ostore_relocation.specs.Pointers.{pointer_in, with_pointers};
ghost use Rattle.ostore_relocation.specs.Fitness.{IsFit, LeadsToPages};
ghost use Rattle.ostore_relocation.specs.Forms.{ComesIn, GoesOut};
ghost use Rattle.ostore_relocation.specs.Reserving.{Reserves, pages_wanted};

use crate::cells::change_cells;
use crate::pointer::Form;
use crate::reserving::{reserve_cells, reserve_roots};
use crate::roots::change_roots;
use ostore_address_space::{Mapper, Space, SpaceFull, frames_are_paired};
use ostore_base::{PageImage, PageNo};
use ostore_page_tags::layout::{FIRST_OPEN_PAGE, OBJECTS_KIND, ROOTS_PAGE};
use ostore_page_tags::{header, image_is_whole};
use ostore_schema_layout::Schema;

/// Whether a page holds objects.
pub(crate) fn holds_objects(page: PageNo, image: &PageImage) -> bool
    ensures { result ≡ holds_objects page.0 image.now.bytes }
{
    page.0 >= FIRST_OPEN_PAGE && header(image).kind == OBJECTS_KIND
}

/// Changes all pointers of a page's image into a form. All other bytes stay.
fn change_page(image: &mut PageImage, page: PageNo, schema: &Schema, space: &Space, form: Form)
    requires lawful { IsLawful schema.now }
    requires fit { IsFit schema.now page.0 image.old.bytes }
    ensures { let places = page_pointers schema.now page.0 image.old.bytes in
        image.new.bytes ≡ with_pointers (pointer_in form space.now.pages) places image.old.bytes }
{
    if page.0 == ROOTS_PAGE {
        change_roots(image, space, form);
    } else if holds_objects(page, image) {
        change_cells(image, schema, space, form);
    }
}

/// Reserves a frame for a page, then one for each page that its pointers lead to.
fn reserve_page<M: Mapper>(
    image: &PageImage,
    page: PageNo,
    schema: &Schema,
    space: &mut Space,
    mapper: &M,
) -> Result<(), SpaceFull>
    requires page { page.0 < most_pages }
    requires lawful { IsLawful schema.now }
    requires fit { IsFit schema.now page.0 image.now.bytes }
    requires targets { LeadsToPages schema.now page.0 image.now.bytes }
    ensures { let wanted = pages_wanted schema.now page image.now.bytes in
        Reserves (M.choice mapper.now) space.old space.new wanted result }
{
    if let Err(full) = space.reserve(page, mapper) {
        return Err(full);
    }
    if page.0 == ROOTS_PAGE {
        reserve_roots(image, space, mapper)
    } else if holds_objects(page, image) {
        reserve_cells(image, schema, space, mapper)
    } else {
        Ok(())
    }
}

/// Brings a page in: reserves a frame for it, then one for each page that its pointers lead to, and makes
/// its pointers resident. All other bytes stay. SpaceFull comes exactly where one of these pages has no
/// frame and none is free; the image is then unchanged, and the frames reserved so far stay reserved.
///
/// A page of objects is good and its cells are the schema's ([`crate::is_fit`]), and every pointer leads to a
/// page below 16,384 ([`crate::leads_to_pages`]), as does the page's own number. It takes no memory.
pub fn relocate_in<M: Mapper>(
    image: &mut PageImage,
    page: PageNo,
    schema: &Schema,
    space: &mut Space,
    mapper: &M,
) -> Result<(), SpaceFull>
    requires page { page.0 < most_pages }
    requires lawful { IsLawful schema.now }
    requires fit { IsFit schema.now page.0 image.old.bytes }
    requires targets { LeadsToPages schema.now page.0 image.old.bytes }
    ensures reserved { let wanted = pages_wanted schema.now page image.old.bytes in
        Reserves (M.choice mapper.now) space.old space.new wanted result }
    ensures kept { KeepsFrames space.old.pages space.new.pages }
    ensures unchanged { OnErr result (image.new ≡ image.old) }
    ensures comes { OnOk result
        (ComesIn space.new.pages schema.now page.0 image.old.bytes image.new.bytes) }
{
    reserve_page(image, page, schema, space, mapper)?;
    frames_are_paired(space);
    image_is_whole(image);
    image_is_bytes(image);
    change_page(image, page, schema, space, Form::Resident);
    Ok(())
}

/// Brings a page out: makes its pointers stored again. All other bytes stay. What `relocate_in` made, also by
/// an earlier call and whatever the mapper answered, is undone. A page of objects is as it is for `relocate_in`.
/// It takes no memory.
pub fn relocate_out(image: &mut PageImage, page: PageNo, schema: &Schema, space: &Space)
    requires lawful { IsLawful schema.now }
    requires fit { IsFit schema.now page.0 image.old.bytes }
    ensures { GoesOut space.now.pages schema.now page.0 image.old.bytes image.new.bytes }
{
    frames_are_paired(space);
    image_is_whole(image);
    change_page(image, page, schema, space, Form::Stored);
}

// The bytes of a slice are below 256.
fn slice_is_bytes(bytes: &[u8])
    ensures { (k : ℕ) → slice_index bytes.now k < 256 }
{}

// The bytes of an image are below 256.
fn image_is_bytes(image: &PageImage)
    ensures { (k : ℕ) → slice_index image.now.bytes k < 256 }
{
    slice_is_bytes(&image.bytes);
}
