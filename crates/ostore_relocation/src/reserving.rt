//! Frames for the pages that the pointers of an image lead to.

ghost use Rattle.std.specs.Prelude.{◌≡◌, ◌≤◌, ◌<◌, ◌+◌, map};
ghost use Rattle.std.specs.List.{AllByRecursion};
ghost use Rattle.ostore_base.specs.Limits.{most_pages};
ghost use Rattle.ostore_base.specs.declared.page.TheConstants.{PAGE_SIZE};
ghost use Rattle.ostore_schema_layout.specs.Lawful.{IsLawful};
ghost use Rattle.ostore_relocation.specs.Places.{cell_pointers, root_pointers};
ghost use Rattle.ostore_relocation.specs.Pointers.{target};
ghost use Rattle.ostore_relocation.specs.Fitness.{HasCells, LeadToPages};
ghost use Rattle.ostore_relocation.specs.Reserving.{Reserves, target_of, targets_of};

use crate::pointer::{PAGE_BYTES, get_pointer};
use crate::roots::{ROOTS, name_length_place, pointer_place};
use ostore_address_space::{Mapper, Space, SpaceFull};
use ostore_base::{PAGE_SIZE, PageImage, PageNo};
use ostore_page_tags::{get_u8, nth_row, rows};
use ostore_schema_layout::{Pointers, Schema};

/// Reserves a frame for the page that a stored pointer leads to.
fn reserve_target<M: Mapper>(space: &mut Space, mapper: &M, pointer: u32) -> Result<(), SpaceFull>
    requires { target pointer < most_pages }
    ensures { Reserves (M.choice mapper.now) space.old space.new (target_of pointer) result }
{
    if pointer == 0 {
        return Ok(());
    }
    match space.reserve(PageNo(pointer / PAGE_BYTES), mapper) {
        Ok(_) => Ok(()),
        Err(full) => Err(full),
    }
}

/// Reserves frames for the pages that the pointers of a cell lead to.
fn reserve_cell<M: Mapper>(
    image: &PageImage,
    offset: u16,
    pointers: Pointers<'_>,
    space: &mut Space,
    mapper: &M,
) -> Result<(), SpaceFull>
    requires within { AllByRecursion (λ at. offset + at + 4 ≤ PAGE_SIZE) pointers }
    requires targets { LeadToPages image.now.bytes (map (λ at. offset + at) pointers) }
    ensures { let wanted = targets_of image.now.bytes (map (λ at. offset + at) pointers.entry) in
        Reserves (M.choice mapper.now) space.old space.new wanted result }
{
    let mut pointers = pointers;
    while let Some(at) = pointers.next() {
        reserve_target(space, mapper, get_pointer(image, offset + at))?;
    }
    Ok(())
}

/// Reserves frames for the pages that the pointers of all cells lead to.
pub(crate) fn reserve_cells<M: Mapper>(
    image: &PageImage,
    schema: &Schema,
    space: &mut Space,
    mapper: &M,
) -> Result<(), SpaceFull>
    requires lawful { IsLawful schema.now }
    requires cells { HasCells schema.now image.now.bytes }
    requires targets { LeadToPages image.now.bytes (cell_pointers schema.now image.now.bytes) }
    ensures { let wanted = targets_of image.now.bytes (cell_pointers schema.now image.now.bytes) in
        Reserves (M.choice mapper.now) space.old space.new wanted result }
{
    for i in 0..rows(image) {
        let row = nth_row(image, i);
        if row.live {
            let pointers = Pointers::new(schema, row.code);
            match reserve_cell(image, row.offset, pointers, space, mapper) {
                Ok(()) => {}
                Err(full) => return Err(full),
            }
        }
    }
    Ok(())
}

/// Reserves frames for the pages that the pointers of all roots lead to.
pub(crate) fn reserve_roots<M: Mapper>(
    image: &PageImage,
    space: &mut Space,
    mapper: &M,
) -> Result<(), SpaceFull>
    requires targets { LeadToPages image.now.bytes (root_pointers image.now.bytes) }
    ensures { let wanted = targets_of image.now.bytes (root_pointers image.now.bytes) in
        Reserves (M.choice mapper.now) space.old space.new wanted result }
{
    for i in 0..ROOTS {
        if get_u8(image, name_length_place(i)) != 0 {
            reserve_target(space, mapper, get_pointer(image, pointer_place(i)))?;
        }
    }
    Ok(())
}
