//! Layouts, and the places of pointers.

ghost use Rattle.std.specs.Prelude.{◌≡◌, ◌≤◌, length};
ghost use Rattle.ostore_schema_layout.specs.Cells.{HasCode, IsType};
ghost use Rattle.ostore_schema_layout.specs.Lawful.{IsLawful};

use crate::cells::layout;
use crate::pointers::{Pointers, code_size, next_pointer, pointer_places};
use crate::reading::parse_schema;
use crate::schema::{Schema, TypeNo};
use crate::tests::samples::THREE;
use ostore_base::OutOfMemory;
use std::alloc::Global;
use std::process::Abort;
use std::test::Fail;

/// The type has a cell of this size, with its members there.
fn expect_layout(
    rt: &impl Abort,
    alloc: Global,
    schema: &Schema,
    ty: TypeNo,
    size: u16,
    offsets: &[u16],
) -> Result<(), OutOfMemory>
    requires lawful { IsLawful schema.now }
    requires there { IsType schema.now ty.0 }
{
    let found = layout(alloc, schema, ty)?;
    assert_eq!(rt; found.size, size);
    assert_eq!(rt; found.members.items().len(), offsets.len());
    for (place, offset) in found.members.items().iter().zip(offsets) {
        assert_eq!(rt; place.offset, *offset);
    }
    Ok(())
}

#[test]
fn members_lie_in_text_order(rt: HostRuntime) -> Result<(), Fail> {
    let alloc = rt.alloc();
    let schema = parse_schema(alloc, THREE)?;
    assert_eq!(rt; schema.types.items().len(), 3);
    expect_layout(&rt, alloc, &schema, TypeNo(1), 12, &[0, 8])?;
    let every = [0, 8, 52, 56, 64, 68, 80, 88, 96];
    expect_layout(&rt, alloc, &schema, TypeNo(2), 104, &every)?;
    expect_layout(&rt, alloc, &schema, TypeNo(3), 4, &[])?;
    Ok(())
}

/// A walk gives the places of all pointers, and then ends.
fn expect_walk(rt: &impl Abort, alloc: Global, schema: &Schema, code: u8) -> Result<(), OutOfMemory>
    requires lawful { IsLawful schema.now }
    requires there { HasCode schema.now code }
{
    let mut walk = Pointers::new(schema, code);
    for place in &pointer_places(alloc, schema, code)? {
        assert_eq!(rt; walk.next(), Some(*place));
    }
    assert_eq!(rt; walk.next(), None);
    Ok(())
}

#[test]
fn types_have_their_pointers(rt: HostRuntime) -> Result<(), Fail> {
    let alloc = rt.alloc();
    let schema = parse_schema(alloc, THREE)?;
    assert_eq!(rt; schema.types.items().len(), 3);
    assert!(rt; pointer_places(alloc, &schema, 1)?.as_slice() == [8].as_slice());
    let every = [64, 68, 76, 80, 88, 96];
    assert!(rt; pointer_places(alloc, &schema, 2)?.as_slice() == every.as_slice());
    assert!(rt; pointer_places(alloc, &schema, 3)?.is_empty());
    for (from, next) in [(0, Some(8)), (8, Some(8)), (9, None), (u16::MAX, None)] {
        assert_eq!(rt; next_pointer(&schema, 1, from), next);
    }
    for (from, next) in [
        (0, Some(64)),
        (65, Some(68)),
        (69, Some(76)),
        (77, Some(80)),
        (96, Some(96)),
        (97, None),
    ] {
        assert_eq!(rt; next_pointer(&schema, 2, from), next);
    }
    assert_eq!(rt; next_pointer(&schema, 3, 0), None);
    for code in [1, 2, 3] {
        assert!(rt; code >= 1 && code <= 3);
        expect_walk(&rt, alloc, &schema, code)?;
    }
    Ok(())
}

/// The chunk has so many pointers, with these three among them: the first two and the last.
fn expect_pointers(
    rt: &impl Abort,
    alloc: Global,
    schema: &Schema,
    code: u8,
    second: u16,
    third: Option<u16>,
    last: u16,
    count: usize,
) -> Result<(), OutOfMemory>
    requires lawful { IsLawful schema.now }
    requires there { HasCode schema.now code }
{
    let places = pointer_places(alloc, schema, code)?;
    assert_eq!(rt; places.len(), count);
    assert_eq!(rt; places.first(), Some(&0));
    assert_eq!(rt; places.get(1), Some(&second));
    assert!(rt; places.get(2).copied() == third);
    assert_eq!(rt; places.last(), Some(&last));
    assert_eq!(rt; next_pointer(schema, code, 0), Some(0));
    assert_eq!(rt; next_pointer(schema, code, 1), Some(second));
    assert_eq!(rt; next_pointer(schema, code, second), Some(second));
    assert!(rt; next_pointer(schema, code, second.saturating_add(1)) == third);
    assert_eq!(rt; next_pointer(schema, code, last), Some(last));
    assert_eq!(rt; next_pointer(schema, code, last.saturating_add(1)), None);
    Ok(())
}

#[test]
fn chunks_have_their_pointers(rt: HostRuntime) -> Result<(), Fail> {
    let alloc = rt.alloc();
    let schema = parse_schema(alloc, THREE)?;
    assert_eq!(rt; schema.types.items().len(), 3);
    for (code, size, second, third, last, count) in [
        (240, 128, 8, Some(12), 124, 31),
        (241, 128, 8, Some(12), 124, 31),
        (242, 200, 16, Some(28), 196, 17),
        (243, 392, 52, Some(100), 388, 9),
        (244, 16, 4, None, 4, 2),
        (245, 328, 16, Some(36), 316, 17),
        (246, 904, 52, Some(108), 892, 17),
    ] {
        assert!(rt; code >= 240 && code <= 246);
        assert_eq!(rt; code_size(&schema, code), size);
        expect_pointers(&rt, alloc, &schema, code, second, third, last, count)?;
        expect_walk(&rt, alloc, &schema, code)?;
    }
    Ok(())
}
