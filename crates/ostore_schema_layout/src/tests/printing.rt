//! Canonical texts, and copies.

use crate::print::print_schema;
use crate::reading::parse_schema;
use crate::tests::samples::linked_types;
use ostore_base::Copied;
use std::test::Fail;

const EXPECTED: &[u8] = b"type Part
id int
label text 40
owner ref Group inverse Group.parts
after list Part
by_id dict int Part
by_label dict text Group
type Group
parts set Part inverse Part.owner
boss ref Group inverse Group.staff
staff set Group inverse Group.boss
";

#[test]
fn every_kind_is_printed(rt: HostRuntime) -> Result<(), Fail> {
    let alloc = rt.alloc();
    let schema = linked_types(alloc)?;
    let text = print_schema(alloc, &schema)?;
    assert_eq!(rt; text.bytes(), EXPECTED);
    Ok(())
}

#[test]
fn a_copy_is_equal(rt: HostRuntime) -> Result<(), Fail> {
    let alloc = rt.alloc();
    let copy = linked_types(alloc)?.copy()?;
    let text = print_schema(alloc, &copy)?;
    assert_eq!(rt; text.bytes(), EXPECTED);
    Ok(())
}

/// Texts as they are printed: a list of parts, parts in boxes, a path over four types, and a hub.
const CANONICAL: [&[u8]; 4] = [
    b"type Part
id int
next ref Part
",
    b"type Box
parts set Part inverse Part.box
type Part
id int
box ref Box inverse Box.parts
next ref Part
left ref Part inverse Part.right
right ref Part inverse Part.left
",
    b"type Store
items set Part inverse Part.store
type Part
store ref Store inverse Store.items
box ref Box inverse Box.parts
type Box
parts set Part inverse Part.box
shelf ref Shelf inverse Shelf.boxes
type Shelf
boxes set Box inverse Box.shelf
code text 8
",
    b"type Hub
a ref Hub
b ref Hub
c ref Hub
d ref Hub
",
];

#[test]
fn canonical_texts_are_read_and_printed(rt: HostRuntime) -> Result<(), Fail> {
    let alloc = rt.alloc();
    for text in CANONICAL {
        let printed = print_schema(alloc, &parse_schema(alloc, text)?)?;
        assert_eq!(rt; printed.bytes(), text);
        let again = print_schema(alloc, &parse_schema(alloc, printed.bytes())?)?;
        assert_eq!(rt; again.bytes(), text);
    }
    Ok(())
}
