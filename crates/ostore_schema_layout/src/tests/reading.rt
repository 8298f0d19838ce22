//! Texts with the schemas that they spell, and with the faults that they have.

use crate::fault::SchemaFault;
use crate::reading::{LONGEST_SCHEMA, parse_schema};
use crate::schema::{Inverse, MemberKind, MemberNo, Schema, TypeNo};
use crate::tests::samples::numbered;
use std::alloc::{AllocError, Global};
use std::process::Abort;
use std::test::Fail;

const PART: &[u8] = b"type Part\nid int\nnext ref Part\n";

const BOX: &[u8] =
    b"type Box\nparts set Part inverse Part.box\ntype Part\nid int\nbox ref Box inverse Box.parts\nnext ref Part\nleft ref Part inverse Part.right\nright ref Part inverse Part.left\n";

const STORE: &[u8] =
    b"type Store\nitems set Part inverse Part.store\ntype Part\nstore ref Store inverse Store.items\nbox ref Box inverse Box.parts\ntype Box\nparts set Part inverse Part.box\nshelf ref Shelf inverse Shelf.boxes\ntype Shelf\nboxes set Box inverse Box.shelf\ncode text 8\n";

const HUB: &[u8] = b"type Hub\na ref Hub\nb ref Hub\nc ref Hub\nd ref Hub\n";

const INT: MemberKind = MemberKind::Int;

fn text(max: u8) -> MemberKind {
    MemberKind::Text { max }
}

fn one(target: u8) -> MemberKind {
    MemberKind::Ref {
        target: TypeNo(target),
    }
}

fn set(target: u8) -> MemberKind {
    MemberKind::Set {
        target: TypeNo(target),
    }
}

fn back(ty: u8, member: u8) -> Option<Inverse> {
    Some(Inverse {
        ty: TypeNo(ty),
        member: MemberNo(member),
    })
}

/// The type has this name and these members.
fn expect_type(
    rt: &impl Abort,
    schema: &Schema,
    nth: usize,
    name: &[u8],
    members: &[(&[u8], MemberKind, Option<Inverse>)],
) {
    let types = schema.types.items();
    assert!(rt; nth < types.len());
    assert!(rt; types[nth].name.bytes() == name);
    let found = types[nth].members.items();
    assert_eq!(rt; found.len(), members.len());
    for (member, other) in found.iter().zip(members) {
        assert!(rt; member.name.bytes() == other.0);
        assert_eq!(rt; member.kind, other.1);
        assert_eq!(rt; member.inverse, other.2);
    }
}

#[test]
fn parts_in_boxes(rt: HostRuntime) -> Result<(), Fail> {
    let schema = parse_schema(rt.alloc(), PART)?;
    assert_eq!(rt; schema.types.items().len(), 1);
    expect_type(
        &rt,
        &schema,
        0,
        b"Part",
        &[(b"id", INT, None), (b"next", one(1), None)],
    );
    let schema = parse_schema(rt.alloc(), BOX)?;
    assert_eq!(rt; schema.types.items().len(), 2);
    expect_type(&rt, &schema, 0, b"Box", &[(b"parts", set(2), back(2, 1))]);
    expect_type(
        &rt,
        &schema,
        1,
        b"Part",
        &[
            (b"id", INT, None),
            (b"box", one(1), back(1, 0)),
            (b"next", one(2), None),
            (b"left", one(2), back(2, 4)),
            (b"right", one(2), back(2, 3)),
        ],
    );
    Ok(())
}

#[test]
fn stores_and_hubs(rt: HostRuntime) -> Result<(), Fail> {
    let schema = parse_schema(rt.alloc(), STORE)?;
    assert_eq!(rt; schema.types.items().len(), 4);
    expect_type(&rt, &schema, 0, b"Store", &[(b"items", set(2), back(2, 0))]);
    let part: &[(&[u8], MemberKind, Option<Inverse>)] = &[
        (b"store", one(1), back(1, 0)),
        (b"box", one(3), back(3, 0)),
    ];
    expect_type(&rt, &schema, 1, b"Part", part);
    let holder: &[(&[u8], MemberKind, Option<Inverse>)] = &[
        (b"parts", set(2), back(2, 1)),
        (b"shelf", one(4), back(4, 0)),
    ];
    expect_type(&rt, &schema, 2, b"Box", holder);
    let shelf: &[(&[u8], MemberKind, Option<Inverse>)] = &[
        (b"boxes", set(3), back(3, 1)),
        (b"code", text(8), None),
    ];
    expect_type(&rt, &schema, 3, b"Shelf", shelf);
    let schema = parse_schema(rt.alloc(), HUB)?;
    assert_eq!(rt; schema.types.items().len(), 1);
    let hub: &[(&[u8], MemberKind, Option<Inverse>)] = &[
        (b"a", one(1), None),
        (b"b", one(1), None),
        (b"c", one(1), None),
        (b"d", one(1), None),
    ];
    expect_type(&rt, &schema, 0, b"Hub", hub);
    Ok(())
}

#[test]
fn collections_and_spaces(rt: HostRuntime) -> Result<(), Fail> {
    let spelled =
        b"\n# all kinds\n type  A \nx list B\n  # between\ny dict int A\n\nz  dict  text  B\nw text 40\nv text 1\ntype B";
    let schema = parse_schema(rt.alloc(), spelled)?;
    assert_eq!(rt; schema.types.items().len(), 2);
    let target = TypeNo(2);
    let members: &[(&[u8], MemberKind, Option<Inverse>)] = &[
        (b"x", MemberKind::List { target }, None),
        (b"y", MemberKind::DictInt { target: TypeNo(1) }, None),
        (b"z", MemberKind::DictText { target }, None),
        (b"w", text(40), None),
        (b"v", text(1), None),
    ];
    expect_type(&rt, &schema, 0, b"A", members);
    expect_type(&rt, &schema, 1, b"B", &[]);
    for empty in [b"".as_slice(), b"\n  \n# nothing\n".as_slice()] {
        assert!(rt; parse_schema(rt.alloc(), empty)?.types.items().is_empty());
    }
    Ok(())
}

/// The text has this fault.
fn expect_fault(rt: &impl Abort, alloc: Global, text: &[u8], fault: SchemaFault) {
    assert_eq!(rt; parse_schema(alloc, text).err(), Some(fault));
}

#[test]
fn words_that_cannot_stand(rt: HostRuntime) {
    for (text, at) in [
        (b"type Part\nid in\n".as_slice(), 13),
        (b"x int\ntype A\n".as_slice(), 0),
        (b"# a\nx int\n".as_slice(), 4),
        (b"type type\n".as_slice(), 5),
        (b"type A\nint int\n".as_slice(), 7),
        (b"type A\nx ref 2\n".as_slice(), 13),
        (b"type A\nx text 0\n".as_slice(), 14),
        (b"type A\nx text 41\n".as_slice(), 14),
        (b"type A\nx text 04\n".as_slice(), 14),
        (b"type A\nx dict ref A\n".as_slice(), 14),
        (b"type A\nx ref A back A.y\n".as_slice(), 15),
        (b"type A\nx ref A inverse A\n".as_slice(), 23),
        (b"type A\nx ref A inverse A.y.z\n".as_slice(), 23),
    ] {
        expect_fault(&rt, rt.alloc(), text, SchemaFault::Syntax { at });
    }
}

#[test]
fn words_missing_and_further_ones(rt: HostRuntime) {
    for (text, at) in [
        (b"type".as_slice(), 4),
        (b"type A\nx   \ny int\n".as_slice(), 11),
        (b"type A\nx  ".as_slice(), 10),
        (b"type A\nx text\n".as_slice(), 13),
        (b"type A\nx dict int \n".as_slice(), 18),
        (b"type A\nx set A inverse\n".as_slice(), 22),
        (b"type A B\n".as_slice(), 7),
        (b"type A\nx int y\n".as_slice(), 13),
        (b"type A\nx text 4 4\n".as_slice(), 16),
        (b"type A\nx list A A\n".as_slice(), 16),
        (b"type A\nx dict int A A\n".as_slice(), 20),
        (b"type A\nx ref A inverse A.x y\n".as_slice(), 27),
        (b"type A\n# \x01\n".as_slice(), 9),
        (b"type A\nx\t int\n".as_slice(), 8),
        (b"type A\nx in\x1ft\n".as_slice(), 11),
    ] {
        expect_fault(&rt, rt.alloc(), text, SchemaFault::Syntax { at });
    }
}

#[test]
fn names_that_are_wrong(rt: HostRuntime) {
    for (text, fault) in [
        (
            b"type A\ntype A\n".as_slice(),
            SchemaFault::DuplicateType { at: 12 },
        ),
        (
            b"type A\nx int\nx int\n".as_slice(),
            SchemaFault::DuplicateMember { at: 13 },
        ),
        (
            b"type A\nx ref B\n".as_slice(),
            SchemaFault::UnknownType { at: 13 },
        ),
        (
            b"type A\nx dict text B\n".as_slice(),
            SchemaFault::UnknownType { at: 19 },
        ),
        (
            b"type A\nx int\n# \xc3\n".as_slice(),
            SchemaFault::NotUtf8 { at: 15 },
        ),
        (
            b"type A\nx ref B\ny in\n".as_slice(),
            SchemaFault::Syntax { at: 17 },
        ),
        (b"x\n\xff".as_slice(), SchemaFault::NotUtf8 { at: 2 }),
        (
            b"type A\nx ref B inverse B.y\n".as_slice(),
            SchemaFault::UnknownType { at: 13 },
        ),
        (
            b"type A\nx ref B\ntype A\n".as_slice(),
            SchemaFault::UnknownType { at: 13 },
        ),
    ] {
        expect_fault(&rt, rt.alloc(), text, fault);
    }
}

#[test]
fn inverses_that_are_none(rt: HostRuntime) {
    for text in [
        b"type A\nx ref A inverse A.y\n".as_slice(),
        b"type A\nx ref A inverse A.y\ny ref A\n".as_slice(),
        b"type A\nx ref A inverse A.x\n".as_slice(),
        b"type A\nx ref A inverse C.y\n".as_slice(),
        b"type A\nx ref A inverse B.y\ntype B\ny ref A inverse A.x\n".as_slice(),
        b"type A\nx ref A inverse A.y\ny ref B inverse A.x\ntype B\n".as_slice(),
        b"type A\nx ref A inverse A.y\ny list A\n".as_slice(),
        b"type A\nx set A inverse A.y\ny ref A inverse A.z\nz ref A inverse A.y\n".as_slice(),
    ] {
        expect_fault(
            &rt,
            rt.alloc(),
            text,
            SchemaFault::InverseMismatch { at: 23 },
        );
    }
}

#[test]
fn types_and_members_are_counted(rt: HostRuntime) -> Result<(), Fail> {
    let alloc = rt.alloc();
    let many = numbered(alloc, b"", 64, b"type T", b"\n")?;
    assert_eq!(rt; parse_schema(alloc, &many)?.types.items().len(), 64);
    let many = numbered(alloc, b"", 66, b"type T", b"\n")?;
    expect_fault(&rt, alloc, &many, SchemaFault::TooManyTypes { at: 581 });
    let mut many = numbered(alloc, b"type A\n", 32, b"m", b" int\n")?;
    assert_eq!(rt; parse_schema(alloc, &many)?.types.items().len(), 1);
    many.extend_from_slice(b"m10 int\n")?;
    expect_fault(&rt, alloc, &many, SchemaFault::DuplicateMember { at: 263 });
    let many = numbered(alloc, b"type A\n", 34, b"m", b" int\n")?;
    expect_fault(&rt, alloc, &many, SchemaFault::TooManyMembers { at: 263 });
    Ok(())
}

#[test]
fn cells_are_at_most_1000_bytes(rt: HostRuntime) -> Result<(), Fail> {
    let alloc = rt.alloc();
    let mut text = numbered(alloc, b"type A\n", 22, b"m", b" text 40\n")?;
    text.extend_from_slice(b"a int\nb int\nc int\nd int\n")?;
    assert_eq!(rt; parse_schema(alloc, &text)?.types.items().len(), 1);
    text.extend_from_slice(b"e ref A\n")?;
    expect_fault(&rt, alloc, &text, SchemaFault::CellTooLarge { at: 5 });
    let text = numbered(alloc, b"type A\ntype A\n", 23, b"m", b" text 40\n")?;
    expect_fault(&rt, alloc, &text, SchemaFault::DuplicateType { at: 12 });
    Ok(())
}

/// The text's fault is printed as this line.
fn expect_line(rt: &impl Abort, alloc: Global, text: &[u8], line: &str) -> Result<(), AllocError> {
    match parse_schema(alloc, text) {
        Ok(_) => panic!(rt; "no fault, but {line}"),
        Err(fault) => assert!(rt; format!(in alloc; "{fault}")?.as_str() == line),
    }
    Ok(())
}

#[test]
fn faults_have_numbers(rt: HostRuntime) -> Result<(), Fail> {
    let alloc = rt.alloc();
    for (text, line) in [
        (b"type".as_slice(), "schema fault 1 Syntax at 4"),
        (
            b"type A\ntype A".as_slice(),
            "schema fault 2 DuplicateType at 12",
        ),
        (
            b"type A\nx int\nx int".as_slice(),
            "schema fault 3 DuplicateMember at 13",
        ),
        (
            b"type A\nx ref B".as_slice(),
            "schema fault 4 UnknownType at 13",
        ),
        (
            b"type A\nx ref A inverse A.y".as_slice(),
            "schema fault 5 InverseMismatch at 23",
        ),
        (b"\xff".as_slice(), "schema fault 10 NotUtf8 at 0"),
    ] {
        expect_line(&rt, alloc, text, line)?;
    }
    let large = numbered(alloc, b"type A\n", 23, b"m", b" text 40\n")?;
    expect_line(&rt, alloc, &large, "schema fault 6 CellTooLarge at 5")?;
    let types = numbered(alloc, b"", 65, b"type T", b"\n")?;
    expect_line(&rt, alloc, &types, "schema fault 7 TooManyTypes at 581")?;
    let members = numbered(alloc, b"type A\n", 33, b"m", b" int\n")?;
    expect_line(&rt, alloc, &members, "schema fault 8 TooManyMembers at 263")?;
    Ok(())
}

#[test]
fn texts_are_at_most_32764_bytes(rt: HostRuntime) -> Result<(), Fail> {
    let alloc = rt.alloc();
    let mut text = b"type A\nx int\n#".to_vec(alloc)?;
    for _ in text.len()..LONGEST_SCHEMA {
        text.push(b'-')?;
    }
    assert_eq!(rt; parse_schema(alloc, &text)?.types.items().len(), 1);
    text.push(b'-')?;
    expect_line(&rt, alloc, &text, "schema fault 9 TooLong at 32764")?;
    Ok(())
}

#[test]
fn places_are_in_the_text(rt: HostRuntime) {
    for end in 0..STORE.len() {
        let Err(fault) = parse_schema(rt.alloc(), &STORE[..end]) else {
            continue;
        };
        assert!(rt; fault != SchemaFault::OutOfMemory && fault.place() <= end);
    }
}
