//! Schemas that are built by hand, and texts of many lines.

use crate::schema::{Inverse, MemberDef, MemberKind, MemberNo, Schema, TypeDef, TypeNo};
use ostore_base::{ListOf, OutOfMemory, Text};
use std::alloc::{AllocError, Global};

/// A type, from its name, and of each member the name, what it holds and its inverse.
fn ty(
    alloc: Global,
    name: &str,
    rows: &[(&str, MemberKind, Option<Inverse>)],
) -> Result<TypeDef, OutOfMemory> {
    let mut members = ListOf::new(alloc);
    for (name, kind, inverse) in rows {
        members.push(MemberDef {
            name: Text::from_bytes(alloc, name.as_bytes())?,
            kind: *kind,
            inverse: *inverse,
        })?;
    }
    Ok(TypeDef {
        name: Text::from_bytes(alloc, name.as_bytes())?,
        members,
    })
}

/// Three types: a part, one with members of every kind, and one without members.
pub const THREE: &[u8] = b"type Part
id int
next ref Part
type Every
number int
long text 40
short text 3
middle text 4
one ref Part
many set Part
row list Every
by_number dict int Empty
by_name dict text Part
type Empty
";

/// A schema of two types with links between them, and with members of every kind.
pub fn linked_types(alloc: Global) -> Result<Schema, OutOfMemory> {
    let part = TypeNo(1);
    let group = TypeNo(2);
    let parts = [
        ("id", MemberKind::Int, None),
        ("label", MemberKind::Text { max: 40 }, None),
        ("owner", MemberKind::Ref { target: group }, inverse(2, 0)),
        ("after", MemberKind::List { target: part }, None),
        ("by_id", MemberKind::DictInt { target: part }, None),
        ("by_label", MemberKind::DictText { target: group }, None),
    ];
    let groups = [
        ("parts", MemberKind::Set { target: part }, inverse(1, 2)),
        ("boss", MemberKind::Ref { target: group }, inverse(2, 2)),
        ("staff", MemberKind::Set { target: group }, inverse(2, 1)),
    ];
    let types = vec![in alloc; ty(alloc, "Part", &parts)?, ty(alloc, "Group", &groups)?]?;
    Ok(Schema {
        types: ListOf::from_vec(types),
    })
}

/// The member of a type.
fn inverse(ty: u8, member: u8) -> Option<Inverse> {
    Some(Inverse {
        ty: TypeNo(ty),
        member: MemberNo(member),
    })
}

/// A text: the head, then lines that begin with a letter and numbers from 10 on.
pub fn numbered(
    alloc: Global,
    head: &[u8],
    count: u8,
    before: &[u8],
    behind: &[u8],
) -> Result<Vec<u8>, AllocError> {
    let mut text = head.to_vec(alloc)?;
    for n in 0..count {
        text.extend_from_slice(before)?;
        text.push(b'1' + n / 10 % 9)?;
        text.push(b'0' + n % 10)?;
        text.extend_from_slice(behind)?;
    }
    Ok(text)
}
