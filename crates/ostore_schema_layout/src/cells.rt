//! Laying out the members of a type in the cell of its objects.

ghost use Rattle.std.specs.Prelude.{◌≡◌, ◌≤◌, IfOk};
ghost use Rattle.std.specs.List.{slice_get};
ghost use Rattle.ostore_schema_layout.specs.Limits.{largest_cell};
ghost use Rattle.ostore_schema_layout.specs.Cells.{IsType, IsSoundLayout, cell_size, in_fours, kind_size, layout_of, places_from};
ghost use Rattle.ostore_schema_layout.specs.Numbers.{members_of};
ghost use Rattle.ostore_schema_layout.specs.Lawful.{IsLawful};

use crate::layouts::{Layout, Place, Places};
use crate::schema::{MemberDef, MemberKind, MemberNo, Schema, TypeNo};
use ostore_base::OutOfMemory;
use std::alloc::Global;

/// The size of a cell of a type without members, in bytes.
const EMPTY_CELL: u16 = 4;

/// The layout of a type of the schema. Members lie in text order, each at the next free byte: an int has
/// 8 bytes, a text of at most N bytes 1 + N rounded up to a multiple of 4, a reference 4, a set 12, a
/// list or a dictionary 8. A type without members has a cell of 4.
#[tactic(auto, using(crate::proofs::places::LayoutLaws::lawful_cell_size, crate::proofs::places::LayoutLaws::sound_layout))]
pub fn layout(alloc: Global, schema: &Schema, ty: TypeNo) -> Result<Layout, OutOfMemory>
    requires lawful { IsLawful schema.now }
    requires there { IsType schema.now ty.0 }
    ensures exact { IfOk result (λ layout. layout ≡ layout_of (members_of schema.now ty.0)) }
    ensures sound { IfOk result IsSoundLayout }
{
    layout_of_members(alloc, schema.members_of(ty))
}

/// The layout of members that have room in a cell.
#[tactic(auto, using(crate::proofs::places::LayoutLaws::sizes_in_cell))]
fn layout_of_members(alloc: Global, members: &[MemberDef]) -> Result<Layout, OutOfMemory>
    requires { cell_size members.now ≤ largest_cell }
    ensures { IfOk result (λ layout. layout ≡ layout_of members.now) }
{
    let mut places = Places::new(alloc);
    let mut at = 0;
    for member in members {
        places.push(Place {
            offset: at,
            kind: member.kind,
        })?;
        at += kind_size(member.kind);
    }
    let size = if members.is_empty() { EMPTY_CELL } else { at };
    Ok(Layout {
        size,
        members: places,
    })
}

/// Where a member of a type of the schema lies in the cell of the type's objects, as [`layout`] says. None comes
/// exactly where the type has no such member. It takes no memory.
#[tactic(auto, using(crate::proofs::places::LayoutLaws::lawful_cell_size))]
pub fn place_of(schema: &Schema, ty: TypeNo, member: MemberNo) -> Option<Place>
    requires lawful { IsLawful schema.now }
    requires there { IsType schema.now ty.0 }
    ensures { result ≡ slice_get (places_from 0 (members_of schema.now ty.0)) member.0 }
{
    place_among(schema.members_of(ty), member)
}

/// Where a member lies among members that have room in a cell.
#[tactic(auto, using(crate::proofs::places::LayoutLaws::sizes_in_cell))]
fn place_among(members: &[MemberDef], member: MemberNo) -> Option<Place>
    requires { cell_size members.now ≤ largest_cell }
    ensures { result ≡ slice_get (places_from 0 members.now) member.0 }
{
    let mut offset = 0;
    for (number, def) in members.iter().enumerate() {
        if number == usize::from(member.0) {
            return Some(Place {
                offset,
                kind: def.kind,
            });
        }
        offset += kind_size(def.kind);
    }
    None
}

/// How many bytes a member takes.
pub fn kind_size(kind: MemberKind) -> u16
    ensures { result ≡ kind_size kind }
{
    match kind {
        MemberKind::Int => 8,
        MemberKind::Text { max } => in_fours(1 + u16::from(max)),
        MemberKind::Ref { .. } => 4,
        MemberKind::Set { .. } => 12,
        MemberKind::List { .. } | MemberKind::DictInt { .. } | MemberKind::DictText { .. } => 8,
    }
}

/// The next multiple of 4.
fn in_fours(count: u16) -> u16
    requires { count ≤ largest_cell }
    ensures { result ≡ in_fours count }
{
    count.div_ceil(4) * 4
}

/// How many bytes a cell of members takes.
#[tactic(auto, using(crate::proofs::places::LayoutLaws::sizes_in_cell))]
pub(crate) fn members_size(members: &[MemberDef]) -> u16
    requires { cell_size members.now ≤ largest_cell }
    ensures { result ≡ cell_size members.now }
{
    if members.is_empty() {
        return EMPTY_CELL;
    }
    let mut size = 0;
    for member in members {
        size += kind_size(member.kind);
    }
    size
}
