//! Declarations without a fault as a schema: names become the numbers of what they mean.

ghost use Rattle.std.specs.Prelude.{◌≡◌, ◌≤◌, length, IfOk};
ghost use Rattle.ostore_schema_layout.specs.Faults.{inverse_named as inverse_named_of};
ghost use Rattle.ostore_schema_layout.specs.Resolved.{type_number as type_number_of, member_number as member_number_of, resolved_kind as resolved_kind_of, resolved_inverse as resolved_inverse_of, resolved_member as resolved_member_of, resolved_type as resolved_type_of, resolved as resolved_of};
ghost use Rattle.ostore_schema_layout.specs.inside.Gives.{AreFew};
ghost use Rattle.ostore_schema_layout.specs.Limits.{most_types, most_members};

use crate::declarations::{KindDeclaration, MemberDeclaration, TypeDeclaration};
use crate::lookup::place_named;
use crate::reading::names::members_named;
use crate::schema::{Inverse, MemberDef, MemberKind, MemberNo, Schema, TypeDef, TypeNo};
use ostore_base::{ListOf, OutOfMemory};
use std::alloc::Global;

/// The number of the type that a name means.
fn type_number(types: &[TypeDeclaration], name: &[u8]) -> TypeNo
    requires { length types.now ≤ most_types }
    ensures { result ≡ type_number_of types.now name.now }
{
    let place = place_named(types, name).unwrap_or(types.len());
    TypeNo(place as u8 + 1)
}

/// The number of the member that a name means.
fn member_number(members: &[MemberDeclaration], name: &[u8]) -> MemberNo
    requires { length members.now ≤ most_members }
    ensures { result ≡ member_number_of members.now name.now }
{
    let place = place_named(members, name).unwrap_or(members.len());
    MemberNo(place as u8)
}

/// The kind, with the number of the type that it names.
fn resolved_kind(types: &[TypeDeclaration], kind: &KindDeclaration) -> MemberKind
    requires { length types.now ≤ most_types }
    ensures { result ≡ resolved_kind_of types.now kind.now }
{
    let target = match kind.target() {
        Some(target) => type_number(types, target.name.bytes()),
        None => TypeNo(0),
    };
    kind.with_target(target)
}

/// The inverse that a kind names, with the numbers of its type and its member.
fn resolved_inverse(types: &[TypeDeclaration], kind: &KindDeclaration) -> Option<Inverse>
    requires { AreFew types.now }
    ensures { result ≡ resolved_inverse_of types.now (inverse_named_of kind.now) }
{
    let inverse = kind.inverse()?;
    let members = members_named(types, inverse.ty.bytes());
    Some(Inverse {
        ty: type_number(types, inverse.ty.bytes()),
        member: member_number(members, inverse.member.bytes()),
    })
}

/// The member, with numbers for names.
fn resolved_member(
    types: &[TypeDeclaration],
    member: &MemberDeclaration,
) -> Result<MemberDef, OutOfMemory>
    requires { AreFew types.now }
    ensures { IfOk result (λ found. found ≡ resolved_member_of types.now member.now) }
{
    Ok(MemberDef {
        name: member.name.name.copy()?,
        kind: resolved_kind(types, &member.kind),
        inverse: resolved_inverse(types, &member.kind),
    })
}

/// The type, with numbers for the names in its members.
fn resolved_type(
    alloc: Global,
    types: &[TypeDeclaration],
    ty: &TypeDeclaration,
) -> Result<TypeDef, OutOfMemory>
    requires { AreFew types.now }
    ensures { IfOk result (λ found. found ≡ resolved_type_of types.now ty.now) }
{
    let mut members = ListOf::new(alloc);
    for member in ty.members.items() {
        members.push(resolved_member(types, member)?)?;
    }
    Ok(TypeDef {
        name: ty.name.name.copy()?,
        members,
    })
}

/// The schema of declarations without a fault.
pub(super) fn resolved(alloc: Global, types: &[TypeDeclaration]) -> Result<Schema, OutOfMemory>
    requires { AreFew types.now }
    ensures { IfOk result (λ schema. schema ≡ resolved_of types.now) }
{
    let mut found = ListOf::new(alloc);
    for ty in types {
        found.push(resolved_type(alloc, types, ty)?)?;
    }
    Ok(Schema { types: found })
}
