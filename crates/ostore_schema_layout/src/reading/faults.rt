//! The first fault of what a text declares.

ghost use Rattle.std.specs.Prelude.{◌≡◌, ◌≤◌, [], ◌++◌, nat_lt, option_map};
ghost use Rattle.ostore_schema_layout.specs.Limits.{largest_cell};
ghost use Rattle.ostore_schema_layout.specs.Faults.{type_named as type_named_in, member_named as member_named_in, inverse_named as inverse_named_of, target_named as target_named_of, is_found_side_of, other_member, type_faults, is_side_of as is_side_for, members_found, is_inverse as is_inverse_of, names_this as names_this_of, names_back as names_back_to, declared_sizes, target_faults, inverse_faults, member_faults, members_faults, name_faults, types_faults, faults_of, first_of};

use crate::cells::kind_size;
use crate::declarations::{
    InverseDeclaration, KindDeclaration, MemberDeclaration, TypeDeclaration,
};
use crate::fault::SchemaFault;
use crate::lookup::first_named;
use crate::reading::names::members_named;
use crate::schema::TypeNo;

/// The most types that a schema may have.
const MOST_TYPES: usize = 64;

/// The most members that a type may have.
const MOST_MEMBERS: usize = 32;

/// The largest cell of a type, in bytes.
const LARGEST_CELL: usize = 1_000;

/// A target that stands for any: the size of a member doesn't depend on which type it leads to.
const ANY_TYPE: TypeNo = TypeNo(0);

/// Whether the members take more than the largest cell.
fn is_too_large(members: &[MemberDeclaration]) -> bool
    ensures { result ≡ nat_lt largest_cell (declared_sizes members.now) }
{
    let mut size = 0;
    for member in members {
        size += usize::from(kind_size(member.kind.with_target(ANY_TYPE)));
        if size > LARGEST_CELL {
            return true;
        }
    }
    false
}

/// Whether the inverse is named `TYPE.MEMBER`.
fn names_this(inverse: &InverseDeclaration, ty: &[u8], member: &[u8]) -> bool
    ensures { result ≡ names_this_of inverse.now ty.now member.now }
{
    inverse.ty.bytes() == ty && inverse.member.bytes() == member
}

/// Whether there is an inverse, and it is named `TYPE.MEMBER`.
fn names_back(inverse: Option<&InverseDeclaration>, ty: &[u8], member: &[u8]) -> bool
    ensures { let named = option_map (λ inverse. inverse.now) inverse.entry in
        result ≡ names_back_to named ty.now member.now }
{
    match inverse {
        Some(inverse) => names_this(inverse, ty, member),
        None => false,
    }
}

/// Whether the kind is a reference or a set of this type, whose inverse is this member.
fn is_side_of(kind: &KindDeclaration, ty: &[u8], member: &[u8]) -> bool
    ensures { result ≡ is_side_for kind.now ty.now member.now }
{
    match kind {
        KindDeclaration::Ref { target, inverse } | KindDeclaration::Set { target, inverse } => {
            target.name.bytes() == ty && names_back(inverse.as_ref(), ty, member)
        }
        KindDeclaration::Int
        | KindDeclaration::Text { .. }
        | KindDeclaration::List { .. }
        | KindDeclaration::DictInt { .. }
        | KindDeclaration::DictText { .. } => false,
    }
}

/// Whether the inverse's member is there, and is a side of the link to this member.
fn is_found_side(
    types: &[TypeDeclaration],
    inverse: &InverseDeclaration,
    ty: &[u8],
    member: &[u8],
) -> bool
    ensures { result ≡ is_found_side_of (other_member types.now inverse.now) ty.now member.now }
{
    let members = members_named(types, inverse.ty.bytes());
    match first_named(members, inverse.member.bytes()) {
        Some(other) => is_side_of(&other.kind, ty, member),
        None => false,
    }
}

/// Whether what `TYPE.MEMBER` names is the inverse of that member, whose target this is.
#[tactic(auto, unfolding(crate::specs::Faults::is_inverse))]
fn is_inverse(
    types: &[TypeDeclaration],
    ty: &[u8],
    member: &[u8],
    target: &[u8],
    inverse: &InverseDeclaration,
) -> bool
    ensures { result ≡ is_inverse_of types.now ty.now member.now target.now inverse.now }
{
    inverse.ty.bytes() == target
        && !names_this(inverse, ty, member)
        && is_found_side(types, inverse, ty, member)
}

/// The fault of what a member links to.
fn link_fault(
    types: &[TypeDeclaration],
    ty: &[u8],
    member: &MemberDeclaration,
) -> Option<SchemaFault>
    ensures { result ≡ first_of (target_faults types.now (target_named_of member.now.kind)
        ++ inverse_faults types.now ty.now member.now.name.name (target_named_of member.now.kind)
        (inverse_named_of member.now.kind)) }
{
    let target = member.kind.target()?;
    if first_named(types, target.name.bytes()).is_none() {
        return Some(SchemaFault::UnknownType { at: target.at });
    }
    let inverse = member.kind.inverse()?;
    if !is_inverse(
        types,
        ty,
        member.name.name.bytes(),
        target.name.bytes(),
        inverse,
    ) {
        return Some(SchemaFault::InverseMismatch { at: inverse.at });
    }
    None
}

/// The first fault of a member, behind the earlier members of its type.
#[tactic(auto, unfolding(crate::specs::Faults::member_faults))]
fn member_fault(
    types: &[TypeDeclaration],
    ty: &[u8],
    earlier: &[MemberDeclaration],
    member: &MemberDeclaration,
) -> Option<SchemaFault>
    ensures { result ≡ first_of (member_faults types.now ty.now earlier.now member.now) }
{
    let name = &member.name;
    if first_named(earlier, name.name.bytes()).is_some() {
        return Some(SchemaFault::DuplicateMember { at: name.at });
    }
    if earlier.len() >= MOST_MEMBERS {
        return Some(SchemaFault::TooManyMembers { at: name.at });
    }
    link_fault(types, ty, member)
}

/// The first fault of the members of a type.
fn members_fault(types: &[TypeDeclaration], ty: &TypeDeclaration) -> Option<SchemaFault>
    ensures { result ≡ first_of (members_faults types.now ty.now.name.name [] ty.now.members) }
{
    let members = ty.members.items();
    for (i, member) in members.iter().enumerate() {
        if let Some(fault) = member_fault(types, ty.name.name.bytes(), &members[..i], member) {
            return Some(fault);
        }
    }
    None
}

/// The first fault at a type's name, behind the earlier types.
#[tactic(auto, unfolding(crate::specs::Faults::name_faults))]
fn name_fault(earlier: &[TypeDeclaration], ty: &TypeDeclaration) -> Option<SchemaFault>
    ensures { result ≡ first_of (name_faults earlier.now ty.now) }
{
    let at = ty.name.at;
    if first_named(earlier, ty.name.name.bytes()).is_some() {
        return Some(SchemaFault::DuplicateType { at });
    }
    if is_too_large(ty.members.items()) {
        return Some(SchemaFault::CellTooLarge { at });
    }
    if earlier.len() >= MOST_TYPES {
        return Some(SchemaFault::TooManyTypes { at });
    }
    None
}

/// The first fault of a type, behind the earlier types.
fn type_fault(
    types: &[TypeDeclaration],
    earlier: &[TypeDeclaration],
    ty: &TypeDeclaration,
) -> Option<SchemaFault>
    ensures { result ≡ first_of (type_faults types.now earlier.now ty.now) }
{
    if let Some(fault) = name_fault(earlier, ty) {
        return Some(fault);
    }
    members_fault(types, ty)
}

/// The first fault of what a text declares. None where it declares a schema.
pub(super) fn first_fault(types: &[TypeDeclaration]) -> Option<SchemaFault>
    ensures { result ≡ first_of (faults_of types.now) }
{
    for (i, ty) in types.iter().enumerate() {
        if let Some(fault) = type_fault(types, &types[..i], ty) {
            return Some(fault);
        }
    }
    None
}
