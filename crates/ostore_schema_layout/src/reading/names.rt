//! What the names in declarations mean.

ghost use Rattle.std.specs.Prelude.{◌≡◌};
ghost use Rattle.ostore_schema_layout.specs.Faults.{type_named, members_found};

use crate::declarations::{MemberDeclaration, TypeDeclaration};
use crate::lookup::first_named;

/// The members of the type that a name means: none where there is no such type.
pub(super) fn members_named<'a>(
    types: &'a [TypeDeclaration],
    name: &[u8],
) -> &'a [MemberDeclaration]
    ensures { result.now ≡ members_found (type_named types.now name.now) }
{
    match first_named(types, name) {
        Some(ty) => ty.members.items(),
        None => &[],
    }
}
