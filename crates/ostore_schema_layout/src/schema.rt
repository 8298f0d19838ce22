//! The types of a schema.

ghost use Rattle.std.specs.Prelude.{◌≡◌, option_map, IsSome, IfSome};
ghost use Rattle.ostore_schema_layout.specs.Cells.{IsType};
ghost use Rattle.ostore_schema_layout.specs.Lawful.{IsLawful};
ghost use Rattle.ostore_schema_layout.specs.Numbers.{member_at, member_name, member_named, members_of, type_at, type_name, type_named};

mod copying;

use crate::lookup::{Named, place_named};
use ostore_base::{ListOf, Text};

/// A type by its place in the schema's text. The first type is 1.
#[derive(Clone, Copy, Debug, PartialEq, Eq, PartialOrd, Ord, Hash)]
pub struct TypeNo(pub u8);

/// A member by its place in its type. The first member is 0.
#[derive(Clone, Copy, Debug, PartialEq, Eq, PartialOrd, Ord, Hash)]
pub struct MemberNo(pub u8);

/// What a member holds.
#[derive(Clone, Copy, Debug, PartialEq, Eq)]
pub enum MemberKind {
    /// A whole number of 64 bits.
    Int,
    /// UTF-8 of at most `max` bytes, 1 to 40.
    Text { max: u8 },
    /// At most one object of the target type.
    Ref { target: TypeNo },
    /// A set of objects of the target type.
    Set { target: TypeNo },
    /// A list of objects of the target type.
    List { target: TypeNo },
    /// A dictionary from whole numbers to objects of the target type.
    DictInt { target: TypeNo },
    /// A dictionary from texts to objects of the target type.
    DictText { target: TypeNo },
}

/// The member at the other side of a two-sided link.
#[derive(Clone, Copy, Debug, PartialEq, Eq)]
pub struct Inverse {
    pub ty: TypeNo,
    pub member: MemberNo,
}

/// A member of a type. Only a `Ref` or a `Set` may have an inverse.
#[derive(Debug, Drop)]
pub struct MemberDef {
    pub name: Text,
    pub kind: MemberKind,
    pub inverse: Option<Inverse>,
}

/// The members of a type, in text order.
pub type MemberDefs = ListOf<MemberDef>;

/// A type: its name and its members.
#[derive(Debug, Drop)]
pub struct TypeDef {
    pub name: Text,
    pub members: MemberDefs,
}

/// The types of a schema, in text order.
pub type TypeDefs = ListOf<TypeDef>;

/// A schema: a list of types. The type numbers and member numbers in it count in text order.
#[derive(Debug, Drop)]
pub struct Schema {
    pub types: TypeDefs,
}

impl Named for TypeDef {
    ghost name_of = { λ ty. ty.name };

    fn name(&self) -> &[u8] {
        self.name.bytes()
    }
}

impl Named for MemberDef {
    ghost name_of = { λ member. member.name };

    fn name(&self) -> &[u8] {
        self.name.bytes()
    }
}

impl Schema {
    /// The type of a number, and None where there is no such type.
    pub fn type_at(&self, ty: TypeNo) -> Option<&TypeDef>
        ensures { option_map (λ found. found.now) result ≡ type_at self.now ty.0 }
    {
        self.types.items().get(usize::from(ty.0).checked_sub(1)?)
    }

    /// The members of a type, and no members where there is no such type.
    pub fn members_of(&self, ty: TypeNo) -> &[MemberDef]
        ensures { result.now ≡ members_of self.now ty.0 }
    {
        match self.type_at(ty) {
            Some(ty) => ty.members.items(),
            None => &[],
        }
    }

    /// The member of a type by its number, and None where there is no such member.
    pub fn member_at(&self, ty: TypeNo, member: MemberNo) -> Option<&MemberDef>
        ensures { option_map (λ found. found.now) result ≡ member_at self.now ty member }
    {
        self.members_of(ty).get(usize::from(member.0))
    }

    /// The type of a name, and None where there is no such type.
    pub fn type_named(&self, name: &[u8]) -> Option<TypeNo>
        requires lawful { IsLawful self.now }
        ensures named { result ≡ type_named self.now name.now }
        ensures there { IfSome result (λ ty. IsType self.now ty.0) }
    {
        let place = place_named(self.types.items(), name)?;
        Some(TypeNo(place as u8 + 1))
    }

    /// The member of a type by its name, and None where there is no such member.
    pub fn member_named(&self, ty: TypeNo, name: &[u8]) -> Option<MemberNo>
        requires lawful { IsLawful self.now }
        ensures named { result ≡ member_named self.now ty name.now }
        ensures there { IfSome result (λ member. IsSome (member_at self.now ty member)) }
    {
        let place = place_named(self.members_of(ty), name)?;
        Some(MemberNo(place as u8))
    }

    /// The name of a type, and the empty one where there is no such type.
    pub fn type_name(&self, ty: TypeNo) -> &[u8]
        ensures { result.now ≡ type_name self.now ty }
    {
        match self.type_at(ty) {
            Some(ty) => ty.name.bytes(),
            None => b"",
        }
    }

    /// The name of a member of a type, and the empty one where there is no such member.
    pub fn member_name(&self, ty: TypeNo, member: MemberNo) -> &[u8]
        ensures { result.now ≡ member_name self.now ty member }
    {
        match self.member_at(ty, member) {
            Some(member) => member.name.bytes(),
            None => b"",
        }
    }
}
