//! What the lines of a schema's text declare, with names as they stand and the places of those that may
//! be wrong.

ghost use Rattle.std.specs.Prelude.{◌≡◌, option_map};
ghost use Rattle.ostore_schema_layout.specs.Faults.{target_named, inverse_named, with_target};

use crate::lookup::Named;
use crate::schema::{MemberKind, TypeNo};
use ostore_base::{ListOf, Text};

/// A name, and where it stands in the text.
#[derive(Debug, Drop)]
pub struct NameAt {
    pub at: usize,
    pub name: Text,
}

/// A type's line, and the lines of its members.
#[derive(Debug, Drop)]
pub struct TypeDeclaration {
    pub name: NameAt,
    pub members: MemberDeclarations,
}

/// A member's line.
#[derive(Debug, Drop)]
pub struct MemberDeclaration {
    pub name: NameAt,
    pub kind: KindDeclaration,
}

impl Named for TypeDeclaration {
    ghost name_of = { λ ty. ty.name.name };

    fn name(&self) -> &[u8] {
        self.name.name.bytes()
    }
}

impl Named for MemberDeclaration {
    ghost name_of = { λ member. member.name.name };

    fn name(&self) -> &[u8] {
        self.name.name.bytes()
    }
}

/// What a member's line says behind its name.
#[derive(Debug, Drop)]
pub enum KindDeclaration {
    Int,
    Text {
        max: u8,
    },
    Ref {
        target: NameAt,
        inverse: Option<InverseDeclaration>,
    },
    Set {
        target: NameAt,
        inverse: Option<InverseDeclaration>,
    },
    List {
        target: NameAt,
    },
    DictInt {
        target: NameAt,
    },
    DictText {
        target: NameAt,
    },
}

impl KindDeclaration {
    /// The type that it names, and where.
    pub fn target(&self) -> Option<&NameAt>
        ensures { option_map (λ target. target.now) result ≡ target_named self.now }
    {
        match self {
            KindDeclaration::Int | KindDeclaration::Text { .. } => None,
            KindDeclaration::Ref { target, .. }
            | KindDeclaration::Set { target, .. }
            | KindDeclaration::List { target }
            | KindDeclaration::DictInt { target }
            | KindDeclaration::DictText { target } => Some(target),
        }
    }

    /// The inverse that it names.
    pub fn inverse(&self) -> Option<&InverseDeclaration>
        ensures { option_map (λ inverse. inverse.now) result ≡ inverse_named self.now }
    {
        match self {
            KindDeclaration::Ref { inverse, .. } | KindDeclaration::Set { inverse, .. } => {
                inverse.as_ref()
            }
            KindDeclaration::Int
            | KindDeclaration::Text { .. }
            | KindDeclaration::List { .. }
            | KindDeclaration::DictInt { .. }
            | KindDeclaration::DictText { .. } => None,
        }
    }

    /// What the member holds, where its target has this number.
    pub fn with_target(&self, target: TypeNo) -> MemberKind
        ensures { result ≡ with_target self.now target }
    {
        match self {
            KindDeclaration::Int => MemberKind::Int,
            KindDeclaration::Text { max } => MemberKind::Text { max: *max },
            KindDeclaration::Ref { .. } => MemberKind::Ref { target },
            KindDeclaration::Set { .. } => MemberKind::Set { target },
            KindDeclaration::List { .. } => MemberKind::List { target },
            KindDeclaration::DictInt { .. } => MemberKind::DictInt { target },
            KindDeclaration::DictText { .. } => MemberKind::DictText { target },
        }
    }
}

/// The two names of an inverse, and where they stand.
#[derive(Debug, Drop)]
pub struct InverseDeclaration {
    pub at: usize,
    pub ty: Text,
    pub member: Text,
}

/// The types of a text, in its order.
pub type TypeDeclarations = ListOf<TypeDeclaration>;

/// The members of a type, in text order.
pub type MemberDeclarations = ListOf<MemberDeclaration>;
