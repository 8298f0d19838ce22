//! Copies of a schema and of its parts.

use crate::schema::{MemberDef, Schema, TypeDef};
use ostore_base::{Copied, OutOfMemory};

impl Copied for MemberDef {
    fn copy(&self) -> Result<MemberDef, OutOfMemory> {
        Ok(MemberDef {
            name: self.name.copy()?,
            kind: self.kind,
            inverse: self.inverse,
        })
    }
}

impl Copied for TypeDef {
    fn copy(&self) -> Result<TypeDef, OutOfMemory> {
        Ok(TypeDef {
            name: self.name.copy()?,
            members: self.members.copy()?,
        })
    }
}

impl Copied for Schema {
    fn copy(&self) -> Result<Schema, OutOfMemory> {
        Ok(Schema {
            types: self.types.copy()?,
        })
    }
}
