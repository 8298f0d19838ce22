//! Schemas of the object database: which types there are, with their members and links, how a text
//! spells them, where the members lie in a cell and where the pointers are.
#![tactic(auto)]

mod cells;
mod declarations;
mod fault;
mod layouts;
mod lookup;
mod pointers;
mod print;
mod reading;
mod schema;

pub use cells::{layout, place_of};
pub use fault::SchemaFault;
pub use layouts::{Layout, Place, Places};
pub use lookup::{Named, first_named, place_named};
pub use pointers::{Pointers, code_size, next_pointer, pointer_places};
pub use print::print_schema;
pub use reading::{LONGEST_SCHEMA, parse_schema};
pub use schema::{
    Inverse, MemberDef, MemberDefs, MemberKind, MemberNo, Schema, TypeDef, TypeDefs, TypeNo,
};

#[cfg(test)]
mod tests;
