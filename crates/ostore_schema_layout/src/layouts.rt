//! Where the members of an object lie in its cell.

use crate::schema::MemberKind;
use ostore_base::ListOf;

/// Where a member lies in a cell, in bytes from the cell's start, and what it holds.
#[derive(Clone, Copy, Debug, PartialEq, Eq)]
pub struct Place {
    pub offset: u16,
    pub kind: MemberKind,
}

/// The places of a type's members, in text order.
pub type Places = ListOf<Place>;

/// The cell of a type's objects: its size in bytes, and its members.
#[derive(Debug, Drop)]
pub struct Layout {
    pub size: u16,
    pub members: Places,
}
