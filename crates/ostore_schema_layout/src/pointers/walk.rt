//! A walk over the pointers of a cell.

ghost use Rattle.std.specs.Prelude.{◌≡◌, ◌+◌, ◌*◌, ◌≤◌, [], ◌∷◌, ◌++◌, drop, IfSome, MatchOption};
ghost use Rattle.std.specs.List.{slice_get};
ghost use Rattle.ostore_schema_layout.specs.Cells.{HasCode, pointers_of, sizes, type_pointers};
ghost use Rattle.ostore_schema_layout.specs.Limits.{largest_cell};
ghost use Rattle.ostore_schema_layout.specs.Lawful.{IsLawful};
ghost use Rattle.ostore_schema_layout.specs.inside.PointersLeft.{found_pointers, member_pointers, pointer_found, pointers_from};

use super::{FIRST_CHUNK_AT, SET_DESCRIPTOR_AT, chunk_form};
use crate::cells::kind_size;
use crate::schema::{MemberDef, MemberKind, Schema, TypeNo};
use ostore_base::cell_codes::{INDEX_DESCRIPTOR, SET_CHUNK};
use std::marker::Model;

/// A walk over the places of a cell's pointers, ascending, which takes no memory and goes through the
/// members once. A contract sees it as the list of the places that it has still to give.
#[derive(Drop)]
pub struct Pointers<'a> {
    /// The place that comes first, where it was found already.
    found: Option<u16>,
    /// Where the first of the members that are left begins.
    at: u16,
    members: &'a [MemberDef],
    /// Where the first of a chunk's entries that are left has its pointer.
    entry_at: u16,
    entry_size: u16,
    entries: u16,
}

impl<'a> Model for Pointers<'a> {
    ghost use Rattle.std.specs.Prelude.{List, ℕ, ◌+◌, ◌*◌, ◌≤◌};
    ghost use Rattle.ostore_schema_layout.specs.Cells.{sizes};
    ghost use Rattle.ostore_schema_layout.specs.Limits.{largest_cell};
    ghost use Rattle.ostore_schema_layout.specs.inside.PointersLeft.{pointers_left};

    ghost Value = { List ℕ };

    ghost view = { λ p.
        pointers_left p.found p.at p.members.now p.entry_at p.entry_size p.entries };

    ghost invariant = { λ p. (p.at + sizes p.members.now ≤ largest_cell)
        × (p.entry_at + p.entry_size * p.entries ≤ largest_cell) };
}

impl<'a> Pointers<'a> {
    /// The walk over the pointers of a cell of a code. The code is that of a type of the schema, or one
    /// of the seven of chunks and descriptors, 240 to 246.
    pub fn new(schema: &'a Schema, code: u8) -> Pointers<'a>
        requires lawful { IsLawful schema.now }
        requires there { HasCode schema.now code }
        ensures { result ≡ pointers_of schema.now code }
    {
        if code < SET_CHUNK {
            Pointers::of_members(schema.members_of(TypeNo(code)))
        } else if code == INDEX_DESCRIPTOR {
            Pointers::of_entries(FIRST_CHUNK_AT, 0, 1)
        } else {
            let form = chunk_form(code);
            Pointers::of_entries(form.first(), form.entry_size, form.entries)
        }
    }

    /// The walk over a type's cell.
    fn of_members(members: &'a [MemberDef]) -> Pointers<'a>
        requires { sizes members.now ≤ largest_cell }
        ensures { result ≡ type_pointers members.now }
    {
        Pointers {
            found: None,
            at: 0,
            members,
            entry_at: 0,
            entry_size: 0,
            entries: 0,
        }
    }

    /// The walk over a cell that begins with a pointer and has entries.
    fn of_entries(entry_at: u16, entry_size: u16, entries: u16) -> Pointers<'a>
        requires { entry_at + entry_size * entries ≤ largest_cell }
        ensures { result ≡ 0 ∷ pointers_from entry_at entry_size entries }
    {
        Pointers {
            found: Some(0),
            at: 0,
            members: &[],
            entry_at,
            entry_size,
            entries,
        }
    }

    /// The next place, and None exactly where there is none.
    pub fn next(&mut self) -> Option<u16>
        ensures next { result ≡ slice_get self.old 0 }
        ensures left { self.new ≡ drop 1 self.old }
    {
        if let Some(place) = self.found {
            self.found = None;
            return Some(place);
        }
        if let Some(found) = next_member(self.at, self.members) {
            self.found = found.second;
            self.at = found.at;
            self.members = found.members;
            return Some(found.place);
        }
        if self.entries == 0 {
            return None;
        }
        let place = self.entry_at;
        self.entry_at += self.entry_size;
        self.entries -= 1;
        Some(place)
    }
}

/// The pointers of a member, one or two, and the members behind it.
#[derive(Clone, Copy)]
struct Found<'a> {
    place: u16,
    second: Option<u16>,
    /// Where the first of the members behind it begins.
    at: u16,
    members: &'a [MemberDef],
}

/// The pointers of the first member that has any. The first member begins at a place.
fn next_member(at: u16, members: &[MemberDef]) -> Option<Found<'_>>
    requires { at + sizes members.now ≤ largest_cell }
    ensures found { member_pointers at members.now ≡ found_pointers result }
    ensures room { IfSome result (λ found. found.at + sizes found.members.now ≤ largest_cell) }
{
    let mut at = at;
    for (i, member) in members.iter().enumerate() {
        let end = at + kind_size(member.kind);
        match member.kind {
            MemberKind::Int | MemberKind::Text { .. } => {}
            MemberKind::Set { .. } => {
                return Some(Found {
                    place: at,
                    second: Some(at + SET_DESCRIPTOR_AT),
                    at: end,
                    members: &members[i + 1..],
                });
            }
            MemberKind::Ref { .. }
            | MemberKind::List { .. }
            | MemberKind::DictInt { .. }
            | MemberKind::DictText { .. } => {
                return Some(Found {
                    place: at,
                    second: None,
                    at: end,
                    members: &members[i + 1..],
                });
            }
        }
        at = end;
    }
    None
}
