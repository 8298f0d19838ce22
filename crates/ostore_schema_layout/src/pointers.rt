//! Where the pointers of a cell are.

ghost use Rattle.std.specs.Prelude.{◌≡◌, ◌≢◌, ◌+◌, ◌≤◌, [], ◌∷◌, ◌++◌, nat_le, IfOk, OnOk};
ghost use Rattle.std.specs.List.{AllByRecursion, find};
ghost use Rattle.std.specs.List.Sorted.{IsStrictlyIncreasing};
ghost use Rattle.ostore_schema_layout.specs.Limits.{largest_cell};
ghost use Rattle.ostore_schema_layout.specs.Cells.{AreInCell, HasCode, chunk_of, chunk_pointers, code_size, entry_pointers, pointer_from, pointers_of, pointers_of_kind, sizes, type_pointers};
ghost use Rattle.ostore_base.specs.declared.cell_codes.TheConstants.{INDEX_DESCRIPTOR};
ghost use Rattle.ostore_schema_layout.specs.Lawful.{IsLawful};

mod walk;

use crate::cells::{kind_size, members_size};
use crate::schema::{MemberDef, MemberKind, Schema, TypeNo};
use ostore_base::OutOfMemory;
use ostore_base::cell_codes::{
    ENTRIES_IN_CHUNK, INDEX_DESCRIPTOR, INT_DICTIONARY_CHUNK, INT_INDEX_CHUNK, SET_CHUNK,
    TEXT_DICTIONARY_CHUNK, TEXT_INDEX_CHUNK,
};
use std::alloc::Global;
pub use walk::Pointers;

/// The size of a descriptor, in bytes.
const DESCRIPTOR_BYTES: u16 = 16;

/// Where a descriptor has its first chunk's pointer.
const FIRST_CHUNK_AT: u16 = 4;

/// Where a set has its first index descriptor's pointer, in bytes from the member's start.
const SET_DESCRIPTOR_AT: u16 = 8;

/// The entries of a chunk.
#[derive(Clone, Copy)]
struct ChunkForm {
    entries: u16,
    entry_size: u16,
    /// Where the pointer stands in an entry.
    pointer_at: u16,
}

impl ChunkForm {
    /// Where the first entry has its pointer, in bytes from the chunk's start.
    fn first(&self) -> u16
        requires { self.now.pointer_at ≤ 100 }
        ensures { result ≡ 8 + self.now.pointer_at }
    {
        ENTRIES_IN_CHUNK + self.pointer_at
    }
}

/// The entries of the chunk of a code.
fn chunk_form(code: u8) -> ChunkForm
    ensures entries { result.entries ≡ (chunk_of code).entries }
    ensures entry_size { result.entry_size ≡ (chunk_of code).entry_size }
    ensures pointer_at { result.pointer_at ≡ (chunk_of code).pointer_at }
{
    let (entries, entry_size, pointer_at) = match code {
        INT_DICTIONARY_CHUNK => (16, 12, 8),
        TEXT_DICTIONARY_CHUNK => (8, 48, 44),
        INT_INDEX_CHUNK => (16, 20, 8),
        TEXT_INDEX_CHUNK => (16, 56, 44),
        _ => (30, 4, 0),
    };
    ChunkForm {
        entries,
        entry_size,
        pointer_at,
    }
}

// ---- sizes

/// The size of a cell of a code, in bytes. The code is that of a type of the schema, or one of the seven of
/// chunks and descriptors, 240 to 246. It takes no memory.
pub fn code_size(schema: &Schema, code: u8) -> u16
    requires lawful { IsLawful schema.now }
    requires there { HasCode schema.now code }
    ensures { result ≡ code_size schema.now code }
{
    if code < SET_CHUNK {
        members_size(schema.members_of(TypeNo(code)))
    } else if code == INDEX_DESCRIPTOR {
        DESCRIPTOR_BYTES
    } else {
        let form = chunk_form(code);
        ENTRIES_IN_CHUNK + form.entries * form.entry_size
    }
}

// ---- the next pointer

/// The least of the pointers' places that is at least `from`, and None exactly where there is none. It
/// takes no memory.
pub fn next_pointer(schema: &Schema, code: u8, from: u16) -> Option<u16>
    requires lawful { IsLawful schema.now }
    requires there { HasCode schema.now code }
    ensures { result ≡ pointer_from schema.now code from }
{
    if code < SET_CHUNK {
        next_in_type(schema.members_of(TypeNo(code)), from)
    } else if code == INDEX_DESCRIPTOR {
        next_of_two(0, FIRST_CHUNK_AT, from)
    } else {
        next_in_chunk(code, from)
    }
}

/// The next pointer of a type's cell.
fn next_in_type(members: &[MemberDef], from: u16) -> Option<u16>
    requires { sizes members.now ≤ largest_cell }
    ensures { result ≡ find (λ place. nat_le from place) (type_pointers members.now) }
{
    let mut at = 0;
    for member in members {
        let next = next_in_member(at, member.kind, from);
        if next.is_some() {
            return next;
        }
        at += kind_size(member.kind);
    }
    None
}

/// The next pointer of a member that begins at a place.
fn next_in_member(at: u16, kind: MemberKind, from: u16) -> Option<u16>
    requires { at ≤ largest_cell }
    ensures { result ≡ find (λ place. nat_le from place) (pointers_of_kind at kind) }
{
    match kind {
        MemberKind::Int | MemberKind::Text { .. } => None,
        MemberKind::Set { .. } => next_of_two(at, at + SET_DESCRIPTOR_AT, from),
        MemberKind::Ref { .. }
        | MemberKind::List { .. }
        | MemberKind::DictInt { .. }
        | MemberKind::DictText { .. } => (from <= at).then_some(at),
    }
}

/// The next of two places.
fn next_of_two(first: u16, second: u16, from: u16) -> Option<u16>
    ensures { result ≡ find (λ place. nat_le from place) (first ∷ second ∷ []) }
{
    if from <= first {
        Some(first)
    } else if from <= second {
        Some(second)
    } else {
        None
    }
}

/// The next pointer of a chunk.
fn next_in_chunk(code: u8, from: u16) -> Option<u16>
    requires { code ≢ INDEX_DESCRIPTOR }
    ensures { result ≡ find (λ place. nat_le from place) (chunk_pointers code) }
{
    if from == 0 {
        return Some(0);
    }
    let form = chunk_form(code);
    let first = form.first();
    // The entries whose pointers stand before `from`.
    let passed = from.saturating_sub(first).div_ceil(form.entry_size);
    if passed < form.entries {
        Some(first + form.entry_size * passed)
    } else {
        None
    }
}

// ---- all pointers

/// Where the pointers of a cell of a code are, ascending, in bytes from the cell's start. The code is that of a type
/// of the schema, or one of the seven of chunks and descriptors, 240 to 246.
pub fn pointer_places(alloc: Global, schema: &Schema, code: u8) -> Result<Vec<u16>, OutOfMemory>
    requires lawful { IsLawful schema.now }
    requires there { HasCode schema.now code }
    ensures exact { IfOk result (λ places. places.items ≡ pointers_of schema.now code) }
    ensures ascending { IfOk result (λ places. IsStrictlyIncreasing places.items) }
    ensures within { IfOk result (λ places. AreInCell schema.now code places.items) }
{
    let mut places = Vec::new(alloc);
    if code < SET_CHUNK {
        push_type_pointers(&mut places, schema.members_of(TypeNo(code)))?;
    } else if code == INDEX_DESCRIPTOR {
        places.push(0)?;
        places.push(FIRST_CHUNK_AT)?;
    } else {
        places.push(0)?;
        push_entry_pointers(&mut places, code)?;
    }
    Ok(places)
}

/// Adds the pointers of a type's cell.
fn push_type_pointers(places: &mut Vec<u16>, members: &[MemberDef]) -> Result<(), OutOfMemory>
    requires { sizes members.now ≤ largest_cell }
    ensures { OnOk result (places.new.items ≡ places.old.items ++ type_pointers members.now) }
{
    let mut at = 0;
    for member in members {
        push_member_pointers(places, at, member.kind)?;
        at += kind_size(member.kind);
    }
    Ok(())
}

/// Adds the pointers of a member that begins at a place.
fn push_member_pointers(places: &mut Vec<u16>, at: u16, kind: MemberKind) -> Result<(), OutOfMemory>
    requires { at ≤ largest_cell }
    ensures { OnOk result (places.new.items ≡ places.old.items ++ pointers_of_kind at kind) }
{
    match kind {
        MemberKind::Int | MemberKind::Text { .. } => {}
        MemberKind::Set { .. } => {
            places.push(at)?;
            places.push(at + SET_DESCRIPTOR_AT)?;
        }
        MemberKind::Ref { .. }
        | MemberKind::List { .. }
        | MemberKind::DictInt { .. }
        | MemberKind::DictText { .. } => places.push(at)?,
    }
    Ok(())
}

/// Adds the pointers of a chunk's entries.
fn push_entry_pointers(places: &mut Vec<u16>, code: u8) -> Result<(), OutOfMemory>
    ensures { OnOk result (places.new.items ≡ places.old.items ++ entry_pointers (chunk_of code)) }
{
    let form = chunk_form(code);
    let first = form.first();
    for i in 0..form.entries {
        places.push(first + form.entry_size * i)?;
    }
    Ok(())
}
