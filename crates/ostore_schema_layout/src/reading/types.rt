//! The types that lines declare, with their members.

ghost use Rattle.std.specs.Prelude.{◌≡◌, IsTrue};
ghost use Rattle.ostore_text_words.specs.Gives.{GivesSame, GivesTaken};
ghost use Rattle.ostore_text_words.specs.Lines.{has_line};
ghost use Rattle.ostore_text_words.specs.Seen.{seen_line};
ghost use Rattle.ostore_schema_layout.specs.DeclaredBy.{is_type_line, member_at, type_name_at, declared_by};
ghost use Rattle.ostore_schema_layout.specs.inside.Gives.{has_member, GivesMembers, GivesType};

use crate::declarations::{
    MemberDeclaration, MemberDeclarations, NameAt, TypeDeclaration, TypeDeclarations,
};
use crate::reading::members::member;
use crate::reading::words::name;
use ostore_base::ListOf;
use ostore_text_words::{Line, LineReader, TextFault};
use std::alloc::Global;

/// Whether the line is a type's.
fn is_type_line(line: &Line) -> bool
    ensures { result ≡ is_type_line (seen_line line.now) }
{
    match line.words.items().first() {
        Some(first) => first.bytes == b"type".as_slice(),
        None => false,
    }
}

/// Whether the next line is a member's.
fn has_member(lines: &LineReader) -> bool
    ensures { result ≡ has_member lines.now.lines }
{
    match lines.next_line() {
        Some(line) => !is_type_line(line),
        None => false,
    }
}

/// The name of a line `type NAME`.
#[tactic(auto, unfolding(crate::specs::DeclaredBy::type_name_at))]
fn type_name(alloc: Global, line: &Line) -> Result<NameAt, TextFault>
    ensures { GivesSame result (type_name_at (seen_line line.now)) }
{
    line.keyword(b"type", 0)?;
    let name = name(alloc, line, 1)?;
    line.ended(2)?;
    Ok(name)
}

/// Takes a line `type NAME`.
fn take_type_name(alloc: Global, lines: &mut LineReader) -> Result<NameAt, TextFault>
    ensures { GivesTaken type_name_at lines.old lines.new result }
{
    let name = type_name(alloc, lines.line()?)?;
    lines.advance()?;
    Ok(name)
}

/// Takes a member's line.
fn take_member(alloc: Global, lines: &mut LineReader) -> Result<MemberDeclaration, TextFault>
    ensures { GivesTaken member_at lines.old lines.new result }
{
    let member = member(alloc, lines.line()?)?;
    lines.advance()?;
    Ok(member)
}

/// The members up to the next type's line.
fn read_members(alloc: Global, lines: &mut LineReader) -> Result<MemberDeclarations, TextFault>
    ensures { GivesMembers lines.old lines.new result }
{
    let mut members = ListOf::new(alloc);
    while has_member(lines) {
        let member = take_member(alloc, lines)?;
        members.push(member)?;
    }
    Ok(members)
}

/// The type at the front of the lines.
fn read_type(alloc: Global, lines: &mut LineReader) -> Result<TypeDeclaration, TextFault>
    requires { IsTrue (has_line lines.old.lines) }
    ensures { GivesType lines.old lines.new result }
{
    let name = take_type_name(alloc, lines)?;
    let members = read_members(alloc, lines)?;
    Ok(TypeDeclaration { name, members })
}

/// The types that the lines declare, to their end. The first line is a type's.
pub(super) fn read_types(
    alloc: Global,
    lines: &mut LineReader,
) -> Result<TypeDeclarations, TextFault>
    ensures { GivesSame result (declared_by lines.old.lines) }
{
    let mut types = ListOf::new(alloc);
    while lines.has_line() {
        let ty = read_type(alloc, lines)?;
        types.push(ty)?;
    }
    Ok(types)
}
