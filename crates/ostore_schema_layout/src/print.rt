//! The canonical text of a schema.

ghost use Rattle.std.specs.Prelude.{◌≡◌, ◌≤◌, [], ◌∷◌, ◌++◌, decimal, length, map, IfOk, OnOk};
ghost use Rattle.std.specs.List.{flat_map};
ghost use Rattle.ostore_text_words.specs.Lines.{joined, text_of_lines};
ghost use Rattle.ostore_schema_layout.specs.Lawful.{IsLawful};
ghost use Rattle.ostore_schema_layout.specs.inside.Spaced.{members_text, spaced, types_text};
ghost use Rattle.ostore_schema_layout.specs.Spells.{SpellsIfShort, canonical_text, inverse_words, kind_words, member_words, type_lines};
ghost use Rattle.ostore_schema_layout.specs.Limits.{longest_schema};

use crate::schema::{Inverse, MemberDef, MemberKind, Schema, TypeDef};
use itoa::Buffer;
use ostore_base::{OutOfMemory, Text};
use std::alloc::Global;

/// The canonical text of a schema: one space between words, no comments, and a newline after each line.
/// Reading it gives the schema again, where that is one that reading gives and the text has at most 32,764
/// bytes.
pub fn print_schema(alloc: Global, schema: &Schema) -> Result<Text, OutOfMemory>
    ensures exact { IfOk result (λ text. text ≡ canonical_text schema.now) }
    ensures spells { IfOk result (λ text. SpellsIfShort text schema.now) }
{
    let mut out = Text::new(alloc);
    push_types(&mut out, schema, schema.types.items())?;
    Ok(out)
}

/// Adds the lines of types of the schema.
fn push_types(out: &mut Text, schema: &Schema, types: &[TypeDef]) -> Result<(), OutOfMemory>
    ensures { OnOk result (out.new ≡ out.old ++ types_text schema.now types.now) }
{
    for ty in types {
        push_type(out, schema, ty)?;
    }
    Ok(())
}

/// Adds the lines of a type of the schema.
fn push_type(out: &mut Text, schema: &Schema, ty: &TypeDef) -> Result<(), OutOfMemory>
    ensures { OnOk result (out.new ≡ out.old ++ text_of_lines (type_lines schema.now ty.now)) }
{
    out.push_bytes(b"type")?;
    push_word(out, ty.name.bytes())?;
    out.push_bytes(b"\n")?;
    push_members(out, schema, ty.members.items())
}

/// Adds the lines of members.
fn push_members(out: &mut Text, schema: &Schema, members: &[MemberDef]) -> Result<(), OutOfMemory>
    ensures { OnOk result (out.new ≡ out.old ++ members_text schema.now members.now) }
{
    for member in members {
        push_member(out, schema, member)?;
    }
    Ok(())
}

/// Adds the line of a member.
fn push_member(out: &mut Text, schema: &Schema, member: &MemberDef) -> Result<(), OutOfMemory>
    ensures { OnOk result (out.new ≡ out.old ++ joined (member_words schema.now member.now)) }
{
    out.push_bytes(member.name.bytes())?;
    push_kind(out, schema, member.kind)?;
    push_inverse(out, schema, member.inverse)?;
    out.push_bytes(b"\n")
}

/// Adds the words of what a member holds.
fn push_kind(out: &mut Text, schema: &Schema, kind: MemberKind) -> Result<(), OutOfMemory>
    ensures { OnOk result (out.new ≡ out.old ++ spaced (kind_words schema.now kind)) }
{
    match kind {
        MemberKind::Int => push_word(out, b"int"),
        MemberKind::Text { max } => {
            push_word(out, b"text")?;
            push_number(out, max)
        }
        MemberKind::Ref { target } => push_pair(out, b"ref", schema.type_name(target)),
        MemberKind::Set { target } => push_pair(out, b"set", schema.type_name(target)),
        MemberKind::List { target } => push_pair(out, b"list", schema.type_name(target)),
        MemberKind::DictInt { target } => {
            push_word(out, b"dict")?;
            push_pair(out, b"int", schema.type_name(target))
        }
        MemberKind::DictText { target } => {
            push_word(out, b"dict")?;
            push_pair(out, b"text", schema.type_name(target))
        }
    }
}

/// Adds the words of an inverse, where there is one.
fn push_inverse(
    out: &mut Text,
    schema: &Schema,
    inverse: Option<Inverse>,
) -> Result<(), OutOfMemory>
    ensures { OnOk result (out.new ≡ out.old ++ spaced (inverse_words schema.now inverse)) }
{
    if let Some(inverse) = inverse {
        push_word(out, b"inverse")?;
        push_word(out, schema.type_name(inverse.ty))?;
        out.push_bytes(b".")?;
        out.push_bytes(schema.member_name(inverse.ty, inverse.member))?;
    }
    Ok(())
}

/// Adds two words, each behind a space.
fn push_pair(out: &mut Text, first: &[u8], second: &[u8]) -> Result<(), OutOfMemory>
    ensures { OnOk result (out.new ≡ out.old ++ spaced (first.now ∷ second.now ∷ [])) }
{
    push_word(out, first)?;
    push_word(out, second)
}

/// Adds a word behind a space.
fn push_word(out: &mut Text, word: &[u8]) -> Result<(), OutOfMemory>
    ensures { OnOk result (out.new ≡ out.old ++ 32 ∷ word.now) }
{
    out.push_bytes(b" ")?;
    out.push_bytes(word)
}

/// Adds a number in decimal behind a space.
fn push_number(out: &mut Text, number: u8) -> Result<(), OutOfMemory>
    ensures { OnOk result (out.new ≡ out.old ++ 32 ∷ decimal number) }
{
    let mut buffer = Buffer::new();
    push_word(out, buffer.format(number).as_bytes())
}
