//! Words of a job, each behind a space.

ghost use Rattle.std.specs.Prelude.{◌≡◌, ◌∷◌, ◌++◌, decimal, codes, OnOk};
ghost use Rattle.std.specs.List.{flat_map};
ghost use Rattle.ostore_command_text.specs.CommandWords.{variable, place, name_word, path_word, operand_word, key_word, op_word, item_word};

use ostore_base::{OutOfMemory, Text};
use ostore_graph_model::{Key, Name, Op, Operand};
use ostore_text_words::{push_int, push_number, push_quoted};

/// Adds a word behind a space.
pub(super) fn push_word(out: &mut Text, word: &[u8]) -> Result<(), OutOfMemory>
    ensures { OnOk result (out.new ≡ out.old ++ 32 ∷ word.now) }
{
    out.push_bytes(b" ")?;
    out.push_bytes(word)
}

/// Adds `$name`.
pub(super) fn push_variable(out: &mut Text, name: &Text) -> Result<(), OutOfMemory>
    ensures { OnOk result (out.new ≡ out.old ++ 32 ∷ variable name.now) }
{
    out.push_bytes(b" $")?;
    out.push_bytes(name.bytes())
}

/// Adds `$object.member`.
pub(super) fn push_place(out: &mut Text, object: &Text, member: &Text) -> Result<(), OutOfMemory>
    ensures { OnOk result (out.new ≡ out.old ++ 32 ∷ place object.now member.now) }
{
    push_variable(out, object)?;
    out.push_bytes(b".")?;
    out.push_bytes(member.bytes())
}

/// Adds a number in decimal.
pub(super) fn push_count(out: &mut Text, count: u64) -> Result<(), OutOfMemory>
    ensures { OnOk result (out.new ≡ out.old ++ 32 ∷ decimal count) }
{
    out.push_bytes(b" ")?;
    push_number(out, count)
}

/// Adds the name of an object.
pub(super) fn push_name(out: &mut Text, name: Name) -> Result<(), OutOfMemory>
    ensures { OnOk result (out.new ≡ out.old ++ 32 ∷ name_word name) }
{
    push_count(out, u64::from(name.segment))?;
    out.push_bytes(b".")?;
    push_number(out, u64::from(name.serial))
}

/// Adds a further member of a path.
fn push_step(out: &mut Text, member: &Text) -> Result<(), OutOfMemory>
    ensures { OnOk result (out.new ≡ out.old ++ (codes "." ++ member.now)) }
{
    out.push_bytes(b".")?;
    out.push_bytes(member.bytes())
}

/// Adds the first member of a path.
fn push_first(out: &mut Text, member: &Text) -> Result<(), OutOfMemory>
    ensures { OnOk result (out.new ≡ out.old ++ member.now) }
{
    out.push_bytes(member.bytes())
}

/// Adds the members of a path, with `.` between them.
fn push_members(out: &mut Text, path: &[Text]) -> Result<(), OutOfMemory>
    ensures { OnOk result (out.new ≡ out.old ++ path_word path.now) }
{
    if path.is_empty() {
        return Ok(());
    }
    push_first(out, &path[0])?;
    for member in &path[1..] {
        push_step(out, member)?;
    }
    Ok(())
}

/// Adds a path.
pub(super) fn push_path(out: &mut Text, path: &[Text]) -> Result<(), OutOfMemory>
    ensures { OnOk result (out.new ≡ out.old ++ 32 ∷ path_word path.now) }
{
    out.push_bytes(b" ")?;
    push_members(out, path)
}

/// Adds a value that a member is set to.
pub(super) fn push_operand(out: &mut Text, value: &Operand) -> Result<(), OutOfMemory>
    ensures { OnOk result (out.new ≡ out.old ++ 32 ∷ operand_word value.now) }
{
    out.push_bytes(b" ")?;
    match value {
        Operand::Int(value) => push_int(out, *value),
        Operand::Text(text) => push_quoted(out, text.bytes()),
        Operand::Var(name) => push_dollar(out, name),
        Operand::Null => out.push_bytes(b"null"),
    }
}

/// Adds a variable, without a space before it.
fn push_dollar(out: &mut Text, name: &Text) -> Result<(), OutOfMemory>
    ensures { OnOk result (out.new ≡ out.old ++ variable name.now) }
{
    out.push_bytes(b"$")?;
    out.push_bytes(name.bytes())
}

/// Adds a key.
pub(super) fn push_key(out: &mut Text, key: &Key) -> Result<(), OutOfMemory>
    ensures { OnOk result (out.new ≡ out.old ++ 32 ∷ key_word key.now) }
{
    out.push_bytes(b" ")?;
    match key {
        Key::Int(value) => push_int(out, *value),
        Key::Text(text) => push_quoted(out, text.bytes()),
    }
}

/// Adds how a query compares.
pub(super) fn push_op(out: &mut Text, op: Op) -> Result<(), OutOfMemory>
    ensures { OnOk result (out.new ≡ out.old ++ 32 ∷ op_word op) }
{
    match op {
        Op::Equal => push_word(out, b"="),
        Op::Less => push_word(out, b"<"),
        Op::LessEqual => push_word(out, b"<="),
        Op::Greater => push_word(out, b">"),
        Op::GreaterEqual => push_word(out, b">="),
    }
}

/// Adds what a root is set to.
pub(super) fn push_item(out: &mut Text, item: &Option<Text>) -> Result<(), OutOfMemory>
    ensures { OnOk result (out.new ≡ out.old ++ 32 ∷ item_word item.now) }
{
    match item {
        Some(name) => push_variable(out, name),
        None => push_word(out, b"null"),
    }
}
