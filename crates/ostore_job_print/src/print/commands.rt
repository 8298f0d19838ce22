//! The lines of commands.

ghost use Rattle.std.specs.Prelude.{◌≡◌, [], ◌∷◌, ◌++◌, codes, decimal, OnOk};
ghost use Rattle.ostore_text_words.specs.Lines.{joined};
ghost use Rattle.ostore_command_text.specs.CommandWords.{variable, place, name_word, path_word, operand_word, key_word, op_word, item_word, command_words};

use super::words::{
    push_count, push_item, push_key, push_name, push_op, push_operand, push_path, push_place,
    push_variable, push_word,
};
use ostore_base::{OutOfMemory, Text};
use ostore_graph_model::{Command, Idents, Key, Name, Op, Operand};

/// Adds `new $to TYPE SEGMENT`.
fn push_new(out: &mut Text, to: &Text, ty: &Text, segment: u8) -> Result<(), OutOfMemory>
    ensures { OnOk result
        (out.new ≡ out.old ++ joined
        (codes "new" ∷ variable to.now ∷ ty.now ∷ decimal segment ∷ [])) }
{
    out.push_bytes(b"new")?;
    push_variable(out, to)?;
    push_word(out, ty.bytes())?;
    push_count(out, u64::from(segment))?;
    out.push_bytes(b"\n")
}

/// Adds `find $to SEGMENT.SERIAL`.
fn push_find(out: &mut Text, to: &Text, name: Name) -> Result<(), OutOfMemory>
    ensures { OnOk result
        (out.new ≡ out.old ++ joined (codes "find" ∷ variable to.now ∷ name_word name ∷ [])) }
{
    out.push_bytes(b"find")?;
    push_variable(out, to)?;
    push_name(out, name)?;
    out.push_bytes(b"\n")
}

/// Adds `root $to ROOT`.
fn push_root(out: &mut Text, to: &Text, root: &Text) -> Result<(), OutOfMemory>
    ensures { OnOk result
        (out.new ≡ out.old ++ joined (codes "root" ∷ variable to.now ∷ root.now ∷ [])) }
{
    out.push_bytes(b"root")?;
    push_variable(out, to)?;
    push_word(out, root.bytes())?;
    out.push_bytes(b"\n")
}

/// Adds `setroot ROOT $item`, or `setroot ROOT null`.
fn push_set_root(out: &mut Text, root: &Text, item: &Option<Text>) -> Result<(), OutOfMemory>
    ensures { OnOk result
        (out.new ≡ out.old ++ joined (codes "setroot" ∷ root.now ∷ item_word item.now ∷ [])) }
{
    out.push_bytes(b"setroot")?;
    push_word(out, root.bytes())?;
    push_item(out, item)?;
    out.push_bytes(b"\n")
}

/// Adds `VERB $object.member`.
fn push_at_place(
    out: &mut Text,
    verb: &[u8],
    object: &Text,
    member: &Text,
) -> Result<(), OutOfMemory>
    ensures { OnOk result
        (out.new ≡ out.old ++ joined (verb.now ∷ place object.now member.now ∷ [])) }
{
    out.push_bytes(verb)?;
    push_place(out, object, member)?;
    out.push_bytes(b"\n")
}

/// Adds `set $object.member VALUE`.
fn push_set(
    out: &mut Text,
    object: &Text,
    member: &Text,
    value: &Operand,
) -> Result<(), OutOfMemory>
    ensures { OnOk result
        (out.new ≡ out.old ++ joined
        (codes "set" ∷ place object.now member.now ∷ operand_word value.now ∷ [])) }
{
    out.push_bytes(b"set")?;
    push_place(out, object, member)?;
    push_operand(out, value)?;
    out.push_bytes(b"\n")
}

/// Adds `follow $to $object.member`.
fn push_follow(out: &mut Text, to: &Text, object: &Text, member: &Text) -> Result<(), OutOfMemory>
    ensures { OnOk result
        (out.new ≡ out.old ++ joined
        (codes "follow" ∷ variable to.now ∷ place object.now member.now ∷ [])) }
{
    out.push_bytes(b"follow")?;
    push_variable(out, to)?;
    push_place(out, object, member)?;
    out.push_bytes(b"\n")
}

/// Adds `delete $object`.
fn push_delete(out: &mut Text, object: &Text) -> Result<(), OutOfMemory>
    ensures { OnOk result
        (out.new ≡ out.old ++ joined (codes "delete" ∷ variable object.now ∷ [])) }
{
    out.push_bytes(b"delete")?;
    push_variable(out, object)?;
    out.push_bytes(b"\n")
}

/// Adds `VERB $object.member $item`.
fn push_with_item(
    out: &mut Text,
    verb: &[u8],
    object: &Text,
    member: &Text,
    item: &Text,
) -> Result<(), OutOfMemory>
    ensures { OnOk result
        (out.new ≡ out.old ++ joined
        (verb.now ∷ place object.now member.now ∷ variable item.now ∷ [])) }
{
    out.push_bytes(verb)?;
    push_place(out, object, member)?;
    push_variable(out, item)?;
    out.push_bytes(b"\n")
}

/// Adds `put $object.member INDEX $item`.
fn push_put(
    out: &mut Text,
    object: &Text,
    member: &Text,
    index: u32,
    item: &Text,
) -> Result<(), OutOfMemory>
    ensures { OnOk result
        (out.new ≡ out.old ++ joined
        (codes "put" ∷ place object.now member.now ∷ decimal index ∷ variable item.now ∷ [])) }
{
    out.push_bytes(b"put")?;
    push_place(out, object, member)?;
    push_count(out, u64::from(index))?;
    push_variable(out, item)?;
    out.push_bytes(b"\n")
}

/// Adds `at $to $object.member INDEX`.
fn push_at(
    out: &mut Text,
    to: &Text,
    object: &Text,
    member: &Text,
    index: u32,
) -> Result<(), OutOfMemory>
    ensures { OnOk result
        (out.new ≡ out.old ++ joined
        (codes "at" ∷ variable to.now ∷ place object.now member.now ∷ decimal index ∷ [])) }
{
    out.push_bytes(b"at")?;
    push_variable(out, to)?;
    push_place(out, object, member)?;
    push_count(out, u64::from(index))?;
    out.push_bytes(b"\n")
}

/// Adds `bind $object.member KEY $item`.
fn push_bind(
    out: &mut Text,
    object: &Text,
    member: &Text,
    key: &Key,
    item: &Text,
) -> Result<(), OutOfMemory>
    ensures { OnOk result
        (out.new ≡ out.old ++ joined
        (codes "bind" ∷ place object.now member.now ∷ key_word key.now ∷ variable item.now ∷ [])) }
{
    out.push_bytes(b"bind")?;
    push_place(out, object, member)?;
    push_key(out, key)?;
    push_variable(out, item)?;
    out.push_bytes(b"\n")
}

/// Adds `look $to $object.member KEY`.
fn push_look(
    out: &mut Text,
    to: &Text,
    object: &Text,
    member: &Text,
    key: &Key,
) -> Result<(), OutOfMemory>
    ensures { OnOk result
        (out.new ≡ out.old ++ joined
        (codes "look" ∷ variable to.now ∷ place object.now member.now ∷ key_word key.now ∷ [])) }
{
    out.push_bytes(b"look")?;
    push_variable(out, to)?;
    push_place(out, object, member)?;
    push_key(out, key)?;
    out.push_bytes(b"\n")
}

/// Adds `unbind $object.member KEY`.
fn push_unbind(out: &mut Text, object: &Text, member: &Text, key: &Key) -> Result<(), OutOfMemory>
    ensures { OnOk result
        (out.new ≡ out.old ++ joined
        (codes "unbind" ∷ place object.now member.now ∷ key_word key.now ∷ [])) }
{
    out.push_bytes(b"unbind")?;
    push_place(out, object, member)?;
    push_key(out, key)?;
    out.push_bytes(b"\n")
}

/// Adds `VERB $object.member PATH`.
fn push_with_path(
    out: &mut Text,
    verb: &[u8],
    object: &Text,
    member: &Text,
    path: &Idents,
) -> Result<(), OutOfMemory>
    ensures { OnOk result
        (out.new ≡ out.old ++ joined
        (verb.now ∷ place object.now member.now ∷ path_word path.now ∷ [])) }
{
    out.push_bytes(verb)?;
    push_place(out, object, member)?;
    push_path(out, path.items())?;
    out.push_bytes(b"\n")
}

/// Adds `query $object.member PATH OP KEY`.
fn push_query(
    out: &mut Text,
    object: &Text,
    member: &Text,
    path: &Idents,
    op: Op,
    key: &Key,
) -> Result<(), OutOfMemory>
    ensures { OnOk result
        (out.new ≡ out.old ++ joined
        (codes "query" ∷ place object.now member.now ∷ path_word path.now ∷ op_word op
        ∷ key_word key.now ∷ [])) }
{
    out.push_bytes(b"query")?;
    push_place(out, object, member)?;
    push_path(out, path.items())?;
    push_op(out, op)?;
    push_key(out, key)?;
    out.push_bytes(b"\n")
}

/// Adds the line of a command.
pub(super) fn push_command(out: &mut Text, command: &Command) -> Result<(), OutOfMemory>
    ensures { OnOk result (out.new ≡ out.old ++ joined (command_words command.now)) }
{
    match command {
        Command::New { to, ty, segment } => push_new(out, to, ty, *segment),
        Command::Find { to, name } => push_find(out, to, *name),
        Command::Root { to, root } => push_root(out, to, root),
        Command::SetRoot { root, item } => push_set_root(out, root, item),
        Command::Get { object, member } => push_at_place(out, b"get", object, member),
        Command::Set {
            object,
            member,
            value,
        } => push_set(out, object, member, value),
        Command::Follow { to, object, member } => push_follow(out, to, object, member),
        Command::Delete { object } => push_delete(out, object),
        Command::Insert {
            object,
            member,
            item,
        } => push_with_item(out, b"insert", object, member, item),
        Command::Remove {
            object,
            member,
            item,
        } => push_with_item(out, b"remove", object, member, item),
        Command::Members { object, member } => push_at_place(out, b"members", object, member),
        Command::Size { object, member } => push_at_place(out, b"size", object, member),
        Command::Append {
            object,
            member,
            item,
        } => push_with_item(out, b"append", object, member, item),
        Command::Put {
            object,
            member,
            index,
            item,
        } => push_put(out, object, member, *index, item),
        Command::At {
            to,
            object,
            member,
            index,
        } => push_at(out, to, object, member, *index),
        Command::Bind {
            object,
            member,
            key,
            item,
        } => push_bind(out, object, member, key, item),
        Command::Look {
            to,
            object,
            member,
            key,
        } => push_look(out, to, object, member, key),
        Command::Unbind {
            object,
            member,
            key,
        } => push_unbind(out, object, member, key),
        Command::Index {
            object,
            member,
            path,
        } => push_with_path(out, b"index", object, member, path),
        Command::Unindex {
            object,
            member,
            path,
        } => push_with_path(out, b"unindex", object, member, path),
        Command::Query {
            object,
            member,
            path,
            op,
            key,
        } => push_query(out, object, member, path, *op, key),
    }
}
