//! Copies of commands and transactions.

ghost use Rattle.std.specs.Prelude.{◌≡◌, IfOk};

use crate::commands::{Command, Idents, Key, Op, Operand, Txn};
use crate::values::Name;
use ostore_base::{Copied, OutOfMemory, Text};

impl Copied for Operand {
    fn copy(&self) -> Result<Operand, OutOfMemory> {
        match self {
            Operand::Int(value) => Ok(Operand::Int(*value)),
            Operand::Text(text) => Ok(Operand::Text(text.copy()?)),
            Operand::Var(name) => Ok(Operand::Var(name.copy()?)),
            Operand::Null => Ok(Operand::Null),
        }
    }
}

impl Copied for Key {
    fn copy(&self) -> Result<Key, OutOfMemory> {
        match self {
            Key::Int(value) => Ok(Key::Int(*value)),
            Key::Text(text) => Ok(Key::Text(text.copy()?)),
        }
    }
}

/// An equal item of `setroot`, or none.
fn copied_item(item: &Option<Text>) -> Result<Option<Text>, OutOfMemory>
    ensures { IfOk result (λ copy. copy ≡ item.now) }
{
    match item {
        Some(item) => Ok(Some(item.copy()?)),
        None => Ok(None),
    }
}

fn copied_new(to: &Text, ty: &Text, segment: u8) -> Result<Command, OutOfMemory>
    ensures { IfOk result (λ copy. copy ≡ Command.New to.now ty.now segment) }
{
    Ok(Command::New {
        to: to.copy()?,
        ty: ty.copy()?,
        segment,
    })
}

fn copied_find(to: &Text, name: Name) -> Result<Command, OutOfMemory>
    ensures { IfOk result (λ copy. copy ≡ Command.Find to.now name) }
{
    Ok(Command::Find {
        to: to.copy()?,
        name,
    })
}

fn copied_root(to: &Text, root: &Text) -> Result<Command, OutOfMemory>
    ensures { IfOk result (λ copy. copy ≡ Command.Root to.now root.now) }
{
    Ok(Command::Root {
        to: to.copy()?,
        root: root.copy()?,
    })
}

fn copied_set_root(root: &Text, item: &Option<Text>) -> Result<Command, OutOfMemory>
    ensures { IfOk result (λ copy. copy ≡ Command.SetRoot root.now item.now) }
{
    Ok(Command::SetRoot {
        root: root.copy()?,
        item: copied_item(item)?,
    })
}

fn copied_get(object: &Text, member: &Text) -> Result<Command, OutOfMemory>
    ensures { IfOk result (λ copy. copy ≡ Command.Get object.now member.now) }
{
    Ok(Command::Get {
        object: object.copy()?,
        member: member.copy()?,
    })
}

fn copied_set(object: &Text, member: &Text, value: &Operand) -> Result<Command, OutOfMemory>
    ensures { IfOk result (λ copy. copy ≡ Command.Set object.now member.now value.now) }
{
    Ok(Command::Set {
        object: object.copy()?,
        member: member.copy()?,
        value: value.copy()?,
    })
}

fn copied_follow(to: &Text, object: &Text, member: &Text) -> Result<Command, OutOfMemory>
    ensures { IfOk result (λ copy. copy ≡ Command.Follow to.now object.now member.now) }
{
    Ok(Command::Follow {
        to: to.copy()?,
        object: object.copy()?,
        member: member.copy()?,
    })
}

fn copied_delete(object: &Text) -> Result<Command, OutOfMemory>
    ensures { IfOk result (λ copy. copy ≡ Command.Delete object.now) }
{
    Ok(Command::Delete {
        object: object.copy()?,
    })
}

fn copied_insert(object: &Text, member: &Text, item: &Text) -> Result<Command, OutOfMemory>
    ensures { IfOk result (λ copy. copy ≡ Command.Insert object.now member.now item.now) }
{
    Ok(Command::Insert {
        object: object.copy()?,
        member: member.copy()?,
        item: item.copy()?,
    })
}

fn copied_remove(object: &Text, member: &Text, item: &Text) -> Result<Command, OutOfMemory>
    ensures { IfOk result (λ copy. copy ≡ Command.Remove object.now member.now item.now) }
{
    Ok(Command::Remove {
        object: object.copy()?,
        member: member.copy()?,
        item: item.copy()?,
    })
}

fn copied_members(object: &Text, member: &Text) -> Result<Command, OutOfMemory>
    ensures { IfOk result (λ copy. copy ≡ Command.Members object.now member.now) }
{
    Ok(Command::Members {
        object: object.copy()?,
        member: member.copy()?,
    })
}

fn copied_size(object: &Text, member: &Text) -> Result<Command, OutOfMemory>
    ensures { IfOk result (λ copy. copy ≡ Command.Size object.now member.now) }
{
    Ok(Command::Size {
        object: object.copy()?,
        member: member.copy()?,
    })
}

fn copied_append(object: &Text, member: &Text, item: &Text) -> Result<Command, OutOfMemory>
    ensures { IfOk result (λ copy. copy ≡ Command.Append object.now member.now item.now) }
{
    Ok(Command::Append {
        object: object.copy()?,
        member: member.copy()?,
        item: item.copy()?,
    })
}

fn copied_put(object: &Text, member: &Text, index: u32, item: &Text) -> Result<Command, OutOfMemory>
    ensures { IfOk result (λ copy. copy ≡ Command.Put object.now member.now index item.now) }
{
    Ok(Command::Put {
        object: object.copy()?,
        member: member.copy()?,
        index,
        item: item.copy()?,
    })
}

fn copied_at(to: &Text, object: &Text, member: &Text, index: u32) -> Result<Command, OutOfMemory>
    ensures { IfOk result (λ copy. copy ≡ Command.At to.now object.now member.now index) }
{
    Ok(Command::At {
        to: to.copy()?,
        object: object.copy()?,
        member: member.copy()?,
        index,
    })
}

fn copied_bind(object: &Text, member: &Text, key: &Key, item: &Text) -> Result<Command, OutOfMemory>
    ensures { IfOk result (λ copy. copy ≡ Command.Bind object.now member.now key.now item.now) }
{
    Ok(Command::Bind {
        object: object.copy()?,
        member: member.copy()?,
        key: key.copy()?,
        item: item.copy()?,
    })
}

fn copied_look(to: &Text, object: &Text, member: &Text, key: &Key) -> Result<Command, OutOfMemory>
    ensures { IfOk result (λ copy. copy ≡ Command.Look to.now object.now member.now key.now) }
{
    Ok(Command::Look {
        to: to.copy()?,
        object: object.copy()?,
        member: member.copy()?,
        key: key.copy()?,
    })
}

fn copied_unbind(object: &Text, member: &Text, key: &Key) -> Result<Command, OutOfMemory>
    ensures { IfOk result (λ copy. copy ≡ Command.Unbind object.now member.now key.now) }
{
    Ok(Command::Unbind {
        object: object.copy()?,
        member: member.copy()?,
        key: key.copy()?,
    })
}

fn copied_index(object: &Text, member: &Text, path: &Idents) -> Result<Command, OutOfMemory>
    ensures { IfOk result (λ copy. copy ≡ Command.Index object.now member.now path.now) }
{
    Ok(Command::Index {
        object: object.copy()?,
        member: member.copy()?,
        path: path.copy()?,
    })
}

fn copied_unindex(object: &Text, member: &Text, path: &Idents) -> Result<Command, OutOfMemory>
    ensures { IfOk result (λ copy. copy ≡ Command.Unindex object.now member.now path.now) }
{
    Ok(Command::Unindex {
        object: object.copy()?,
        member: member.copy()?,
        path: path.copy()?,
    })
}

fn copied_query(
    object: &Text,
    member: &Text,
    path: &Idents,
    op: Op,
    key: &Key,
) -> Result<Command, OutOfMemory>
    ensures { IfOk result (λ copy. copy ≡ Command.Query object.now member.now path.now op key.now) }
{
    Ok(Command::Query {
        object: object.copy()?,
        member: member.copy()?,
        path: path.copy()?,
        op,
        key: key.copy()?,
    })
}

impl Copied for Command {
    fn copy(&self) -> Result<Command, OutOfMemory> {
        match self {
            Command::New { to, ty, segment } => copied_new(to, ty, *segment),
            Command::Find { to, name } => copied_find(to, *name),
            Command::Root { to, root } => copied_root(to, root),
            Command::SetRoot { root, item } => copied_set_root(root, item),
            Command::Get { object, member } => copied_get(object, member),
            Command::Set {
                object,
                member,
                value,
            } => copied_set(object, member, value),
            Command::Follow { to, object, member } => copied_follow(to, object, member),
            Command::Delete { object } => copied_delete(object),
            Command::Insert {
                object,
                member,
                item,
            } => copied_insert(object, member, item),
            Command::Remove {
                object,
                member,
                item,
            } => copied_remove(object, member, item),
            Command::Members { object, member } => copied_members(object, member),
            Command::Size { object, member } => copied_size(object, member),
            Command::Append {
                object,
                member,
                item,
            } => copied_append(object, member, item),
            Command::Put {
                object,
                member,
                index,
                item,
            } => copied_put(object, member, *index, item),
            Command::At {
                to,
                object,
                member,
                index,
            } => copied_at(to, object, member, *index),
            Command::Bind {
                object,
                member,
                key,
                item,
            } => copied_bind(object, member, key, item),
            Command::Look {
                to,
                object,
                member,
                key,
            } => copied_look(to, object, member, key),
            Command::Unbind {
                object,
                member,
                key,
            } => copied_unbind(object, member, key),
            Command::Index {
                object,
                member,
                path,
            } => copied_index(object, member, path),
            Command::Unindex {
                object,
                member,
                path,
            } => copied_unindex(object, member, path),
            Command::Query {
                object,
                member,
                path,
                op,
                key,
            } => copied_query(object, member, path, *op, key),
        }
    }
}

impl Copied for Txn {
    fn copy(&self) -> Result<Txn, OutOfMemory> {
        Ok(Txn {
            update: self.update,
            commands: self.commands.copy()?,
            aborts: self.aborts,
        })
    }
}
