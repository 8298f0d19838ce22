//! Which schemas and commands run.

ghost use Rattle.std.specs.Prelude.{◌↔◌, IsTrue};
ghost use Rattle.std.specs.List.{AllByRecursion};
ghost use Rattle.ostore_object_ops.specs.Suits.{AreInts, IsOfInts, IsBuilt};

use ostore_graph_model::{Command, Operand};
use ostore_schema_layout::{MemberDef, MemberKind, Schema, TypeDef};

/// Whether all members are ints.
fn are_ints(members: &[MemberDef]) -> bool
    ensures { IsTrue result ↔ AreInts members.now }
{
    for member in members {
        match member.kind {
            MemberKind::Int => {}
            _ => return false,
        }
    }
    true
}

/// Whether all members of all types are.
fn types_are_ints(types: &[TypeDef]) -> bool
    ensures { IsTrue result ↔ AllByRecursion (λ ty. AreInts ty.members) types.now }
{
    for ty in types {
        if !are_ints(ty.members.items()) {
            return false;
        }
    }
    true
}

/// Whether every member of every type is an int, so that the commands of the schema's transactions run.
pub fn is_of_ints(schema: &Schema) -> bool
    ensures { IsTrue result ↔ IsOfInts schema.now }
{
    types_are_ints(schema.types.items())
}

/// Whether a command is one of those that run: `new` in one of the segments, `get`, and `set` to an int.
pub fn is_built(command: &Command) -> bool
    ensures { IsTrue result ↔ IsBuilt command.now }
{
    match command {
        Command::New { segment, .. } => *segment != 0,
        Command::Get { .. } => true,
        Command::Set { value, .. } => match value {
            Operand::Int(_) => true,
            _ => false,
        },
        _ => false,
    }
}

/// Whether all commands are.
pub fn are_built(commands: &[Command]) -> bool
    ensures { IsTrue result ↔ AllByRecursion IsBuilt commands.now }
{
    for command in commands {
        if !is_built(command) {
            return false;
        }
    }
    true
}
