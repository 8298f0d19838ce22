//! Commands, read from the words of a line.

ghost use Rattle.ostore_text_words.specs.Gives.{GivesSame};
ghost use Rattle.ostore_text_words.specs.Seen.{seen_line};
ghost use Rattle.ostore_command_text.specs.CommandsSaid.{new_at, find_at, root_at, set_root_at, get_at, set_at, follow_at, delete_at, insert_at, remove_at, members_at, size_at, append_at, put_at, at_at, bind_at, look_at, unbind_at, index_at, unindex_at, query_at, collection_command_at, member_command_at, command_by};

use crate::words::{index, item, key, op, operand, path, place, segment, variable};
use ostore_base::Text;
use ostore_graph_model::{Command, Name};
use ostore_text_words::{Line, TextFault, Word};
use std::alloc::Global;

/// `new $to TYPE SEGMENT`.
#[tactic(auto, unfolding(crate::specs::CommandsSaid::new_at))]
fn read_new(alloc: Global, line: &Line) -> Result<Command, TextFault>
    ensures { GivesSame result (new_at (seen_line line.now)) }
{
    let to = variable(alloc, line, 1)?;
    let ty = line.identifier(2)?;
    let segment = segment(line, 3)?;
    line.ended(4)?;
    Ok(Command::New {
        to,
        ty: Text::from_bytes(alloc, ty.bytes)?,
        segment,
    })
}

/// `find $to SEGMENT.SERIAL`.
#[tactic(auto, unfolding(crate::specs::CommandsSaid::find_at))]
fn read_find(alloc: Global, line: &Line) -> Result<Command, TextFault>
    ensures { GivesSame result (find_at (seen_line line.now)) }
{
    let to = variable(alloc, line, 1)?;
    let (segment, serial) = line.name(2)?;
    line.ended(3)?;
    Ok(Command::Find {
        to,
        name: Name { segment, serial },
    })
}

/// `root $to ROOT`.
#[tactic(auto, unfolding(crate::specs::CommandsSaid::root_at))]
fn read_root(alloc: Global, line: &Line) -> Result<Command, TextFault>
    ensures { GivesSame result (root_at (seen_line line.now)) }
{
    let to = variable(alloc, line, 1)?;
    let root = line.identifier(2)?;
    line.ended(3)?;
    Ok(Command::Root {
        to,
        root: Text::from_bytes(alloc, root.bytes)?,
    })
}

/// `setroot ROOT $item`, or `setroot ROOT null`.
#[tactic(auto, unfolding(crate::specs::CommandsSaid::set_root_at))]
fn read_set_root(alloc: Global, line: &Line) -> Result<Command, TextFault>
    ensures { GivesSame result (set_root_at (seen_line line.now)) }
{
    let root = line.identifier(1)?;
    let item = item(alloc, line, 2)?;
    line.ended(3)?;
    Ok(Command::SetRoot {
        root: Text::from_bytes(alloc, root.bytes)?,
        item,
    })
}

/// `get $object.member`.
#[tactic(auto, unfolding(crate::specs::CommandsSaid::get_at))]
fn read_get(alloc: Global, line: &Line) -> Result<Command, TextFault>
    ensures { GivesSame result (get_at (seen_line line.now)) }
{
    let (object, member) = place(alloc, line, 1)?;
    line.ended(2)?;
    Ok(Command::Get { object, member })
}

/// `set $object.member VALUE`.
#[tactic(auto, unfolding(crate::specs::CommandsSaid::set_at))]
fn read_set(alloc: Global, line: &Line) -> Result<Command, TextFault>
    ensures { GivesSame result (set_at (seen_line line.now)) }
{
    let (object, member) = place(alloc, line, 1)?;
    let value = operand(alloc, line, 2)?;
    line.ended(3)?;
    Ok(Command::Set {
        object,
        member,
        value,
    })
}

/// `follow $to $object.member`.
#[tactic(auto, unfolding(crate::specs::CommandsSaid::follow_at))]
fn read_follow(alloc: Global, line: &Line) -> Result<Command, TextFault>
    ensures { GivesSame result (follow_at (seen_line line.now)) }
{
    let to = variable(alloc, line, 1)?;
    let (object, member) = place(alloc, line, 2)?;
    line.ended(3)?;
    Ok(Command::Follow { to, object, member })
}

/// `delete $object`.
#[tactic(auto, unfolding(crate::specs::CommandsSaid::delete_at))]
fn read_delete(alloc: Global, line: &Line) -> Result<Command, TextFault>
    ensures { GivesSame result (delete_at (seen_line line.now)) }
{
    let object = variable(alloc, line, 1)?;
    line.ended(2)?;
    Ok(Command::Delete { object })
}

/// `insert $object.member $item`.
#[tactic(auto, unfolding(crate::specs::CommandsSaid::insert_at))]
fn read_insert(alloc: Global, line: &Line) -> Result<Command, TextFault>
    ensures { GivesSame result (insert_at (seen_line line.now)) }
{
    let (object, member) = place(alloc, line, 1)?;
    let item = variable(alloc, line, 2)?;
    line.ended(3)?;
    Ok(Command::Insert {
        object,
        member,
        item,
    })
}

/// `remove $object.member $item`.
#[tactic(auto, unfolding(crate::specs::CommandsSaid::remove_at))]
fn read_remove(alloc: Global, line: &Line) -> Result<Command, TextFault>
    ensures { GivesSame result (remove_at (seen_line line.now)) }
{
    let (object, member) = place(alloc, line, 1)?;
    let item = variable(alloc, line, 2)?;
    line.ended(3)?;
    Ok(Command::Remove {
        object,
        member,
        item,
    })
}

/// `members $object.member`.
#[tactic(auto, unfolding(crate::specs::CommandsSaid::members_at))]
fn read_members(alloc: Global, line: &Line) -> Result<Command, TextFault>
    ensures { GivesSame result (members_at (seen_line line.now)) }
{
    let (object, member) = place(alloc, line, 1)?;
    line.ended(2)?;
    Ok(Command::Members { object, member })
}

/// `size $object.member`.
#[tactic(auto, unfolding(crate::specs::CommandsSaid::size_at))]
fn read_size(alloc: Global, line: &Line) -> Result<Command, TextFault>
    ensures { GivesSame result (size_at (seen_line line.now)) }
{
    let (object, member) = place(alloc, line, 1)?;
    line.ended(2)?;
    Ok(Command::Size { object, member })
}

/// `append $object.member $item`.
#[tactic(auto, unfolding(crate::specs::CommandsSaid::append_at))]
fn read_append(alloc: Global, line: &Line) -> Result<Command, TextFault>
    ensures { GivesSame result (append_at (seen_line line.now)) }
{
    let (object, member) = place(alloc, line, 1)?;
    let item = variable(alloc, line, 2)?;
    line.ended(3)?;
    Ok(Command::Append {
        object,
        member,
        item,
    })
}

/// `put $object.member INDEX $item`.
#[tactic(auto, unfolding(crate::specs::CommandsSaid::put_at))]
fn read_put(alloc: Global, line: &Line) -> Result<Command, TextFault>
    ensures { GivesSame result (put_at (seen_line line.now)) }
{
    let (object, member) = place(alloc, line, 1)?;
    let index = index(line, 2)?;
    let item = variable(alloc, line, 3)?;
    line.ended(4)?;
    Ok(Command::Put {
        object,
        member,
        index,
        item,
    })
}

/// `at $to $object.member INDEX`.
#[tactic(auto, unfolding(crate::specs::CommandsSaid::at_at))]
fn read_at(alloc: Global, line: &Line) -> Result<Command, TextFault>
    ensures { GivesSame result (at_at (seen_line line.now)) }
{
    let to = variable(alloc, line, 1)?;
    let (object, member) = place(alloc, line, 2)?;
    let index = index(line, 3)?;
    line.ended(4)?;
    Ok(Command::At {
        to,
        object,
        member,
        index,
    })
}

/// `bind $object.member KEY $item`.
#[tactic(auto, unfolding(crate::specs::CommandsSaid::bind_at))]
fn read_bind(alloc: Global, line: &Line) -> Result<Command, TextFault>
    ensures { GivesSame result (bind_at (seen_line line.now)) }
{
    let (object, member) = place(alloc, line, 1)?;
    let key = key(alloc, line, 2)?;
    let item = variable(alloc, line, 3)?;
    line.ended(4)?;
    Ok(Command::Bind {
        object,
        member,
        key,
        item,
    })
}

/// `look $to $object.member KEY`.
#[tactic(auto, unfolding(crate::specs::CommandsSaid::look_at))]
fn read_look(alloc: Global, line: &Line) -> Result<Command, TextFault>
    ensures { GivesSame result (look_at (seen_line line.now)) }
{
    let to = variable(alloc, line, 1)?;
    let (object, member) = place(alloc, line, 2)?;
    let key = key(alloc, line, 3)?;
    line.ended(4)?;
    Ok(Command::Look {
        to,
        object,
        member,
        key,
    })
}

/// `unbind $object.member KEY`.
#[tactic(auto, unfolding(crate::specs::CommandsSaid::unbind_at))]
fn read_unbind(alloc: Global, line: &Line) -> Result<Command, TextFault>
    ensures { GivesSame result (unbind_at (seen_line line.now)) }
{
    let (object, member) = place(alloc, line, 1)?;
    let key = key(alloc, line, 2)?;
    line.ended(3)?;
    Ok(Command::Unbind {
        object,
        member,
        key,
    })
}

/// `index $object.member PATH`.
#[tactic(auto, unfolding(crate::specs::CommandsSaid::index_at))]
fn read_index(alloc: Global, line: &Line) -> Result<Command, TextFault>
    ensures { GivesSame result (index_at (seen_line line.now)) }
{
    let (object, member) = place(alloc, line, 1)?;
    let path = path(alloc, line, 2)?;
    line.ended(3)?;
    Ok(Command::Index {
        object,
        member,
        path,
    })
}

/// `unindex $object.member PATH`.
#[tactic(auto, unfolding(crate::specs::CommandsSaid::unindex_at))]
fn read_unindex(alloc: Global, line: &Line) -> Result<Command, TextFault>
    ensures { GivesSame result (unindex_at (seen_line line.now)) }
{
    let (object, member) = place(alloc, line, 1)?;
    let path = path(alloc, line, 2)?;
    line.ended(3)?;
    Ok(Command::Unindex {
        object,
        member,
        path,
    })
}

/// `query $object.member PATH OP KEY`.
#[tactic(auto, unfolding(crate::specs::CommandsSaid::query_at))]
fn read_query(alloc: Global, line: &Line) -> Result<Command, TextFault>
    ensures { GivesSame result (query_at (seen_line line.now)) }
{
    let (object, member) = place(alloc, line, 1)?;
    let path = path(alloc, line, 2)?;
    let op = op(line, 3)?;
    let key = key(alloc, line, 4)?;
    line.ended(5)?;
    Ok(Command::Query {
        object,
        member,
        path,
        op,
        key,
    })
}

/// The command of a collection.
#[tactic(auto, unfolding(crate::specs::CommandsSaid::collection_command_at))]
fn read_collection_command(alloc: Global, line: &Line, verb: &Word) -> Result<Command, TextFault>
    ensures { GivesSame result
        (collection_command_at (seen_line line.now) verb.now.at verb.now.bytes.now) }
{
    if verb.bytes == b"at".as_slice() {
        return read_at(alloc, line);
    }
    if verb.bytes == b"bind".as_slice() {
        return read_bind(alloc, line);
    }
    if verb.bytes == b"look".as_slice() {
        return read_look(alloc, line);
    }
    if verb.bytes == b"unbind".as_slice() {
        return read_unbind(alloc, line);
    }
    if verb.bytes == b"index".as_slice() {
        return read_index(alloc, line);
    }
    if verb.bytes == b"unindex".as_slice() {
        return read_unindex(alloc, line);
    }
    if verb.bytes == b"query".as_slice() {
        return read_query(alloc, line);
    }
    Err(TextFault::Syntax { at: verb.at })
}

/// The command of a member, or of a collection.
#[tactic(auto, unfolding(crate::specs::CommandsSaid::member_command_at))]
fn read_member_command(alloc: Global, line: &Line, verb: &Word) -> Result<Command, TextFault>
    ensures { GivesSame result
        (member_command_at (seen_line line.now) verb.now.at verb.now.bytes.now) }
{
    if verb.bytes == b"follow".as_slice() {
        return read_follow(alloc, line);
    }
    if verb.bytes == b"insert".as_slice() {
        return read_insert(alloc, line);
    }
    if verb.bytes == b"remove".as_slice() {
        return read_remove(alloc, line);
    }
    if verb.bytes == b"members".as_slice() {
        return read_members(alloc, line);
    }
    if verb.bytes == b"size".as_slice() {
        return read_size(alloc, line);
    }
    if verb.bytes == b"append".as_slice() {
        return read_append(alloc, line);
    }
    if verb.bytes == b"put".as_slice() {
        return read_put(alloc, line);
    }
    read_collection_command(alloc, line, verb)
}

/// The command that the line spells, by its verb.
#[tactic(auto, unfolding(crate::specs::CommandsSaid::command_by))]
pub fn read_command(alloc: Global, line: &Line, verb: &Word) -> Result<Command, TextFault>
    ensures { GivesSame result (command_by (seen_line line.now) verb.now.at verb.now.bytes.now) }
{
    if verb.bytes == b"get".as_slice() {
        return read_get(alloc, line);
    }
    if verb.bytes == b"set".as_slice() {
        return read_set(alloc, line);
    }
    if verb.bytes == b"new".as_slice() {
        return read_new(alloc, line);
    }
    if verb.bytes == b"find".as_slice() {
        return read_find(alloc, line);
    }
    if verb.bytes == b"root".as_slice() {
        return read_root(alloc, line);
    }
    if verb.bytes == b"setroot".as_slice() {
        return read_set_root(alloc, line);
    }
    if verb.bytes == b"delete".as_slice() {
        return read_delete(alloc, line);
    }
    read_member_command(alloc, line, verb)
}
