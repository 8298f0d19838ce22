//! Transactions on fresh lists of pages.

ghost use Rattle.std.specs.Prelude.{◌≤◌};
ghost use Rattle.ostore_page_tags.specs.Limits.{least_pages, most_pages};

use super::*;
use ostore_base::{ListOf, OutOfMemory, Text};
use ostore_graph_model::{
    Command, Operand, Refusal, Replies, Reply, Txn, Value, fresh_pages_are_empty,
};
use ostore_page_tags::fresh_pages;
use ostore_schema_layout::parse_schema;
use ostore_segments::{NoSpace, SchemaPages};
use std::alloc::Global;
use std::convert::Infallible;
use std::process::Abort;
use std::test::Fail;

const PART: &[u8] = b"type Part\nid int\n";

/// A command that runs: `new` of a Part in a segment, `set` of a member, and `get`.
#[derive(Clone, Copy)]
pub(crate) enum Line<'a> {
    New(&'a [u8], u8),
    Set(&'a [u8], &'a [u8], i64),
    Get(&'a [u8], &'a [u8]),
}

/// What it answers.
#[derive(Clone, Copy, Debug, PartialEq, Eq)]
enum Answer {
    Named(u8, u32),
    Done,
    Int(i64),
    Refused(Refusal),
    Other,
}

pub(crate) fn command_of(alloc: Global, line: Line<'_>) -> Result<Command, OutOfMemory> {
    match line {
        Line::New(to, segment) => Ok(Command::New {
            to: Text::from_bytes(alloc, to)?,
            ty: Text::from_bytes(alloc, b"Part")?,
            segment,
        }),
        Line::Set(object, member, value) => Ok(Command::Set {
            object: Text::from_bytes(alloc, object)?,
            member: Text::from_bytes(alloc, member)?,
            value: Operand::Int(value),
        }),
        Line::Get(object, member) => Ok(Command::Get {
            object: Text::from_bytes(alloc, object)?,
            member: Text::from_bytes(alloc, member)?,
        }),
    }
}

fn answer_of(reply: &Reply) -> Answer {
    match reply {
        Reply::Named(name) => Answer::Named(name.segment, name.serial),
        Reply::Done => Answer::Done,
        Reply::Value(Value::Int(value)) => Answer::Int(*value),
        Reply::Refused(refusal) => Answer::Refused(*refusal),
        _ => Answer::Other,
    }
}

fn answer_at(replies: &Replies, i: usize) -> Answer {
    match replies.items().get(i) {
        Some(reply) => answer_of(reply),
        None => Answer::Other,
    }
}

/// What a transaction gives on a fresh database of so many pages. None comes where the schema or a command is
/// none that runs, and for want of memory.
fn run_fresh(
    alloc: Global,
    text: &[u8],
    count: u32,
    txn: &Txn,
) -> Option<Result<Replies, Stop<Infallible>>>
    requires least { least_pages ≤ count }
    requires most { count ≤ most_pages }
{
    let Ok(schema) = parse_schema(alloc, text) else {
        return None;
    };
    if !is_of_ints(&schema) {
        return None;
    }
    if !are_built(txn.commands.items()) {
        return None;
    }
    let Ok(list) = fresh_pages(alloc, text, count) else {
        return None;
    };
    fresh_pages_are_empty();
    let mut pages = SchemaPages {
        pages: list,
        schema: &schema,
    };
    Some(run_transaction(alloc, &mut pages, &schema, txn))
}

/// A transaction of these lines.
fn txn_of(alloc: Global, update: bool, lines: &[Line<'_>]) -> Result<Txn, OutOfMemory> {
    let mut commands = ListOf::new(alloc);
    for line in lines {
        commands.push(command_of(alloc, *line)?)?;
    }
    Ok(Txn {
        update,
        commands,
        aborts: false,
    })
}

/// The lines are answered so on a fresh database of 20 pages with the one type Part.
fn expect_answers(
    rt: &impl Abort,
    alloc: Global,
    update: bool,
    lines: &[Line<'_>],
    answers: &[Answer],
) -> Result<(), OutOfMemory> {
    let txn = txn_of(alloc, update, lines)?;
    let Some(Ok(replies)) = run_fresh(alloc, PART, 20, &txn) else {
        panic!(rt; "the transaction wasn't executed");
    };
    assert_eq!(rt; replies.items().len(), answers.len());
    for (reply, answer) in replies.items().iter().zip(answers) {
        assert_eq!(rt; answer_of(reply), *answer);
    }
    Ok(())
}

#[test]
fn a_new_object_is_set_and_read(rt: HostRuntime) -> Result<(), Fail> {
    let lines = [
        Line::New(b"p", 1),
        Line::Set(b"p", b"id", 7),
        Line::Get(b"p", b"id"),
    ];
    let answers = [Answer::Named(1, 1), Answer::Done, Answer::Int(7)];
    expect_answers(&rt, rt.alloc(), true, &lines, &answers)?;
    Ok(())
}

#[test]
fn no_line_has_no_answer(rt: HostRuntime) -> Result<(), Fail> {
    expect_answers(&rt, rt.alloc(), true, &[], &[])?;
    Ok(())
}

#[test]
fn the_greatest_and_the_least_int_are_kept(rt: HostRuntime) -> Result<(), Fail> {
    let lines = [
        Line::New(b"p", 1),
        Line::Set(b"p", b"id", 9_223_372_036_854_775_807),
        Line::Get(b"p", b"id"),
        Line::Set(b"p", b"id", -9_223_372_036_854_775_808),
        Line::Get(b"p", b"id"),
    ];
    let answers = [
        Answer::Named(1, 1),
        Answer::Done,
        Answer::Int(9_223_372_036_854_775_807),
        Answer::Done,
        Answer::Int(-9_223_372_036_854_775_808),
    ];
    expect_answers(&rt, rt.alloc(), true, &lines, &answers)?;
    Ok(())
}

#[test]
fn a_read_refuses_what_writes(rt: HostRuntime) -> Result<(), Fail> {
    let lines = [
        Line::New(b"p", 1),
        Line::Set(b"p", b"id", 7),
        Line::Get(b"p", b"id"),
    ];
    let answers = [
        Answer::Refused(Refusal::ReadOnly),
        Answer::Refused(Refusal::ReadOnly),
        Answer::Refused(Refusal::NoVariable),
    ];
    expect_answers(&rt, rt.alloc(), false, &lines, &answers)?;
    Ok(())
}

#[test]
fn a_segment_without_a_page_finds_none(rt: HostRuntime) -> Result<(), Fail> {
    let lines = [Line::New(b"p", 1), Line::New(b"q", 2)];
    let txn = txn_of(rt.alloc(), true, &lines)?;
    let full = NoSpace {
        segment: 2,
        need: 16,
    };
    match run_fresh(rt.alloc(), PART, 11, &txn) {
        Some(Err(Stop::NoSpace(lack))) => assert_eq!(rt; lack, full),
        _ => panic!(rt; "there was space"),
    }
    Ok(())
}

/// Two types of 32 ints, `Part` and `Lot`.
pub(crate) fn wide_schema(alloc: Global) -> Result<String, Fail> {
    let mut text = String::new(alloc);
    for ty in ["Part", "Lot"] {
        write!(text, "type {ty}\n")?;
        for number in 0..32 {
            write!(text, "m{number} int\n")?;
        }
    }
    Ok(text)
}

/// Adds a command on a member that goes by a number.
fn push_numbered(
    alloc: Global,
    commands: &mut ListOf<Command>,
    number: u32,
    set: bool,
) -> Result<(), Fail> {
    let member = format!(in alloc; "m{number}")?;
    let line = if set {
        Line::Set(b"p", member.as_bytes(), i64::from(number))
    } else {
        Line::Get(b"p", member.as_bytes())
    };
    commands.push(command_of(alloc, line)?)?;
    Ok(())
}

#[test]
fn each_of_32_members_is_its_own(rt: HostRuntime) -> Result<(), Fail> {
    let alloc = rt.alloc();
    let text = wide_schema(alloc)?;
    let mut txn = txn_of(alloc, true, &[Line::New(b"p", 1)])?;
    for number in 0..32 {
        push_numbered(alloc, &mut txn.commands, number, true)?;
    }
    for number in 0..33 {
        push_numbered(alloc, &mut txn.commands, number, false)?;
    }
    let Some(Ok(replies)) = run_fresh(alloc, text.as_bytes(), 20, &txn) else {
        panic!(rt; "the transaction wasn't executed");
    };
    assert_eq!(rt; replies.items().len(), 66);
    for number in 0..32u32 {
        let answer = answer_at(&replies, 33 + number as usize);
        assert_eq!(rt; answer, Answer::Int(i64::from(number)));
    }
    assert_eq!(rt; answer_at(&replies, 65), Answer::Refused(Refusal::NoMember));
    Ok(())
}

/// Adds `new` of a Part to a variable that goes by a number, and `set` of its member to that number.
fn push_object(alloc: Global, commands: &mut ListOf<Command>, number: u32) -> Result<(), Fail> {
    let variable = format!(in alloc; "v{number}")?;
    commands.push(command_of(alloc, Line::New(variable.as_bytes(), 1))?)?;
    let line = Line::Set(variable.as_bytes(), b"id", i64::from(number));
    commands.push(command_of(alloc, line)?)?;
    Ok(())
}

#[test]
fn two_thousand_objects_have_as_many_variables(rt: HostRuntime) -> Result<(), Fail> {
    let alloc = rt.alloc();
    let mut txn = txn_of(alloc, true, &[])?;
    for number in 0..2000 {
        push_object(alloc, &mut txn.commands, number)?;
    }
    for number in 0..2000 {
        let variable = format!(in alloc; "v{number}")?;
        let line = Line::Get(variable.as_bytes(), b"id");
        txn.commands.push(command_of(alloc, line)?)?;
    }
    let Some(Ok(replies)) = run_fresh(alloc, PART, 20, &txn) else {
        panic!(rt; "the transaction wasn't executed");
    };
    assert_eq!(rt; replies.items().len(), 6000);
    for number in 0..2000u32 {
        let name = answer_at(&replies, 2 * number as usize);
        assert_eq!(rt; name, Answer::Named(1, number + 1));
        let answer = answer_at(&replies, 4000 + number as usize);
        assert_eq!(rt; answer, Answer::Int(i64::from(number)));
    }
    Ok(())
}
