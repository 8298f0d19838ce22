//! Replies of a report.

ghost use Rattle.std.specs.Prelude.{◌≡◌, ◌++◌, codes, OnOk};
ghost use Rattle.std.specs.List.{flat_map};
ghost use Rattle.ostore_run_report.specs.Report.{name_text, listed_text, names_text, value_text, refusal_text, reply_text, reply_line};

use ostore_base::{OutOfMemory, Text};
use ostore_graph_model::{Listed, Name, Refusal, Reply, Value};
use ostore_text_words::{push_int, push_number, push_quoted};

/// Adds a line for each reply.
pub fn push_replies(out: &mut Text, replies: &[Reply]) -> Result<(), OutOfMemory>
    ensures { OnOk result (out.new ≡ out.old ++ flat_map reply_line replies.now) }
{
    for reply in replies {
        push_reply_line(out, reply)?;
    }
    Ok(())
}

/// Adds a reply's line.
fn push_reply_line(out: &mut Text, reply: &Reply) -> Result<(), OutOfMemory>
    ensures { OnOk result (out.new ≡ out.old ++ reply_line reply.now) }
{
    out.push_bytes(b"  ")?;
    push_reply(out, reply)?;
    out.push_bytes(b"\n")
}

/// Adds a reply.
fn push_reply(out: &mut Text, reply: &Reply) -> Result<(), OutOfMemory>
    ensures { OnOk result (out.new ≡ out.old ++ reply_text reply.now) }
{
    match reply {
        Reply::Done => out.push_bytes(b"ok"),
        Reply::Named(name) => push_name(out, *name),
        Reply::Value(value) => push_value(out, value),
        Reply::Count(count) => push_number(out, u64::from(*count)),
        Reply::Names(names) => push_names(out, names.items()),
        Reply::Refused(refusal) => push_refusal(out, *refusal),
    }
}

/// Adds the name of an object.
fn push_name(out: &mut Text, name: Name) -> Result<(), OutOfMemory>
    ensures { OnOk result (out.new ≡ out.old ++ name_text name) }
{
    push_number(out, u64::from(name.segment))?;
    out.push_bytes(b".")?;
    push_number(out, u64::from(name.serial))
}

/// Adds a name of a list.
fn push_listed(out: &mut Text, listed: Listed) -> Result<(), OutOfMemory>
    ensures { OnOk result (out.new ≡ out.old ++ listed_text listed) }
{
    if listed.dead {
        out.push_bytes(b"!")?;
    }
    push_name(out, listed.name)
}

/// Adds a list of names.
fn push_names(out: &mut Text, names: &[Listed]) -> Result<(), OutOfMemory>
    ensures { OnOk result (out.new ≡ out.old ++ names_text names.now) }
{
    if names.is_empty() {
        return out.push_bytes(b"empty");
    }
    push_listed(out, names[0])?;
    for listed in &names[1..] {
        push_next(out, *listed)?;
    }
    Ok(())
}

/// Adds a name of a list that isn't its first.
fn push_next(out: &mut Text, listed: Listed) -> Result<(), OutOfMemory>
    ensures { OnOk result (out.new ≡ out.old ++ (codes " " ++ listed_text listed)) }
{
    out.push_bytes(b" ")?;
    push_listed(out, listed)
}

/// Adds the value of a member.
fn push_value(out: &mut Text, value: &Value) -> Result<(), OutOfMemory>
    ensures { OnOk result (out.new ≡ out.old ++ value_text value.now) }
{
    match value {
        Value::Int(int) => push_int(out, *int),
        Value::Text(text) => push_quoted(out, text.bytes()),
        Value::Object(name) => push_name(out, *name),
        Value::Dead(name) => push_dead(out, *name),
        Value::Null => out.push_bytes(b"null"),
    }
}

/// Adds the name of a deleted object.
fn push_dead(out: &mut Text, name: Name) -> Result<(), OutOfMemory>
    ensures { OnOk result (out.new ≡ out.old ++ (codes "!" ++ name_text name)) }
{
    out.push_bytes(b"!")?;
    push_name(out, name)
}

/// Adds a refusal.
fn push_refusal(out: &mut Text, refusal: Refusal) -> Result<(), OutOfMemory>
    ensures { OnOk result (out.new ≡ out.old ++ refusal_text refusal) }
{
    out.push_bytes(b"refused ")?;
    push_number(out, refusal.number())?;
    out.push_bytes(b" ")?;
    out.push_bytes(refusal.name().as_bytes())
}
