//! Copies of replies.

ghost use Rattle.std.specs.Prelude.{◌≡◌, IfOk};

use ostore_base::{ListOf, OutOfMemory};
use ostore_graph_model::{Replies, Reply, Value};

/// An equal value.
fn copied_value(value: &Value) -> Result<Value, OutOfMemory>
    ensures { IfOk result (λ copy. copy ≡ value.now) }
{
    match value {
        Value::Int(number) => Ok(Value::Int(*number)),
        Value::Text(text) => Ok(Value::Text(text.copy()?)),
        Value::Object(name) => Ok(Value::Object(*name)),
        Value::Dead(name) => Ok(Value::Dead(*name)),
        Value::Null => Ok(Value::Null),
    }
}

/// An equal reply.
fn copied_reply(reply: &Reply) -> Result<Reply, OutOfMemory>
    ensures { IfOk result (λ copy. copy ≡ reply.now) }
{
    match reply {
        Reply::Done => Ok(Reply::Done),
        Reply::Named(name) => Ok(Reply::Named(*name)),
        Reply::Value(value) => Ok(Reply::Value(copied_value(value)?)),
        Reply::Count(count) => Ok(Reply::Count(*count)),
        Reply::Names(names) => Ok(Reply::Names(names.copy()?)),
        Reply::Refused(refusal) => Ok(Reply::Refused(*refusal)),
    }
}

/// Equal replies.
pub(crate) fn copied_replies(replies: &Replies) -> Result<Replies, OutOfMemory>
    ensures { IfOk result (λ copy. copy ≡ replies.now) }
{
    let mut copies = ListOf::new(replies.allocator());
    for reply in replies.items() {
        copies.push(copied_reply(reply)?)?;
    }
    Ok(copies)
}
