//! What commands answer.

use crate::refusal::Refusal;
use ostore_base::{ListOf, Text};

/// The name of an object: its segment, 1 to 255, and its serial there, from 1. Names are ordered by
/// segment, then by serial.
#[derive(Clone, Copy, Debug, PartialEq, Eq, PartialOrd, Ord, Hash)]
pub struct Name {
    pub segment: u8,
    pub serial: u32,
}

/// What an int or a text member of an object holds.
#[derive(Debug, Drop)]
pub enum Scalar {
    Int(i64),
    Text(Text),
}

/// The value of a member, as it is shown.
#[derive(Debug, Drop)]
pub enum Value {
    Int(i64),
    Text(Text),
    /// A reference to a live object.
    Object(Name),
    /// A reference to an object that was deleted.
    Dead(Name),
    Null,
}

/// An object in a list of names, with whether it was deleted.
#[derive(Clone, Copy, Debug, PartialEq, Eq)]
pub struct Listed {
    pub name: Name,
    pub dead: bool,
}

pub type Names = ListOf<Listed>;

/// What a command answers.
#[derive(Debug, Drop)]
pub enum Reply {
    Done,
    Named(Name),
    Value(Value),
    Count(u32),
    Names(Names),
    Refused(Refusal),
}

/// The replies of a transaction, one for each command.
pub type Replies = ListOf<Reply>;
