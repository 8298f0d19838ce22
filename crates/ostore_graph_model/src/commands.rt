//! Commands, transactions and scripts.

use crate::values::Name;
use ostore_base::{ListOf, Text};
use ostore_schema_layout::Schema;

/// The members of a path, 1 to 3 identifiers.
pub type Idents = ListOf<Text>;

/// A value that `set` is given.
#[derive(Debug, Drop)]
pub enum Operand {
    Int(i64),
    Text(Text),
    /// The object that a variable is bound to.
    Var(Text),
    Null,
}

/// A key of a dictionary, or a value that a query compares with.
#[derive(Debug, Drop)]
pub enum Key {
    Int(i64),
    Text(Text),
}

/// How a query compares a path value with its key.
#[derive(Clone, Copy, Debug, PartialEq, Eq)]
pub enum Op {
    Equal,
    Less,
    LessEqual,
    Greater,
    GreaterEqual,
}

/// A command of a transaction. `to` is the variable that it binds, `object` the variable of the
/// object that it reads or changes, `item` the variable of an item; each is the identifier without
/// `$`. Types, members, roots and the parts of a path are identifiers as given.
#[derive(Debug, Drop)]
pub enum Command {
    New {
        to: Text,
        ty: Text,
        segment: u8,
    },
    Find {
        to: Text,
        name: Name,
    },
    Root {
        to: Text,
        root: Text,
    },
    SetRoot {
        root: Text,
        item: Option<Text>,
    },
    Get {
        object: Text,
        member: Text,
    },
    Set {
        object: Text,
        member: Text,
        value: Operand,
    },
    Follow {
        to: Text,
        object: Text,
        member: Text,
    },
    Delete {
        object: Text,
    },
    Insert {
        object: Text,
        member: Text,
        item: Text,
    },
    Remove {
        object: Text,
        member: Text,
        item: Text,
    },
    Members {
        object: Text,
        member: Text,
    },
    Size {
        object: Text,
        member: Text,
    },
    Append {
        object: Text,
        member: Text,
        item: Text,
    },
    Put {
        object: Text,
        member: Text,
        index: u32,
        item: Text,
    },
    At {
        to: Text,
        object: Text,
        member: Text,
        index: u32,
    },
    Bind {
        object: Text,
        member: Text,
        key: Key,
        item: Text,
    },
    Look {
        to: Text,
        object: Text,
        member: Text,
        key: Key,
    },
    Unbind {
        object: Text,
        member: Text,
        key: Key,
    },
    Index {
        object: Text,
        member: Text,
        path: Idents,
    },
    Unindex {
        object: Text,
        member: Text,
        path: Idents,
    },
    Query {
        object: Text,
        member: Text,
        path: Idents,
        op: Op,
        key: Key,
    },
}

/// The commands of a transaction, in order.
pub type Commands = ListOf<Command>;

/// A transaction of a script: an update or a read, its commands, and whether its script aborts it.
#[derive(Debug, Drop)]
pub struct Txn {
    pub update: bool,
    pub commands: Commands,
    pub aborts: bool,
}

/// The transactions of one client, in order.
pub type Txns = ListOf<Txn>;

/// One list of transactions for each client.
pub type TxnLists = ListOf<Txns>;

/// What a run is about: a schema and each client's transactions.
#[derive(Debug, Drop)]
pub struct Script {
    pub schema: Schema,
    pub clients: TxnLists,
}
