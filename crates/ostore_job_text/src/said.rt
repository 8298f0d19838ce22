//! What the lines of a job's text say, before names are looked up, with the places of what may be wrong.

use ostore_base::{ListOf, Text};
use ostore_graph_model::Command;

/// An option of a client's line: its name and its number as they stand, and where the name stands.
#[derive(Debug, Drop)]
pub struct OptionSaid {
    pub at: usize,
    pub name: Text,
    pub number: Text,
}

/// The options of a client's line, in its order.
pub type OptionsSaid = ListOf<OptionSaid>;

/// A client's line: its name, where that stands, and its options.
#[derive(Debug, Drop)]
pub struct ClientSaid {
    pub at: usize,
    pub name: Text,
    pub options: OptionsSaid,
}

/// An entry of a line `turns`: the name of a client, where that stands, and how many turns it takes.
#[derive(Debug, Drop)]
pub struct EntrySaid {
    pub at: usize,
    pub name: Text,
    pub count: u32,
}

/// The entries of a line `turns`.
pub type EntriesSaid = ListOf<EntrySaid>;

/// What a line says.
#[derive(Debug, Drop)]
pub enum LineSaid {
    Client(ClientSaid),
    /// The first line of a transaction, which is an update or a read.
    Begin { update: bool },
    Command(Command),
    /// The last line of a transaction.
    End { aborts: bool },
    Turns(EntriesSaid),
}

/// Where a line stands, by the lines before it.
#[derive(Clone, Copy, Debug, PartialEq, Eq)]
pub enum Stand {
    /// No line stands before it.
    Start,
    /// A client's line, or the last line of a transaction.
    InClient,
    /// The first line of a transaction, or a command.
    InTxn,
    /// A line `turns`.
    InTurns,
}
