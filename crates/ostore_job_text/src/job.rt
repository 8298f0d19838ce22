//! Jobs.

use ostore_base::{ClientNo, ListOf, Text};
use ostore_graph_model::Txns;

/// How often a transaction is tried where the option `tries` isn't given.
pub const DEFAULT_TRIES: u32 = 16;

/// How many pages a client's cache has where the option `cache` isn't given.
pub const DEFAULT_CACHE: u32 = 256;

/// How many frames a client's address space has where the option `frames` isn't given.
pub const DEFAULT_FRAMES: u32 = 65536;

/// A client of a job: its name, its options, and its transactions in order.
#[derive(Debug, Drop)]
pub struct JobClient {
    pub name: Text,
    /// How often a transaction is tried before it is given up, 1 to 1,000.
    pub tries: u32,
    /// How many pages its cache has, 1 to 16,384.
    pub cache: u32,
    /// How many frames its address space has, 1 to 65,536.
    pub frames: u32,
    pub txns: Txns,
}

/// The clients of a job, in the order of its text.
pub type JobClients = ListOf<JobClient>;

/// An entry of a schedule: a client that takes this many turns, 1 to 1,000,000.
#[derive(Clone, Copy, Debug, PartialEq, Eq)]
pub struct JobTurn {
    pub client: ClientNo,
    pub count: u32,
}

pub type JobTurns = ListOf<JobTurn>;

/// A job: its clients, and the schedule in which they take their turns.
#[derive(Debug, Drop)]
pub struct Job {
    pub clients: JobClients,
    pub turns: JobTurns,
}
