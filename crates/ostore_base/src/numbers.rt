//! Numbers that name pages and clients.

ghost use Rattle.std.specs.Prelude.{◌<◌, ◌↔◌, IsTrue};
ghost use Rattle.ostore_base.specs.Limits.{most_clients};

use crate::list::ListOf;

/// How many clients a database serves at most. They are numbered from 0 on.
pub const CLIENTS: u16 = 16;

/// A page of the database. The first page is 0.
#[derive(Clone, Copy, Debug, PartialEq, Eq, PartialOrd, Ord, Hash)]
pub struct PageNo(pub u32);

/// A client of a job, counted from 0 in the order of the job text.
#[derive(Clone, Copy, Debug, PartialEq, Eq, PartialOrd, Ord, Hash)]
pub struct ClientNo(pub u16);

impl ClientNo {
    /// Whether a database can have a client of this number.
    pub fn is_within_limit(self) -> bool
        ensures { IsTrue result ↔ (self.0 < most_clients) }
    {
        self.0 < CLIENTS
    }
}

/// Pages by their numbers.
pub type PageNos = ListOf<PageNo>;
