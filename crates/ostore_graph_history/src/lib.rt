//! Histories of pages as histories of graphs: laws about what committed on the pages of a database.
#![tactic(auto)]

mod laws;

pub use laws::{history_is_legal, ints_have_no_indexes, pages_are_few, space_is_lacked};
