//! Which page a new cell goes to, and which serial a new object gets, over any holder of pages.
#![tactic(auto)]

mod cell_pages;
mod cells;
mod chain;
mod fields;
mod growth;
mod laws;
mod objects;
mod pages;
mod placement;
mod schema_pages;
mod serials;

pub use cell_pages::CellPages;
pub use cells::add;
pub use chain::{PagesOfFault, pages_of};
pub use growth::grow;
pub use laws::{a_full_segment_has_no_place, serials_are_drawn_once};
pub use objects::{NewCell, make};
pub use pages::Pages;
pub use placement::{NoSpace, place};
pub use schema_pages::{SchemaPages, root_row, size_told};
pub use serials::{draw_serial, serials_spent};

#[cfg(test)]
mod refusals;
#[cfg(test)]
mod tests;
