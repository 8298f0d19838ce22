//! The tag rows of a page of objects: where its cells lie, and of which type each is, so that the
//! pointers in them can be found. Nothing here takes memory.
#![tactic(auto)]

mod cells;
mod check;
mod fresh;
mod laws;
pub mod layout;
mod numbers;
mod page_header;
mod tag_rows;

pub use cells::{NoRoom, add_cell, mark_dead};
pub use check::{PageFault, check_page};
pub use fresh::fresh_pages;
pub use laws::{cells_are_apart, image_is_whole, page_is_its_parts, same_parts_are_one_page};
pub use numbers::{get_i64, get_u8, get_u16, get_u32, put_i64, put_u8, put_u16, put_u32};
pub use page_header::{PageHeader, header, set_header};
pub use tag_rows::{Row, cell_end, nth_row, row_at, row_of, rows};

#[cfg(test)]
mod tests;
