//! Relocation: the pointers of a page's image are changed when it comes into a client's address space,
//! and changed back when it goes out. Nothing here takes memory.
#![tactic(auto)]

mod cells;
mod fitness;
mod laws;
mod pointer;
mod relocate;
mod reserving;
mod roots;

pub use fitness::{has_cells, is_fit, leads_to_pages};
pub use laws::{
    bytes_are_stored, cell_bytes_are_stored, more_frames_store_the_same, pointer_is_stored,
    root_row_is_stored, row_has_pointer,
};
pub use relocate::{relocate_in, relocate_out};

#[cfg(test)]
mod tests;
