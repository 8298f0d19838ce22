//! What every crate of the object database stands on: the outside as traits, the page images, and
//! the small list types that contracts see as lists.
#![tactic(auto)]

pub mod cell_codes;
mod copied;
mod fault_count;
mod list;
mod memory;
mod numbers;
mod out_of_memory;
mod outside;
mod page;
mod page_list;
mod standard;
mod text;

pub use copied::Copied;
pub use list::ListOf;
pub use memory::{DiskCall, MemDisk, MemSink, MemSource, Remains};
pub use numbers::{CLIENTS, ClientNo, PageNo, PageNos};
pub use out_of_memory::OutOfMemory;
pub use outside::{Disk, Failed, LONGEST_DISK, Sink, Source, write_gated, write_synced};
pub use page::{PAGE_SIZE, PageImage};
pub use page_list::{MAX_PAGES, PageList};
pub use standard::{FileDisk, StdSink, StdSource};
pub use text::Text;

#[cfg(test)]
mod tests;
