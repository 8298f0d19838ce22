//! A client's address space: which page each of its frames holds. A page is in one frame at most.
#![tactic(auto)]

mod mapper;
mod space;

pub use mapper::{High, Low, Mapper, Mixed};
pub use space::{Frame, Space, SpaceFull, frames_are_paired};

#[cfg(test)]
mod tests;
