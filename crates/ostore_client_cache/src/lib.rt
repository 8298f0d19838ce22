//! A client's cache: the pages that it has, by their last use.
#![tactic(auto)]

mod boxed_image;
mod cache;
mod entries;

pub use boxed_image::BoxedImage;
pub use cache::Cache;
pub use entries::{CachedPage, Hold};

#[cfg(test)]
mod tests;
