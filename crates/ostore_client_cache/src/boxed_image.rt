//! The image of a page on the heap, so that an entry of the cache is small.

ghost use Rattle.std.specs.Prelude.{◌≡◌, ◌≤◌, ◌+◌, length, replicate, IfOk};
ghost use Rattle.ostore_base.specs.Disk.{replaced};
ghost use Rattle.ostore_base.specs.declared.page.TheConstants.{PAGE_SIZE};

use ostore_base::{OutOfMemory, PAGE_SIZE, PageImage};
use std::alloc::Global;
use std::marker::Model;

/// The image of a page on the heap. A contract sees the image.
#[derive(Debug, Drop)]
pub struct BoxedImage {
    image: Box<PageImage>,
}

impl Model for BoxedImage {
    ghost use Rattle.ostore_base.specs.declared.page.PageImage.{PageImage};

    ghost Value = { PageImage };

    ghost view = { λ b. b.image.value };
}

impl BoxedImage {
    /// An image of zeros.
    pub(crate) fn zeroed(alloc: Global) -> Result<BoxedImage, OutOfMemory>
        ensures { IfOk result (λ made. made.bytes ≡ replicate 4096 0) }
    {
        let image = Box::new(alloc, PageImage::zeroed())?;
        Ok(BoxedImage { image })
    }

    /// The image.
    pub fn get(&self) -> &PageImage
        ensures { result.now ≡ self.now }
    {
        &self.image
    }

    /// Puts another image in its place.
    pub(crate) fn set(&mut self, image: &PageImage)
        ensures { self.new ≡ image.now }
    {
        *self.image = *image;
    }

    /// Writes bytes at a place.
    pub(crate) fn write(&mut self, at: usize, bytes: &[u8])
        requires { at + length bytes.now ≤ PAGE_SIZE }
        ensures { self.new.bytes ≡ replaced at bytes.now self.old.bytes }
    {
        self.image.bytes[at..at + bytes.len()].copy_from_slice(bytes);
    }
}
