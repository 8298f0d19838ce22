//! The page images of a database.

ghost use Rattle.std.specs.Prelude.{◌≡◌, ◌<◌, ◌≤◌, ◌↔◌, ◌++◌, [], ◌∷◌, length, slice_get, slice_set, IsTrue, IfOk, OnOk, OnErr};
ghost use Rattle.ostore_base.specs.Limits.{most_pages};

use crate::numbers::PageNo;
use crate::out_of_memory::OutOfMemory;
use crate::page::PageImage;
use std::alloc::Global;
use std::marker::Model;

/// The most pages that a database has.
pub const MAX_PAGES: usize = 16384;

/// The images of a database's pages, from page 0 on. A contract sees the list of them. It keeps
/// the allocator that it was made with.
#[derive(Debug, Drop)]
pub struct PageList {
    images: Vec<PageImage>,
}

impl Model for PageList {
    ghost use Rattle.std.specs.Prelude.{List, ◌≤◌, vec_len};
    ghost use Rattle.ostore_base.specs.declared.page.PageImage.{PageImage};
    ghost use Rattle.ostore_base.specs.Limits.{most_pages};

    ghost Value = { List PageImage };

    ghost view = { λ l. l.images.items };

    ghost invariant = { λ l. vec_len l.images ≤ most_pages };
}

impl PageList {
    /// The list of no pages.
    pub fn new(alloc: Global) -> PageList
        ensures { result ≡ [] }
    {
        PageList {
            images: Vec::new(alloc),
        }
    }

    /// Adds a page at the end. A refused push leaves the list.
    pub fn push(&mut self, image: &PageImage) -> Result<(), OutOfMemory>
        requires { length self.old < most_pages }
        ensures ok { OnOk result (self.new ≡ self.old ++ image.now ∷ []) }
        ensures err { OnErr result (self.new ≡ self.old) }
    {
        self.images.push(*image)?;
        Ok(())
    }

    /// How many pages there are.
    pub fn len(&self) -> u32
        ensures len { result ≡ length self.now }
        ensures most { result ≤ most_pages }
    {
        self.images.len() as u32
    }

    /// Whether there are none.
    pub fn is_empty(&self) -> bool
        ensures { IsTrue result ↔ (self.now ≡ []) }
    {
        self.images.is_empty()
    }

    /// Whether there are as many as a database has at most.
    pub fn is_full(&self) -> bool
        ensures { IsTrue result ↔ (most_pages ≤ length self.now) }
    {
        self.images.len() == MAX_PAGES
    }

    /// The image of a page.
    pub fn page(&self, page: PageNo) -> &PageImage
        requires { page.0 < length self.now }
        ensures { slice_get self.now page.0 ≡ Some result.now }
    {
        &self.images[page.0 as usize]
    }

    /// Puts an image in the place of a page's.
    pub fn set(&mut self, page: PageNo, image: &PageImage)
        requires { page.0 < length self.old }
        ensures { self.new ≡ slice_set self.old page.0 image.now }
    {
        self.images[page.0 as usize] = *image;
    }

    /// An equal list.
    pub fn copy(&self) -> Result<PageList, OutOfMemory>
        ensures { IfOk result (λ copy. copy ≡ self.now) }
    {
        Ok(PageList {
            images: Vec::from_slice(*self.images.allocator(), &self.images)?,
        })
    }
}
