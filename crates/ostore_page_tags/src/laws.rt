//! Laws of images and of pages of objects, each the contract of a function that does nothing. A caller
//! who needs a law calls its function.

ghost use Rattle.std.specs.Prelude.{◌≡◌, length};
ghost use Rattle.ostore_page_tags.specs.Header.{header_of};
ghost use Rattle.ostore_page_tags.specs.Cells.{AreApart, cells_of, parts_of};
ghost use Rattle.ostore_page_tags.specs.Rules.{IsPage};
ghost use Rattle.ostore_page_tags.specs.inside.AreBytes.{AreBytes};

use ostore_base::{PAGE_SIZE, PageImage};

// An array of a page's bytes is as long as its type says.
fn array_is_whole(bytes: &[u8; PAGE_SIZE])
    ensures { length bytes.now ≡ PAGE_SIZE }
{}

// What a slice of bytes has are numbers below 256.
fn slice_has_bytes(bytes: &[u8])
    ensures { AreBytes bytes.now }
{
    let _count = bytes.len();
}

/// An image has as many bytes as a page.
pub fn image_is_whole(image: &PageImage)
    ensures { length image.now.bytes ≡ PAGE_SIZE }
{
    array_is_whole(&image.bytes);
}

/// In a good page the cells lie behind the header, in the order of their rows and apart, each of 4 bytes
/// at least.
pub fn cells_are_apart(image: &PageImage)
    requires { IsPage image.now.bytes }
    ensures { AreApart image.now.bytes }
{}

/// A good page is its header, its cells one after the other, zeros, and its rows.
pub fn page_is_its_parts(image: &PageImage)
    requires { IsPage image.now.bytes }
    ensures { image.now.bytes ≡ parts_of image.now.bytes }
{}

/// Two good pages with the same header and the same cells, in the same order, are the same image.
pub fn same_parts_are_one_page(first: &PageImage, second: &PageImage)
    requires first_good { IsPage first.now.bytes }
    requires second_good { IsPage second.now.bytes }
    requires same_header { header_of first.now.bytes ≡ header_of second.now.bytes }
    requires same_cells { cells_of first.now.bytes ≡ cells_of second.now.bytes }
    ensures { first.now.bytes ≡ second.now.bytes }
{
    slice_has_bytes(&first.bytes);
    slice_has_bytes(&second.bytes);
}
