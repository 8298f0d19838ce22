//! One pointer.

ghost use Rattle.std.specs.Prelude.{◌≡◌, ◌≤◌, ◌+◌, ◌++◌, length, drop};
ghost use Rattle.byteorder.specs.Endian.{little_bytes, little_number};
ghost use Rattle.ostore_base.specs.declared.page.TheConstants.{PAGE_SIZE};
ghost use Rattle.ostore_page_tags.specs.Numbers.{number_at, with_number};
ghost use Rattle.ostore_relocation.specs.Pointers.{pointer_in, resident_pointer, stored_pointer, with_pointer};

use ostore_address_space::{Frame, Space};
use ostore_base::{PAGE_SIZE, PageImage, PageNo};
use ostore_page_tags::image_is_whole;

/// The bytes of a page, by which the number of a page or frame is multiplied in a pointer.
pub(crate) const PAGE_BYTES: u32 = PAGE_SIZE as u32;

/// The form that a pointer gets.
#[derive(Clone, Copy, Debug)]
pub(crate) enum Form {
    /// With the number of a page, as it is stored.
    Stored,
    /// With the number of a frame.
    Resident,
}

// ---- bytes

/// The pointer that stands first in some bytes.
fn first_pointer(bytes: &[u8]) -> u32
    requires { 4 ≤ length bytes.now }
    ensures { result ≡ little_number 4 bytes.now }
{
    u32::from_le_bytes([bytes[0], bytes[1], bytes[2], bytes[3]])
}

/// Writes a pointer over the first of some bytes.
fn set_first_pointer(bytes: &mut [u8], pointer: u32)
    requires { 4 ≤ length bytes.old }
    ensures { bytes.new ≡ little_bytes 4 pointer ++ drop 4 bytes.old }
{
    bytes[..4].copy_from_slice(&pointer.to_le_bytes());
}

/// The pointer at a place.
pub(crate) fn get_pointer(image: &PageImage, at: u16) -> u32
    requires { at + 4 ≤ PAGE_SIZE }
    ensures { result ≡ number_at 4 at image.now.bytes }
{
    first_pointer(&image.bytes[at as usize..])
}

/// Writes the pointer at a place. All other bytes stay.
fn put_pointer(image: &mut PageImage, at: u16, pointer: u32)
    requires { at + 4 ≤ PAGE_SIZE }
    ensures { image.new.bytes ≡ with_number 4 at pointer image.old.bytes }
{
    image_is_whole(image);
    set_first_pointer(&mut image.bytes[at as usize..], pointer);
}

// ---- forms

/// A stored pointer in its resident form.
fn resident_pointer(space: &Space, pointer: u32) -> u32
    ensures { result ≡ resident_pointer space.now.pages pointer }
{
    if pointer == 0 {
        return 0;
    }
    match space.frame_of(PageNo(pointer / PAGE_BYTES)) {
        Some(frame) => frame.0 * PAGE_BYTES + pointer % PAGE_BYTES,
        None => pointer % PAGE_BYTES,
    }
}

/// A resident pointer in its stored form.
fn stored_pointer(space: &Space, pointer: u32) -> u32
    ensures { result ≡ stored_pointer space.now.pages pointer }
{
    if pointer == 0 {
        return 0;
    }
    match space.page_at(Frame(pointer / PAGE_BYTES)) {
        Some(page) => page.0 * PAGE_BYTES + pointer % PAGE_BYTES,
        None => pointer % PAGE_BYTES,
    }
}

/// Changes the pointer at a place into a form. All other bytes stay.
pub(crate) fn change_pointer(image: &mut PageImage, at: u16, space: &Space, form: Form)
    requires { at + 4 ≤ PAGE_SIZE }
    ensures { image.new.bytes ≡ with_pointer (pointer_in form space.now.pages) at image.old.bytes }
{
    let pointer = get_pointer(image, at);
    let moved = match form {
        Form::Stored => stored_pointer(space, pointer),
        Form::Resident => resident_pointer(space, pointer),
    };
    put_pointer(image, at, moved);
}
