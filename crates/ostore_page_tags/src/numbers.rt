//! Numbers in an image, little-endian, each at a place counted in bytes from 0.

ghost use Rattle.std.specs.Prelude.{◌≡◌, ◌≤◌, ◌<◌, ◌+◌};
ghost use Rattle.ostore_base.specs.declared.page.TheConstants.{PAGE_SIZE};
ghost use Rattle.ostore_page_tags.specs.Numbers.{number_at, with_number, int_at, with_int};

use crate::laws::image_is_whole;
use byteorder::{ByteOrder, LittleEndian};
use ostore_base::{PAGE_SIZE, PageImage};

/// The byte at a place of the page.
pub fn get_u8(image: &PageImage, at: u16) -> u8
    requires { at < PAGE_SIZE }
    ensures { result ≡ number_at 1 at image.now.bytes }
{
    image.bytes[at as usize]
}

/// The number of 2 bytes at a place. Its bytes lie in the page.
pub fn get_u16(image: &PageImage, at: u16) -> u16
    requires { at + 2 ≤ PAGE_SIZE }
    ensures { result ≡ number_at 2 at image.now.bytes }
{
    LittleEndian::read_u16(&image.bytes[at as usize..])
}

/// The number of 4 bytes at a place. Its bytes lie in the page.
pub fn get_u32(image: &PageImage, at: u16) -> u32
    requires { at + 4 ≤ PAGE_SIZE }
    ensures { result ≡ number_at 4 at image.now.bytes }
{
    LittleEndian::read_u32(&image.bytes[at as usize..])
}

/// The int of 8 bytes at a place. Its bytes lie in the page.
pub fn get_i64(image: &PageImage, at: u16) -> i64
    requires { at + 8 ≤ PAGE_SIZE }
    ensures { result ≡ int_at at image.now.bytes }
{
    LittleEndian::read_i64(&image.bytes[at as usize..])
}

/// Writes a byte at a place of the page. All other bytes stay.
pub fn put_u8(image: &mut PageImage, at: u16, value: u8)
    requires { at < PAGE_SIZE }
    ensures written { image.new.bytes ≡ with_number 1 at value image.old.bytes }
    ensures read_back { number_at 1 at image.new.bytes ≡ value }
{
    image_is_whole(image);
    image.bytes[at as usize] = value;
}

/// Writes a number of 2 bytes at a place, where its bytes lie in the page. All other bytes stay.
pub fn put_u16(image: &mut PageImage, at: u16, value: u16)
    requires { at + 2 ≤ PAGE_SIZE }
    ensures written { image.new.bytes ≡ with_number 2 at value image.old.bytes }
    ensures read_back { number_at 2 at image.new.bytes ≡ value }
{
    image_is_whole(image);
    LittleEndian::write_u16(&mut image.bytes[at as usize..], value);
}

/// Writes a number of 4 bytes at a place, where its bytes lie in the page. All other bytes stay.
pub fn put_u32(image: &mut PageImage, at: u16, value: u32)
    requires { at + 4 ≤ PAGE_SIZE }
    ensures written { image.new.bytes ≡ with_number 4 at value image.old.bytes }
    ensures read_back { number_at 4 at image.new.bytes ≡ value }
{
    image_is_whole(image);
    LittleEndian::write_u32(&mut image.bytes[at as usize..], value);
}

/// Writes an int of 8 bytes at a place, where its bytes lie in the page. All other bytes stay.
pub fn put_i64(image: &mut PageImage, at: u16, value: i64)
    requires { at + 8 ≤ PAGE_SIZE }
    ensures written { image.new.bytes ≡ with_int at value image.old.bytes }
    ensures read_back { int_at at image.new.bytes ≡ value }
{
    image_is_whole(image);
    LittleEndian::write_i64(&mut image.bytes[at as usize..], value);
}
