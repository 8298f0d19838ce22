//! The pages of a fresh database.

ghost use Rattle.std.specs.Prelude.{◌≡◌, ◌≤◌, ◌<◌, ◌+◌, ◌-◌, ◌*◌, ◌++◌, IfOk, OnOk, length};
ghost use Rattle.ostore_base.specs.declared.page.TheConstants.{PAGE_SIZE};
ghost use Rattle.ostore_page_tags.specs.declared.layout.TheConstants.{FIRST_OPEN_PAGE};
ghost use Rattle.ostore_page_tags.specs.Limits.{least_pages, most_pages, longest_schema};
ghost use Rattle.ostore_page_tags.specs.PageLists.{schema_text};
ghost use Rattle.ostore_page_tags.specs.Allocated.{IsAllocated};
ghost use Rattle.ostore_page_tags.specs.FreshPages.{plain_image, stored_schema, part_image, part_images, free_images, fresh_list};

use crate::layout::{FIRST_OPEN_PAGE, FREE_KIND, FRONT_KIND, ROOTS_KIND, SCHEMA_PAGES};
use crate::page_header::{PageHeader, set_header};
use ostore_base::{OutOfMemory, PAGE_SIZE, PageImage, PageList};
use std::alloc::Global;

// A page with a header that has a kind and a next page, and zeros behind it.
#[tactic(auto, unfolding(crate::specs::FreshPages::plain_image))]
fn plain_page(kind: u8, next: u32) -> PageImage
    ensures { result ≡ plain_image kind next }
{
    let mut image = PageImage::zeroed();
    let header = PageHeader {
        kind,
        segment: 0,
        rows: 0,
        end: 0,
        next,
        last_serial: 0,
        last_page: 0,
    };
    set_header(&mut image, &header);
    image
}

// The text as the pages hold it, one after the other.
#[tactic(auto, unfolding(crate::specs::FreshPages::stored_schema))]
fn stored_schema(alloc: Global, text: &[u8]) -> Result<Vec<u8>, OutOfMemory>
    requires { length text.now ≤ longest_schema }
    ensures { IfOk result (λ held. held.items ≡ stored_schema text.now) }
{
    let mut held = Vec::new(alloc);
    let length = text.len() as u32;
    held.extend_from_slice(&length.to_le_bytes())?;
    held.extend_from_slice(text)?;
    held.resize(SCHEMA_PAGES as usize * PAGE_SIZE, 0)?;
    Ok(held)
}

// Part i of bytes that are spread over pages.
fn part_of(bytes: &[u8], i: u32) -> PageImage
    requires within { PAGE_SIZE * i + PAGE_SIZE ≤ length bytes.now }
    ensures { result ≡ part_image bytes.now i }
{
    let start = PAGE_SIZE * i as usize;
    let mut image = PageImage::zeroed();
    image
        .bytes
        .copy_from_slice(&bytes[start..start + PAGE_SIZE]);
    image
}

// Adds the pages over which bytes are spread.
fn push_parts(list: &mut PageList, bytes: &[u8], count: u32) -> Result<(), OutOfMemory>
    requires room { length list.old + count ≤ most_pages }
    requires whole { length bytes.now ≡ PAGE_SIZE * count }
    ensures { OnOk result (list.new ≡ list.old ++ part_images bytes.now count) }
{
    for i in 0..count {
        list.push(&part_of(bytes, i))?;
    }
    Ok(())
}

// Adds the free pages of so many pages in all.
fn push_free(list: &mut PageList, pages: u32) -> Result<(), OutOfMemory>
    requires least { FIRST_OPEN_PAGE ≤ pages }
    requires room { length list.old + (pages - FIRST_OPEN_PAGE) ≤ most_pages }
    ensures { OnOk result (list.new ≡ list.old ++ free_images pages (pages - FIRST_OPEN_PAGE)) }
{
    for page in FIRST_OPEN_PAGE..pages {
        let next = if page + 1 < pages { page + 1 } else { 0 };
        list.push(&plain_page(FREE_KIND, next))?;
    }
    Ok(())
}

/// The pages of a fresh database with a schema's text: 11 to 16,384 of them, and a text of at most 32,764
/// bytes. All pages behind the page of roots are free, in ascending order.
pub fn fresh_pages(alloc: Global, schema: &[u8], pages: u32) -> Result<PageList, OutOfMemory>
    requires least { least_pages ≤ pages }
    requires most { pages ≤ most_pages }
    requires short { length schema.now ≤ longest_schema }
    ensures fresh { IfOk result (λ list. list ≡ fresh_list schema.now pages) }
    ensures schema { IfOk result (λ list. schema_text list ≡ schema.now) }
    ensures allocated { IfOk result (λ list. IsAllocated list) }
{
    let stored = stored_schema(alloc, schema)?;
    let mut list = PageList::new(alloc);
    list.push(&plain_page(FRONT_KIND, FIRST_OPEN_PAGE))?;
    push_parts(&mut list, &stored, SCHEMA_PAGES)?;
    list.push(&plain_page(ROOTS_KIND, 0))?;
    push_free(&mut list, pages)?;
    Ok(list)
}
