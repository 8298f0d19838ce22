//! Cells placed on fresh lists of pages.

ghost use Rattle.std.specs.Prelude.{◌≡◌, ◌↔◌, ◌≤◌, ◌<◌, ◌+◌, IsTrue, Some, OnOk, IfSome};
ghost use Rattle.ostore_base.specs.declared.page.TheConstants.{PAGE_SIZE};
ghost use Rattle.ostore_schema_layout.specs.Cells.{pointers_of};
ghost use Rattle.ostore_schema_layout.specs.Lawful.{IsLawful};
ghost use Rattle.ostore_page_tags.specs.PageChains.{IsSegment};
ghost use Rattle.ostore_page_tags.specs.Allocated.{IsAllocated};
ghost use Rattle.ostore_page_tags.specs.Limits.{most_roots};
ghost use Rattle.ostore_page_tags.specs.PagePointers.{IsOneOf, page_pointers};
ghost use Rattle.ostore_segments.specs.Serials.{AreSpent};
ghost use Rattle.ostore_segments.specs.Edits.{IsRootAsked};
ghost use Rattle.ostore_segments.specs.Making.{IsObjectAsked};
ghost use Rattle.ostore_segments.specs.SchemaCells.{size_told, told_of};

use super::*;
use crate::fields::{first_of, put_number};
use ostore_base::{OutOfMemory, PageImage, PageNo, PageNos};
use ostore_page_tags::layout::{FIRST_OPEN_PAGE, LAST_SERIAL_AT, OBJECTS_KIND};
use ostore_page_tags::{check_page, fresh_pages, header, nth_row, rows};
use ostore_schema_layout::{Schema, next_pointer, parse_schema};
use std::alloc::Global;
use std::process::Abort;
use std::test::Fail;

const PARTS: &[u8] = b"type Part\nid int\nnext ref Part\n";

/// Type 1 has a cell of 12 bytes, type 2 one of 968.
const PARTS_AND_SHEETS: &[u8] = b"type Part\nid int\nnext ref Part\ntype Sheet\n\
    a text 40\nb text 40\nc text 40\nd text 40\ne text 40\nf text 40\ng text 40\nh text 40\n\
    i text 40\nj text 40\nk text 40\nl text 40\nm text 40\nn text 40\no text 40\np text 40\n\
    q text 40\nr text 40\ns text 40\nt text 40\nu text 40\nv text 40\n";

/// Whether the segment's serials are spent.
fn are_spent(pages: &mut SchemaPages<'_>, segment: u8) -> bool
    requires segment { IsSegment segment }
    requires allocated { IsAllocated pages.old.pages }
    ensures same { pages.new.pages ≡ pages.old.pages }
    ensures spent { IsTrue result ↔ AreSpent pages.old.pages segment }
    ensures told { told_of pages.new.schema.now ≡ told_of pages.old.schema.now }
{
    match serials_spent(pages, segment) {
        Ok(spent) => spent,
        Err(fault) => match fault {},
    }
}

/// The size of an object's cell of a code, where a type has the code.
fn object_size(schema: &Schema, code: u8) -> Option<u16>
    requires lawful { IsLawful schema.now }
    ensures { IfSome result
        (λ size. IsObjectAsked size code × (size_told schema.now code ≡ Some size)) }
{
    let size = size_told(schema, code)?;
    if size == 0 || size % 4 != 0 || size > 1000 || code == 0 || code > 64 {
        return None;
    }
    Some(size)
}

/// Makes an object's cell, where the segment's serials aren't spent.
fn new_object(
    pages: &mut SchemaPages<'_>,
    schema: &Schema,
    segment: u8,
    code: u8,
) -> Option<Result<NewCell, NoSpace>>
    requires lawful { IsLawful schema.now }
    requires told { told_of pages.old.schema.now ≡ told_of schema.now }
    requires segment { IsSegment segment }
    requires allocated { IsAllocated pages.old.pages }
    ensures allocated { IsAllocated pages.new.pages }
    ensures told { told_of pages.new.schema.now ≡ told_of schema.now }
{
    let size = object_size(schema, code)?;
    if are_spent(pages, segment) {
        return None;
    }
    match make(pages, segment, size, code) {
        Ok(made) => Some(made),
        Err(fault) => match fault {},
    }
}

/// Makes so many objects. Whether all of them were made.
fn fill(pages: &mut SchemaPages<'_>, schema: &Schema, segment: u8, code: u8, count: u32) -> bool
    requires lawful { IsLawful schema.now }
    requires told { told_of pages.old.schema.now ≡ told_of schema.now }
    requires segment { IsSegment segment }
    requires allocated { IsAllocated pages.old.pages }
    ensures allocated { IsAllocated pages.new.pages }
    ensures told { told_of pages.new.schema.now ≡ told_of schema.now }
{
    let mut all = true;
    for _made in 0..count {
        match new_object(pages, schema, segment, code) {
            Some(Ok(_)) => {}
            _ => all = false,
        }
    }
    all
}

/// The pages of a segment, in chain order.
fn listed(alloc: Global, pages: &mut SchemaPages<'_>, segment: u8) -> Result<PageNos, OutOfMemory>
    requires segment { IsSegment segment }
    requires allocated { IsAllocated pages.old.pages }
    ensures { OnOk result (pages.new.pages ≡ pages.old.pages) }
{
    match pages_of(alloc, pages, segment) {
        Ok(found) => Ok(found),
        Err(PagesOfFault::Fault(fault)) => match fault {},
        Err(PagesOfFault::OutOfMemory(fault)) => Err(fault),
    }
}

/// Sets the counter of a segment with a page to the last serial, by hand.
fn spend(pages: &mut SchemaPages<'_>, segment: u8)
    requires segment { IsSegment segment }
    requires allocated { IsAllocated pages.old.pages }
    ensures { IsAllocated pages.new.pages }
{
    let first = match first_of(pages, segment) {
        Ok(first) => first,
        Err(fault) => match fault {},
    };
    if first == 0 {
        return;
    }
    match put_number(pages, PageNo(first), LAST_SERIAL_AT, u32::MAX) {
        Ok(()) => {}
        Err(fault) => match fault {},
    }
}

#[test]
fn a_first_object_takes_the_first_free_page(rt: HostRuntime) -> Result<(), Fail> {
    let schema = parse_schema(rt.alloc(), PARTS)?;
    let mut pages = SchemaPages {
        pages: fresh_pages(rt.alloc(), PARTS, 11)?,
        schema: &schema,
    };
    let made = NewCell {
        page: PageNo(10),
        serial: 1,
        offset: 32,
    };
    assert_eq!(rt; new_object(&mut pages, &schema, 1, 1), Some(Ok(made)));
    let full = NoSpace {
        segment: 2,
        need: 20,
    };
    assert_eq!(rt; new_object(&mut pages, &schema, 2, 1), Some(Err(full)));
    assert_eq!(rt; pages.pages.len(), 11);
    let front = pages.pages.page(PageNo(0));
    assert_eq!(rt;
        &front.bytes[..12],
        [3, 0, 0, 0, 0, 0, 0, 0, 0, 0, 0, 0].as_slice()
    );
    assert_eq!(rt; &front.bytes[32..40], [10, 0, 0, 0, 0, 0, 0, 0].as_slice());
    let page = pages.pages.page(PageNo(10));
    let header = [2, 1, 1, 0, 44, 0, 0, 0, 0, 0, 0, 0, 1, 0, 0, 0, 10, 0, 0, 0];
    assert_eq!(rt; &page.bytes[..20], header.as_slice());
    assert_eq!(rt; &page.bytes[32..44], [0; 12].as_slice());
    assert_eq!(rt; &page.bytes[4088..], [32, 0, 1, 1, 1, 0, 0, 0].as_slice());
    Ok(())
}

/// Where a Part goes in a list of so many pages, of which the segment has three: the first two have 160 bytes
/// free, and the last one has none.
fn expect_part(
    rt: &impl Abort,
    alloc: Global,
    schema: &Schema,
    count: u32,
    made: NewCell,
) -> Result<(), OutOfMemory>
    requires lawful { IsLawful schema.now }
    requires least { 13 ≤ count }
    requires most { count ≤ 14 }
{
    let mut pages = SchemaPages {
        pages: fresh_pages(alloc, PARTS_AND_SHEETS, count)?,
        schema,
    };
    assert!(rt; fill(&mut pages, schema, 1, 2, 12));
    assert!(rt; fill(&mut pages, schema, 1, 1, 8));
    assert_eq!(rt; new_object(&mut pages, schema, 1, 1), Some(Ok(made)));
    Ok(())
}

#[test]
fn a_new_page_comes_before_room_in_an_old_one(rt: HostRuntime) -> Result<(), Fail> {
    let alloc = rt.alloc();
    let schema = parse_schema(alloc, PARTS_AND_SHEETS)?;
    let on_a_new_page = NewCell {
        page: PageNo(13),
        serial: 21,
        offset: 32,
    };
    expect_part(&rt, alloc, &schema, 14, on_a_new_page)?;
    let on_the_first_page = NewCell {
        page: PageNo(10),
        serial: 21,
        offset: 3904,
    };
    expect_part(&rt, alloc, &schema, 13, on_the_first_page)?;
    Ok(())
}

#[test]
fn a_full_segment_lists_its_pages(rt: HostRuntime) -> Result<(), Fail> {
    let alloc = rt.alloc();
    let schema = parse_schema(alloc, PARTS_AND_SHEETS)?;
    let mut pages = SchemaPages {
        pages: fresh_pages(alloc, PARTS_AND_SHEETS, 13)?,
        schema: &schema,
    };
    assert!(rt; fill(&mut pages, &schema, 1, 2, 12));
    assert!(rt; fill(&mut pages, &schema, 1, 1, 24));
    let full = NoSpace {
        segment: 1,
        need: 20,
    };
    assert_eq!(rt; new_object(&mut pages, &schema, 1, 1), Some(Err(full)));
    let found = listed(alloc, &mut pages, 1)?;
    let chain = [PageNo(10), PageNo(11), PageNo(12)];
    assert_eq!(rt; found.items(), chain.as_slice());
    Ok(())
}

/// Grows a segment by so many pages. Whether as many were free.
fn grow_by(pages: &mut SchemaPages<'_>, segment: u8, count: u32) -> bool
    requires segment { IsSegment segment }
    requires allocated { IsAllocated pages.old.pages }
    ensures { IsAllocated pages.new.pages }
{
    let mut all = true;
    for _grown in 0..count {
        match grow_once(pages, segment) {
            Some(_) => {}
            None => all = false,
        }
    }
    all
}

/// Grows a segment by a page.
fn grow_once(pages: &mut SchemaPages<'_>, segment: u8) -> Option<PageNo>
    requires segment { IsSegment segment }
    requires allocated { IsAllocated pages.old.pages }
    ensures { IsAllocated pages.new.pages }
{
    match grow(pages, segment) {
        Ok(grown) => grown,
        Err(fault) => match fault {},
    }
}

#[test]
fn two_hundred_pages_are_listed_in_chain_order(rt: HostRuntime) -> Result<(), Fail> {
    let alloc = rt.alloc();
    let schema = parse_schema(alloc, PARTS)?;
    let mut pages = SchemaPages {
        pages: fresh_pages(alloc, PARTS, 211)?,
        schema: &schema,
    };
    assert_eq!(rt; grow_once(&mut pages, 255), Some(PageNo(10)));
    assert!(rt; grow_by(&mut pages, 7, 200));
    assert_eq!(rt; grow_once(&mut pages, 7), None);
    let found = listed(alloc, &mut pages, 7)?;
    assert_eq!(rt; found.items().len(), 200);
    for (i, page) in found.items().iter().enumerate() {
        assert_eq!(rt; page.0 as usize, 11 + i);
    }
    assert_eq!(rt;
        listed(alloc, &mut pages, 255)?.items(),
        [PageNo(10)].as_slice()
    );
    Ok(())
}

#[test]
fn the_last_serial_is_drawn_once(rt: HostRuntime) -> Result<(), Fail> {
    let schema = parse_schema(rt.alloc(), PARTS)?;
    let mut pages = SchemaPages {
        pages: fresh_pages(rt.alloc(), PARTS, 11)?,
        schema: &schema,
    };
    assert!(rt; !are_spent(&mut pages, 1));
    assert!(rt; new_object(&mut pages, &schema, 1, 1).is_some());
    assert!(rt; !are_spent(&mut pages, 1));
    spend(&mut pages, 1);
    assert!(rt; are_spent(&mut pages, 1));
    assert!(rt; !are_spent(&mut pages, 2));
    Ok(())
}

#[test]
fn a_root_has_its_name_and_its_pointer(rt: HostRuntime) {
    let row = root_row(b"hub", 40_992);
    assert_eq!(rt; &row[..5], b"\x03hub\0".as_slice());
    assert_eq!(rt; &row[5..32], [0; 27].as_slice());
    assert_eq!(rt; &row[32..], [0x20, 0xa0, 0, 0, 0, 0, 0, 0].as_slice());
    assert_eq!(rt; root_row(b"", 0), [0; 40]);
}

/// Where the first pointer of a page of objects stands, if its first cell has one.
fn first_pointer(image: &PageImage, page: PageNo, schema: &Schema) -> Option<u16>
    requires lawful { IsLawful schema.now }
    ensures within { IfSome result (λ at. at + 4 ≤ PAGE_SIZE) }
    ensures there { IfSome result
        (λ at. IsOneOf at (page_pointers (pointers_of schema.now) page.0 image.now.bytes)) }
{
    if page.0 < FIRST_OPEN_PAGE || header(image).kind != OBJECTS_KIND {
        return None;
    }
    if check_page(image).is_err() || rows(image) == 0 {
        return None;
    }
    let row = nth_row(image, 0);
    if !row.live || row.code == 0 || usize::from(row.code) > schema.types.items().len() {
        return None;
    }
    let at = next_pointer(schema, row.code, 0)?;
    let at = row.offset.checked_add(at)?;
    if at > 4092 {
        return None;
    }
    Some(at)
}

/// Writes the first pointer of a page of objects.
fn write_pointer(pages: &mut SchemaPages<'_>, page: PageNo, pointer: u32) -> Option<u16>
    requires { IsLawful pages.old.schema.now }
{
    if page.0 >= pages.pages.len() {
        return None;
    }
    let at = first_pointer(pages.pages.page(page), page, pages.schema)?;
    match pages.edit_pointer(page, at, pointer) {
        Ok(()) => Some(at),
        Err(fault) => match fault {},
    }
}

#[test]
fn a_pointer_is_written_into_a_cell(rt: HostRuntime) -> Result<(), Fail> {
    let schema = parse_schema(rt.alloc(), PARTS)?;
    let mut filled = SchemaPages {
        pages: fresh_pages(rt.alloc(), PARTS, 11)?,
        schema: &schema,
    };
    assert!(rt; fill(&mut filled, &schema, 1, 1, 2));
    let mut pages = SchemaPages {
        pages: filled.pages,
        schema: &schema,
    };
    assert_eq!(rt; pages.pages.len(), 11);
    let mut wanted = *pages.pages.page(PageNo(10));
    wanted.bytes[40..44].copy_from_slice(&[0x2c, 0xa0, 0, 0]);
    assert_eq!(rt; write_pointer(&mut pages, PageNo(10), 41_004), Some(40));
    assert_eq!(rt; pages.pages.len(), 11);
    assert!(rt; *pages.pages.page(PageNo(10)) == wanted);
    Ok(())
}

/// Writes a row of the page of roots.
fn write_root(pages: &mut SchemaPages<'_>, i: u16, name: &[u8], pointer: u32)
    requires there { i < most_roots }
    requires row { IsRootAsked name.now pointer }
    requires allocated { IsAllocated pages.old.pages }
{
    match pages.edit_root(i, name, pointer) {
        Ok(()) => {}
        Err(fault) => match fault {},
    }
}

#[test]
fn a_root_is_written_into_its_row(rt: HostRuntime) -> Result<(), Fail> {
    let schema = parse_schema(rt.alloc(), PARTS)?;
    let mut pages = SchemaPages {
        pages: fresh_pages(rt.alloc(), PARTS, 11)?,
        schema: &schema,
    };
    let mut wanted = *pages.pages.page(PageNo(9));
    wanted.bytes[4032..4036].copy_from_slice(b"\x03hub");
    wanted.bytes[4064..4068].copy_from_slice(&[0x20, 0xa0, 0, 0]);
    write_root(&mut pages, 100, b"hub", 40_992);
    assert_eq!(rt; pages.pages.len(), 11);
    assert!(rt; *pages.pages.page(PageNo(9)) == wanted);
    Ok(())
}
