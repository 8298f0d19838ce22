//! Which pages commands claim, over a holder that writes down its calls.

ghost use Rattle.std.specs.Prelude.{◌≤◌};
ghost use Rattle.ostore_page_tags.specs.Limits.{least_pages, most_pages};

use super::tests::{Line, command_of, wide_schema};
use super::*;
use ostore_base::{ListOf, OutOfMemory, PageImage, PageNo, Text};
use ostore_graph_model::{Command, Txn, fresh_pages_are_empty};
use ostore_page_tags::fresh_pages;
use ostore_schema_layout::parse_schema;
use ostore_segments::{CellPages, Pages, SchemaPages};
use std::alloc::Global;
use std::process::Abort;
use std::test::Fail;

/// A call that brought a page into use, or one that owned it.
#[derive(Clone, Copy, Debug, PartialEq, Eq)]
enum Claim {
    Read(u32),
    Own(u32),
}

/// The claims so far.
#[derive(Drop)]
struct Claims {
    all: Vec<Claim>,
}

impl Claims {
    /// Writes down a further claim.
    fn note(&mut self, claim: Claim) -> Result<(), OutOfMemory> {
        self.all.push(claim)?;
        Ok(())
    }
}

/// Pages in memory, whose claims are written down.
#[derive(Drop)]
struct WatchedPages<'a> {
    held: SchemaPages<'a>,
    claims: Claims,
}

impl<'a> Pages for WatchedPages<'a> {
    ghost use Rattle.std.specs.Prelude.{⊤};
    ghost use Rattle.ostore_segments.specs.Holdings.{alone};
    ghost use Rattle.ostore_segments.specs.SchemaCells.{told_of};

    type Fault = OutOfMemory;

    ghost told = { λ it. told_of it.held.schema.now };

    ghost held = { λ it. alone it.held.pages };

    ghost passes = { λ earlier later. ⊤ };

    ghost fails = { λ earlier fault later. ⊤ };

    ghost stays = { λ fault. ⊤ };

    fn enter(&mut self, page: PageNo) -> Result<(), OutOfMemory> {
        self.claims.note(Claim::Read(page.0))?;
        Ok(())
    }

    fn image(&self, page: PageNo) -> &PageImage {
        self.held.image(page)
    }

    fn edit(&mut self, page: PageNo, at: u16, bytes: &[u8]) -> Result<(), OutOfMemory> {
        self.claims.note(Claim::Own(page.0))?;
        match self.held.edit(page, at, bytes) {
            Ok(()) => Ok(()),
            Err(fault) => match fault {},
        }
    }

    fn edit_pointer(&mut self, page: PageNo, at: u16, pointer: u32) -> Result<(), OutOfMemory> {
        self.claims.note(Claim::Own(page.0))?;
        match self.held.edit_pointer(page, at, pointer) {
            Ok(()) => Ok(()),
            Err(fault) => match fault {},
        }
    }

    fn edit_root(&mut self, i: u16, name: &[u8], pointer: u32) -> Result<(), OutOfMemory> {
        self.claims.note(Claim::Own(9))?;
        match self.held.edit_root(i, name, pointer) {
            Ok(()) => Ok(()),
            Err(fault) => match fault {},
        }
    }

    ghost passes_at_once = { λ a. tt };

    ghost passes_on = { λ a b c first second. tt };

    ghost fails_later = { λ a b c fault passed failed. failed };
}

impl<'a> CellPages for WatchedPages<'a> {
    fn page_at(&self, pointer: u32) -> PageNo {
        self.held.page_at(pointer)
    }

    fn pointer_to(&self, page: PageNo, at: u16) -> u32 {
        self.held.pointer_to(page, at)
    }

    fn edit_cell(
        &mut self,
        page: PageNo,
        offset: u16,
        at: u16,
        bytes: &[u8],
    ) -> Result<(), OutOfMemory> {
        self.claims.note(Claim::Own(page.0))?;
        match self.held.edit_cell(page, offset, at, bytes) {
            Ok(()) => Ok(()),
            Err(fault) => match fault {},
        }
    }
}

/// The claims of an update on a fresh database of so many pages. None comes where the schema or a command is none
/// that runs, or memory is refused.
fn claims_of(alloc: Global, text: &[u8], count: u32, txn: &Txn) -> Option<Vec<Claim>>
    requires least { least_pages ≤ count }
    requires most { count ≤ most_pages }
{
    let Ok(schema) = parse_schema(alloc, text) else {
        return None;
    };
    if !is_of_ints(&schema) {
        return None;
    }
    if !are_built(txn.commands.items()) {
        return None;
    }
    let Ok(list) = fresh_pages(alloc, text, count) else {
        return None;
    };
    fresh_pages_are_empty();
    let mut pages = WatchedPages {
        held: SchemaPages {
            pages: list,
            schema: &schema,
        },
        claims: Claims {
            all: Vec::new(alloc),
        },
    };
    match run_transaction(alloc, &mut pages, &schema, txn) {
        Ok(_) => {}
        Err(_) => {}
    }
    Some(pages.claims.all)
}

/// The pages of some claims, each once, in the order of their first claims: those that were read, or those that
/// were owned.
fn pages_claimed(alloc: Global, claims: &[Claim], owned: bool) -> Result<Vec<u32>, OutOfMemory> {
    let mut pages = Vec::new(alloc);
    for claim in claims {
        let page = match claim {
            Claim::Read(page) if !owned => *page,
            Claim::Own(page) if owned => *page,
            _ => continue,
        };
        if !pages.contains(&page) {
            pages.push(page)?;
        }
    }
    Ok(pages)
}

/// An update that makes so many Parts in segment 1, and leaves the last one in the variable `p`.
fn parts_made(alloc: Global, parts: u32) -> Result<Txn, OutOfMemory> {
    let mut commands = ListOf::new(alloc);
    for _part in 0..parts {
        commands.push(command_of(alloc, Line::New(b"p", 1))?)?;
    }
    Ok(Txn {
        update: true,
        commands,
        aborts: false,
    })
}

/// The same with a further line.
fn and_then(alloc: Global, parts: u32, line: Line<'_>) -> Result<Txn, OutOfMemory> {
    let mut txn = parts_made(alloc, parts)?;
    txn.commands.push(command_of(alloc, line)?)?;
    Ok(txn)
}

/// The claims of an update on a fresh database of 20 pages, which runs.
fn claims_made(rt: &impl Abort, alloc: Global, text: &[u8], txn: &Txn) -> Vec<Claim> {
    match claims_of(alloc, text, 20, txn) {
        Some(claims) => claims,
        None => panic!(rt; "the transaction doesn't run"),
    }
}

/// The pages that a line claims behind so many Parts are these.
fn expect_pages(
    rt: &impl Abort,
    alloc: Global,
    text: &[u8],
    parts: u32,
    line: Line<'_>,
    owned: bool,
    wanted: &[u32],
) -> Result<(), OutOfMemory> {
    let before = claims_made(rt, alloc, text, &parts_made(alloc, parts)?);
    let all = claims_made(rt, alloc, text, &and_then(alloc, parts, line)?);
    let claims = match all.get(before.len()..) {
        Some(claims) => claims,
        None => panic!(rt; "there are fewer claims"),
    };
    let pages = pages_claimed(alloc, claims, owned)?;
    assert_eq!(rt; pages.as_slice(), wanted);
    Ok(())
}

// A Part of 32 ints has a cell of 256 bytes and a tag row of 8, so 15 of them fill a page.

#[test]
fn new_reads_the_ends_of_its_segment(rt: HostRuntime) -> Result<(), Fail> {
    let alloc = rt.alloc();
    let text = wide_schema(alloc)?;
    let text = text.as_bytes();
    let line = Line::New(b"q", 1);
    expect_pages(&rt, alloc, text, 0, line, false, &[0, 10])?;
    expect_pages(&rt, alloc, text, 1, line, false, &[0, 10])?;
    expect_pages(&rt, alloc, text, 15, line, false, &[0, 10, 11])?;
    expect_pages(&rt, alloc, text, 16, line, false, &[0, 10, 11])?;
    expect_pages(&rt, alloc, text, 30, line, false, &[0, 10, 11, 12])?;
    Ok(())
}

#[test]
fn new_owns_what_it_writes(rt: HostRuntime) -> Result<(), Fail> {
    let alloc = rt.alloc();
    let text = wide_schema(alloc)?;
    let text = text.as_bytes();
    let line = Line::New(b"q", 1);
    expect_pages(&rt, alloc, text, 0, line, true, &[0, 10])?;
    expect_pages(&rt, alloc, text, 1, line, true, &[10])?;
    expect_pages(&rt, alloc, text, 15, line, true, &[0, 11, 10])?;
    expect_pages(&rt, alloc, text, 16, line, true, &[10, 11])?;
    expect_pages(&rt, alloc, text, 30, line, true, &[0, 12, 11, 10])?;
    Ok(())
}

#[test]
fn get_and_set_claim_the_page_of_the_object(rt: HostRuntime) -> Result<(), Fail> {
    let alloc = rt.alloc();
    let text = wide_schema(alloc)?;
    let text = text.as_bytes();
    expect_pages(&rt, alloc, text, 16, Line::Get(b"p", b"m3"), false, &[11])?;
    expect_pages(&rt, alloc, text, 16, Line::Get(b"p", b"m3"), true, &[])?;
    expect_pages(
        &rt,
        alloc,
        text,
        16,
        Line::Set(b"p", b"m3", 0),
        false,
        &[11],
    )?;
    expect_pages(&rt, alloc, text, 16, Line::Set(b"p", b"m3", 0), true, &[11])?;
    expect_pages(&rt, alloc, text, 16, Line::Set(b"p", b"m32", 7), true, &[])?;
    Ok(())
}

#[test]
fn what_a_name_refuses_claims_no_page(rt: HostRuntime) -> Result<(), Fail> {
    let alloc = rt.alloc();
    let text = b"type Lot\nid int\n";
    expect_pages(&rt, alloc, text, 0, Line::Get(b"q", b"id"), false, &[])?;
    expect_pages(&rt, alloc, text, 0, Line::Set(b"q", b"id", 7), false, &[])?;
    expect_pages(&rt, alloc, text, 0, Line::New(b"q", 1), false, &[])?;
    Ok(())
}
