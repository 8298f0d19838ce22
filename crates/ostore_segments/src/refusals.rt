//! What calls over a holder answer when it refuses one of its calls.

ghost use Rattle.std.specs.Prelude.{◌≡◌, IfErr, OnOk};
ghost use Rattle.ostore_base.specs.Faults.{one_more};
ghost use Rattle.ostore_page_tags.specs.Allocated.{IsAllocated};

use super::*;
use ostore_base::{OutOfMemory, PageImage, PageNo};
use ostore_page_tags::fresh_pages;
use ostore_schema_layout::{Schema, parse_schema};
use std::alloc::Global;
use std::process::Abort;
use std::test::Fail;

const PARTS: &[u8] = b"type Part\nid int\nnext ref Part\n";

/// A call was refused.
#[derive(Clone, Copy, Debug, PartialEq, Eq)]
struct Refusal {
    /// How many calls were refused up to this one.
    count: u64,
}

/// Which calls are refused, and how many were.
#[derive(Drop)]
struct Refusals {
    /// So many calls are answered before one is refused.
    answers: u32,
    count: u64,
}

impl Refusals {
    /// Answers a call, or refuses it.
    fn ask(&mut self) -> Result<(), Refusal>
        ensures passes { OnOk result (self.new.count ≡ self.old.count) }
        ensures fails { IfErr result (λ refusal.
            (self.new.count ≡ one_more self.old.count) × (refusal.count ≡ self.new.count)) }
    {
        if self.answers == 0 {
            self.count = self.count.saturating_add(1);
            return Err(Refusal { count: self.count });
        }
        self.answers -= 1;
        Ok(())
    }
}

/// Pages in memory, some of whose calls are refused.
#[derive(Drop)]
struct RefusingPages<'a> {
    held: SchemaPages<'a>,
    refusals: Refusals,
}

impl<'a> Pages for RefusingPages<'a> {
    ghost use Rattle.std.specs.Prelude.{⊤};
    ghost use Rattle.std.proofs.Common.{refl, ap, ◌∙◌};
    ghost use Rattle.ostore_segments.specs.Holdings.{alone};
    ghost use Rattle.ostore_segments.specs.SchemaCells.{told_of};

    type Fault = Refusal;

    ghost told = { λ it. told_of it.held.schema.now };

    ghost held = { λ it. alone it.held.pages };

    ghost passes = { λ earlier later. later.refusals.count ≡ earlier.refusals.count };

    ghost fails = { λ earlier refusal later.
        (later.refusals.count ≡ one_more earlier.refusals.count)
        × (refusal.count ≡ later.refusals.count) };

    ghost stays = { λ refusal. ⊤ };

    fn enter(&mut self, page: PageNo) -> Result<(), Refusal> {
        self.refusals.ask()?;
        match self.held.enter(page) {
            Ok(()) => Ok(()),
            Err(fault) => match fault {},
        }
    }

    fn image(&self, page: PageNo) -> &PageImage {
        self.held.image(page)
    }

    fn edit(&mut self, page: PageNo, at: u16, bytes: &[u8]) -> Result<(), Refusal> {
        self.refusals.ask()?;
        match self.held.edit(page, at, bytes) {
            Ok(()) => Ok(()),
            Err(fault) => match fault {},
        }
    }

    fn edit_pointer(&mut self, page: PageNo, at: u16, pointer: u32) -> Result<(), Refusal> {
        self.refusals.ask()?;
        match self.held.edit_pointer(page, at, pointer) {
            Ok(()) => Ok(()),
            Err(fault) => match fault {},
        }
    }

    fn edit_root(&mut self, i: u16, name: &[u8], pointer: u32) -> Result<(), Refusal> {
        self.refusals.ask()?;
        match self.held.edit_root(i, name, pointer) {
            Ok(()) => Ok(()),
            Err(fault) => match fault {},
        }
    }

    ghost passes_at_once = { λ a. refl };

    ghost passes_on = { λ a b c first second. second ∙ first };

    ghost fails_later = { λ a b c refusal passed failed.
        (failed.0 ∙ ap one_more passed, failed.1) };
}

/// Finds a place for a Part in segment 1. Where a call was refused, that refusal is answered, and one was counted.
fn place_part(pages: &mut RefusingPages<'_>) -> Result<Result<PageNo, NoSpace>, Refusal>
    requires allocated { IsAllocated pages.old.held.pages }
    ensures passes { OnOk result (pages.new.refusals.count ≡ pages.old.refusals.count) }
    ensures fails { IfErr result (λ refusal.
        (pages.new.refusals.count ≡ one_more pages.old.refusals.count)
        × (refusal.count ≡ pages.new.refusals.count)) }
{
    place(pages, 1, 12)
}

/// What `place` answers on fresh pages, where so many calls are answered.
fn expect_place(
    rt: &impl Abort,
    alloc: Global,
    schema: &Schema,
    answers: u32,
    wanted: Result<Result<PageNo, NoSpace>, Refusal>,
) -> Result<(), OutOfMemory> {
    let mut pages = RefusingPages {
        held: SchemaPages {
            pages: fresh_pages(alloc, PARTS, 11)?,
            schema,
        },
        refusals: Refusals { answers, count: 0 },
    };
    assert_eq!(rt; place_part(&mut pages), wanted);
    Ok(())
}

#[test]
fn each_refusal_is_answered_and_counted_once(rt: HostRuntime) -> Result<(), Fail> {
    let alloc = rt.alloc();
    let schema = parse_schema(alloc, PARTS)?;
    for answers in 0..9 {
        expect_place(&rt, alloc, &schema, answers, Err(Refusal { count: 1 }))?;
    }
    expect_place(&rt, alloc, &schema, 9, Ok(Ok(PageNo(10))))?;
    Ok(())
}
