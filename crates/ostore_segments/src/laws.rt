//! Laws of places and serials, each the contract of a function that does nothing. A caller who needs a law
//! calls its function.

ghost use Rattle.std.specs.Prelude.{◌<◌, ℕ, List};
ghost use Rattle.ostore_base.specs.declared.page.PageImage.{PageImage};
ghost use Rattle.ostore_page_tags.specs.PageChains.{IsSegment};
ghost use Rattle.ostore_segments.specs.Room.{IsFull};
ghost use Rattle.ostore_segments.specs.Placing.{Places};
ghost use Rattle.ostore_segments.specs.Serials.{Draws, KeepsCounters};

use ostore_base::PageList;

/// Where a segment is full, no page is the place of a cell: the two answers of `place` exclude each other.
pub fn a_full_segment_has_no_place(list: &PageList, segment: u8, need: u16)
    requires full { IsFull list.now segment need }
    ensures { (later : List PageImage) (page : ℕ) → Places list.now later segment need page → ⊥ }
{}

/// A serial that is drawn later is greater, whatever was done to the list between, if no counter fell.
pub fn serials_are_drawn_once(
    first: &PageList,
    second: &PageList,
    third: &PageList,
    fourth: &PageList,
    segment: u8,
)
    requires segment { IsSegment segment }
    requires kept { KeepsCounters second.now third.now }
    ensures { (early late : ℕ) → Draws first.now second.now segment early
        → Draws third.now fourth.now segment late → early < late }
{}
