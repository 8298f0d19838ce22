//! Laws of what pages mean, each the contract of a function that does nothing. A caller who needs a law
//! calls its function.

ghost use Rattle.std.specs.Prelude.{ℕ, ◌<◌, slice_index};
ghost use Rattle.ostore_graph_model.specs.LawsOfMeaning.{LawOfOneGraph, LawOfSomeGraph, LawOfNoIndexes};
ghost use Rattle.ostore_graph_model.specs.LawsOfMeaning.{LawOfInts, LawOfTexts, LawOfReferences, LawOfNullReferences, LawOfNewObjects};
ghost use Rattle.ostore_graph_model.specs.LawsOfMeaning.{LawOfFirstSideReferences, LawOfFirstSideNulls, LawOfSecondSideReferences};
ghost use Rattle.ostore_graph_model.specs.LawsOfMeaning.{LawOfTakenPages, LawOfSameReading};
ghost use Rattle.ostore_graph_model.specs.LawsOfMeaning.{LawOfBoundRoots, LawOfUnboundRoots};
ghost use Rattle.ostore_graph_model.specs.LawsOfFreshPages.{LawOfFreshPages};
ghost use Rattle.ostore_graph_model.specs.LawsOfGraphs.{AreBytes, LawOfGraphsOfSchema};
ghost use Rattle.ostore_graph_model.specs.LawsOfLinks.{LawOfFirstSides, LawOfSides};
ghost use Rattle.ostore_graph_model.specs.LawsOfBothSides.{LawOfReferenceSides, LawOfSetSides, LawOfGoodLinks, LawOfJoining};
ghost use Rattle.ostore_graph_model.specs.LawsOfIndexes.{LawOfUndeclaredIndexes, LawOfIndexOrder};

use ostore_base::PageImage;

/// Pages stand for one graph at most.
pub fn graph_is_one()
    ensures { LawOfOneGraph }
{}

/// Pages whose cells are good stand for a graph; so valid pages stand for one.
pub fn graph_is_there()
    ensures { LawOfSomeGraph }
{}

/// Where no index is declared, the rules on pages, cells and links are all that valid pages want.
pub fn no_index_is_wrong()
    ensures { LawOfNoIndexes }
{}

/// An int that is written into a live object leaves good pages, which stand for what `set` makes of the
/// graph.
pub fn int_is_written()
    ensures { LawOfInts }
{}

/// A text that is written into a live object does so too.
pub fn text_is_written()
    ensures { LawOfTexts }
{}

/// A one-sided reference that is written into a live object leaves good pages, which stand for the graph in
/// which the object is joined with what it leads to, and with nothing else.
pub fn reference_is_written()
    ensures { LawOfReferences }
{}

/// A one-sided reference that is null leaves good pages, which stand for the graph in which the object is joined
/// with nothing at that side.
pub fn reference_is_cleared()
    ensures { LawOfNullReferences }
{}

/// A reference of a two-sided link, at the side that comes first, joins the object with what it leads to, and with
/// nothing else that is seen from there. The other side changes in the same command, at whose end the links are good
/// again.
pub fn first_side_is_written()
    ensures { LawOfFirstSideReferences }
{}

/// One that is null there parts the object from what it led to.
pub fn first_side_is_cleared()
    ensures { LawOfFirstSideNulls }
{}

/// A reference at the side that comes second leaves the graph.
pub fn second_side_is_written()
    ensures { LawOfSecondSideReferences }
{}

/// A serial that is drawn and a cell of zeros with it leave good pages, which stand for what `new` makes of
/// the graph.
pub fn object_is_made()
    ensures { LawOfNewObjects }
{}

/// A root that is bound to an object's row is bound to its name, and the other roots stay.
pub fn root_is_bound()
    ensures { LawOfBoundRoots }
{}

/// A root that is unbound is gone, and the other roots stay.
pub fn root_is_unbound()
    ensures { LawOfUnboundRoots }
{}

/// A page that is taken from the free list changes nothing of the graph.
pub fn page_is_taken()
    ensures { LawOfTakenPages }
{}

/// Lists of pages from which the same is read mean the same.
pub fn same_is_read()
    ensures { LawOfSameReading }
{}

/// The graph for which valid pages stand is one of their schema: all of `IsGraph` holds of it. Asked of the pages is
/// that they hold bytes, as images do (`images_have_bytes`).
pub fn graph_is_of_schema()
    ensures { LawOfGraphsOfSchema }
{}

// What a slice of bytes has are numbers below 256.
fn slice_has_bytes(bytes: &[u8])
    ensures { (k : ℕ) → slice_index bytes.now k < 256 }
{
    let _count = bytes.len();
}

/// What a list of images holds are bytes.
pub fn images_have_bytes(images: &[PageImage])
    ensures { AreBytes images.now }
{
    for image in images.iter() {
        slice_has_bytes(&image.bytes);
    }
}

/// A fresh list of pages is valid, and stands for the empty graph.
pub fn fresh_pages_are_empty()
    ensures { LawOfFreshPages }
{}

/// A pair of a two-sided link is in the graph by the side that stands first in the schema's text.
pub fn link_goes_by_first_side()
    ensures { LawOfFirstSides }
{}

/// Where the links are good, each side of a link, the second one too, shows exactly the graph's pairs.
pub fn each_side_shows_pairs()
    ensures { LawOfSides }
{}

/// Where no collection of a schema has an inverse, valid pages stand for a graph without indexes.
pub fn no_index_is_declared()
    ensures { LawOfUndeclaredIndexes }
{}

/// After a reference is written, at either side of its link, each member of each object shows what it showed, but for
/// the reference's own, which shows what it leads to.
pub fn reference_is_shown()
    ensures { LawOfReferenceSides }
{}

/// After a set is changed, at either side of its link, each member of each object shows what it showed, but for the
/// set's own, which shows its items.
pub fn items_are_shown()
    ensures { LawOfSetSides }
{}

/// Where each member with an inverse shows exactly the graph's pairs, the links are good: rule 11 holds. So a command
/// that edits both sides of a link gives it back at its end.
pub fn links_are_good()
    ensures { LawOfGoodLinks }
{}

/// To join two objects by a two-sided link is to free the one at its side, where that is a reference, then the other at
/// its own, and to add the pair.
pub fn joining_goes_by_sides()
    ensures { LawOfJoining }
{}

/// An index of ints has its entries by ascending int.
pub fn index_ascends()
    ensures { LawOfIndexOrder }
{}
