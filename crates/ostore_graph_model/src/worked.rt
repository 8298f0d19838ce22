//! Commands written out with their replies, each list the contract of a function that does nothing.

ghost use Rattle.ostore_graph_model.specs.Examples.{DisplacedPartners, DeletedItem, DanglingReference, SetItems};
ghost use Rattle.ostore_graph_model.specs.Examples.{ListsAndDictionaries, ReadingOnly, OrderOfRefusals, PathQueries};
ghost use Rattle.ostore_graph_model.specs.FullGraphs.{SerialsEnd, RootsEnd, IndexesWantInverses, LaterRead};
ghost use Rattle.ostore_graph_model.specs.RefusalOrders.{CollectionRefusals, PartnersOfBoth};
ghost use Rattle.ostore_graph_model.specs.FullSets.{FilledSet, FullSet};

/// A reference that is set parts both objects from whom they were joined with.
pub fn displaced_partners()
    ensures { DisplacedPartners }
{}

/// A deleted object is in no set with an inverse, and a one-sided reference to it shows that it was deleted.
pub fn deleted_item()
    ensures { DeletedItem }
{}

/// An item is in a set once, and is taken out once.
pub fn set_items()
    ensures { SetItems }
{}

/// A one-sided reference to a deleted object stays, and is not followed.
pub fn dangling_reference()
    ensures { DanglingReference }
{}

/// A later read finds by a root what refers to a deleted object.
pub fn later_read()
    ensures { LaterRead }
{}

/// An index beyond a list and a key that is not bound are refused.
pub fn lists_and_dictionaries()
    ensures { ListsAndDictionaries }
{}

/// In a read a command that writes is refused before anything else, and binds no variable, whatever the graph has.
pub fn reading_only()
    ensures { ReadingOnly }
{}

/// Of the tests of a line the first that fails is its refusal.
pub fn order_of_refusals()
    ensures { OrderOfRefusals }
{}

/// A query follows its path through references that change, with an index or without.
pub fn path_queries()
    ensures { PathQueries }
{}

/// A segment draws its last serial, and then none; another one draws its first.
pub fn serials_end()
    ensures { SerialsEnd }
{}

/// Where all roots are bound a further one is refused, one of them may be bound anew, and one that goes makes room.
pub fn roots_end()
    ensures { RootsEnd }
{}

/// An index wants inverses: of the set, and of each reference on its path.
pub fn indexes_want_inverses()
    ensures { IndexesWantInverses }
{}

/// Of a list and of a dictionary the test that comes first refuses, and a deleted item counts.
pub fn collection_refusals()
    ensures { CollectionRefusals }
{}

/// A reference that is set where both objects have partners parts them from both.
pub fn partners_of_both()
    ensures { PartnersOfBoth }
{}

/// Items are put into a set one by one, up to 31, and all are counted.
pub fn filled_set()
    ensures { FilledSet }
{}

/// Of a set of 31 items all are counted, and they are taken out one by one until none is left.
pub fn full_set()
    ensures { FullSet }
{}
