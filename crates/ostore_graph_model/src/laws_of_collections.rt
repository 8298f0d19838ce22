//! Laws of collections that are changed as a whole, each the contract of a function that does nothing. Within the
//! command an entry may be written that the count doesn't count yet, so each speaks of the command's end.

ghost use Rattle.ostore_graph_model.specs.Collections.{LawOfCollections};
ghost use Rattle.ostore_graph_model.specs.CollectionEdits.{LawOfAppends, LawOfPuts, LawOfBinds, LawOfUnbinds};
ghost use Rattle.ostore_graph_model.specs.CollectionEdits.{LawOfInserts, LawOfRemoves, LawOfListSizes};
ghost use Rattle.ostore_graph_model.specs.CollectionEdits.{LawOfFirstSideInserts, LawOfFirstSideRemoves, LawOfSecondSides};

/// A collection that is as it should be after its change leaves a good heap: rules 7 to 10 hold again, but for the
/// bytes of single cells.
pub fn collection_is_changed()
    ensures { LawOfCollections }
{}

/// In good cells the count of a list is the number of its items in the graph.
pub fn count_is_list_size()
    ensures { LawOfListSizes }
{}

/// An item behind the others of a list leaves good pages, which stand for what `append` makes of the graph.
pub fn item_is_appended()
    ensures { LawOfAppends }
{}

/// Another item at a place of a list: what `put` makes.
pub fn item_is_put()
    ensures { LawOfPuts }
{}

/// A key of a dictionary with another item, or with its first one: what `bind` makes.
pub fn key_is_bound()
    ensures { LawOfBinds }
{}

/// A key less in a dictionary, which isn't in the graph without any: what `unbind` makes.
pub fn key_is_unbound()
    ensures { LawOfUnbinds }
{}

/// An item more in a one-sided set: what `insert` makes.
pub fn item_is_inserted()
    ensures { LawOfInserts }
{}

/// An item less in a one-sided set: what `remove` makes.
pub fn item_is_removed()
    ensures { LawOfRemoves }
{}

/// An item more in a set at the first side of a two-sided link joins the two objects. The other side changes in
/// the same command, at whose end the links are good again.
pub fn item_is_inserted_first()
    ensures { LawOfFirstSideInserts }
{}

/// An item less there parts them.
pub fn item_is_removed_first()
    ensures { LawOfFirstSideRemoves }
{}

/// What changes in a set at the second side of its link leaves the graph.
pub fn second_side_is_changed()
    ensures { LawOfSecondSides }
{}
