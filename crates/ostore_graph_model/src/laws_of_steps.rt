//! Laws of commands, each the contract of a function that does nothing. A caller who needs a law calls its
//! function.

ghost use Rattle.ostore_graph_model.specs.LawsOfSteps.{LawOfRefusals, LawOfReads, LawOfReadTransactions};
ghost use Rattle.ostore_graph_model.specs.LawsOfSteps.{LawOfNewNames, LawOfDrawnNames, LawOfAnswers};
ghost use Rattle.ostore_graph_model.specs.LawsOfSteps.{LawOfDeletedNames};
ghost use Rattle.ostore_graph_model.specs.LiveGraphs.{LawOfLiveGraphs, LawOfOnePartner};
ghost use Rattle.ostore_graph_model.specs.GraphRules.{LawOfGraphs, LawOfFirstGraph};
ghost use Rattle.ostore_graph_model.specs.Growth.{LawOfGrowth};

/// A command that is refused changes nothing, variables included.
pub fn refusal_changes_nothing()
    ensures { LawOfRefusals }
{}

/// A command that only reads leaves the graph.
pub fn reading_changes_nothing()
    ensures { LawOfReads }
{}

/// A read transaction leaves the graph: each writing command in it is refused.
pub fn read_transaction_changes_nothing()
    ensures { LawOfReadTransactions }
{}

/// The name of a new object is one that no object had before.
pub fn new_name_is_new()
    ensures { LawOfNewNames }
{}

/// A name that was drawn is never drawn again.
pub fn drawn_name_stays_drawn()
    ensures { LawOfDrawnNames }
{}

/// The name of an object that was deleted is dead.
pub fn deleted_name_is_dead()
    ensures { LawOfDeletedNames }
{}

/// An update of a script may take no more pages from the free list than the whole script may.
pub fn update_grows_no_more_than_script()
    ensures { LawOfGrowth }
{}

/// Commands that are answered one by one have these replies in a transaction.
pub fn answers_are_replies()
    ensures { LawOfAnswers }
{}

/// Commands keep it that all that a graph holds is of live objects, and that nothing empty is held.
pub fn graph_stays_live()
    ensures { LawOfLiveGraphs }
{}

/// Commands keep it that a reference has one partner at most, in a lawful schema.
pub fn reference_keeps_one_partner()
    ensures { LawOfOnePartner }
{}

/// Every command, refused or not, leaves a graph of a lawful schema, where its numbers, texts and names are within
/// their limits.
pub fn graph_stays_graph()
    ensures { LawOfGraphs }
{}

/// A fresh database has a graph of its schema.
pub fn first_graph_is_graph()
    ensures { LawOfFirstGraph }
{}
