//! Laws of histories, each the contract of a function that does nothing. A caller who needs a law calls its
//! function.

ghost use Rattle.ostore_graph_history.specs.Histories.{LawOfCommittedHistories};
ghost use Rattle.ostore_graph_history.specs.Space.{LawOfFewPages, LawOfLackedSpace, LawOfSchemasOfInts};

/// What the clients' results say has committed, client by client, is a legal history of graphs, where the pages have
/// a legal history with the same entries.
pub fn history_is_legal()
    ensures { LawOfCommittedHistories }
{}

/// Where a transaction of a script finds fewer free pages than it may take, on a list that a history of the script
/// reaches, the opened list had fewer than the script may take.
pub fn space_is_lacked()
    ensures { LawOfLackedSpace }
{}

/// Where so many pages are too few for a transaction of a script, on a list that a history of the script reaches, they are
/// too few for the script on the opened list.
pub fn pages_are_few()
    ensures { LawOfFewPages }
{}

/// In a schema of ints valid pages have no index, and each command may take two pages at most.
pub fn ints_have_no_indexes()
    ensures { LawOfSchemasOfInts }
{}
