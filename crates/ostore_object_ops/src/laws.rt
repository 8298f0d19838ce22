//! Laws of the lines of a transaction, each the contract of a function that does nothing. A caller who runs
//! lines one by one, with other work between them, calls their functions to know what all of them make of the
//! list with which it began.

ghost use Rattle.ostore_object_ops.specs.LawsOfRuns.{LawOfFirstLines, LawOfNextLines, LawOfMeanings, LawOfLastLines, LawOfFewPages};

/// Before its first line a transaction has run on every valid list.
pub fn no_line_is_run()
    ensures { LawOfFirstLines }
{}

/// Where it has run up to a line, and that line is executed, it has run up to the next one.
pub fn line_is_run()
    ensures { LawOfNextLines }
{}

/// Where it has run, the list that it has made has a meaning, so that its next line can be executed.
pub fn run_has_meaning()
    ensures { LawOfMeanings }
{}

/// Where it has run up to its end, it was executed: its replies and its graph are *Transaction*'s.
pub fn run_is_transaction()
    ensures { LawOfLastLines }
{}

/// The pages that its lines use are fewer than 2, the data pages with which it began, and its growth together.
pub fn used_pages_are_few()
    ensures { LawOfFewPages }
{}
