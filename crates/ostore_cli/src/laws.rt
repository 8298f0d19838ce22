//! Laws of the promise, each the contract of a function that does nothing.

ghost use Rattle.ostore_cli.specs.LawsOfReports.{LawOfOneReport};

/// Two reports of one text are equal, where no transaction was given up: the bytes that `try` prints at
/// status 0 are a function of its text.
pub fn one_report()
    ensures { LawOfOneReport }
{}
