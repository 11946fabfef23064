//! The law of journals, as the contract of a function that does nothing.
ghost use Rattle.journal_audit.specs.Printed.{PrintedIsLegal};

/// The law of journals: of calls that are a run on disjoint blocks and the scripts of their threads, the
/// text that is printed is a legal journal, whichever machine ran them and whatever is printed behind it.
pub fn journal_law()
    ensures { PrintedIsLegal }
{}
