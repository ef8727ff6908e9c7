//! What is written as a log is read as one: laws between the writer of logs and their checker.
#![tactic(auto)]

ghost use Rattle.log_laws.specs.Good.{GoodMayBeTold};
ghost use Rattle.log_laws.specs.ReadBack.{LinesAreReadBack};
ghost use Rattle.log_laws.specs.Told.{HeadsStay};
ghost use Rattle.log_laws.specs.Whole.{LogsAreReadBack, GoodLogsAreLegal};

/// The line of an entry, before any other text, is cut off as one line of a log, and is read as
/// that entry.
pub fn lines_are_read_back()
    ensures { LinesAreReadBack }
{}

/// A whole log that is written, behind lines of another form, is read as a log of the same entries
/// of each caller; and where they are good it is found legal, with as many entries, and nothing
/// else is found of it.
pub fn logs_are_read_back()
    ensures read { LogsAreReadBack }
    ensures legal { GoodLogsAreLegal }
{}

/// Each head of what rules build of a term, and of its value, passes a test that the heads of the
/// term and those that the rules write pass, so that a log may tell it where it may tell those.
pub fn heads_stay()
    ensures { HeadsStay }
{}

/// Good entries may be told, where their keys are below 2^62, and a log may tell the heads of the
/// trees that they name.
pub fn good_entries_may_be_told()
    ensures { GoodMayBeTold }
{}
