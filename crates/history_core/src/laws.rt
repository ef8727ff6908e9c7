//! What is true of all histories, each law the contract of a function that does nothing.

ghost use Rattle.history_core.specs.Laws.{NotingPutsIn, NothingAtStart, HasTheNoted, LaterGoesAfter, HeldUnlessMade, PairsStay, Insertion, InsertionLeaves, LaterRootsWin, InsertionNow, LastIsPutAtEnd, Appending, NotingKeeps, CollectingKeeps, NotedIsOneMore, OwnOrderStays, RootsAreLast, LegalIsSound, CollectKeepsReached, ProtectedStay, ChronicleIsInOrder, ChronicleIsTheOne, RisingNeverFalls, NotingTells, CollectingTells, NamedAndRootedTell};
ghost use Rattle.history_core.specs.Recording.{StartIsFaithful, MakeKeeps, FindKeeps, RootsKeep, CollectKeeps};

/// The chronicle has the callers' entries in order, and one entry more is put in at its key's
/// place.
pub fn merge_laws()
    ensures puts_in { NotingPutsIn }
    ensures start { NothingAtStart }
    ensures noted { HasTheNoted }
    ensures later { LaterGoesAfter }
    ensures own { OwnOrderStays }
    ensures in_order { ChronicleIsInOrder }
    ensures the_one { ChronicleIsTheOne }
    ensures rising { RisingNeverFalls }
{}

/// What set a history leaves.
pub fn set_laws()
    ensures sound { LegalIsSound }
    ensures roots { RootsAreLast }
    ensures collected { CollectKeepsReached }
    ensures protected { ProtectedStay }
{}

/// What may be put into a legal history, and what set is left then.
pub fn insertion_laws()
    ensures unless_made { HeldUnlessMade }
    ensures stay { PairsStay }
    ensures legal { Insertion }
    ensures leaves { InsertionLeaves }
    ensures later_roots { LaterRootsWin }
    ensures now { InsertionNow }
    ensures last { LastIsPutAtEnd }
    ensures appended { Appending }
{}

/// What a caller may note.
pub fn noting_laws()
    ensures one_more { NotedIsOneMore }
    ensures kept { NotingKeeps }
    ensures collected { CollectingKeeps }
{}

/// What the entries of each caller tell of trees, as those that its creations name, grows by one at
/// its end.
pub fn telling_laws()
    ensures noted { NotingTells }
    ensures collected { CollectingTells }
    ensures told { NamedAndRootedTell }
{}

/// A store that records its names, their birth numbers and what each caller has seen may note each
/// kind of entry, and its history stays legal.
pub fn recording_laws()
    ensures start { StartIsFaithful }
    ensures make { MakeKeeps }
    ensures find { FindKeeps }
    ensures roots { RootsKeep }
    ensures collect { CollectKeeps }
{}
