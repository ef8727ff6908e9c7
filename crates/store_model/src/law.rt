// What every step keeps.
ghost use Rattle.store_model.specs.Laws.{ActsAreActions, StepsKeep, StartHolds, RunsHold, WritesAreShown, PlacesInside, PlacesApart, LockIsApart, TotalIs};
ghost use Rattle.store_model.specs.Laws.{OthersStay, CreationEnds, RefusalsHaveCause, RowIsAsked, FullIsExact, FullIsExactAlone, WornIsExact, WornChangesNothing, CollectionKeepsReached, CollectionKeepsTrees, CollectionGrowsUse, EqualContentEqualBucket};
ghost use Rattle.store_model.specs.ByView.{ViewShows, KnownWordsStand, CollectionSees};
ghost use Rattle.store_model.specs.Leading.{KeepsExactlyLed, KeepsTheirWords, EntryKeeps};
ghost use Rattle.store_model.specs.Recalls.{StartRecalls, StepsRecall, RunsRecall, NamedAreRecalled};
ghost use Rattle.store_model.specs.Worked.{RaceFinds, LostMakes, SweepKeeps, SweepFrees, MustFree, UseDoubles, WornAtLast, NestKeeps, RunsAreInPlace};

/// Each step keeps what holds, and it holds of a new store; so it holds after every list of steps,
/// whatever the seats do in between.
pub fn steps_keep()
    ensures kept { StepsKeep }
    ensures start { StartHolds }
    ensures all { RunsHold }
    ensures acts { ActsAreActions }
{}

/// The words of a table show the words of a store.
pub fn words_are_shown()
    ensures written { WritesAreShown }
    ensures inside { PlacesInside }
    ensures apart { PlacesApart }
    ensures lock { LockIsApart }
    ensures count { TotalIs }
{}

/// How a creation ends: with the row of the asked tree and exactly one entry, or with Full, and
/// why; and that no other seat's view changes.
pub fn creations_end()
    ensures ends { CreationEnds }
    ensures asked { RowIsAsked }
    ensures full_only_where { RefusalsHaveCause }
    ensures full_after_collection { FullIsExact }
    ensures full_alone { FullIsExactAlone }
    ensures others { OthersStay }
    ensures bucket { EqualContentEqualBucket }
{}

/// How a collection ends: it keeps exactly what is reached, or it is Worn by the numbers, and
/// nothing has changed.
pub fn collections_end()
    ensures kept { CollectionKeepsReached }
    ensures trees { CollectionKeepsTrees }
    ensures in_use { CollectionGrowsUse }
    ensures worn { WornIsExact }
    ensures unchanged { WornChangesNothing }
{}

/// A step that a seat's own view shows, and that the lock grants, is permitted: a running store
/// needs no look at other words. What the view knows of a row's words, and what a collection has
/// loaded and stored, is there.
pub fn own_view_permits()
    ensures permitted { ViewShows }
    ensures known { KnownWordsStand }
    ensures seen { CollectionSees }
{}

/// What a seat keeps where its epoch ends: exactly the rows that its protected rows lead to by the
/// words that it knows, and the words of these.
pub fn what_is_led_to_stays()
    ensures rows { KeepsExactlyLed }
    ensures words { KeepsTheirWords }
    ensures entry { EntryKeeps }
{}

/// What a seat's own entries tell is so, whatever the seats do in between: the trees that its Make
/// and Find entries name in the chronicle, and those of its Roots, are those that a replay of its
/// own entries gives, and so is the tree of each row that it may name.
pub fn entries_are_recalled()
    ensures start { StartRecalls }
    ensures kept { StepsRecall }
    ensures all { RunsRecall }
    ensures named { NamedAreRecalled }
{}

/// Worked runs, which the definitions compute: two seats that race for one bucket, a lost exchange
/// that makes, a collection with two seats' protected rows, what it frees, buckets in use that
/// double, and Worn. Their steps are in place.
pub fn worked_runs()
    ensures race { RaceFinds }
    ensures lost { LostMakes }
    ensures sweep { SweepKeeps }
    ensures frees { SweepFrees }
    ensures must_free { MustFree }
    ensures nest { NestKeeps }
    ensures doubles { UseDoubles }
    ensures worn { WornAtLast }
    ensures placed { RunsAreInPlace }
{}
