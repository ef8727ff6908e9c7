//! What is true of all reductions and cached lists, each law the contract of a function that does
//! nothing.

ghost use Rattle.rewrite_cache.specs.Laws.{ReductionsAreKnown, KnownBuildsTheSame, NoLessRoomServes, LeastRoomIsOne, NothingNeedBeLeftOut, NewTreesAreBuilt, CachedListsJoin};

/// The value of a reduction, the fuel that it takes and the trees that it builds are the same
/// whatever is handed over and kept, with more fuel, and in more room.
pub fn reduction_laws()
    ensures known { ReductionsAreKnown }
    ensures built { KnownBuildsTheSame }
{}

/// The least room of a reduction is found by trying it in a room one smaller, and there is no
/// other.
pub fn room_laws()
    ensures least { NoLessRoomServes }
    ensures one { LeastRoomIsOne }
{}

/// Nothing need be left out of a cached list, nothing new may be, and one goes on with another.
pub fn cached_laws()
    ensures whole { NothingNeedBeLeftOut }
    ensures new { NewTreesAreBuilt }
    ensures join { CachedListsJoin }
{}
