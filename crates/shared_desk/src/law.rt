//! What the end of a store tells of its desks, and which passes may have one.
ghost use Rattle.shared_desk.specs.Telling.{BuiltAreNamed, RootedAreLast, CrowdIsLast, CrowdIsOfItsNames, HandIsProtected, LoadIsMost, LoadIsReached, SweepsAreCounted, NewMayHaveDesks};

/// Of a pass that a desk gave back, and of the entries of all passes as `Store::close` tells them:
/// the desk has built the trees that the pass's Make and Find entries name in the chronicle, in
/// order; the trees of its last Roots are the last ones of those of all its Roots there; its crowd
/// is the last of the trees that its Collects kept there, those of the names of its last Collect;
/// its hand is what the pass protected at that Collect, and the most different subtrees of what it
/// protects at one place are its load; and it has collected as often as there are Collects of the
/// pass.
pub fn desks_are_told()
    ensures built { BuiltAreNamed }
    ensures roots { RootedAreLast }
    ensures crowd { CrowdIsLast }
    ensures names { CrowdIsOfItsNames }
    ensures hand { HandIsProtected }
    ensures load { LoadIsMost }
    ensures reached { LoadIsReached }
    ensures sweeps { SweepsAreCounted }
{}

/// The passes of a new store, as `Store::make` gives them, may have desks.
pub fn new_passes_may_have_desks()
    ensures { NewMayHaveDesks }
{}
