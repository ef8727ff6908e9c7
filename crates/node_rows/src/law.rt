//! What holds between any two steps of any passes.
ghost use Rattle.std.specs.Prelude.{◌≡◌, ◌≢◌, ◌<◌, ◌∷◌, ◌++◌, ℕ, List, true, slice_index, slice_set};
ghost use mathlib.Core.Option.{some};
ghost use lib.ListN.{get_elem?};
ghost use Rattle.atomic_table.specs.Table.{State};
ghost use Rattle.history_core.specs.declared.entry.Entry.{Entry};
ghost use Rattle.history_core.specs.TermSet.{Holds};
ghost use Rattle.history_core.specs.Chronicle.{History, chronicle, IsLegal, set_of};
ghost use Rattle.lock_core.specs.Lock.{after};
ghost use Rattle.lock_core.specs.declared.parts.LockStep.{LockStep};
ghost use Rattle.busy_forbidden.specs.Rules.{MayMake, after_step};
ghost use Rattle.term_model.specs.Tree.{Tree};
ghost use Rattle.term_model.specs.declared.Head.{Head};
ghost use Rattle.store_model.specs.declared.view.Call.TheVariants.{Idle};
ghost use Rattle.store_model.specs.declared.view.Stay.TheVariants.{Based};
ghost use Rattle.store_model.specs.declared.view.View.{View};
ghost use Rattle.store_model.specs.Collection.{collected};
ghost use Rattle.store_model.specs.Invariant.{listed};
ghost use Rattle.store_model.specs.Machine.{In, Step, based, ready, LoadBase, LoadInUse, Begin, Go, IsCreation};
ghost use Rattle.store_model.specs.Shown.{in_table, index_of};
ghost use Rattle.store_model.specs.Laws.{held_by};
ghost use Rattle.store_model.specs.Steps.{InPlace, IsAtRest};
ghost use Rattle.store_model.specs.StoreSteps.{lock_meant};
ghost use Rattle.node_rows.specs.declared.view.NodeView.{NodeView};
ghost use Rattle.node_rows.specs.Shown.{Shows, IsStoreStep, IsAway, lock_of, node_can, node_next, store_at, state_of};
ghost use Rattle.node_rows.specs.Collecting.{collects};
ghost use Rattle.node_rows.specs.CrowdFull.{FilledIsCrowded};
ghost use Rattle.node_rows.specs.Crowding.{kept_in, IsSwept, pairs_of, swept, HasCrowd, FullIsCrowded, AbsentIsNotCrowded, PairsAreKept, CrowdAtItsPlace};
ghost use Rattle.node_rows.specs.Entries.{NamesTrees};
ghost use Rattle.node_rows.specs.Knowing.{KnowsTree};
ghost use Rattle.node_rows.specs.Keeping.{KeepsLed, LedToArguments};
ghost use Rattle.node_rows.specs.Recalling.{SeatTells, HoldsTold};
ghost use Rattle.node_rows.specs.Joining.{ShowsJoined, with_views};
ghost use Rattle.node_rows.specs.Sweeping.{IsSweep};
ghost use Rattle.node_rows.specs.Steps.{Acts, MayLoad, MayMake as MayCreate, MayStepOn, over, place_of, written_by, moved_by, with_store};

use store_model::Sizes;

/// Between any two steps the entries of all passes, merged, are a legal history of one thread.
pub fn history_is_legal(about: &Sizes)
    ensures { (s : State (Unit {0}) NodeView) (rule : ShowsJoined about.now s)
        → IsLegal about.now.rows
        (chronicle (listed about.now.seats (λ j. (store_at about.now rule.known j).entries))) }
{}

/// In a legal history the row of each Make and Find has the tree that the entry names, at its
/// place; the rows of Roots have trees there, and those that a Collect keeps have the same trees
/// after it.
pub fn entries_name_trees(about: &Sizes)
    ensures { (before rest : History) (x : ℕ × Entry) → IsLegal about.now.rows (before ++ x ∷ rest)
        → NamesTrees (set_of before) x.0 x.1 }
{}

/// A tree that a pass in an access knows of a row, with nothing under way, is that of the row in
/// the set that the entries of all passes leave then.
pub fn known_trees_are_held(about: &Sizes)
    ensures { (s : State (Unit {0}) NodeView) (rule : ShowsJoined about.now s) (i : ℕ)
        (v : NodeView)
        → get_elem? rule.known i ≡ some v → IsAtRest v.store
        → (r : ℕ) (t : Tree) → KnowsTree v.store.knows r t
        → Holds (held_by about.now (store_at about.now rule.known)) r t }
{}

/// Between any two steps the trees that a pass's Make and Find entries name in the chronicle, and
/// those of its Roots, are those that its own entries tell; and each row that a pass in an access
/// has got is held under the tree that they tell, with nothing under way.
pub fn told_trees_are_so(about: &Sizes)
    ensures entries { (s : State (Unit {0}) NodeView) (rule : ShowsJoined about.now s) (i : ℕ)
        → i < about.now.seats → SeatTells about.now rule.known i }
    ensures rows { (s : State (Unit {0}) NodeView) (rule : ShowsJoined about.now s) (i : ℕ)
        (v : NodeView)
        → get_elem? rule.known i ≡ some v → IsAtRest v.store
        → (r : ℕ) → In r v.store.got → HoldsTold about.now rule.known v.store r }
{}

/// Where a pass has noted nothing since its collection, in the same access, the set that the
/// entries of all passes leave has the names that were kept, with the trees of the crowd, and no
/// others. So if each row has a tree then, the crowd has as many different trees as there are rows;
/// and a tree that the set lacks isn't in it: so it is where the pass finds the store filled.
pub fn crowds_are_held(about: &Sizes)
    ensures held { (s : State (Unit {0}) NodeView) (rule : ShowsJoined about.now s) (i : ℕ)
        (v : NodeView)
        → get_elem? rule.known i ≡ some v → IsSwept v.store
        → held_by about.now (store_at about.now rule.known) ≡ pairs_of (kept_in v.store.entries)
        v.crowd }
    ensures stands { (s : State (Unit {0}) NodeView) (rule : ShowsJoined about.now s) (i : ℕ)
        (v : NodeView)
        → get_elem? rule.known i ≡ some v → HasCrowd about.now i v }
    ensures full { FullIsCrowded about.now }
    ensures absent { AbsentIsNotCrowded about.now }
    ensures pairs { PairsAreKept }
    ensures filled { FilledIsCrowded about.now }
{}

/// A pass's crowd, as `Store::close` tells it, is the trees of the names that its last Collect
/// kept, at that entry's place in the chronicle.
pub fn crowds_are_at_their_place()
    ensures { CrowdAtItsPlace }
{}

/// Each step of the lock, on the words and the own view, is the store's step of that name by that
/// seat.
pub fn lock_steps_are_the_stores(about: &Sizes)
    ensures { (s : State (Unit {0}) NodeView) (rule : ShowsJoined about.now s) (i : ℕ)
        (v : NodeView) (x : LockStep)
        → MayMake lock_of about.now.seats node_can s i v x
        → let t = after_step node_next (with_views s rule.known) i v x in
        let l = rule.shows.lock.state in
        IsStoreStep about.now s.words rule.known l i (lock_meant v.store.stay x) t.words t.views
        (after l i x) }
{}

/// Each own step that is in place is the store's step by that seat: on its one word, and on the own
/// view.
pub fn own_steps_are_the_stores(about: &Sizes)
    ensures { (s : State (Unit {0}) NodeView) (rule : ShowsJoined about.now s) (i : ℕ)
        (v : NodeView) (x : Step)
        → get_elem? rule.known i ≡ some v → Acts x → in_table about.now (place_of i x v.store)
        ≡ true
        → InPlace about.now (state_of about.now s.words rule.known rule.shows.lock.state) i x
        → let k = index_of about.now (place_of i x v.store) in let n = slice_index s.words k in
        IsStoreStep about.now s.words rule.known rule.shows.lock.state i x
        (slice_set s.words k (written_by x v.store n))
        (slice_set rule.known i (with_store v (moved_by x v.store n))) rule.shows.lock.state }
{}

/// Each step of a collection that is in place is the store's step by that seat: on its one word,
/// and on the own view, whatever its crowd is then. Of the last one the own view has to have seen
/// the words that it ends by.
pub fn collection_steps_are_the_stores(about: &Sizes)
    ensures { (s : State (Unit {0}) NodeView) (rule : ShowsJoined about.now s) (i : ℕ)
        (v : NodeView) (x : Step)
        (crowd : List Tree) → get_elem? rule.known i ≡ some v → IsSweep about.now i v.store x
        → in_table about.now (collects about.now x v.store).place ≡ true
        → InPlace about.now (state_of about.now s.words rule.known rule.shows.lock.state) i x
        → let a = collects about.now x v.store in
        let k = index_of about.now a.place in let n = slice_index s.words k in
        IsStoreStep about.now s.words rule.known rule.shows.lock.state i x
        (slice_set s.words k (a.written n))
        (slice_set rule.known i (swept v (a.moved n) crowd)) rule.shows.lock.state }
{}

/// What a seat's view has to say before an own step is enough for the step to be in place, whatever
/// the words and the other seats are.
pub fn own_steps_are_in_place(about: &Sizes)
    ensures bases { (s : State (Unit {0}) NodeView) (rule : Shows about.now s) (i : ℕ)
        (v : NodeView)
        → get_elem? s.views i ≡ some v → MayLoad v.lock i about.now.seats → IsAway v.store
        → InPlace about.now (state_of about.now s.words s.views rule.lock.state) i LoadBase }
    ensures in_uses { (s : State (Unit {0}) NodeView) (rule : Shows about.now s) (i : ℕ)
        (v : NodeView)
        → get_elem? s.views i ≡ some v → v.store.call ≡ Idle → v.store.stay ≡ Based
        → InPlace about.now (state_of about.now s.words s.views rule.lock.state) i LoadInUse }
    ensures begins { (s : State (Unit {0}) NodeView) (rule : Shows about.now s) (i : ℕ)
        (v : NodeView) (f : Head) (rs : List ℕ) (k : ℕ)
        → get_elem? s.views i ≡ some v → MayCreate about.now v f rs k
        → InPlace about.now (state_of about.now s.words s.views rule.lock.state) i
        (Begin (over f rs)) }
    ensures goes { (s : State (Unit {0}) NodeView) (rule : Shows about.now s) (i : ℕ) (v : NodeView)
        → get_elem? s.views i ≡ some v → IsCreation v.store.call
        → InPlace about.now (state_of about.now s.words s.views rule.lock.state) i Go }
    ensures owns { (s : State (Unit {0}) NodeView) (rule : Shows about.now s) (i : ℕ) (v : NodeView)
        (x : Step) (k : ℕ)
        → get_elem? s.views i ≡ some v → MayStepOn about.now i v x k
        → InPlace about.now (state_of about.now s.words s.views rule.lock.state) i x }
{}

/// What a pass knows of its protected rows, and of the rows that these lead to, stays through a
/// collection by another and through its own. They lead to the arguments, at any depth, of rows
/// that it knows as a whole.
pub fn led_rows_are_kept()
    ensures entry { (v : View) (base in_use : ℕ) → base ≢ v.base
        → KeepsLed v (ready (based v base) in_use) }
    ensures collection { (v : View) (base number in_use : ℕ) (kept : List ℕ)
        → KeepsLed v (collected v base number in_use kept) }
    ensures arguments { LedToArguments }
{}
