// What holds of the draws, between any two steps of any seats.
ghost use Rattle.std.specs.Prelude.{◌≡◌, ℕ, ◌+◌, ◌<◌, slice_index};
ghost use mathlib.Core.Option.{some};
ghost use lib.ListN.{get_elem?};
ghost use Rattle.atomic_table.specs.Table.{State};
ghost use Rattle.worker_crew.specs.declared.draws.Drawn.{Drawn};
ghost use Rattle.worker_crew.specs.declared.draws.Extent.{Extent};
ghost use Rattle.worker_crew.specs.Dealt.{IsDealt, IsInOne, times, once_below, joined};

/// Each number below the word was drawn by one seat alone, once.
pub fn each_number_is_drawn_once()
    ensures { (about : Extent) (s : State (Unit {0}) Drawn) → IsDealt about s
        → (x : ℕ) → x < slice_index s.words 0 → IsInOne x s.views }
{}

/// What a seat drew stands on in the seat to which it is joined, and a seat with all shares has
/// what all drew.
pub fn hands_are_joined()
    ensures joined { (x : ℕ) (v w : Drawn)
        → times x (joined v w).numbers ≡ times x v.numbers + times x w.numbers }
    ensures whole { (about : Extent) (s : State (Unit {0}) Drawn) → IsDealt about s
        → (id : ℕ) (v : Drawn) → get_elem? s.views id ≡ some v → v.shares ≡ about.shares
        → (x : ℕ) → times x v.numbers ≡ once_below (slice_index s.words 0) x }
{}
