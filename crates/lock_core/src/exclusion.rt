// The law of the lock, over every list of steps.
ghost use Rattle.std.specs.Prelude.{ℕ, List};
ghost use Rattle.lock_core.specs.declared.parts.LockStep.{LockStep};
ghost use Rattle.lock_core.specs.Lock.{Lock, at_start, after, InPlace, Leads};
ghost use Rattle.lock_core.specs.Exclusion.{IsSound, Exclusion};

/// Each step keeps the facts of exclusion, so they hold after every list of steps. Whatever the
/// steps were, beside an exclusive seat no seat is shared and no other is exclusive.
pub fn exclusion_holds()
    ensures kept { (l : Lock) (i : ℕ) (x : LockStep) → IsSound l → InPlace l i x
        → IsSound (after l i x) }
    ensures facts { (n : ℕ) (xs : List (ℕ × LockStep)) (l : Lock) → Leads (at_start n) xs l
        → IsSound l }
    ensures alone { (n : ℕ) (xs : List (ℕ × LockStep)) (l : Lock) → Leads (at_start n) xs l
        → Exclusion l }
{}
