//! What a pass tells of its own entries, as plain data.
ghost use Rattle.std.specs.Prelude.{◌≡◌, ◌∷◌, ◌++◌, ◌↔◌, ◌<◌, ◌≤◌, ℕ, pred, List, [], false, length, IsTrue, Contains};
ghost use Rattle.term_model.specs.declared.Row.{Row};
ghost use Rattle.history_core.specs.declared.entry.Entry.{Entry};
ghost use Rattle.mark_phase.specs.Reachable.{IsMarked};
ghost use Rattle.history_core.specs.declared.entry.Entry.TheVariants as entry;
ghost use Rattle.node_rows.specs.Crowding.{kept_in};
ghost use Rattle.node_rows.specs.Told.{Tells, last_in, view_of};

use crate::store::{Last, Pass};
use term_model::Row;

/// The pass's last entry.
pub fn last(pass: &Pass) -> Last
    requires told { Tells pass.now }
    ensures { result ≡ last_in (view_of pass.now).store.entries }
{
    pass.last
}

/// Whether the pass's last collection kept the row; false where it made none, and for a row that
/// isn't below the rows.
pub fn kept(pass: &Pass, row: Row) -> bool
    requires told { Tells pass.now }
    ensures kept { IsTrue result ↔ Contains (kept_in (view_of pass.now).store.entries) row.0 }
    ensures beyond { pass.now.rows ≤ row.0 → result ≡ false }
{
    row.0 < pass.rows && pass.marks.has(row)
}

/// Keeps as plain data that the pass has just ended a collection, which stored this base and this
/// number of buckets in use: its Collect has the number before the base. The rows that it kept have
/// to be those that are marked.
pub fn tell_collect(pass: &mut Pass, base: u64, in_use: u64)
    requires base { 0 < base }
    ensures seat { (pass.new.seat ≡ pass.old.seat) × (pass.new.base ≡ base)
        × (pass.new.in_use ≡ in_use) }
    ensures told { (es : List Entry) (kept : List ℕ)
        → (view_of pass.old).store.entries ≡ es ++ entry.Collect (pred base) kept ∷ []
        → pred base ≡ (view_of pass.old).store.seen → length pass.old.marks ≡ pass.old.rows
        → ((r : Row) → IsMarked pass.old.marks r ↔ Contains kept r.0) → Tells pass.new }
{
    pass.base = base;
    pass.in_use = in_use;
    pass.seen = base - 1;
    pass.last = Last::Collect(base - 1);
}
