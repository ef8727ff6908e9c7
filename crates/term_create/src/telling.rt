//! What a pass tells of its last creation, as plain data.
ghost use Rattle.std.specs.Prelude.{◌≡◌, ◌<◌, ℕ, List};
ghost use Rattle.term_model.specs.declared.Head.{Head};
ghost use Rattle.node_rows.specs.declared.view.NodeView.{NodeView};
ghost use Rattle.node_rows.specs.Told.{IsTold, Tells, view_of};
ghost use Rattle.term_create.specs.Stage.{Notes, row_of};

use crate::asked::Noted;
use node_rows::{Last, Pass};
use store_model::Sizes;
use term_model::Row;

/// Keeps as plain data that a creation of the pass has just ended so, and gives its row.
#[inline(always)]
pub(crate) fn tell(pass: &mut Pass, sizes: &Sizes, noted: Noted) -> Row
    requires { row_of noted < sizes.now.rows }
    ensures row { result.0 ≡ row_of noted }
    ensures seat { pass.new.seat ≡ pass.old.seat }
    ensures same { (pass.new.seat.seat ≡ pass.old.seat.seat)
        × (pass.new.seat.number ≡ pass.old.seat.number)
        × (pass.new.seat.seats ≡ pass.old.seat.seats) }
    ensures view { view_of pass.new ≡ view_of pass.old }
    ensures loaded { (pass.new.base ≡ pass.old.base) × (pass.new.in_use ≡ pass.old.in_use) }
    ensures told { (v : NodeView) (f : Head) (rs : List ℕ)
        → IsTold v.store pass.old.rows pass.old.seen pass.old.last pass.old.marks
        → Notes v (view_of pass.old) f rs noted → Tells pass.new }
{
    match noted {
        Noted::Made(row, number) => {
            pass.seen = number;
            pass.last = Last::Make(number);
            node_rows::row_of(sizes, row)
        }
        Noted::Found(row, birth) => {
            let after = pass.seen.max(birth);
            pass.seen = after;
            pass.last = Last::Find(after);
            node_rows::row_of(sizes, row)
        }
    }
}
