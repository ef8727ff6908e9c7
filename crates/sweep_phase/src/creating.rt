//! Creations after a collection, in its exclusive access.
ghost use Rattle.std.specs.Prelude.{◌≡◌, true, IfOk, IfErr};
ghost use Rattle.node_rows.specs.Belonging.{IsSamePass};
ghost use Rattle.node_rows.specs.Told.{view_of};
ghost use Rattle.node_rows.specs.Inside.{IsInside};
ghost use Rattle.node_rows.specs.Crowding.{IsSwept};
ghost use Rattle.node_rows.specs.CrowdFull.{IsCrowded};
ghost use Rattle.node_rows.specs.Rows.{names};
ghost use Rattle.node_rows.specs.Steps.{over, with_store};
ghost use Rattle.term_create.specs.Created.{MayCreate, NotesOne, Gets, KeepsCause, WasFilled, GetsNone, KeepsRest};

use node_rows::{Pass, Store};
use term_create::{Full, create_inside};
use term_model::{Head, Row};

/// Creates a head over rows in exclusive access, after a collection of this access that answered
/// Ok: gives the row that has it, or makes one where a row is free. `Full` comes exactly where each
/// row has a tree, and none has the asked one: right after the collection the crowd has as many
/// trees as there are rows then, and lacks the tree. What is noted, and which arguments it may
/// have, is as in `create`; rows that the pass got before the collection don't count.
pub fn create_exclusive(
    store: &Store,
    pass: &mut Pass,
    head: Head,
    args: &[Row],
) -> Result<Row, Full>
    requires inside { IsInside store.now pass.old }
    requires fresh { (view_of pass.old).store.fresh ≡ true }
    requires may { MayCreate store.now.sizes (view_of pass.old).store head (names args.now) }
    ensures inside { IsInside store.now pass.new }
    ensures same { IsSamePass pass.old pass.new }
    ensures seats { pass.new.seat.seats ≡ pass.old.seat.seats }
    ensures only { view_of pass.new ≡ with_store (view_of pass.old) (view_of pass.new).store }
    ensures notes { IfOk result (λ row.
        NotesOne (view_of pass.old).store (view_of pass.new).store
        head (names args.now) row.0) }
    ensures gets { IfOk result (λ row.
        Gets (view_of pass.old).store (view_of pass.new).store
        head (names args.now) row.0) }
    ensures full_only_where_filled { IfErr result (λ _.
        WasFilled store.now.sizes pass.old.seat.number (view_of pass.old) head (names args.now)) }
    ensures full_only_where_crowded { IfErr result (λ _. IsSwept (view_of pass.old).store
        → IsCrowded store.now.sizes (view_of pass.old) (over head (names args.now))) }
    ensures full_only_where_read_full { IfErr result (λ _.
        KeepsCause (view_of pass.old).store (view_of pass.new).store
        head (names args.now)) }
    ensures full_gets_none { IfErr result
        (λ _. GetsNone (view_of pass.old).store (view_of pass.new).store) }
    ensures rest { KeepsRest (view_of pass.old).store (view_of pass.new).store }
{
    create_inside(store, pass, head, args)
}
