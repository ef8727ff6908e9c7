//! The rows that the protected rows of all passes reach are marked.
ghost use Rattle.std.specs.Prelude.{◌≡◌, ◌<◌, ◌+◌, length};
ghost use Rattle.store_model.specs.declared.view.Place.TheVariants.{RootCount};
ghost use Rattle.store_model.specs.Marks.{MarksReached};
ghost use Rattle.store_model.specs.Steps.{ReachesByWords};
ghost use Rattle.row_sweep.specs.Gathered.{sizes_of, words_of, HasGathered, LoadsAgain};
ghost use Rattle.mark_phase.specs.Reachable.{IsClosed, AddsReached};
ghost use Rattle.row_sweep.specs.Marked.{MarksTo, children_of, row_of};

use crate::reading::{child_of, count_of, root_count_of, root_of};
use crate::sweep::Sweep;
use busy_forbidden::Seat;
use mark_phase::{Graph, Marks, mark};
use node_rows::NodeRows;
use term_model::Row;

// The rows with their arguments, as a collection loads them again.
#[derive(Drop)]
struct Reading<'a> {
    sweep: &'a Sweep<'a>,
    seat: &'a mut Seat<NodeRows>,
}

impl Graph for Reading<'_> {
    ghost use Rattle.std.specs.Prelude.{◌≡◌, refl};
    ghost use Rattle.std.proofs.Common.{◌∙◌};
    ghost use Rattle.row_sweep.specs.Gathered.{words_of};
    ghost use Rattle.row_sweep.specs.Marked.{children_of};
    ghost use Rattle.row_sweep.specs.Read.{MayRead, ReadsOn, reads_itself, reads_in_turn, reads_same, reads_still};

    ghost children = { λ g. children_of (words_of g.seat.now.seat) };

    ghost may_read = { λ g r. MayRead g.sweep.now g.seat.now.seat g.seat.now.number g.seat.now.seats r };

    ghost same = { λ g h. ReadsOn g.sweep.now g.seat.now.seat g.seat.now.number g.seat.now.seats h.sweep.now h.seat.now.seat h.seat.now.number h.seat.now.seats
        × (h.seat.ghost_name ≡ g.seat.ghost_name) };

    ghost same_as_itself = { λ g. (reads_itself g.sweep.now g.seat.now.seat g.seat.now.number g.seat.now.seats, refl) };

    ghost same_in_turn = { λ g h i e f. (
      reads_in_turn g.sweep.now g.seat.now.seat g.seat.now.number g.seat.now.seats h.sweep.now h.seat.now.seat h.seat.now.number h.seat.now.seats
          i.sweep.now i.seat.now.seat i.seat.now.number i.seat.now.seats e.0 f.0,
      f.1 ∙ e.1,
    ) };

    ghost same_children = { λ g h e r. reads_same g.sweep.now g.seat.now.seat g.seat.now.number g.seat.now.seats h.sweep.now h.seat.now.seat h.seat.now.number h.seat.now.seats e.0 r };

    ghost same_reading = { λ g h e r may. reads_still g.sweep.now g.seat.now.seat g.seat.now.number g.seat.now.seats h.sweep.now h.seat.now.seat h.seat.now.number h.seat.now.seats e.0 r may };

    fn count(&mut self, row: Row) -> u32 {
        count_of(self.sweep, self.seat, row.0)
    }

    fn child(&mut self, row: Row, j: u32) -> Row {
        Row(child_of(self.sweep, self.seat, row.0, j))
    }
}

// Marks what a protected row reaches.
fn mark_root(sweep: &Sweep<'_>, seat: &mut Seat<NodeRows>, marks: &mut Marks, row: u32)
    requires at { HasGathered sweep.now seat.old.seat seat.old.number seat.old.seats }
    requires reached { ReachesByWords (words_of seat.old.seat) row }
    requires size { length marks.old ≡ (sizes_of sweep.now).rows }
    requires closed { IsClosed (children_of (words_of seat.old.seat)) marks.old }
    ensures at { HasGathered sweep.now seat.new.seat seat.new.number seat.new.seats }
    ensures again { LoadsAgain sweep.now seat.old.seat seat.old.number seat.old.seats seat.new.seat
        seat.new.number seat.new.seats }
    ensures marked { AddsReached (children_of (words_of seat.old.seat)) (row_of row) marks.old
        marks.new }
{
    let mut reading = Reading { sweep, seat };
    mark(&mut reading, Row(row), marks);
}

// Marks what the k-th protected row of a pass reaches.
fn mark_one(sweep: &Sweep<'_>, seat: &mut Seat<NodeRows>, marks: &mut Marks, j: u32, k: u32)
    requires at { HasGathered sweep.now seat.old.seat seat.old.number seat.old.seats }
    requires below { j < (sizes_of sweep.now).seats }
    requires within { k < words_of seat.old.seat (RootCount j) }
    requires marks { MarksTo (words_of seat.old.seat) (sizes_of sweep.now).rows j k marks.old }
    ensures at { HasGathered sweep.now seat.new.seat seat.new.number seat.new.seats }
    ensures again { LoadsAgain sweep.now seat.old.seat seat.old.number seat.old.seats seat.new.seat
        seat.new.number seat.new.seats }
    ensures marks { MarksTo (words_of seat.old.seat) (sizes_of sweep.now).rows j (k + 1) marks.new }
{
    let row = root_of(sweep, seat, j, k);
    mark_root(sweep, seat, marks, row);
}

// Marks what the protected rows of a pass reach.
fn mark_seat(sweep: &Sweep<'_>, seat: &mut Seat<NodeRows>, marks: &mut Marks, j: u32)
    requires at { HasGathered sweep.now seat.old.seat seat.old.number seat.old.seats }
    requires below { j < (sizes_of sweep.now).seats }
    requires marks { MarksTo (words_of seat.old.seat) (sizes_of sweep.now).rows j 0 marks.old }
    ensures at { HasGathered sweep.now seat.new.seat seat.new.number seat.new.seats }
    ensures again { LoadsAgain sweep.now seat.old.seat seat.old.number seat.old.seats seat.new.seat
        seat.new.number seat.new.seats }
    ensures marks { MarksTo (words_of seat.old.seat) (sizes_of sweep.now).rows (j + 1) 0 marks.new }
{
    let count = root_count_of(sweep, seat, j);
    for k in 0..count {
        mark_one(sweep, seat, marks, j, k);
    }
}

/// Marks exactly the rows that are reached from the protected rows of all passes.
pub(crate) fn mark_all(sweep: &Sweep<'_>, seat: &mut Seat<NodeRows>, marks: &mut Marks)
    requires at { HasGathered sweep.now seat.old.seat seat.old.number seat.old.seats }
    requires size { length marks.old ≡ (sizes_of sweep.now).rows }
    ensures at { HasGathered sweep.now seat.new.seat seat.new.number seat.new.seats }
    ensures again { LoadsAgain sweep.now seat.old.seat seat.old.number seat.old.seats seat.new.seat
        seat.new.number seat.new.seats }
    ensures marks { MarksReached (words_of seat.old.seat) (sizes_of sweep.now).rows marks.new }
{
    marks.clear();
    for j in 0..sweep.store.sizes.seats {
        mark_seat(sweep, seat, marks, j);
    }
}
