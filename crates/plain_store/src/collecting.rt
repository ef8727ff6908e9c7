// Mark and sweep.
ghost use Rattle.std.specs.Prelude.{◌≡◌, true, false, length};
ghost use Rattle.plain_store.specs.Slots.{children, AreSwept, FreesRow};
ghost use Rattle.plain_store.specs.Marked.{MarksFrom, ReachesWithin};
ghost use Rattle.plain_store.specs.Contents.{once_more};

use crate::nodes::Nodes;
use mark_phase::{Marks, mark};
use term_model::Row;

/// Marks the rows that can be reached from these.
fn mark_all(nodes: &mut Nodes, places: &[Row], marks: &mut Marks)
    requires size { length marks.old ≡ length nodes.old.slots }
    requires below { ReachesWithin nodes.old places.now }
    ensures nodes { nodes.new ≡ nodes.old }
    ensures size { length marks.new ≡ length marks.old }
    ensures marked { MarksFrom (children nodes.old) places.now marks.new }
{
    marks.clear();
    for row in places {
        mark(nodes, *row, marks);
    }
}

/// Frees the rows that can't be reached from these, and says whether there were any.
pub(crate) fn keep_reachable(nodes: &mut Nodes, places: &[Row], marks: &mut Marks) -> bool
    requires size { length marks.old ≡ length nodes.old.slots }
    requires below { ReachesWithin nodes.old places.now }
    ensures size { length marks.new ≡ length marks.old }
    ensures marked { MarksFrom (children nodes.old) places.now marks.new }
    ensures swept { AreSwept marks.new nodes.old nodes.new }
    ensures none { result ≡ false → nodes.new ≡ nodes.old }
    ensures some { result ≡ true → FreesRow nodes.old nodes.new }
{
    mark_all(nodes, places, marks);
    nodes.sweep(marks)
}

/// How often the epoch was raised, after one time more, up to 2^64 - 1 times.
pub(crate) fn raised_once(raised: u64) -> u64
    ensures { result ≡ once_more raised }
{
    raised.saturating_add(1)
}
