// Marking with a stack of rows that wait.
ghost use Rattle.std.specs.Prelude.{◌≡◌, ◌+◌, ◌-◌, ◌*◌, ◌<◌, ◌≤◌, [], List, Bool, true, false, length, take, slice_set, slice_index_or, Contains};
ghost use Rattle.term_model.specs.declared.Row.{Row};
ghost use Rattle.mark_phase.specs.Reachable.{Reaches, IsClosed, AddsReached};
ghost use Rattle.mark_phase.specs.Steps.{Halfway, marked_count, with_waiting};

use crate::{Graph, Marks};
use term_model::Row;

/// Marks every row that can be reached from the root, and no other. What was marked before stays,
/// and it must hold its children. Takes no memory, and doesn't recurse.
pub fn mark<G: Graph>(graph: &mut G, root: Row, marks: &mut Marks)
    requires readable { (r : Row) → Reaches (G.children graph.old) root r → G.may_read graph.old r }
    requires below { (r : Row) → Reaches (G.children graph.old) root r → r.0 < length marks.old }
    requires closed { IsClosed (G.children graph.old) marks.old }
    ensures marked { AddsReached (G.children graph.old) root marks.old marks.new }
    ensures same { G.same graph.old graph.new }
{
    mark_from(graph, root, &mut marks.marked, &mut marks.waiting);
}

fn mark_from<G: Graph>(graph: &mut G, root: Row, marked: &mut [bool], waiting: &mut [Row])
    requires readable { (r : Row) → Reaches (G.children graph.old) root r → G.may_read graph.old r }
    requires below { (r : Row) → Reaches (G.children graph.old) root r → r.0 < length marked.old }
    requires closed { IsClosed (G.children graph.old) marked.old }
    requires room { length waiting.old ≡ length marked.old }
    ensures marked { AddsReached (G.children graph.old) root marked.old marked.new }
    ensures same { G.same graph.old graph.new }
{
    let mut used = visit(root, marked, waiting, 0);
    'rows: while used > 0 {
        used -= 1;
        let row = waiting[used];
        used = visit_children(graph, row, marked, waiting, used);
    }
}

// Marks a row and lets it wait, unless it is marked.
fn visit(row: Row, marked: &mut [bool], waiting: &mut [Row], used: usize) -> usize
    requires below { row.0 < length marked.old }
    requires room { length waiting.old ≡ length marked.old }
    requires used { used ≤ marked_count marked.old }
    ensures marked { marked.new ≡ slice_set marked.old row.0 true }
    ensures waiting { take result waiting.new
        ≡ with_waiting (slice_index_or marked.old row.0 false) row (take used waiting.old) }
    ensures used { result ≤ marked_count marked.new }
    ensures less { result + 2 * marked_count marked.old ≤ used + 2 * marked_count marked.new }
{
    if marked[row.0 as usize] {
        return used;
    }
    marked[row.0 as usize] = true;
    waiting[used] = row;
    used + 1
}

// Visits the children of a row that no longer waits.
fn visit_children<G: Graph>(
    graph: &mut G,
    row: Row,
    marked: &mut [bool],
    waiting: &mut [Row],
    used: usize,
) -> usize
    requires may { G.may_read graph.old row }
    requires below { (q : Row) → Contains (G.children graph.old row) q → q.0 < length marked.old }
    requires room { length waiting.old ≡ length marked.old }
    requires used { used ≤ marked_count marked.old }
    ensures halfway { (old : List Bool) (root : Row)
        → Halfway (G.children graph.old) root old marked.old (take used waiting.old) row
        (G.children graph.old row)
        → Halfway (G.children graph.old) root old marked.new (take result waiting.new) row [] }
    ensures used { result ≤ marked_count marked.new }
    ensures less { result + 2 * marked_count marked.old ≤ used + 2 * marked_count marked.new }
    ensures same { G.same graph.old graph.new }
{
    let mut used = used;
    for j in 0..graph.count(row) {
        let child = graph.child(row, j);
        used = visit(child, marked, waiting, used);
    }
    used
}
