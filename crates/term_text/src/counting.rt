//! Counting the nodes of trees whose parts are shared, each part once.

ghost use Rattle.std.specs.Prelude.{◌≡◌, ◌<◌, ◌≤◌, ◌++◌, ◌∷◌, [], Contains, IfSome, IfNone, List, true, length};
ghost use Rattle.term_model.specs.Tree.{Tree, arguments, nodes};
ghost use Rattle.term_model.specs.declared.Row.{Row};
ghost use Rattle.terms_api.specs.Terms.{IsHeld, IsSound, tree_at};
ghost use Rattle.term_text.specs.Clear.{IsClear, HasPlaces, IsIdle};
ghost use Rattle.term_text.specs.Sizes.{saturated};
ghost use Rattle.term_text.specs.Tally.{count_at, IsCounted, CountedBefore, IsTally, IsHalfway, HasRoom, IsWithin, AreWithin, Continues, IsNext};

use term_model::Row;
use terms_api::Terms;

/// A row, and the place of an argument.
#[derive(Clone, Copy)]
pub(crate) struct Visit {
    pub(crate) row: Row,
    pub(crate) next: u32,
}

/// The count of nodes of each row, 0 where it isn't counted yet; the rows that are counted; and the
/// rows from a root down to where counting is, each with the first argument that may be uncounted.
#[derive(Drop)]
pub(crate) struct Tally {
    pub(crate) counts: Vec<u64>,
    pub(crate) rows: Vec<Row>,
    pub(crate) path: Vec<Visit>,
}

/// Makes the counts those of so many rows, none of which is counted. There is room for them, so
/// `resize` takes no memory, and its answer is Ok.
pub(crate) fn fill_counts(tally: &mut Tally, rows: u32)
    requires clear { IsClear tally.old }
    requires places { HasPlaces tally.old rows }
    ensures clear { IsClear tally.new }
    ensures size { length tally.new.counts.items ≡ rows }
{
    let _filled = tally.counts.resize(rows as usize, 0);
}

/// Counts the nodes of the tree of a held row, and those of each of its subtrees, unless they are
/// counted. It takes no memory, and looks at each row once and at each argument at most twice.
pub(crate) fn count_from<T: Terms>(terms: &mut T, row: Row, tally: &mut Tally)
    requires inside { (T.store terms.old).inside ≡ true }
    requires held { IsHeld (T.store terms.old) row }
    requires tally { IsTally (T.store terms.old) tally.old.counts.items tally.old.rows.items }
    requires room { HasRoom tally.old }
    requires idle { tally.old.path.items ≡ [] }
    ensures tally { IsTally (T.store terms.old) tally.new.counts.items tally.new.rows.items }
    ensures size { length tally.new.counts.items ≡ length tally.old.counts.items }
    ensures room { HasRoom tally.new }
    ensures idle { tally.new.path.items ≡ [] }
    ensures counted { IsCounted tally.new.counts.items row }
    ensures kept { (r : Row) → IsCounted tally.old.counts.items r
        → IsCounted tally.new.counts.items r }
    ensures within { (ts : List Tree) → IsWithin ts (tree_at (T.store terms.old) row)
        → AreWithin (T.store terms.old) ts tally.old.counts.items []
        → AreWithin (T.store terms.old) ts tally.new.counts.items [] }
    ensures unchanged { T.store terms.new ≡ T.store terms.old }
    ensures same { T.same terms.old terms.new }
{
    let _ = terms.depth();
    if tally.counts[row.0 as usize] > 0 {
        return;
    }
    tally.path.push_reserved(Visit { row, next: 0 });
    'path: while let Some(visit) = tally.path.pop() {
        go_on(terms, visit, tally);
    }
}

/// Visits the first argument that isn't counted, or counts the row where all are.
fn go_on<T: Terms>(terms: &mut T, visit: Visit, tally: &mut Tally)
    requires inside { (T.store terms.old).inside ≡ true }
    requires sound { IsSound (T.store terms.old) }
    requires halfway { IsHalfway (T.store terms.old) tally.old.counts.items tally.old.rows.items
        (tally.old.path.items ++ visit ∷ []) }
    requires room { HasRoom tally.old }
    ensures halfway { IsHalfway (T.store terms.old) tally.new.counts.items tally.new.rows.items
        tally.new.path.items }
    ensures continues { Continues (T.store terms.old)
        tally.old.counts.items tally.new.counts.items tally.old.rows.items tally.new.rows.items
        (tally.old.path.items ++ visit ∷ []) tally.new.path.items }
    ensures room { HasRoom tally.new }
    ensures unchanged { T.store terms.new ≡ T.store terms.old }
    ensures same { T.same terms.old terms.new }
{
    match first_uncounted(terms, visit, &tally.counts) {
        Some(next) => {
            tally.path.push_reserved(Visit {
                row: visit.row,
                next: next.next,
            });
            tally.path.push_reserved(Visit {
                row: next.row,
                next: 0,
            });
        }
        None => {
            let nodes = nodes_over(terms, visit.row, &tally.counts);
            tally.counts[visit.row.0 as usize] = nodes;
            tally.rows.push_reserved(visit.row);
        }
    }
}

/// The first argument that isn't counted, and its place.
fn first_uncounted<T: Terms>(terms: &mut T, visit: Visit, counts: &[u64]) -> Option<Visit>
    requires inside { (T.store terms.old).inside ≡ true }
    requires room { (T.store terms.old).rows ≤ length counts.now }
    requires held { IsHeld (T.store terms.old) visit.row }
    requires before { CountedBefore (T.store terms.old) counts.now visit.row visit.next }
    ensures next { IfSome result (IsNext (T.store terms.old) counts.now visit.row) }
    ensures all { IfNone result (CountedBefore (T.store terms.old) counts.now visit.row
        (length (arguments (tree_at (T.store terms.old) visit.row)))) }
    ensures unchanged { T.store terms.new ≡ T.store terms.old }
    ensures same { T.same terms.old terms.new }
{
    for j in visit.next..terms.count(visit.row) {
        let row = terms.child(visit.row, j);
        if counts[row.0 as usize] == 0 {
            return Some(Visit { row, next: j });
        }
    }
    None
}

/// How many nodes a tree has whose arguments are counted.
fn nodes_over<T: Terms>(terms: &mut T, row: Row, counts: &[u64]) -> u64
    requires inside { (T.store terms.old).inside ≡ true }
    requires room { (T.store terms.old).rows ≤ length counts.now }
    requires held { IsHeld (T.store terms.old) row }
    requires exact { (r : Row) → IsCounted counts.now r
        → count_at counts.now r ≡ saturated (nodes (tree_at (T.store terms.old) r)) }
    requires all { CountedBefore (T.store terms.old) counts.now row
        (length (arguments (tree_at (T.store terms.old) row))) }
    ensures nodes { result ≡ saturated (nodes (tree_at (T.store terms.old) row)) }
    ensures unchanged { T.store terms.new ≡ T.store terms.old }
    ensures same { T.same terms.old terms.new }
{
    let mut nodes: u64 = 1;
    for j in 0..terms.count(row) {
        let argument = terms.child(row, j);
        nodes = nodes.saturating_add(counts[argument.0 as usize]);
    }
    nodes
}

/// Forgets all counts, and says how many there were. Only the counted rows are looked at.
pub(crate) fn clear(tally: &mut Tally) -> u64
    requires { IsIdle tally.old }
    ensures count { result ≡ length tally.old.rows.items }
    ensures clear { IsClear tally.new }
    ensures size { length tally.new.counts.items ≡ length tally.old.counts.items }
{
    let count = tally.rows.len();
    forget(&mut tally.counts, &tally.rows);
    tally.rows.clear();
    count as u64
}

/// Forgets the counts of these rows.
fn forget(counts: &mut [u64], rows: &[Row])
    requires listed { (r : Row) → IsCounted counts.old r → Contains rows.now r }
    requires only { (r : Row) → Contains rows.now r → r.0 < length counts.old }
    ensures none { (r : Row) → count_at counts.new r ≡ 0 }
    ensures size { length counts.new ≡ length counts.old }
{
    for row in rows {
        counts[row.0 as usize] = 0;
    }
}
