//! Whether a tree is small enough.

ghost use Rattle.std.specs.Prelude.{◌≡◌, ◌+◌, ◌≤◌, ◌↔◌, IfOk, OnOk, IsTrue, All, true};
ghost use Rattle.term_model.specs.Tree.{nodes};
ghost use Rattle.terms_api.specs.Terms.{IsHeld, tree_at};
ghost use Rattle.term_text.specs.Nodes.{nodes_at, nodes_of_rows};

use faults::Memory;
use std::alloc::Global;
use term_model::Row;
use terms_api::Terms;

/// Whether the tree of a held row has at most so many nodes. No more nodes than that are looked
/// at, however many the tree has.
pub(crate) fn has_at_most<T: Terms>(
    alloc: Global,
    terms: &mut T,
    row: Row,
    most: u64,
) -> Result<bool, Memory>
    requires inside { (T.store terms.old).inside ≡ true }
    requires held { IsHeld (T.store terms.old) row }
    ensures exact { IfOk result (λ few. IsTrue few
        ↔ (nodes (tree_at (T.store terms.old) row) ≤ most)) }
    ensures unchanged { T.store terms.new ≡ T.store terms.old }
    ensures same { T.same terms.old terms.new }
{
    let mut waiting = Vec::new(alloc);
    waiting.push(row)?;
    let mut left = most;
    'rows: while let Some(top) = waiting.pop() {
        if left == 0 {
            return Ok(false);
        }
        left -= 1;
        push_arguments(terms, top, &mut waiting)?;
    }
    Ok(true)
}

/// Puts the arguments of a held row's tree on a stack.
fn push_arguments<T: Terms>(terms: &mut T, row: Row, stack: &mut Vec<Row>) -> Result<(), Memory>
    requires inside { (T.store terms.old).inside ≡ true }
    requires held { IsHeld (T.store terms.old) row }
    requires stack_held { All (IsHeld (T.store terms.old)) stack.old.items }
    ensures nodes { OnOk result (nodes_of_rows (T.store terms.old) stack.new.items + 1
        ≡ nodes_of_rows (T.store terms.old) stack.old.items + nodes_at (T.store terms.old) row) }
    ensures held { OnOk result (All (IsHeld (T.store terms.old)) stack.new.items) }
    ensures unchanged { T.store terms.new ≡ T.store terms.old }
    ensures same { T.same terms.old terms.new }
{
    for j in 0..terms.count(row) {
        let argument = terms.child(row, j);
        stack.push(argument)?;
    }
    Ok(())
}
