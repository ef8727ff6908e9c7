// Small calls on any store, which show what a store's contract gives.
ghost use Rattle.std.specs.Prelude.{◌≡◌, ◌+◌, ◌<◌, ◌≤◌, Ok, Some, OnOk, IfOk, IsTrue, true};
ghost use Rattle.term_model.specs.Tree.{root};
ghost use Rattle.terms_api.specs.Terms.{IsHeld, IsSound, tree_at, trees};
ghost use Rattle.terms_calls.specs.Calls.{pair, Grown};

use term_model::{Head, Row, Symbol};
use terms_api::{BuildFault, Deep, Terms};

/// Builds a leaf, the same leaf, and a node over both.
pub fn build_pair<T: Terms>(terms: &mut T, leaf: Symbol, node: Symbol) -> Result<(), BuildFault>
    requires inside { (T.store terms.old).inside ≡ true }
    requires width { 2 ≤ (T.store terms.old).widest }
    ensures ok { OnOk result (Grown (T.store terms.old) (T.store terms.new) (pair leaf node)) }
    ensures sound { IsSound (T.store terms.new) }
    ensures same { T.same terms.old terms.new }
{
    terms.build(Head::App(leaf), 0)?;
    terms.build(Head::App(leaf), 0)?;
    terms.build(Head::App(node), 2)?;
    Ok(())
}

/// Builds one tree twice, takes both from the stack, and says whether they had one row.
pub fn have_one_row<T: Terms>(terms: &mut T, leaf: Symbol, node: Symbol) -> Result<bool, BuildFault>
    requires inside { (T.store terms.old).inside ≡ true }
    requires width { 2 ≤ (T.store terms.old).widest }
    ensures one { IfOk result IsTrue }
    ensures trees { OnOk result (trees (T.store terms.new) ≡ trees (T.store terms.old)) }
    ensures same { T.same terms.old terms.new }
{
    let before = terms.depth();
    build_pair(terms, leaf, node)?;
    build_pair(terms, leaf, node)?;
    let first = terms.at(before);
    let second = terms.at(before + 1);
    terms.keep(before, 0);
    Ok(first == second)
}

/// Pushes a held row, reads its head from the stack, and takes it off again.
pub fn read_back<T: Terms>(terms: &mut T, row: Row) -> Result<Head, Deep>
    requires inside { (T.store terms.old).inside ≡ true }
    requires held { IsHeld (T.store terms.old) row }
    ensures head { IfOk result (λ head. root (tree_at (T.store terms.old) row) ≡ Some head) }
    ensures unchanged { T.store terms.new ≡ T.store terms.old }
    ensures same { T.same terms.old terms.new }
{
    let before = terms.depth();
    terms.push(row)?;
    let top = terms.at(before);
    let head = terms.head(top);
    terms.keep(before, 0);
    Ok(head)
}
