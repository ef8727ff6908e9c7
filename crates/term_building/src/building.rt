//! Builds terms over the last trees of a store's stack.
ghost use Rattle.std.specs.Prelude.{◌≡◌, ◌++◌, ◌∷◌, ◌-◌, ◌≤◌, [], true, length, OnOk};
ghost use Rattle.term_model.specs.Tree as tree;
ghost use Rattle.term_model.specs.Tree.{Node};
ghost use Rattle.term_model.specs.declared.Head.TheVariants as head;
ghost use Rattle.terms_api.specs.Terms.{trees, last, but_last};
ghost use Rattle.term_building.specs.Trees.{list_tree, Cell, with_cell};

use crate::given_up::GivenUp;
use term_model::{Head, Symbol};
use terms_api::Terms;

/// Builds an integer.
#[inline(always)]
pub(crate) fn build_integer<T: Terms>(store: &mut T, value: u64) -> Result<(), GivenUp>
    requires inside { (T.store store.old).inside ≡ true }
    ensures built { OnOk result (trees (T.store store.new)
        ≡ trees (T.store store.old) ++ Node (head.Int value) tree.End ∷ []) }
    ensures inside { (T.store store.new).inside ≡ true }
    ensures wide { (T.store store.new).widest ≡ (T.store store.old).widest }
    ensures same { T.same store.old store.new }
{
    store.build(Head::Int(value), 0)?;
    Ok(())
}

/// Builds a symbol over the last trees.
#[inline(always)]
pub(crate) fn build_symbol<T: Terms>(
    store: &mut T,
    symbol: Symbol,
    count: u32,
) -> Result<(), GivenUp>
    requires inside { (T.store store.old).inside ≡ true }
    requires wide { count ≤ (T.store store.old).widest }
    requires there { count ≤ length (trees (T.store store.old)) }
    ensures built { OnOk result (trees (T.store store.new)
        ≡ but_last count (trees (T.store store.old))
        ++ Node (head.App symbol) (tree.trees_of (last count (trees (T.store store.old)))) ∷ []) }
    ensures inside { (T.store store.new).inside ≡ true }
    ensures wide { (T.store store.new).widest ≡ (T.store store.old).widest }
    ensures same { T.same store.old store.new }
{
    store.build(Head::App(symbol), count)?;
    Ok(())
}

/// Builds the empty list.
fn build_empty<T: Terms>(store: &mut T) -> Result<(), GivenUp>
    requires inside { (T.store store.old).inside ≡ true }
    ensures built { OnOk result (trees (T.store store.new)
        ≡ trees (T.store store.old) ++ list_tree [] ∷ []) }
    ensures inside { (T.store store.new).inside ≡ true }
    ensures wide { (T.store store.new).widest ≡ (T.store store.old).widest }
    ensures same { T.same store.old store.new }
{
    store.build(Head::Nil, 0)?;
    Ok(())
}

/// Builds a cell over the last tree but one and the last, which is a list.
#[inline(always)]
fn build_cell<T: Terms>(store: &mut T) -> Result<(), GivenUp>
    requires inside { (T.store store.old).inside ≡ true }
    requires wide { 2 ≤ (T.store store.old).widest }
    requires cell { Cell (trees (T.store store.old)) }
    ensures built { OnOk result ((c : Cell (trees (T.store store.old)))
        → trees (T.store store.new) ≡ with_cell c) }
    ensures inside { (T.store store.new).inside ≡ true }
    ensures wide { (T.store store.new).widest ≡ (T.store store.old).widest }
    ensures same { T.same store.old store.new }
{
    store.build(Head::Cons, 2)?;
    Ok(())
}

/// Builds a list of the last trees.
pub(crate) fn build_list<T: Terms>(store: &mut T, count: u32) -> Result<(), GivenUp>
    requires inside { (T.store store.old).inside ≡ true }
    requires wide { 2 ≤ (T.store store.old).widest }
    requires there { count ≤ length (trees (T.store store.old)) }
    ensures built { OnOk result (trees (T.store store.new)
        ≡ but_last count (trees (T.store store.old))
        ++ list_tree (last count (trees (T.store store.old))) ∷ []) }
    ensures inside { (T.store store.new).inside ≡ true }
    ensures wide { (T.store store.new).widest ≡ (T.store store.old).widest }
    ensures same { T.same store.old store.new }
{
    build_empty(store)?;
    for _cell in 0..count {
        build_cell(store)?;
    }
    Ok(())
}

/// How many trees stand on the stack after so many.
#[inline(always)]
pub(crate) fn count_from<T: Terms>(store: &T, base: u32) -> u32
    ensures { result ≡ length (trees (T.store store.now)) - base }
{
    store.depth().saturating_sub(base)
}

/// How many trees stand on the stack.
#[inline(always)]
pub(crate) fn count_all<T: Terms>(store: &T) -> u32
    ensures { result ≡ length (trees (T.store store.now)) }
{
    store.depth()
}
