//! Builds terms in a store, item by item.
ghost use Rattle.std.specs.Prelude.{◌≡◌, ◌+◌, ◌<◌, ◌≤◌, ◌++◌, ◌∷◌, [], true, All, OnOk, OnErr, length};
ghost use Rattle.term_model.specs.Tree.{nodes, IsGround};
ghost use Rattle.term_model.specs.Postorder.{arity_of};
ghost use Rattle.terms_api.specs.Terms.{IsSound, MayBuild, but_last, asked, trees};
ghost use Rattle.plain_store.specs.Contents.{store_of, IsSame};
ghost use Rattle.term_commands.specs.Building.{Takes, after, IsNarrow};
ghost use Rattle.term_commands.specs.Different.{different};

use plain_store::PlainStore;
use term_model::{Flat, Head, Item};
use terms_api::{BuildFault, Terms};

/// The trees have more different subtrees than the store has rows.
#[derive(Clone, Copy)]
pub(crate) struct Full;

/// Builds the tree of a head over the last `n` trees. There is a place for it.
fn build(store: &mut PlainStore, head: Head, n: u32) -> Result<(), Full>
    requires inside { store.old.inside ≡ true }
    requires may { MayBuild (store_of store.old) head n }
    requires place { length store.old.stack < store.old.room }
    ensures built { OnOk result (trees (store_of store.new)
        ≡ but_last n (trees (store_of store.old)) ++ asked (store_of store.old) head n ∷ []) }
    ensures full { OnErr result (length store.old.trees
        < different (trees (store_of store.old) ++ asked (store_of store.old) head n ∷ [])) }
    ensures inside { store.new.inside ≡ true }
    ensures sound { IsSound (store_of store.new) }
    ensures same { IsSame store.old store.new }
{
    match store.build(head, n) {
        Ok(()) => Ok(()),
        Err(BuildFault::StoreFull) => Err(Full),
        Err(BuildFault::Deep) => unreachable!(),
        Err(BuildFault::Worn) => unreachable!(),
    }
}

/// Builds the tree of an item over the last trees.
fn build_item(store: &mut PlainStore, item: Item) -> Result<(), Full>
    requires inside { store.old.inside ≡ true }
    requires takes { Takes item (trees (store_of store.old)) }
    requires width { arity_of item ≤ store.old.widest }
    requires place { length store.old.stack < store.old.room }
    ensures built { OnOk result ((k : Takes item (trees (store_of store.old)))
        → trees (store_of store.new) ≡ after k) }
    ensures full { OnErr result ((k : Takes item (trees (store_of store.old)))
        → length store.old.trees < different (after k)) }
    ensures inside { store.new.inside ≡ true }
    ensures sound { IsSound (store_of store.new) }
    ensures same { IsSame store.old store.new }
{
    match item.head() {
        Some(head) => build(store, head, item.arity()),
        None => unreachable!(),
    }
}

/// Builds the tree of a term.
fn build_term(store: &mut PlainStore, term: &Flat) -> Result<(), Full>
    requires inside { store.old.inside ≡ true }
    requires sound { IsSound (store_of store.old) }
    requires ground { IsGround term.now }
    requires width { IsNarrow store.old.widest term.now }
    requires room { length store.old.stack + nodes term.now ≤ store.old.room }
    ensures built { OnOk result (trees (store_of store.new)
        ≡ trees (store_of store.old) ++ term.now ∷ []) }
    ensures full { OnErr result (length store.old.trees
        < different (trees (store_of store.old) ++ term.now ∷ [])) }
    ensures inside { store.new.inside ≡ true }
    ensures sound { IsSound (store_of store.new) }
    ensures same { IsSame store.old store.new }
{
    let items = term.items();
    for item in items {
        build_item(store, *item)?;
    }
    Ok(())
}

/// Builds the trees of terms, one after another, on an empty stack.
pub(crate) fn build_terms(store: &mut PlainStore, terms: &[Flat]) -> Result<(), Full>
    requires inside { store.old.inside ≡ true }
    requires sound { IsSound (store_of store.old) }
    requires empty { store.old.stack ≡ [] }
    requires ground { All IsGround terms.now }
    requires width { All (IsNarrow store.old.widest) terms.now }
    requires room { All (λ t. length terms.now + nodes t ≤ store.old.room) terms.now }
    ensures built { OnOk result (trees (store_of store.new) ≡ terms.now) }
    ensures full { OnErr result (length store.old.trees < different terms.now) }
    ensures inside { store.new.inside ≡ true }
    ensures sound { IsSound (store_of store.new) }
    ensures same { IsSame store.old store.new }
{
    for term in terms {
        build_term(store, term)?;
    }
    Ok(())
}
