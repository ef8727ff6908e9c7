//! Terms from their nodes.

ghost use Rattle.std.specs.Prelude.{◌≡◌, Some, IfOk, IsSome};
ghost use Rattle.rec_check.specs.Scope.{seen};
ghost use Rattle.rec_check.specs.Term.{all_of, item_in, tree_in};

use crate::scope::Scope;
use faults::Memory;
use rec_reader::{Node, Sequence};
use std::alloc::Global;
use term_model::{Flat, Item};

/// What the heads of a term stand for, in order.
fn items_of(alloc: Global, scope: &Scope, nodes: &[Node]) -> Result<Vec<Item>, Memory>
    requires { IsSome (all_of (item_in (seen scope.now)) nodes.now) }
    ensures { IfOk result (λ v. all_of (item_in (seen scope.now)) nodes.now ≡ Some v.items) }
{
    let mut items = Vec::with_capacity(alloc, nodes.len())?;
    for node in nodes {
        items.push(scope.item_of(*node))?;
    }
    Ok(items)
}

/// The tree of a term.
pub(crate) fn tree_of(alloc: Global, scope: &Scope, nodes: &[Node]) -> Result<Flat, Memory>
    requires { IsSome (tree_in (seen scope.now) nodes.now) }
    ensures { IfOk result (λ f. tree_in (seen scope.now) nodes.now ≡ Some f) }
{
    let items = items_of(alloc, scope, nodes)?;
    Ok(Flat::of(items).unwrap())
}

/// The trees of terms, in order.
pub(crate) fn trees_of(
    alloc: Global,
    scope: &Scope,
    terms: &[Sequence<Node>],
) -> Result<Vec<Flat>, Memory>
    requires { IsSome (all_of (tree_in (seen scope.now)) terms.now) }
    ensures { IfOk result (λ v. all_of (tree_in (seen scope.now)) terms.now ≡ Some v.items) }
{
    let mut trees = Vec::with_capacity(alloc, terms.len())?;
    for nodes in terms {
        trees.push(tree_of(alloc, scope, nodes.as_slice())?)?;
    }
    Ok(trees)
}
