//! How large a store terms need.
ghost use Rattle.std.specs.Prelude.{◌≤◌, ◌+◌, All, IfSome, length};
ghost use Rattle.term_model.specs.Tree.{nodes};
ghost use Rattle.term_model.specs.Postorder.{arity_of};
ghost use Rattle.term_commands.specs.Building.{IsNarrow};

use term_model::{Flat, Item};

/// The most nodes that a term has.
fn most_nodes(terms: &[Flat]) -> usize
    ensures { All (λ t. nodes t ≤ result) terms.now }
{
    let mut most = 0;
    for term in terms {
        most = term.node_count().max(most);
    }
    most
}

/// The room of a stack on which the terms are built one after another, each above those before it:
/// the number of terms, and the nodes of the largest, where 32 bits hold it.
pub(crate) fn depth_for(terms: &[Flat]) -> Option<u32>
    ensures { IfSome result (λ depth. All (λ t. length terms.now + nodes t ≤ depth) terms.now) }
{
    let depth = terms.len().checked_add(most_nodes(terms))?;
    u32::try_from(depth).ok()
}

/// The most arguments that an item takes.
fn most_arguments(items: &[Item]) -> u32
    ensures { All (λ i. arity_of i ≤ result) items.now }
{
    let mut most = 0;
    for item in items {
        most = item.arity().max(most);
    }
    most
}

/// The most arguments that a node of the terms has.
pub(crate) fn widest(terms: &[Flat]) -> u32
    ensures { All (IsNarrow result) terms.now }
{
    let mut widest = 0;
    for term in terms {
        widest = most_arguments(term.items()).max(widest);
    }
    widest
}
