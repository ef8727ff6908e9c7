//! Makes terms of their nodes.
ghost use Rattle.std.specs.Prelude.{◌≡◌, ◌++◌, ◌∷◌, map, replicate, IfOk, OnOk, IsSome, Some, All, ◌<◌, length, unwrap_or, slice_get};
ghost use Rattle.term_model.specs.Postorder.{tree_of};
ghost use Rattle.term_model.specs.declared.Item.TheVariants.{Nil, Cons};
ghost use Rattle.term_syntax.specs.Items.{items_at, trees_at, AreWithin};

use crate::machine::Node;
use crate::nodes::Nodes;
use sequences::Sequence;
use std::alloc::{AllocError, Global};
use term_model::{Flat, Item};
use tree_text::Flats;

// Puts an item at the end, and so many cells.
fn push_items(items: &mut Vec<Item>, item: Item, cells: u32) -> Result<(), AllocError>
    ensures { OnOk result (items.new.items ≡ items.old.items ++ item ∷ replicate cells Cons) }
{
    items.push(item)?;
    for _cell in 0..cells {
        items.push(Item::Cons)?;
    }
    Ok(())
}

// The item of the part with this number.
fn item_at(items: &[Item], part: usize) -> Item
    requires { part < length items.now }
    ensures { result ≡ unwrap_or (slice_get items.now part) Nil }
{
    items[part]
}

// The term that nodes spell.
fn flat_of(alloc: Global, items: &[Item], nodes: &[Node]) -> Result<Flat, AllocError>
    requires spelled { IsSome (tree_of (items_at items.now nodes.now)) }
    requires within { AreWithin (length items.now) nodes.now }
    ensures { IfOk result (λ t. tree_of (items_at items.now nodes.now) ≡ Some t) }
{
    let mut spelled = Vec::with_capacity(alloc, nodes.len())?;
    for node in nodes {
        push_items(&mut spelled, item_at(items, node.part as usize), node.cells)?;
    }
    match Flat::of(spelled) {
        Some(flat) => Ok(flat),
        None => unreachable!(),
    }
}

/// The terms that nodes spell.
pub(crate) fn flats(alloc: Global, items: &[Item], nodes: &Nodes) -> Result<Flats, AllocError>
    requires spelled { All (λ ns. IsSome (tree_of (items_at items.now ns))) nodes.now.terms }
    requires within { All (AreWithin (length items.now)) nodes.now.terms }
    ensures { IfOk result (λ f. map Some f ≡ trees_at items.now nodes.now.terms) }
{
    let mut flats = Sequence::new(alloc);
    for number in 0..nodes.count() {
        flats.push(flat_of(alloc, items, nodes.term(number))?)?;
    }
    Ok(flats)
}
