//! Terms and patterns in one list of items.

ghost use Rattle.std.specs.Prelude.{◌≡◌, ◌+◌, ◌<◌, ◌≤◌, ◌↔◌, IsTrue, IsSome, IfSome, IfNone, Some, None, List};
ghost use Rattle.std.specs.List.{list_all};
ghost use Rattle.term_model.specs.Tree.{Tree, IsWellFormed, IsGround, nodes, root};
ghost use Rattle.term_model.specs.Postorder.{postorder, tree_of, push_item, has_head};
ghost use Rattle.term_model.specs.Shape.{Summarizes, IsPushed};

use crate::{Head, Item};
use std::marker::Model;

/// A term or a pattern: a well-formed tree, kept as its items in postorder. Nothing here recurses
/// with the depth of the tree, and neither does a drop.
#[derive(Clone, Drop)]
pub struct Flat {
    items: Vec<Item>,
}

impl Model for Flat {
    ghost use Rattle.std.specs.Prelude.{IsSome};
    ghost use Rattle.term_model.specs.Tree.{Tree};
    ghost use Rattle.term_model.specs.Code.{tree_code};
    ghost use Rattle.term_model.specs.Postorder.{tree_of, tree_or_leaf};

    ghost Value = { Tree };

    ghost coded = { tree_code };

    ghost view = { λ f. tree_or_leaf (tree_of f.items.items) };

    ghost invariant = { λ f. IsSome (tree_of f.items.items) };
}

impl Flat {
    /// The well-formed tree with these items in postorder; None where there is no such tree.
    pub fn of(items: Vec<Item>) -> Option<Self>
        ensures tree { result ≡ tree_of items.items }
        ensures spelled { IfSome result (λ t. items.items ≡ postorder t) }
        ensures well_formed { IfSome result IsWellFormed }
        ensures refused { IfNone result ((t : Tree) → IsWellFormed t → items.items ≡ postorder t
            → ⊥) }
    {
        if spells_tree(&items) {
            Some(Flat { items })
        } else {
            None
        }
    }

    /// The items in postorder.
    pub fn items(&self) -> &[Item]
        ensures items { result.now ≡ postorder self.now }
        ensures well_formed { IsWellFormed self.now }
    {
        &self.items
    }
}

impl Flat {
    /// How many nodes the tree has; never 0.
    pub fn node_count(&self) -> usize
        ensures nodes { result ≡ nodes self.now }
        ensures never_none { 0 < result }
    {
        self.items().len()
    }

    /// The head at the root, which a variable doesn't have.
    pub fn root(&self) -> Option<Head>
        ensures { result ≡ root self.now }
    {
        self.items().last()?.head()
    }

    /// Whether there is no variable in the tree.
    pub fn is_ground(&self) -> bool
        ensures { IsTrue result ↔ IsGround self.now }
    {
        all_have_heads(self.items())
    }
}

/// Whether no item is a variable.
fn all_have_heads(items: &[Item]) -> bool
    ensures { result ≡ list_all has_head items.now }
{
    items.iter().all(|item| item.head().is_some())
}

/// The number of trees on a stack, and whether the last of them may stand where a list must.
#[derive(Clone, Copy)]
struct Shape {
    trees: usize,
    ends_in_list: bool,
}

/// The shape of the stack after an item has taken trees from it and put one on it; None where it
/// cannot.
fn shape_after(shape: Shape, item: Item) -> Option<Shape>
    requires { shape.trees < usize.MAX }
    ensures pushed { IfSome result (λ after. (s : List Tree) → Summarizes shape s
        → IsPushed after (push_item item s)) }
    ensures bound { IfSome result (λ after. after.trees ≤ shape.trees + 1) }
    ensures refused { IfNone result ((s : List Tree) → Summarizes shape s
        → push_item item s ≡ None) }
{
    match item {
        Item::Var(_) => Some(Shape {
            trees: shape.trees + 1,
            ends_in_list: true,
        }),
        Item::App(_, count) => {
            if shape.trees < count as usize {
                return None;
            }
            Some(Shape {
                trees: shape.trees - count as usize + 1,
                ends_in_list: false,
            })
        }
        Item::Int(_) => Some(Shape {
            trees: shape.trees + 1,
            ends_in_list: false,
        }),
        Item::Nil => Some(Shape {
            trees: shape.trees + 1,
            ends_in_list: true,
        }),
        Item::Cons => {
            if shape.trees < 2 || !shape.ends_in_list {
                return None;
            }
            Some(Shape {
                trees: shape.trees - 1,
                ends_in_list: true,
            })
        }
    }
}

/// Whether the items are those of a well-formed tree.
fn spells_tree(items: &[Item]) -> bool
    ensures { IsTrue result ↔ IsSome (tree_of items.now) }
{
    let mut shape = Shape {
        trees: 0,
        ends_in_list: false,
    };
    for item in items {
        match shape_after(shape, *item) {
            Some(after) => shape = after,
            None => return false,
        }
    }
    shape.trees == 1
}
