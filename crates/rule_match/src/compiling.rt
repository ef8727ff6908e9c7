//! Left sides in preorder, in which a match goes through them.

ghost use Rattle.std.specs.Prelude.{◌≡◌, ◌++◌, IfOk, reverse};
ghost use Rattle.term_model.specs.Postorder.{arity_of};
ghost use Rattle.rule_match.specs.Preorder.{IsCompiled, preorder};

use faults::Memory;
use rewrite_model::Rule;
use std::alloc::Global;
use term_model::{Flat, Item};

/// The items of the left sides in one list, and where those of each rule begin.
#[derive(Drop)]
pub(crate) struct Compiled {
    pub(crate) items: Vec<Item>,
    pub(crate) starts: Vec<usize>,
}

/// The left sides of rules in preorder, one after another.
pub(crate) fn compile(alloc: Global, rules: &[Rule]) -> Result<Compiled, Memory>
    ensures { IfOk result (λ compiled.
        IsCompiled rules.now compiled.items.items compiled.starts.items) }
{
    let mut items = Vec::new(alloc);
    let mut starts = vec![in alloc; 0]?;
    for rule in rules {
        append(alloc, rule.left(), &mut items)?;
        starts.push(items.len())?;
    }
    Ok(Compiled { items, starts })
}

/// Appends a pattern in preorder. It takes time linear in the pattern's nodes.
fn append(alloc: Global, pattern: &Flat, items: &mut Vec<Item>) -> Result<(), Memory>
    ensures { IfOk result (λ _. items.new.items ≡ items.old.items ++ preorder pattern.now) }
{
    let mut put = reversed_preorder(alloc, pattern)?;
    put.reverse();
    items.extend_from_slice(&put)?;
    Ok(())
}

/// An item that stands before its arguments. So many of them are still to come, the last one first.
#[derive(Clone, Copy)]
struct Waiting {
    item: Item,
    count: u32,
}

impl Waiting {
    /// An item that waits for all its arguments.
    fn of(item: Item) -> Self
        ensures item { result.item ≡ item }
        ensures count { result.count ≡ arity_of item }
    {
        Waiting {
            item,
            count: item.arity(),
        }
    }
}

/// A pattern in preorder, from its last item to its first. The items in postorder are read from
/// their end, where each stands after its arguments, and it waits until these are put.
fn reversed_preorder(alloc: Global, pattern: &Flat) -> Result<Vec<Item>, Memory>
    ensures { IfOk result (λ put. reverse put.items ≡ preorder pattern.now) }
{
    let items = pattern.items();
    let mut before = items.len() - 1;
    let mut put = Vec::new(alloc);
    let mut waiting = vec![in alloc; Waiting::of(items[before])]?;
    'items: while let Some(last) = waiting.pop() {
        if last.count == 0 {
            put.push(last.item)?;
            continue 'items;
        }
        before -= 1;
        waiting.push(Waiting {
            item: last.item,
            count: last.count - 1,
        })?;
        waiting.push(Waiting::of(items[before]))?;
    }
    Ok(put)
}
