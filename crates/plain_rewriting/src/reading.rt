//! Boxed terms from terms in postorder.

ghost use Rattle.std.specs.Prelude.{◌≡◌, IfOk};
ghost use Rattle.term_model.specs.Tree.{More};
ghost use Rattle.plain_rewriting.specs.Boxed.{tree_of, trees_in, IsTaken, IsOver, IsPushed};

use crate::boxed::{Arguments, Term};
use faults::Memory;
use std::alloc::Global;
use term_model::{Flat, Head, Item};

impl Term {
    /// The tree of a term in postorder, in boxes.
    pub fn of(alloc: Global, flat: &Flat) -> Result<Self, Memory>
        ensures { IfOk result (λ t. tree_of t ≡ flat.now) }
    {
        let mut stack = Arguments::Empty;
        for item in flat.items() {
            stack = pushed(alloc, *item, stack)?;
        }
        match stack {
            Arguments::Next(term, _) => Ok(Box::into_inner(term)),
            Arguments::Empty => unreachable!(),
        }
    }
}

/// The terms that were taken from a stack, and what is left of it.
#[derive(Drop)]
struct Taken {
    args: Arguments,
    rest: Arguments,
}

/// Takes so many terms from a stack, whose top is first, in front of those taken before.
fn take(alloc: Global, count: u32, stack: Arguments, taken: Arguments) -> Result<Taken, Memory>
    ensures { IfOk result
        (λ r. IsTaken count (trees_in stack) (trees_in taken) (trees_in r.args) (trees_in r.rest)) }
{
    if count == 0 {
        return Ok(Taken {
            args: taken,
            rest: stack,
        });
    }
    match stack {
        Arguments::Empty => Ok(Taken {
            args: taken,
            rest: Arguments::Empty,
        }),
        Arguments::Next(term, rest) => {
            let taken = Arguments::Next(term, Box::new(alloc, taken)?);
            take(alloc, count - 1, Box::into_inner(rest), taken)
        }
    }
}

/// The stack after an item of a tree.
fn pushed(alloc: Global, item: Item, stack: Arguments) -> Result<Arguments, Memory>
    ensures { IfOk result (λ after. IsPushed item (trees_in stack) (trees_in after)) }
{
    match item {
        Item::Var(x) => on_top(alloc, Term::Var(x), stack),
        Item::App(symbol, count) => over(alloc, Head::App(symbol), count, stack),
        Item::Int(value) => over(alloc, Head::Int(value), 0, stack),
        Item::Nil => over(alloc, Head::Nil, 0, stack),
        Item::Cons => over(alloc, Head::Cons, 2, stack),
    }
}

fn over(alloc: Global, head: Head, count: u32, stack: Arguments) -> Result<Arguments, Memory>
    ensures { IfOk result (λ after. IsOver head count (trees_in stack) (trees_in after)) }
{
    let taken = take(alloc, count, stack, Arguments::Empty)?;
    on_top(alloc, Term::Over(head, taken.args), taken.rest)
}

fn on_top(alloc: Global, term: Term, stack: Arguments) -> Result<Arguments, Memory>
    ensures { IfOk result (λ after. trees_in after ≡ More (tree_of term) (trees_in stack)) }
{
    let term = Box::new(alloc, term)?;
    let rest = Box::new(alloc, stack)?;
    Ok(Arguments::Next(term, rest))
}
