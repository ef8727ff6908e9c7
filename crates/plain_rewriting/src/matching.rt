//! Matching and instances, by the plain program.

ghost use Rattle.std.specs.Prelude.{◌≡◌, IfOk};
ghost use Rattle.rewrite_model.specs.Matching.{bind as bind_of, match_from, match_all as match_all_of, match_of, instance, instances, tree_at as tree_bound};
ghost use Rattle.plain_rewriting.specs.Boxed.{tree_of, trees_in, trees, IsMatched, found};

use crate::boxed::{Arguments, Term, heads_are_same};
use faults::Memory;
use std::alloc::Global;

impl Term {
    /// The trees that a pattern's variables have where the pattern matches a term, in order of
    /// first occurrence; None where it doesn't.
    pub fn matches(&self, alloc: Global, term: &Term) -> Result<Option<Vec<Term>>, Memory>
        ensures { IfOk result (λ o. found o ≡ match_of (tree_of self.now) (tree_of term.now)) }
    {
        let mut bound = Vec::new(alloc);
        if match_into(alloc, self, term, &mut bound)? {
            Ok(Some(bound))
        } else {
            Ok(None)
        }
    }

    /// A pattern with the bound trees in place of its variables.
    #[cycle(instantiating)]
    pub fn instance(&self, alloc: Global, bound: &[Term]) -> Result<Term, Memory>
        ensures { IfOk result (λ t. tree_of t ≡ instance (tree_of self.now) (trees bound.now)) }
    {
        match self {
            Term::Var(x) => tree_at(alloc, *x, bound),
            Term::Over(head, args) => Ok(Term::Over(*head, args.instances(alloc, bound)?)),
        }
    }
}

impl Arguments {
    #[cycle(instantiating)]
    fn instances(&self, alloc: Global, bound: &[Term]) -> Result<Arguments, Memory>
        ensures { IfOk result
            (λ ts. trees_in ts ≡ instances (trees_in self.now) (trees bound.now)) }
    {
        match self {
            Arguments::Empty => Ok(Arguments::Empty),
            Arguments::Next(term, rest) => {
                let first = Box::new(alloc, term.instance(alloc, bound)?)?;
                let rest = Box::new(alloc, rest.instances(alloc, bound)?)?;
                Ok(Arguments::Next(first, rest))
            }
        }
    }
}

/// The tree that a variable is bound to; a variable that is not bound stays itself.
pub(crate) fn tree_at(alloc: Global, variable: u32, bound: &[Term]) -> Result<Term, Memory>
    ensures { IfOk result (λ t. tree_of t ≡ tree_bound variable (trees bound.now)) }
{
    let at = variable as usize;
    if at < bound.len() {
        bound[at].copy(alloc)
    } else {
        Ok(Term::Var(variable))
    }
}

/// Binds a variable, or tests that it is bound to this tree.
fn bind(alloc: Global, variable: u32, term: &Term, bound: &mut Vec<Term>) -> Result<bool, Memory>
    ensures { IfOk result
        (λ r. IsMatched r (bind_of variable (tree_of term.now) (trees bound.old.items))
        (trees bound.new.items)) }
{
    let at = variable as usize;
    if at < bound.len() {
        return Ok(bound[at].is_same(term));
    }
    if at > bound.len() {
        return Ok(false);
    }
    bound.push(term.copy(alloc)?)?;
    Ok(true)
}

/// Matches a pattern, after others that have bound trees.
#[cycle(matching)]
fn match_into(
    alloc: Global,
    pattern: &Term,
    term: &Term,
    bound: &mut Vec<Term>,
) -> Result<bool, Memory>
    ensures { IfOk result
        (λ r. IsMatched r
        (match_from (tree_of pattern.now) (tree_of term.now) (trees bound.old.items))
        (trees bound.new.items)) }
{
    match (pattern, term) {
        (Term::Var(x), _) => bind(alloc, *x, term, bound),
        (Term::Over(head, patterns), Term::Over(other, args)) => {
            if !heads_are_same(*head, *other) {
                return Ok(false);
            }
            match_all(alloc, patterns, args, bound)
        }
        (Term::Over(_, _), Term::Var(_)) => Ok(false),
    }
}

#[cycle(matching)]
fn match_all(
    alloc: Global,
    patterns: &Arguments,
    args: &Arguments,
    bound: &mut Vec<Term>,
) -> Result<bool, Memory>
    ensures { IfOk result
        (λ r. IsMatched r
        (match_all_of (trees_in patterns.now) (trees_in args.now) (trees bound.old.items))
        (trees bound.new.items)) }
{
    match (patterns, args) {
        (Arguments::Empty, Arguments::Empty) => Ok(true),
        (Arguments::Next(pattern, patterns), Arguments::Next(term, args)) => {
            if !match_into(alloc, pattern, term, bound)? {
                return Ok(false);
            }
            match_all(alloc, patterns, args, bound)
        }
        _ => Ok(false),
    }
}
