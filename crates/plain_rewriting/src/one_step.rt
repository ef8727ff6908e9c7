//! All single steps of a term, by the plain program.

ghost use Rattle.std.specs.Prelude.{◌≡◌, ◌++◌, IfOk, OnOk, map, drop};
ghost use Rattle.term_model.specs.Tree.{Node, More};
ghost use Rattle.rewrite_model.specs.Steps.{steps_by, steps_at_root, steps_of, steps_in as steps_inside};
ghost use Rattle.plain_rewriting.specs.Boxed.{tree_of, trees_in, trees, argument_lists};

use crate::boxed::{Arguments, Term};
use faults::Memory;
use rewrite_model::Rule;
use std::alloc::Global;
use term_model::Head;

/// All terms to which one step by rules without conditions leads: those by a rule at the root in
/// written order, then those inside the arguments from left to right.
#[cycle(one_step)]
pub fn steps(alloc: Global, rules: &[Rule], term: &Term) -> Result<Vec<Term>, Memory>
    ensures { IfOk result (λ us. trees us.items ≡ steps_of rules.now (tree_of term.now)) }
{
    let mut list = Vec::new(alloc);
    at_root(alloc, rules, 0, term, &mut list)?;
    match term {
        Term::Var(_) => Ok(list),
        Term::Over(head, args) => {
            let changed = steps_in(alloc, rules, args)?;
            over_each(alloc, *head, &changed, 0, &mut list)?;
            Ok(list)
        }
    }
}

#[cycle(one_step)]
fn steps_in(alloc: Global, rules: &[Rule], args: &Arguments) -> Result<Vec<Arguments>, Memory>
    ensures { IfOk result
        (λ us. argument_lists us.items ≡ steps_inside rules.now (trees_in args.now)) }
{
    let mut list = Vec::new(alloc);
    match args {
        Arguments::Empty => Ok(list),
        Arguments::Next(term, rest) => {
            let firsts = steps(alloc, rules, term)?;
            let rests = steps_in(alloc, rules, rest)?;
            each_before(alloc, &firsts, 0, rest, &mut list)?;
            before_each(alloc, term, &rests, 0, &mut list)?;
            Ok(list)
        }
    }
}

/// Appends the instances of the right sides of the rules that match, from one of the rules on.
fn at_root(
    alloc: Global,
    rules: &[Rule],
    from: usize,
    term: &Term,
    list: &mut Vec<Term>,
) -> Result<(), Memory>
    ensures { OnOk result
        (trees list.new.items ≡ trees list.old.items ++ steps_at_root (drop from rules.now)
        (tree_of term.now)) }
{
    if from >= rules.len() {
        return Ok(());
    }
    by_rule(alloc, &rules[from], term, list)?;
    at_root(alloc, rules, from + 1, term, list)
}

/// Appends the instance of a rule's right side where the rule matches.
fn by_rule(alloc: Global, rule: &Rule, term: &Term, list: &mut Vec<Term>) -> Result<(), Memory>
    ensures { OnOk result
        (trees list.new.items ≡ trees list.old.items ++ steps_by rule.now (tree_of term.now)) }
{
    let left_side = Term::of(alloc, rule.left())?;
    let Some(bound) = left_side.matches(alloc, term)? else {
        return Ok(());
    };
    let right_side = Term::of(alloc, rule.right())?;
    list.push(right_side.instance(alloc, &bound)?)?;
    Ok(())
}

/// Appends a head over each of some lists of arguments, from one of them on.
fn over_each(
    alloc: Global,
    head: Head,
    args: &[Arguments],
    from: usize,
    list: &mut Vec<Term>,
) -> Result<(), Memory>
    ensures { OnOk result
        (trees list.new.items ≡ trees list.old.items ++ map
        (λ us. Node head us) (argument_lists (drop from args.now))) }
{
    if from >= args.len() {
        return Ok(());
    }
    list.push(Term::Over(head, args[from].copy(alloc)?))?;
    over_each(alloc, head, args, from + 1, list)
}

/// Appends the arguments with each of some terms before the rest.
fn each_before(
    alloc: Global,
    firsts: &[Term],
    from: usize,
    rest: &Arguments,
    list: &mut Vec<Arguments>,
) -> Result<(), Memory>
    ensures { OnOk result (argument_lists list.new.items ≡ argument_lists list.old.items ++ map
        (λ u. More u (trees_in rest.now)) (trees (drop from firsts.now))) }
{
    if from >= firsts.len() {
        return Ok(());
    }
    list.push(before(alloc, &firsts[from], rest)?)?;
    each_before(alloc, firsts, from + 1, rest, list)
}

/// Appends the arguments with a term before each of some rests.
fn before_each(
    alloc: Global,
    first: &Term,
    rests: &[Arguments],
    from: usize,
    list: &mut Vec<Arguments>,
) -> Result<(), Memory>
    ensures { OnOk result (argument_lists list.new.items ≡ argument_lists list.old.items ++ map
        (λ us. More (tree_of first.now) us) (argument_lists (drop from rests.now))) }
{
    if from >= rests.len() {
        return Ok(());
    }
    list.push(before(alloc, first, &rests[from])?)?;
    before_each(alloc, first, rests, from + 1, list)
}

/// Arguments of a copied term before a copied rest.
fn before(alloc: Global, first: &Term, rest: &Arguments) -> Result<Arguments, Memory>
    ensures { IfOk result (λ ts. trees_in ts ≡ More (tree_of first.now) (trees_in rest.now)) }
{
    let first = Box::new(alloc, first.copy(alloc)?)?;
    let rest = Box::new(alloc, rest.copy(alloc)?)?;
    Ok(Arguments::Next(first, rest))
}
