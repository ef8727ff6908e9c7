//! Outermost evaluation by the plain program.

ghost use Rattle.std.specs.Prelude.{◌≡◌, IfOk, drop};
ghost use Rattle.rewrite_model.specs.Outermost.{outermost as outermost_of, outermost_built};
ghost use Rattle.plain_rewriting.specs.Boxed.{trees};
ghost use Rattle.plain_rewriting.specs.Program.{ended};
ghost use Rattle.plain_rewriting.specs.OutwardSteps.{Builds, BuildsAll, BuildsNode, UsesFirst, StepsOnce, StepsIn, Rebuilds, StepsOn, Rewrites};

use crate::boxed::{Arguments, Term};
use crate::ends::{End, Evaluated, NoValue};
use crate::matching::tree_at;
use faults::Memory;
use rewrite_model::Rule;
use std::alloc::Global;
use term_model::{Flat, Head};

/// The leftmost outermost evaluation of a term by rules without conditions, with so many uses of
/// rules and so much room.
pub fn outermost(
    alloc: Global,
    rules: &[Rule],
    term: &Flat,
    fuel: u64,
    room: u32,
) -> Result<Evaluated, Memory>
    ensures built { IfOk result
        (λ e. trees e.built.items ≡ outermost_built rules.now term.now fuel room) }
    ensures end { IfOk result (λ e. ended e.end ≡ (outermost_of rules.now term.now fuel room).end) }
{
    let term = Term::of(alloc, term)?;
    let mut built = Vec::new(alloc);
    match from_term(alloc, rules, &term, fuel, room, &mut built) {
        Ok((value, left)) => Ok(Evaluated {
            built,
            end: End::Value(value, left),
        }),
        Err(NoValue::OutOfFuel) => Ok(Evaluated {
            built,
            end: End::OutOfFuel,
        }),
        Err(NoValue::TooDeep) => Ok(Evaluated {
            built,
            end: End::TooDeep,
        }),
        Err(NoValue::Memory) => Err(Memory),
    }
}

fn from_term(
    alloc: Global,
    rules: &[Rule],
    term: &Term,
    fuel: u64,
    room: u32,
    built: &mut Vec<Term>,
) -> Result<(Term, u64), NoValue>
    ensures { Rewrites rules.now term.now fuel room built.old built.new result }
{
    let (term, left) = build(alloc, &[], term, fuel, room, built)?;
    steps(alloc, rules, term, left, room, built)
}

/// Builds the instance of a pattern, and notes the trees that it builds.
#[cycle(building)]
fn build(
    alloc: Global,
    bound: &[Term],
    pattern: &Term,
    fuel: u64,
    room: u32,
    built: &mut Vec<Term>,
) -> Result<(Term, u64), NoValue>
    ensures { Builds bound.now pattern.now fuel room built.old built.new result }
{
    if room == 0 {
        return Err(NoValue::TooDeep);
    }
    match pattern {
        Term::Var(x) => {
            let value = tree_at(alloc, *x, bound)?;
            Ok((value, fuel))
        }
        Term::Over(head, patterns) => {
            let (args, left) = build_all(alloc, bound, patterns, fuel, room, built)?;
            over(alloc, *head, args, left, built)
        }
    }
}

/// The trees of patterns over what their variables are bound to, one after the other.
#[cycle(building)]
fn build_all(
    alloc: Global,
    bound: &[Term],
    patterns: &Arguments,
    fuel: u64,
    room: u32,
    built: &mut Vec<Term>,
) -> Result<(Arguments, u64), NoValue>
    ensures { BuildsAll bound.now patterns.now fuel room built.old built.new result }
{
    match patterns {
        Arguments::Empty => Ok((Arguments::Empty, fuel)),
        Arguments::Next(pattern, patterns) => {
            let below = room.saturating_sub(1);
            let (first, left) = build(alloc, bound, pattern, fuel, below, built)?;
            let (rest, left) = build_all(alloc, bound, patterns, left, below, built)?;
            let first = Box::new(alloc, first)?;
            let rest = Box::new(alloc, rest)?;
            Ok((Arguments::Next(first, rest), left))
        }
    }
}

/// A head over terms, which is one more tree that is built.
fn over(
    alloc: Global,
    head: Head,
    args: Arguments,
    fuel: u64,
    built: &mut Vec<Term>,
) -> Result<(Term, u64), NoValue>
    ensures { BuildsNode head args fuel built.old built.new result }
{
    let term = Term::Over(head, args);
    built.push(term.copy(alloc)?)?;
    Ok((term, fuel))
}

/// The term as the first rule that matches it leaves it, from one of the rules on; None where none
/// matches.
fn use_first(
    alloc: Global,
    rules: &[Rule],
    from: usize,
    term: &Term,
    fuel: u64,
    room: u32,
    built: &mut Vec<Term>,
) -> Result<Option<(Term, u64)>, NoValue>
    ensures { UsesFirst (drop from rules.now) term.now fuel room built.old built.new result }
{
    if from >= rules.len() {
        return Ok(None);
    }
    let rule = &rules[from];
    let left_side = Term::of(alloc, rule.left())?;
    let bound = match left_side.matches(alloc, term)? {
        Some(bound) => bound,
        None => return use_first(alloc, rules, from + 1, term, fuel, room, built),
    };
    if fuel == 0 {
        return Err(NoValue::OutOfFuel);
    }
    let right = Term::of(alloc, rule.right())?;
    let below = room.saturating_sub(1);
    let (changed, left) = build(alloc, &bound, &right, fuel - 1, below, built)?;
    Ok(Some((changed, left)))
}

/// One step at the root, or else in the first argument that doesn't stay the same; no term where
/// the term stays the same.
#[cycle(stepping)]
fn step(
    alloc: Global,
    rules: &[Rule],
    term: &Term,
    fuel: u64,
    room: u32,
    built: &mut Vec<Term>,
) -> Result<(Option<Term>, u64), NoValue>
    ensures { StepsOnce rules.now term.now fuel room built.old built.new result }
{
    if room == 0 {
        return Err(NoValue::TooDeep);
    }
    if let Some((changed, left)) = use_first(alloc, rules, 0, term, fuel, room, built)? {
        return Ok((Some(changed), left));
    }
    match term {
        Term::Var(_) => Ok((None, fuel)),
        Term::Over(head, args) => {
            let (stepped, left) = step_in(alloc, rules, args, fuel, room, built)?;
            rebuilt(alloc, *head, args, stepped, left, room, built)
        }
    }
}

/// One step in the first argument that has one.
#[cycle(stepping)]
fn step_in(
    alloc: Global,
    rules: &[Rule],
    args: &Arguments,
    fuel: u64,
    room: u32,
    built: &mut Vec<Term>,
) -> Result<(Option<Arguments>, u64), NoValue>
    ensures { StepsIn rules.now args.now fuel room built.old built.new result }
{
    match args {
        Arguments::Empty => Ok((None, fuel)),
        Arguments::Next(term, rest) => {
            let below = room.saturating_sub(1);
            let (stepped, left) = step(alloc, rules, term, fuel, below, built)?;
            if let Some(changed) = stepped {
                let changed = Box::new(alloc, changed)?;
                let rest = Box::new(alloc, rest.copy(alloc)?)?;
                return Ok((Some(Arguments::Next(changed, rest)), left));
            }
            let (stepped, left) = step_in(alloc, rules, rest, left, below, built)?;
            let Some(rest) = stepped else {
                return Ok((None, left));
            };
            let term = Box::new(alloc, term.copy(alloc)?)?;
            let rest = Box::new(alloc, rest)?;
            Ok((Some(Arguments::Next(term, rest)), left))
        }
    }
}

/// The term over changed arguments, built again; no term where they stayed the same.
fn rebuilt(
    alloc: Global,
    head: Head,
    args: &Arguments,
    stepped: Option<Arguments>,
    fuel: u64,
    room: u32,
    built: &mut Vec<Term>,
) -> Result<(Option<Term>, u64), NoValue>
    ensures { Rebuilds head args.now stepped fuel room built.old built.new result }
{
    let Some(changed) = stepped else {
        return Ok((None, fuel));
    };
    if u64::from(room) <= args.count() {
        return Err(NoValue::TooDeep);
    }
    let (term, left) = over(alloc, head, changed, fuel, built)?;
    Ok((Some(term), left))
}

/// Steps until one leaves the term the same.
fn steps(
    alloc: Global,
    rules: &[Rule],
    term: Term,
    fuel: u64,
    room: u32,
    built: &mut Vec<Term>,
) -> Result<(Term, u64), NoValue>
    ensures { StepsOn rules.now term fuel room built.old built.new result }
{
    let (stepped, left) = step(alloc, rules, &term, fuel, room, built)?;
    let Some(changed) = stepped else {
        return Ok((term, left));
    };
    if fuel == 0 {
        return Err(NoValue::OutOfFuel);
    }
    steps(alloc, rules, changed, fuel - 1, room, built)
}
