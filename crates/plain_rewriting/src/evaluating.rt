//! Innermost evaluation by the plain program: recursion over boxed terms, as slow as it is plain.

ghost use Rattle.std.specs.Prelude.{◌≡◌, ◌-◌, IfOk, drop};
ghost use Rattle.rewrite_model.specs.Evaluation.{holds, evaluation as evaluation_of};
ghost use Rattle.rewrite_model.specs.Built.{built_list, need as need_of};
ghost use Rattle.plain_rewriting.specs.Boxed.{tree_of, trees};
ghost use Rattle.plain_rewriting.specs.Noted.{points_of};
ghost use Rattle.plain_rewriting.specs.Program.{ended, Evaluates, EvaluatesAll, Holds, Replaces, Reduces, ReducesBy};

use crate::boxed::{Arguments, Term};
use crate::ends::{End, Evaluated, NoValue};
use crate::matching::tree_at;
use crate::points::{Point, append_built, in_front, joined, most_in_hand, point_at};
use faults::Memory;
use rewrite_model::{Condition, Rule};
use std::alloc::Global;
use term_model::Flat;

/// The leftmost innermost evaluation of a term by rules, with so many uses of rules and so much
/// room.
pub fn evaluation(
    alloc: Global,
    rules: &[Rule],
    term: &Flat,
    fuel: u64,
    room: u32,
) -> Result<Evaluated, Memory>
    ensures built { IfOk result
        (λ e. trees e.built.items ≡ built_list rules.now term.now fuel room) }
    ensures end { IfOk result
        (λ e. ended e.end ≡ (evaluation_of rules.now term.now fuel room).end) }
{
    let noted = noted(alloc, rules, term, fuel, room)?;
    let mut built = Vec::new(alloc);
    append_built(alloc, &noted.points, 0, &mut built)?;
    Ok(Evaluated {
        built,
        end: noted.end,
    })
}

/// The most different trees that are in hand at any point of that evaluation.
pub fn need(
    alloc: Global,
    rules: &[Rule],
    term: &Flat,
    fuel: u64,
    room: u32,
) -> Result<usize, Memory>
    ensures { IfOk result (λ n. n ≡ need_of rules.now term.now fuel room) }
{
    let noted = noted(alloc, rules, term, fuel, room)?;
    most_in_hand(alloc, &noted.points, 0)
}

/// The points of an evaluation, in order, and its end.
#[derive(Drop)]
struct Noting {
    points: Vec<Point>,
    end: End,
}

fn noted(alloc: Global, rules: &[Rule], term: &Flat, fuel: u64, room: u32) -> Result<Noting, Memory>
    ensures points { IfOk result
        (λ n. points_of n.points.items ≡ (evaluation_of rules.now term.now fuel room).notes) }
    ensures end { IfOk result
        (λ n. ended n.end ≡ (evaluation_of rules.now term.now fuel room).end) }
{
    let term = Term::of(alloc, term)?;
    let mut points = Vec::new(alloc);
    match evaluate(alloc, rules, &[], &[], &term, fuel, room, &mut points) {
        Ok((value, left)) => Ok(Noting {
            points,
            end: End::Value(value, left),
        }),
        Err(NoValue::OutOfFuel) => Ok(Noting {
            points,
            end: End::OutOfFuel,
        }),
        Err(NoValue::TooDeep) => Ok(Noting {
            points,
            end: End::TooDeep,
        }),
        Err(NoValue::Memory) => Err(Memory),
    }
}

#[cycle(evaluating)]
fn evaluate(
    alloc: Global,
    rules: &[Rule],
    bound: &[Term],
    kept: &[Term],
    pattern: &Term,
    fuel: u64,
    room: u32,
    points: &mut Vec<Point>,
) -> Result<(Term, u64), NoValue>
    ensures { Evaluates rules.now bound.now kept.now pattern.now fuel room
        points.old points.new result }
{
    if room == 0 {
        return Err(NoValue::TooDeep);
    }
    match pattern {
        Term::Var(x) => {
            let value = tree_at(alloc, *x, bound)?;
            Ok((value, fuel))
        }
        Term::Over(head, patterns) => {
            let (args, left) = evaluate_all(
                alloc, rules, bound, kept, patterns, fuel, room, points,
            )?;
            let term = Term::Over(*head, args);
            reduce(alloc, rules, &[], kept, term, left, room, points)
        }
    }
}

/// The arguments from left to right, each in one room less than the one before.
#[cycle(evaluating)]
fn evaluate_all(
    alloc: Global,
    rules: &[Rule],
    bound: &[Term],
    kept: &[Term],
    patterns: &Arguments,
    fuel: u64,
    room: u32,
    points: &mut Vec<Point>,
) -> Result<(Arguments, u64), NoValue>
    ensures { EvaluatesAll rules.now bound.now kept.now patterns.now fuel room
        points.old points.new result }
{
    match patterns {
        Arguments::Empty => Ok((Arguments::Empty, fuel)),
        Arguments::Next(pattern, patterns) => {
            let below = room.saturating_sub(1);
            let (first, left) = evaluate(alloc, rules, bound, kept, pattern, fuel, below, points)?;
            let with_first = in_front(alloc, &first, kept)?;
            let (rest, left) = evaluate_all(
                alloc,
                rules,
                bound,
                &with_first,
                patterns,
                left,
                below,
                points,
            )?;
            let first = Box::new(alloc, first)?;
            let rest = Box::new(alloc, rest)?;
            Ok((Arguments::Next(first, rest), left))
        }
    }
}

/// Whether all conditions hold from one of them on.
#[cycle(evaluating)]
fn hold(
    alloc: Global,
    rules: &[Rule],
    conditions: &[Condition],
    from: usize,
    bound: &[Term],
    kept: &[Term],
    fuel: u64,
    room: u32,
    points: &mut Vec<Point>,
) -> Result<(bool, u64), NoValue>
    ensures { Holds rules.now bound.now kept.now (drop from conditions.now) fuel room
        points.old points.new result }
{
    if from >= conditions.len() {
        return Ok((true, fuel));
    }
    let condition = &conditions[from];
    let first = Term::of(alloc, condition.first())?;
    let second = Term::of(alloc, condition.second())?;
    let (first, left) = evaluate(
        alloc,
        rules,
        bound,
        kept,
        &first,
        fuel,
        room.saturating_sub(2),
        points,
    )?;
    let with_first = in_front(alloc, &first, kept)?;
    let (second, left) = evaluate(
        alloc,
        rules,
        bound,
        &with_first,
        &second,
        left,
        room.saturating_sub(3),
        points,
    )?;
    if !condition_holds(condition, &first, &second) {
        return Ok((false, left));
    }
    hold(
        alloc,
        rules,
        conditions,
        from + 1,
        bound,
        kept,
        left,
        room,
        points,
    )
}

/// Whether a condition holds for the values of its two sides.
fn condition_holds(condition: &Condition, first: &Term, second: &Term) -> bool
    ensures { result ≡ holds condition.now (tree_of first.now) (tree_of second.now) }
{
    if condition.equal() {
        first.is_same(second)
    } else {
        !first.is_same(second)
    }
}

/// The value of a right side.
#[cycle(evaluating)]
fn replace(
    alloc: Global,
    rules: &[Rule],
    bound: &[Term],
    kept: &[Term],
    right: &Term,
    fuel: u64,
    room: u32,
    points: &mut Vec<Point>,
) -> Result<(Term, u64), NoValue>
    ensures { Replaces rules.now bound.now kept.now right.now fuel room
        points.old points.new result }
{
    match right {
        Term::Var(x) => {
            let value = tree_at(alloc, *x, bound)?;
            Ok((value, fuel))
        }
        Term::Over(head, patterns) => {
            let below = room_below(room, bound.len());
            let with_bound = joined(alloc, bound, kept)?;
            let (args, left) = evaluate_all(
                alloc,
                rules,
                bound,
                &with_bound,
                patterns,
                fuel,
                below,
                points,
            )?;
            let term = Term::Over(*head, args);
            reduce(alloc, rules, bound, kept, term, left, room, points)
        }
    }
}

/// The room that is left beside so many variables.
fn room_below(room: u32, vars: usize) -> u32
    ensures { result ≡ room - vars }
{
    if vars >= room as usize {
        0
    } else {
        room - vars as u32
    }
}

/// Reduces a term by all rules, which is one more tree that is built.
#[cycle(evaluating)]
fn reduce(
    alloc: Global,
    rules: &[Rule],
    given: &[Term],
    kept: &[Term],
    term: Term,
    fuel: u64,
    room: u32,
    points: &mut Vec<Point>,
) -> Result<(Term, u64), NoValue>
    ensures { Reduces rules.now given.now kept.now term fuel room points.old points.new result }
{
    points.push(point_at(alloc, &term, given, kept, room)?)?;
    reduce_by(alloc, rules, 0, kept, term, fuel, room, points)
}

/// Reduces a term by the rules from one of them on.
#[cycle(evaluating)]
fn reduce_by(
    alloc: Global,
    rules: &[Rule],
    from: usize,
    kept: &[Term],
    term: Term,
    fuel: u64,
    room: u32,
    points: &mut Vec<Point>,
) -> Result<(Term, u64), NoValue>
    ensures { ReducesBy rules.now (drop from rules.now) kept.now term fuel room
        points.old points.new result }
{
    if from >= rules.len() {
        return Ok((term, fuel));
    }
    let rule = &rules[from];
    let left_side = Term::of(alloc, rule.left())?;
    let Some(bound) = left_side.matches(alloc, &term)? else {
        return reduce_by(alloc, rules, from + 1, kept, term, fuel, room, points);
    };
    if fuel == 0 {
        return Err(NoValue::OutOfFuel);
    }
    if room as usize <= bound.len() {
        return Err(NoValue::TooDeep);
    }
    let below = room_below(room, bound.len());
    let with_bound = joined(alloc, &bound, kept)?;
    let in_condition = in_front(alloc, &term, &with_bound)?;
    let (all, left) = hold(
        alloc,
        rules,
        rule.conditions(),
        0,
        &bound,
        &in_condition,
        fuel - 1,
        below,
        points,
    )?;
    if !all {
        return reduce_by(alloc, rules, from + 1, kept, term, left, room, points);
    }
    let right = Term::of(alloc, rule.right())?;
    replace(alloc, rules, &bound, kept, &right, left, room, points)
}
