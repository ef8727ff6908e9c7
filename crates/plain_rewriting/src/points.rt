//! Points of the plain program's evaluations: where reducing by all rules begins.

ghost use Rattle.std.specs.Prelude.{◌≡◌, ◌++◌, ◌∷◌, IfOk, OnOk, map, drop};
ghost use Rattle.std.specs.List.{flat_map};
ghost use Rattle.term_model.specs.Tree.{list_of, arguments, subtrees as subtrees_of};
ghost use Rattle.rewrite_model.specs.Built.{trees_at, trees_in_hand as in_hand_at, greatest};
ghost use Rattle.plain_rewriting.specs.Boxed.{tree_of, trees_in, trees};
ghost use Rattle.plain_rewriting.specs.Noted.{point_of, points_of};

use crate::boxed::{Arguments, Term};
use crate::counting::distinct;
use faults::Memory;
use std::alloc::Global;

/// A tree that is to be reduced by all rules, the trees that are kept there, and the room.
#[derive(Drop)]
pub struct Point {
    pub tree: Term,
    pub hand: Vec<Term>,
    pub room: u32,
}

/// The point of a term: in hand are its arguments, the terms given with it, and those kept round
/// it.
pub(crate) fn point_at(
    alloc: Global,
    term: &Term,
    given: &[Term],
    kept: &[Term],
    room: u32,
) -> Result<Point, Memory>
    ensures tree { IfOk result (λ p. tree_of p.tree ≡ tree_of term.now) }
    ensures hand { IfOk result
        (λ p. trees p.hand.items ≡ arguments (tree_of term.now) ++ trees given.now
        ++ trees kept.now) }
    ensures room { IfOk result (λ p. p.room ≡ room) }
{
    let mut hand = Vec::new(alloc);
    append_arguments_of(alloc, term, &mut hand)?;
    append(alloc, given, 0, &mut hand)?;
    append(alloc, kept, 0, &mut hand)?;
    let tree = term.copy(alloc)?;
    Ok(Point { tree, hand, room })
}

/// A term and the others behind it, copied.
pub(crate) fn in_front(alloc: Global, first: &Term, rest: &[Term]) -> Result<Vec<Term>, Memory>
    ensures { IfOk result (λ ts. trees ts.items ≡ tree_of first.now ∷ trees rest.now) }
{
    let mut list = Vec::new(alloc);
    list.push(first.copy(alloc)?)?;
    append(alloc, rest, 0, &mut list)?;
    Ok(list)
}

/// Terms and the others behind them, copied.
pub(crate) fn joined(alloc: Global, front: &[Term], back: &[Term]) -> Result<Vec<Term>, Memory>
    ensures { IfOk result (λ ts. trees ts.items ≡ trees front.now ++ trees back.now) }
{
    let mut list = Vec::new(alloc);
    append(alloc, front, 0, &mut list)?;
    append(alloc, back, 0, &mut list)?;
    Ok(list)
}

/// Appends copies, from one of the terms on.
fn append(alloc: Global, terms: &[Term], from: usize, list: &mut Vec<Term>) -> Result<(), Memory>
    ensures { OnOk result
        (trees list.new.items ≡ trees list.old.items ++ trees (drop from terms.now)) }
{
    if from >= terms.len() {
        return Ok(());
    }
    list.push(terms[from].copy(alloc)?)?;
    append(alloc, terms, from + 1, list)
}

/// Appends copies of a term's arguments.
fn append_arguments_of(alloc: Global, term: &Term, list: &mut Vec<Term>) -> Result<(), Memory>
    ensures { OnOk result
        (trees list.new.items ≡ trees list.old.items ++ arguments (tree_of term.now)) }
{
    match term {
        Term::Var(_) => Ok(()),
        Term::Over(_, args) => append_arguments(alloc, args, list),
    }
}

fn append_arguments(alloc: Global, args: &Arguments, list: &mut Vec<Term>) -> Result<(), Memory>
    ensures { OnOk result
        (trees list.new.items ≡ trees list.old.items ++ list_of (trees_in args.now)) }
{
    match args {
        Arguments::Empty => Ok(()),
        Arguments::Next(term, rest) => {
            list.push(term.copy(alloc)?)?;
            append_arguments(alloc, rest, list)
        }
    }
}

/// Appends copies of the trees of points, from one of them on.
pub(crate) fn append_built(
    alloc: Global,
    points: &[Point],
    from: usize,
    list: &mut Vec<Term>,
) -> Result<(), Memory>
    ensures { OnOk result
        (trees list.new.items ≡ trees list.old.items
        ++ trees_at (points_of (drop from points.now))) }
{
    if from >= points.len() {
        return Ok(());
    }
    let point = &points[from];
    list.push(point.tree.copy(alloc)?)?;
    append_built(alloc, points, from + 1, list)
}

/// The most different trees that any of the points has in hand, from one of them on.
pub(crate) fn most_in_hand(alloc: Global, points: &[Point], from: usize) -> Result<usize, Memory>
    ensures { IfOk result (λ n. n ≡ greatest (map in_hand_at (points_of (drop from points.now)))) }
{
    if from >= points.len() {
        return Ok(0);
    }
    let here = trees_in_hand(alloc, &points[from])?;
    let later = most_in_hand(alloc, points, from + 1)?;
    Ok(here.max(later))
}

/// How many different trees a point has in hand, with their subtrees and those of its tree.
fn trees_in_hand(alloc: Global, point: &Point) -> Result<usize, Memory>
    ensures { IfOk result (λ n. n ≡ in_hand_at (point_of point.now)) }
{
    let mut list = Vec::new(alloc);
    point.tree.subtrees(alloc, &mut list)?;
    append_subtrees(alloc, &point.hand, 0, &mut list)?;
    Ok(distinct(&list))
}

/// Appends the subtrees of terms, from one of the terms on.
fn append_subtrees(
    alloc: Global,
    terms: &[Term],
    from: usize,
    list: &mut Vec<Term>,
) -> Result<(), Memory>
    ensures { OnOk result
        (trees list.new.items ≡ trees list.old.items ++ flat_map subtrees_of
        (trees (drop from terms.now))) }
{
    if from >= terms.len() {
        return Ok(());
    }
    terms[from].subtrees(alloc, list)?;
    append_subtrees(alloc, terms, from + 1, list)
}
