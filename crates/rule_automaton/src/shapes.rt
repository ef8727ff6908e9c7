//! Left sides as tests of places.

ghost use Rattle.std.specs.Prelude.{◌≡◌, ◌+◌, ◌^◌, ◌<◌, ◌++◌, length, reverse, IfOk, OnOk};
ghost use Rattle.rule_match.specs.Preorder.{left_at};
ghost use Rattle.rule_automaton.specs.Places.{IsTable, Keeps};
ghost use Rattle.rule_automaton.specs.Shapes.{HasShape, HaveShapes, IsNoted, numbers};
ghost use Rattle.rule_automaton.specs.Tables.{tabled};

use crate::table::Table;
use faults::Memory;
use rule_match::Plan;
use std::alloc::Global;
use term_model::{Item, Symbol};

/// At a place this symbol is to stand over so many trees, which have the places from a base on.
#[derive(Clone, Copy)]
pub(crate) struct Test {
    pub place: u32,
    pub symbol: Symbol,
    pub count: u32,
    pub base: u32,
}

/// Two places of one variable, which are to have equal trees.
#[derive(Clone, Copy)]
pub(crate) struct Pair {
    pub first: u32,
    pub second: u32,
}

/// A left side: its symbols in preorder, the pairs of places of its repeated variables, and the
/// first place of each variable.
#[derive(Drop)]
pub(crate) struct Shape {
    pub tests: Vec<Test>,
    pub pairs: Vec<Pair>,
    pub variables: Vec<u32>,
}

/// The shapes of all rules of a plan.
pub(crate) fn shapes_of(alloc: Global, plan: &Plan, table: &mut Table) -> Result<Vec<Shape>, Memory>
    requires { IsTable (tabled table.old) }
    ensures shapes { IfOk result (λ shapes.
        HaveShapes (tabled table.new) plan.now.rules shapes.items) }
    ensures table { OnOk result (IsTable (tabled table.new)) }
{
    let mut shapes = Vec::new(alloc);
    for rule in 0..plan.rules().len() {
        shapes.push(shape_of(alloc, plan, rule as u32, table)?)?;
    }
    Ok(shapes)
}

/// The numbers below a count, in order.
pub(crate) fn numbers_below(alloc: Global, count: usize) -> Result<Vec<u32>, Memory>
    requires { count < 2 ^ 32 }
    ensures { IfOk result (λ all. all.items ≡ numbers 0 count) }
{
    let mut all = Vec::new(alloc);
    for number in 0..count {
        all.push(number as u32)?;
    }
    Ok(all)
}

/// The shape of a rule's left side. It takes time linear in the left side's nodes.
pub(crate) fn shape_of(
    alloc: Global,
    plan: &Plan,
    rule: u32,
    table: &mut Table,
) -> Result<Shape, Memory>
    requires rule { rule < length plan.now.rules }
    requires table { IsTable (tabled table.old) }
    ensures shape { IfOk result (λ shape.
        HasShape (tabled table.new) (left_at plan.now.rules rule) shape) }
    ensures kept { OnOk result (Keeps (tabled table.old) (tabled table.new)) }
    ensures table { OnOk result (IsTable (tabled table.new)) }
{
    let mut shape = Shape {
        tests: Vec::new(alloc),
        pairs: Vec::new(alloc),
        variables: Vec::new(alloc),
    };
    let mut stack = vec![in alloc; 0u32]?;
    for item in plan.program(rule) {
        let place = stack.take_last();
        match *item {
            Item::Var(variable) => note_variable(&mut shape, variable, place)?,
            Item::App(symbol, count) => {
                let base = table.kids(place, count)?;
                shape.tests.push(Test {
                    place,
                    symbol,
                    count,
                    base,
                })?;
                push_places(base, count, &mut stack)?;
            }
            _ => unreachable!(),
        }
    }
    Ok(shape)
}

/// Notes a place of a variable.
fn note_variable(shape: &mut Shape, variable: u32, place: u32) -> Result<(), Memory>
    ensures tests { shape.new.tests.items ≡ shape.old.tests.items }
    ensures noted { OnOk result (IsNoted variable place shape.old shape.new) }
{
    let at = variable as usize;
    if at < shape.variables.len() {
        let first = shape.variables[at];
        shape.pairs.push(Pair {
            first,
            second: place,
        })?;
    } else {
        shape.variables.push(place)?;
    }
    Ok(())
}

/// Puts so many places in a row on a stack, the first on top.
fn push_places(base: u32, count: u32, stack: &mut Vec<u32>) -> Result<(), Memory>
    requires { base + count < 2 ^ 32 }
    ensures { OnOk result (stack.new.items ≡ stack.old.items ++ reverse (numbers base count)) }
{
    let mut left = count;
    'places: while left > 0 {
        left -= 1;
        stack.push(base + left)?;
    }
    Ok(())
}
