//! Matching the left side of a rule against a stored term.

ghost use Rattle.std.specs.Prelude.{◌≡◌, ◌+◌, ◌<◌, ◌≤◌, [], ◌++◌, length, map, reverse, Some, None, true, All, vec_len, vec_capacity};
ghost use Rattle.std.specs.Bool.{OnTrue, OnFalse};
ghost use Rattle.term_model.specs.Tree.{nodes, arguments};
ghost use Rattle.term_model.specs.declared.Head.TheVariants.{App};
ghost use Rattle.terms_api.specs.Terms.{IsHeld, IsSound, tree_at};
ghost use Rattle.rewrite_model.specs.Matching.{match_of, bind as bind_of};
ghost use Rattle.rule_match.specs.Planned.{match_at};
ghost use Rattle.row_match.specs.Binding.{HasRoom};
ghost use Rattle.rule_match.specs.Preorder.{left_at};
ghost use Rattle.rule_match.specs.Stands.{stands};

use crate::Binds;
use rule_match::{Plan, stands_at};
use term_model::{Item, Row};
use terms_api::Terms;

/// Whether the left side of a rule matches the tree of a held row. Then the rows of the rule's
/// variables are bound in their order; else none is bound.
pub fn matches<T: Terms>(plan: &Plan, rule: u32, terms: &mut T, row: Row, binds: &mut Binds) -> bool
    requires inside { (T.store terms.old).inside ≡ true }
    requires rule { rule < length plan.now.rules }
    requires held { IsHeld (T.store terms.old) row }
    requires room { HasRoom binds.old.room plan.now.rules }
    ensures bound { OnTrue result (match_at plan.now.rules rule (tree_at (T.store terms.old) row)
        ≡ Some (map (tree_at (T.store terms.old)) binds.new.rows)) }
    ensures none { OnFalse result
        (match_at plan.now.rules rule (tree_at (T.store terms.old) row) ≡ None) }
    ensures empty { OnFalse result (binds.new.rows ≡ []) }
    ensures held { All (IsHeld (T.store terms.old)) binds.new.rows }
    ensures room { binds.new.room ≡ binds.old.room }
    ensures unchanged { T.store terms.new ≡ T.store terms.old }
    ensures sound { IsSound (T.store terms.new) }
    ensures same { T.same terms.old terms.new }
{
    let _ = terms.depth();
    binds.rows.clear();
    binds.stack.clear();
    let matched = run(plan, rule, terms, row, &mut binds.stack, &mut binds.rows);
    if !matched {
        binds.rows.clear();
    }
    matched
}

/// Whether the left side of a rule matches the tree of a held row; the rows of its variables are
/// then bound in their order. Arguments that wait for their patterns stand on a stack, the next one
/// on top.
fn run<T: Terms>(
    plan: &Plan,
    rule: u32,
    terms: &mut T,
    row: Row,
    stack: &mut Vec<Row>,
    rows: &mut Vec<Row>,
) -> bool
    requires inside { (T.store terms.old).inside ≡ true }
    requires sound { IsSound (T.store terms.old) }
    requires rule { rule < length plan.now.rules }
    requires held { IsHeld (T.store terms.old) row }
    requires stack_room { nodes (left_at plan.now.rules rule) ≤ vec_capacity stack.old }
    requires rows_room { nodes (left_at plan.now.rules rule) ≤ vec_capacity rows.old }
    requires stack_empty { stack.old.items ≡ [] }
    requires rows_empty { rows.old.items ≡ [] }
    ensures bound { OnTrue result
        (match_of (left_at plan.now.rules rule) (tree_at (T.store terms.old) row)
        ≡ Some (map (tree_at (T.store terms.old)) rows.new.items)) }
    ensures none { OnFalse result
        (match_of (left_at plan.now.rules rule) (tree_at (T.store terms.old) row) ≡ None) }
    ensures held { All (IsHeld (T.store terms.old)) rows.new.items }
    ensures stack_room { vec_capacity stack.new ≡ vec_capacity stack.old }
    ensures rows_room { vec_capacity rows.new ≡ vec_capacity rows.old }
    ensures unchanged { T.store terms.new ≡ T.store terms.old }
    ensures same { T.same terms.old terms.new }
{
    stack.push_reserved(row);
    for item in plan.program(rule) {
        let top = stack.take_last();
        match *item {
            Item::Var(variable) => {
                if !bind(variable, top, terms, rows) {
                    return false;
                }
            }
            Item::App(symbol, count) => {
                if !stands_at(terms, top, symbol, count) {
                    return false;
                }
                push_arguments(terms, top, count, stack);
            }
            _ => return false,
        }
    }
    true
}

/// Puts the arguments of a held row's tree on a stack, the first on top.
fn push_arguments<T: Terms>(terms: &mut T, row: Row, count: u32, stack: &mut Vec<Row>)
    requires inside { (T.store terms.old).inside ≡ true }
    requires held { IsHeld (T.store terms.old) row }
    requires count { count ≡ length (arguments (tree_at (T.store terms.old) row)) }
    requires room { vec_len stack.old + count ≤ vec_capacity stack.old }
    requires stack_held { All (IsHeld (T.store terms.old)) stack.old.items }
    ensures trees { map (tree_at (T.store terms.old)) stack.new.items
        ≡ map (tree_at (T.store terms.old)) stack.old.items
        ++ reverse (arguments (tree_at (T.store terms.old) row)) }
    ensures held { All (IsHeld (T.store terms.old)) stack.new.items }
    ensures room { vec_capacity stack.new ≡ vec_capacity stack.old }
    ensures unchanged { T.store terms.new ≡ T.store terms.old }
    ensures same { T.same terms.old terms.new }
{
    let mut place = count;
    'places: while place > 0 {
        place -= 1;
        let argument = terms.child(row, place);
        stack.push_reserved(argument);
    }
}

/// Binds a new variable to a row, or tests that it is bound to it. Equal trees have one row.
fn bind<T: Terms>(variable: u32, row: Row, terms: &T, rows: &mut Vec<Row>) -> bool
    requires sound { IsSound (T.store terms.now) }
    requires held { IsHeld (T.store terms.now) row }
    requires rows_held { All (IsHeld (T.store terms.now)) rows.old.items }
    requires room { vec_len rows.old < vec_capacity rows.old }
    ensures bound { OnTrue result
        (bind_of variable (tree_at (T.store terms.now) row)
        (map (tree_at (T.store terms.now)) rows.old.items)
        ≡ Some (map (tree_at (T.store terms.now)) rows.new.items)) }
    ensures none { OnFalse result
        (bind_of variable (tree_at (T.store terms.now) row)
        (map (tree_at (T.store terms.now)) rows.old.items) ≡ None) }
    ensures held { All (IsHeld (T.store terms.now)) rows.new.items }
    ensures size { vec_len rows.new ≤ vec_len rows.old + 1 }
    ensures room { vec_capacity rows.new ≡ vec_capacity rows.old }
{
    let at = variable as usize;
    if at < rows.len() {
        return rows[at] == row;
    }
    if at > rows.len() {
        return false;
    }
    rows.push_reserved(row);
    true
}
