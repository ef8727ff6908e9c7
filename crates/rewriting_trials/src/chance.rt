//! Rules and terms made by chance, the same ones in each run.

ghost use Rattle.std.specs.Prelude.{◌≡◌, ◌<◌, IfOk};

use crate::writing::{A, B, EQ, F, G, PLUS, planned};
use rewrite_model::{Condition, Rule};
use rule_match::Plan;
use std::alloc::Global;
use std::test::Fail;
use term_model::{Flat, Item};

/// Numbers that look like chance.
#[derive(Clone, Copy)]
pub(crate) struct Dice {
    state: u64,
}

impl Dice {
    /// The numbers that a seed gives.
    pub(crate) fn of(seed: u64) -> Self {
        Dice { state: seed }
    }

    /// A number below the count of sides.
    fn roll(&mut self, sides: u32) -> u32
        requires { 0 < sides }
        ensures { result < sides }
    {
        self.state = self
            .state
            .wrapping_mul(6364136223846793005)
            .wrapping_add(1442695040888963407);
        (self.state / 0x2_0000_0000) as u32 % sides
    }
}

fn constant(dice: &mut Dice) -> Item {
    if dice.roll(2) == 0 { A } else { B }
}

/// A symbol over one or two terms.
fn symbol(dice: &mut Dice) -> Item {
    match dice.roll(5) {
        0 | 1 => F,
        2 => G,
        3 => PLUS,
        _ => EQ,
    }
}

/// A variable below a count, or a constant.
fn leaf(dice: &mut Dice, vars: u32) -> Item {
    if vars > 0 && dice.roll(3) > 0 {
        Item::Var(dice.roll(vars))
    } else {
        constant(dice)
    }
}

/// Appends a pattern of at most so many levels above its leaves, over variables below a count.
fn push_pattern(dice: &mut Dice, levels: u8, vars: u32, items: &mut Vec<Item>) -> Result<(), Fail> {
    if levels == 0 || dice.roll(5) == 0 {
        items.push(leaf(dice, vars))?;
        return Ok(());
    }
    let root = symbol(dice);
    push_pattern(dice, levels - 1, vars, items)?;
    if root.arity() > 1 {
        push_pattern(dice, levels - 1, vars, items)?;
    }
    items.push(root)?;
    Ok(())
}

/// A pattern of at most so many levels above its leaves, over variables below a count.
fn pattern(alloc: Global, dice: &mut Dice, levels: u8, vars: u32) -> Result<Flat, Fail> {
    let mut items = Vec::new(alloc);
    push_pattern(dice, levels, vars, &mut items)?;
    let pattern = Flat::of(items).ok_or("no pattern")?;
    Ok(pattern)
}

/// A variable that is there already or the next one, while there are few, or a constant.
fn left_leaf(dice: &mut Dice, vars: &mut u32) -> Item {
    let count = *vars;
    if count > 2 || dice.roll(5) == 0 {
        return constant(dice);
    }
    let variable = dice.roll(count + 1);
    if variable == count {
        *vars = count + 1;
    }
    Item::Var(variable)
}

/// Appends an argument of a left side: a leaf, or now and then a symbol over leaves.
fn push_argument(dice: &mut Dice, vars: &mut u32, items: &mut Vec<Item>) -> Result<(), Fail> {
    items.push(left_leaf(dice, vars))?;
    if dice.roll(4) > 0 {
        return Ok(());
    }
    let root = symbol(dice);
    if root.arity() > 1 {
        items.push(left_leaf(dice, vars))?;
    }
    items.push(root)?;
    Ok(())
}

/// A left side of a symbol, and how many variables it has, which are numbered in order of first
/// occurrence.
fn left_side(alloc: Global, dice: &mut Dice, root: Item) -> Result<(Flat, u32), Fail> {
    let mut vars = 0;
    let mut items = Vec::new(alloc);
    push_argument(dice, &mut vars, &mut items)?;
    if root.arity() > 1 {
        push_argument(dice, &mut vars, &mut items)?;
    }
    items.push(root)?;
    let left = Flat::of(items).ok_or("no left side")?;
    Ok((left, vars))
}

/// A rule for a symbol, with up to two conditions.
fn rule(alloc: Global, dice: &mut Dice, root: Item) -> Result<Rule, Fail> {
    let (left, vars) = left_side(alloc, dice, root)?;
    let mut conditions = Vec::new(alloc);
    for _ in 0..dice.roll(5).saturating_sub(2) {
        let first = pattern(alloc, dice, 1, vars)?;
        let second = pattern(alloc, dice, 1, vars)?;
        conditions.push(Condition::new(first, second, dice.roll(2) == 0))?;
    }
    let right = pattern(alloc, dice, 2, vars)?;
    Ok(Rule::new(left, right, conditions, vars))
}

/// One to five rules.
fn rules(alloc: Global, dice: &mut Dice) -> Result<Vec<Rule>, Fail> {
    let mut rules = Vec::new(alloc);
    for _ in 0..=dice.roll(5) {
        let root = symbol(dice);
        rules.push(rule(alloc, dice, root)?)?;
    }
    Ok(rules)
}

/// One to eight rules for one symbol.
fn rules_of_one(alloc: Global, dice: &mut Dice) -> Result<Vec<Rule>, Fail> {
    let mut rules = Vec::new(alloc);
    let root = symbol(dice);
    for _ in 0..=dice.roll(8) {
        rules.push(rule(alloc, dice, root)?)?;
    }
    Ok(rules)
}

/// The plan of rules for several symbols, or for one.
pub(crate) fn plan(alloc: Global, dice: &mut Dice, of_one: bool) -> Result<Plan, Fail>
    ensures { IfOk result (λ plan. plan.widest ≡ 2) }
{
    if of_one {
        planned(alloc, rules_of_one(alloc, dice)?)
    } else {
        planned(alloc, rules(alloc, dice)?)
    }
}

/// A term of at most three levels above its constants.
pub(crate) fn term(alloc: Global, dice: &mut Dice) -> Result<Flat, Fail> {
    pattern(alloc, dice, 3, 0)
}
