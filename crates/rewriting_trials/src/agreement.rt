//! Rules made by chance come to what the plain program says, with every fuel, room and number of
//! rows near the ends.

ghost use Rattle.std.specs.Prelude.{◌≤◌};

use crate::chance::{Dice, plan, term};
use crate::sight::{Limits, OUT_OF_FUEL, Order, STORE_FULL, Sight, TOO_DEEP, look, sight_of};
use innermost::Normal;
use plain_rewriting::{End, Evaluated, Term, distinct, evaluation, need};
use rewrite_model::Rule;
use rule_match::Plan;
use std::alloc::Global;
use std::test::Fail;
use term_model::Flat;

/// What is enough for most terms.
const AMPLE: Limits = Limits {
    fuel: 8,
    depth: 40,
    rows: 400,
};

/// What the plain program says of a term: what it builds, its value, and what is to be seen in a
/// store with rows for all that is built.
#[derive(Drop)]
struct Expected {
    built: Vec<Term>,
    value: Option<Term>,
    sight: Sight,
}

fn said(alloc: Global, plan: &Plan, term: &Flat, limits: Limits) -> Result<Expected, Fail> {
    let run = evaluation(alloc, plan.rules(), term, limits.fuel, limits.depth)?;
    let Evaluated { built, end } = run;
    let count = built.len();
    let (value, sight) = match end {
        End::Value(term, left) => (Some(term), sight_of(Ok(Normal::Value { left }), count)),
        End::OutOfFuel => (None, sight_of(OUT_OF_FUEL, count)),
        End::TooDeep => (None, sight_of(TOO_DEEP, count)),
    };
    Ok(Expected {
        built,
        value,
        sight,
    })
}

/// What the plain program says is to be seen.
fn sight_said(alloc: Global, plan: &Plan, term: &Flat, limits: Limits) -> Result<Sight, Fail> {
    Ok(said(alloc, plan, term, limits)?.sight)
}

/// Whether what is seen is what was said, or with too few rows that a full store stopped it, after
/// a part of what is to be built.
fn is_so(got: Sight, said: Sight, is_short: bool) -> bool {
    got == said || got == sight_of(STORE_FULL, got.built) && is_short && got.built < said.built
}

/// What is seen of a term, if the plain program says so. With fewer rows than are needed a full
/// store may stop it.
fn agreed(
    alloc: Global,
    plan: &Plan,
    term: &Flat,
    limits: Limits,
    needed: usize,
) -> Result<Option<Sight>, Fail>
    requires { plan.now.widest ≤ 2 }
{
    let Expected {
        built,
        value,
        sight,
    } = said(alloc, plan, term, limits)?;
    let order = Order::Innermost;
    let got = look(alloc, plan, term, order, limits, built, value.as_ref())?;
    let is_short = (limits.rows as usize) < needed;
    Ok(if is_so(got, sight, is_short) {
        Some(got)
    } else {
        None
    })
}

/// How often each answer came.
#[derive(Clone, Copy, Debug)]
struct Tally {
    values: u32,
    out_of_fuel: u32,
    too_deep: u32,
    store_full: u32,
    apart: u32,
    conditional: u32,
    repeating: u32,
}

impl Tally {
    /// Nothing yet.
    fn new() -> Self {
        Tally {
            values: 0,
            out_of_fuel: 0,
            too_deep: 0,
            store_full: 0,
            apart: 0,
            conditional: 0,
            repeating: 0,
        }
    }

    /// Counts the rules with conditions, and those whose left side repeats a variable.
    fn count_rules(&mut self, rules: &[Rule]) {
        for rule in rules {
            let places = rule
                .left()
                .items()
                .iter()
                .filter(|item| item.head().is_none())
                .count();
            if !rule.conditions().is_empty() {
                self.conditional = self.conditional.saturating_add(1);
            }
            if places > rule.vars() as usize {
                self.repeating = self.repeating.saturating_add(1);
            }
        }
    }

    fn count(&mut self, agreed: Option<Sight>) {
        let kind = match agreed {
            None => &mut self.apart,
            Some(sight) => match sight.answer {
                Ok(Normal::Value { left: _ }) => &mut self.values,
                Ok(Normal::OutOfFuel) => &mut self.out_of_fuel,
                Ok(Normal::TooDeep) => &mut self.too_deep,
                Err(_) => &mut self.store_full,
            },
        };
        *kind = kind.saturating_add(1);
    }
}

/// The least room in which a term doesn't end for want of room.
fn least_depth(alloc: Global, plan: &Plan, term: &Flat) -> Result<u32, Fail> {
    for depth in 0..AMPLE.depth {
        let said = sight_said(alloc, plan, term, Limits { depth, ..AMPLE })?;
        if said.answer != TOO_DEEP {
            return Ok(depth);
        }
    }
    Ok(AMPLE.depth)
}

/// Tries a term with every fuel up to all that it uses and one more, in least room and beside it.
fn try_fuels(
    alloc: Global,
    plan: &Plan,
    term: &Flat,
    least: u32,
    tally: &mut Tally,
) -> Result<(), Fail>
    requires { plan.now.widest ≤ 2 }
{
    let said = sight_said(alloc, plan, term, AMPLE)?;
    let spent = match said.answer {
        Ok(Normal::Value { left }) => AMPLE.fuel.saturating_sub(left),
        _ => AMPLE.fuel,
    };
    for fuel in 0..=spent.saturating_add(1) {
        for more in 0..4 {
            let depth = least.saturating_add(more).saturating_sub(2);
            let limits = Limits {
                fuel,
                depth,
                ..AMPLE
            };
            tally.count(agreed(alloc, plan, term, limits, 0)?);
        }
        tally.count(agreed(alloc, plan, term, Limits { fuel, ..AMPLE }, 0)?);
    }
    Ok(())
}

/// Tries a term with every room up to the least that is enough.
fn try_depths(
    alloc: Global,
    plan: &Plan,
    term: &Flat,
    least: u32,
    tally: &mut Tally,
) -> Result<(), Fail>
    requires { plan.now.widest ≤ 2 }
{
    for depth in 0..=least {
        tally.count(agreed(alloc, plan, term, Limits { depth, ..AMPLE }, 0)?);
    }
    Ok(())
}

/// How many different trees a term builds.
fn different(alloc: Global, plan: &Plan, term: &Flat) -> Result<usize, Fail> {
    Ok(distinct(&said(alloc, plan, term, AMPLE)?.built))
}

/// Tries a term with every number of rows up to that of the different trees that are built, of
/// which no more are needed at once.
fn try_rows(alloc: Global, plan: &Plan, term: &Flat, tally: &mut Tally) -> Result<(), Fail>
    requires { plan.now.widest ≤ 2 }
{
    let different = different(alloc, plan, term)?;
    let needed = need(alloc, plan.rules(), term, AMPLE.fuel, AMPLE.depth)?;
    if different > AMPLE.rows as usize || needed > different {
        return Err(Fail::from("too many different trees"));
    }
    for rows in 0..=different {
        let limits = Limits {
            rows: rows as u32,
            ..AMPLE
        };
        tally.count(agreed(alloc, plan, term, limits, needed)?);
    }
    Ok(())
}

/// Tries a term near the ends.
fn try_term(alloc: Global, plan: &Plan, term: &Flat, tally: &mut Tally) -> Result<(), Fail>
    requires { plan.now.widest ≤ 2 }
{
    let least = least_depth(alloc, plan, term)?;
    try_fuels(alloc, plan, term, least, tally)?;
    try_depths(alloc, plan, term, least, tally)?;
    try_rows(alloc, plan, term, tally)
}

/// Tries the next rules and the next term that are made by chance.
fn try_next(alloc: Global, dice: &mut Dice, of_one: bool, tally: &mut Tally) -> Result<(), Fail> {
    let plan = plan(alloc, dice, of_one)?;
    let term = term(alloc, dice)?;
    tally.count_rules(plan.rules());
    try_term(alloc, &plan, &term, tally)
}

/// What comes of so many sets of rules and a term of each, made by chance: rules of several
/// symbols, or of one.
fn tried(alloc: Global, seed: u64, sets: u16, of_one: bool) -> Result<Tally, Fail> {
    let mut dice = Dice::of(seed);
    let mut tally = Tally::new();
    for _ in 0..sets {
        try_next(alloc, &mut dice, of_one, &mut tally)?;
    }
    Ok(tally)
}

/// Whether all agreed, and each answer came so often, and rules with conditions and rules that
/// repeat a variable.
fn is_wide(tally: &Tally, answers: u32, rules: u32) -> bool {
    let common = [
        tally.values,
        tally.out_of_fuel,
        tally.too_deep,
        tally.store_full,
    ];
    tally.apart == 0
        && common.iter().all(|count| *count > answers)
        && tally.conditional > rules
        && tally.repeating > rules
}

#[test]
fn chance_rules_come_to_what_the_plain_program_says(rt: HostRuntime) -> Result<(), Fail> {
    let tally = tried(rt.alloc(), 1, 200, false)?;
    assert!(rt; is_wide(&tally, 300, 30), "{tally:?}");
    Ok(())
}

#[test]
fn more_chance_rules_come_to_what_the_plain_program_says(rt: HostRuntime) -> Result<(), Fail> {
    let tally = tried(rt.alloc(), 2, 200, false)?;
    assert!(rt; is_wide(&tally, 300, 30), "{tally:?}");
    Ok(())
}

#[test]
fn rules_of_one_symbol_come_to_what_the_plain_program_says(rt: HostRuntime) -> Result<(), Fail> {
    let tally = tried(rt.alloc(), 3, 30, true)?;
    assert!(rt; is_wide(&tally, 80, 15), "{tally:?}");
    Ok(())
}
