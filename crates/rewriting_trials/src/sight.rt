//! What can be seen of a normalization, and works with what is to be seen of them.

ghost use Rattle.std.specs.Prelude.{◌≡◌, ◌≤◌, true};
ghost use Rattle.plain_store.specs.Contents.{store_of};
ghost use Rattle.innermost.specs.Machines.{IsFor};

use crate::reading::is_term;
use crate::watched::Watched;
use crate::writing::{WIDEST, Written, boxed, flat, plan_of, tree};
use innermost::{Machine, Normal, RunFault};
use plain_rewriting::Term;
use rule_fitness::may_be_normalized;
use rule_match::Plan;
use std::alloc::Global;
use std::process::Abort;
use std::test::Fail;
use term_model::{Flat, Item};
use terms_api::Terms;

/// The answer, how many trees were built, whether they and a value are the wanted ones, and how
/// many places of the stack are in use then.
#[derive(Clone, Copy, PartialEq, Eq)]
pub(crate) struct Sight {
    pub(crate) answer: Result<Normal, RunFault>,
    pub(crate) built: usize,
    pub(crate) as_wanted: bool,
    pub(crate) places: u32,
}

/// How much fuel and room there is, and how many rows.
#[derive(Clone, Copy)]
pub(crate) struct Limits {
    pub(crate) fuel: u64,
    pub(crate) depth: u32,
    pub(crate) rows: u32,
}

/// Which position is rewritten first.
#[derive(Clone, Copy)]
pub(crate) enum Order {
    Innermost,
    Outermost,
}

pub(crate) const OUT_OF_FUEL: Result<Normal, RunFault> = Ok(Normal::OutOfFuel);

pub(crate) const TOO_DEEP: Result<Normal, RunFault> = Ok(Normal::TooDeep);

pub(crate) const STORE_FULL: Result<Normal, RunFault> = Err(RunFault::StoreFull);

/// What is to be seen where a term on an empty stack has this answer after so many builds: all is
/// as wanted, and one place is in use by a value, else none.
pub(crate) fn sight_of(answer: Result<Normal, RunFault>, built: usize) -> Sight {
    let places = match answer {
        Ok(Normal::Value { left: _ }) => 1,
        _ => 0,
    };
    Sight {
        answer,
        built,
        as_wanted: true,
        places,
    }
}

/// Whether the tree of the top place is this term.
pub(crate) fn is_on_top<T: Terms>(term: &Term, terms: &mut T) -> bool
    requires inside { (T.store terms.old).inside ≡ true }
    ensures unchanged { T.store terms.new ≡ T.store terms.old }
    ensures same { T.same terms.old terms.new }
{
    let places = terms.depth();
    if places == 0 {
        return false;
    }
    let row = terms.at(places - 1);
    is_term(term, row, terms)
}

fn is_value<T: Terms>(value: Option<&Term>, terms: &mut T) -> bool
    requires inside { (T.store terms.old).inside ≡ true }
    ensures unchanged { T.store terms.new ≡ T.store terms.old }
{
    match value {
        Some(term) => is_on_top(term, terms),
        None => false,
    }
}

/// Normalizes a term that may be normalized; else there is no answer.
pub(crate) fn answer_of<T: Terms>(
    machine: &mut Machine,
    plan: &Plan,
    depth: u32,
    order: Order,
    term: &Flat,
    fuel: u64,
    terms: &mut T,
) -> Option<Result<Normal, RunFault>>
    requires inside { (T.store terms.old).inside ≡ true }
    requires machine { IsFor plan.now machine.old }
    requires depth { machine.old.depth ≡ depth }
    requires wide { plan.now.widest ≤ (T.store terms.old).widest }
    ensures inside { (T.store terms.new).inside ≡ true }
    ensures wide { plan.now.widest ≤ (T.store terms.new).widest }
    ensures machine { machine.new ≡ machine.old }
{
    let free = terms.room() - terms.depth();
    if free < depth || !may_be_normalized(term, plan.widest()) {
        return None;
    }
    Some(match order {
        Order::Innermost => machine.normalize(plan, term, fuel, terms),
        Order::Outermost => machine.outermost(plan, term, fuel, terms),
    })
}

/// The answer of a new machine with so much room.
pub(crate) fn answer_anew<T: Terms>(
    alloc: Global,
    plan: &Plan,
    depth: u32,
    order: Order,
    term: &Flat,
    fuel: u64,
    terms: &mut T,
) -> Result<Option<Result<Normal, RunFault>>, Fail>
    requires inside { (T.store terms.old).inside ≡ true }
    requires wide { plan.now.widest ≤ (T.store terms.old).widest }
    ensures inside { (T.store terms.new).inside ≡ true }
{
    let mut machine = Machine::new(alloc, plan, depth)?;
    Ok(answer_of(&mut machine, plan, depth, order, term, fuel, terms))
}

/// What is seen of a term in a store that is watched.
fn watch(
    alloc: Global,
    plan: &Plan,
    term: &Flat,
    order: Order,
    limits: Limits,
    value: Option<&Term>,
    store: &mut Watched,
) -> Result<Sight, Fail>
    requires inside { (store_of store.old.store).inside ≡ true }
    requires wide { plan.now.widest ≤ (store_of store.old.store).widest }
{
    let Limits {
        fuel,
        depth,
        rows: _,
    } = limits;
    let Some(answer) = answer_anew(alloc, plan, depth, order, term, fuel, store)? else {
        return Err(Fail::from("not a term of the plan"));
    };
    let is_right = match answer {
        Ok(Normal::Value { left: _ }) => is_value(value, store),
        _ => true,
    };
    Ok(Sight {
        answer,
        built: store.built(),
        as_wanted: is_right && store.in_order(),
        places: store.depth(),
    })
}

/// What is seen of a term in a new store with as many places as the term's room: whether the trees
/// that are built, and the value, are the wanted ones.
pub(crate) fn look(
    alloc: Global,
    plan: &Plan,
    term: &Flat,
    order: Order,
    limits: Limits,
    wanted: Vec<Term>,
    value: Option<&Term>,
) -> Result<Sight, Fail>
    requires { plan.now.widest ≤ 2 }
{
    let mut store = Watched::new(alloc, limits.rows, limits.depth, WIDEST, wanted)?;
    store.enter();
    watch(alloc, plan, term, order, limits, value, &mut store)
}

/// Rules, a term and its order, the trees that are to be built, up to where it ends, and its value;
/// and runs of it.
pub(crate) struct Work {
    pub(crate) rules: &'static [Written],
    pub(crate) term: &'static [Item],
    pub(crate) order: Order,
    pub(crate) builds: &'static [&'static [Item]],
    pub(crate) value: &'static [Item],
    pub(crate) runs: &'static [Run],
}

/// Fuel, room and rows; and then the answer, and how many trees are built.
pub(crate) type Run = (u64, u32, u32, Result<Normal, RunFault>, usize);

/// Whether a run has its answer after so many of the builds.
fn is_seen(
    alloc: Global,
    plan: &Plan,
    term: &Flat,
    work: &Work,
    run: &Run,
    value: &Term,
) -> Result<bool, Fail>
    requires { plan.now.widest ≤ 2 }
{
    let (fuel, depth, rows, answer, built) = *run;
    let limits = Limits { fuel, depth, rows };
    let wanted = boxed(alloc, work.builds)?;
    let got = look(alloc, plan, term, work.order, limits, wanted, Some(value))?;
    Ok(got == sight_of(answer, built))
}

/// The first run, by its number, in which something else is seen.
fn first_of(
    alloc: Global,
    plan: &Plan,
    term: &Flat,
    work: &Work,
    value: &Term,
) -> Result<Option<usize>, Fail>
    requires { plan.now.widest ≤ 2 }
{
    for (number, run) in work.runs.iter().enumerate() {
        if !is_seen(alloc, plan, term, work, run, value)? {
            return Ok(Some(number));
        }
    }
    Ok(None)
}

/// The first run of a work, by its number, in which something else is seen.
fn first_other(alloc: Global, work: &Work) -> Result<Option<usize>, Fail> {
    let value = tree(alloc, work.value)?;
    let term = flat(alloc, work.term)?;
    let plan = plan_of(alloc, work.rules)?;
    first_of(alloc, &plan, &term, work, &value)
}

/// Expects each run of a work to be as it says.
pub(crate) fn expect<R: Abort + Alloc<A = Global>>(rt: &R, work: &Work) -> Result<(), Fail> {
    assert_eq!(rt; first_other(rt.alloc(), work)?, None, "{:?}", work.builds);
    Ok(())
}
