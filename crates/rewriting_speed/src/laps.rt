//! Terms rewritten one after the other on any store, and the time of the processor that it took.

ghost use Rattle.std.specs.Prelude.{◌≡◌};
ghost use Rattle.term_model.specs.Tree.{IsGround};
ghost use Rattle.rule_match.specs.Planned.{IsPlain};
ghost use Rattle.rewriting_speed.specs.Ready.{IsReady};

use innermost::{Machine, Normal};
use rule_fitness::may_be_normalized;
use rule_match::Plan;
use std::time::{CpuClock, Duration};
use term_model::Flat;
use terms_api::Terms;

const FUEL: u64 = 1_000_000_000;

/// How many terms had values, and the time of the processor that it took.
#[derive(Clone, Copy, Debug, PartialEq, Eq)]
pub(crate) struct Lap {
    pub(crate) values: u64,
    pub(crate) took: Duration,
}

impl Lap {
    /// No term, and no time.
    pub(crate) fn none() -> Lap {
        Lap {
            values: 0,
            took: Duration::ZERO,
        }
    }

    /// Both laps together.
    fn and(self, other: Lap) -> Lap {
        Lap {
            values: self.values.saturating_add(other.values),
            took: self.took.saturating_add(other.took),
        }
    }
}

/// The laps on a store of one thread's own, and those on a shared one.
#[derive(Clone, Copy, Debug, PartialEq, Eq)]
pub(crate) struct Beside {
    pub(crate) own: Lap,
    pub(crate) shared: Lap,
}

// Whether a term has a value, which is forgotten then.
fn has_value<T: Terms>(plan: &Plan, term: &Flat, machine: &mut Machine, store: &mut T) -> bool
    requires ready { IsReady plan.now machine.old (T.store store.old) }
    requires ground { IsGround term.now }
    requires plain { IsPlain plan.now.widest term.now }
    ensures ready { IsReady plan.now machine.new (T.store store.new) }
    ensures machine { machine.new ≡ machine.old }
{
    store.enter();
    let normal = machine.normalize(plan, term, FUEL, store);
    store.keep(0, 0);
    store.leave();
    match normal {
        Ok(Normal::Value { left: _ }) => true,
        Ok(Normal::OutOfFuel) | Ok(Normal::TooDeep) | Err(_) => false,
    }
}

// How many of the terms have a value.
fn count_values<T: Terms>(plan: &Plan, terms: &[Flat], machine: &mut Machine, store: &mut T) -> u64
    requires ready { IsReady plan.now machine.old (T.store store.old) }
    ensures ready { IsReady plan.now machine.new (T.store store.new) }
    ensures machine { machine.new ≡ machine.old }
{
    let mut values: u64 = 0;
    for term in terms {
        if may_be_normalized(term, plan.widest()) && has_value(plan, term, machine, store) {
            values = values.saturating_add(1);
        }
    }
    values
}

// The time of the processor that this thread has used, and none where the clock fails.
fn processor_time<C: CpuClock>(clock: &C) -> Duration {
    clock.thread_cpu_time().unwrap_or(Duration::ZERO)
}

// All terms once.
fn time_lap<C: CpuClock, T: Terms>(
    clock: &C,
    plan: &Plan,
    terms: &[Flat],
    machine: &mut Machine,
    store: &mut T,
) -> Lap
    requires ready { IsReady plan.now machine.old (T.store store.old) }
    ensures ready { IsReady plan.now machine.new (T.store store.new) }
    ensures machine { machine.new ≡ machine.old }
{
    let start = processor_time(clock);
    let values = count_values(plan, terms, machine, store);
    let took = processor_time(clock).saturating_sub(start);
    Lap { values, took }
}

/// All terms so many times over, on both stores in turn.
pub(crate) fn laps_beside<C: CpuClock, S: Terms, T: Terms>(
    clock: &C,
    plan: &Plan,
    terms: &[Flat],
    laps: u32,
    machine: &mut Machine,
    own: &mut S,
    shared: &mut T,
) -> Beside
    requires own { IsReady plan.now machine.old (S.store own.old) }
    requires shared { IsReady plan.now machine.old (T.store shared.old) }
{
    let mut both = Beside {
        own: Lap::none(),
        shared: Lap::none(),
    };
    for _ in 0..laps {
        both.own = both.own.and(time_lap(clock, plan, terms, machine, own));
        both.shared = both
            .shared
            .and(time_lap(clock, plan, terms, machine, shared));
    }
    both
}
