//! A store of one thread's own, and a store that threads may share, by one thread.

ghost use Rattle.std.specs.Prelude.{◌≡◌, ◌≤◌, IfOk, All};
ghost use Rattle.store_model.specs.NewStore.{MaySize};
ghost use Rattle.innermost.specs.Machines.{IsFor};
ghost use Rattle.plain_store.specs.Contents as own;
ghost use Rattle.shared_desk.specs.Desk.{store_of};
ghost use Rattle.shared_desk.specs.Telling.{MayHaveDesk};
ghost use Rattle.rewriting_speed.specs.Ready.{IsReady};
ghost use Rattle.rewriting_speed.specs.Shared.{sizes_of};

use crate::laps::{Beside, Lap, laps_beside};
use faults::Memory;
use innermost::Machine;
use node_rows::{Pass, Store};
use plain_store::PlainStore;
use rule_match::Plan;
use shared_desk::{Desk, OwnPass};
use std::alloc::Global;
use std::sync::Wait;
use std::time::CpuClock;
use store_model::Sizes;
use term_model::Flat;

const ROWS: u32 = 262_144;

const DEPTH: u32 = 65_536;

// A shared store for one thread, with all rows and as many buckets, all in use.
fn sizes_for(widest: u32) -> Sizes
    requires { widest ≤ 16 }
    ensures sizes { result ≡ sizes_of widest }
    ensures may { MaySize result }
{
    Sizes {
        rows: ROWS,
        buckets: ROWS,
        start: ROWS,
        seats: 1,
        depth: DEPTH,
        arity: widest,
        first: 1,
    }
}

// A new store of these sizes, and its passes.
fn store_for(alloc: Global, widest: u32) -> Result<(Store, Vec<Pass>), Memory>
    requires { widest ≤ 16 }
    ensures sizes { IfOk result (λ t. t.0.sizes ≡ sizes_of widest) }
    ensures may { IfOk result (λ t. All (MayHaveDesk t.0) t.1.items) }
{
    Store::make(alloc, sizes_for(widest))
}

// A store of one's own, on which terms may be rewritten. The machine is there for the contract
// alone.
fn own_store(
    alloc: Global,
    rows: u32,
    depth: u32,
    plan: &Plan,
    _machine: &Machine,
) -> Result<PlainStore, Memory>
    requires fits { IsFor plan.now _machine.now }
    requires depth { _machine.now.depth ≤ depth }
    ensures { IfOk result (λ store. IsReady plan.now _machine.now (own.store_of store)) }
{
    PlainStore::new(alloc, rows, depth, plan.widest())
}

// A desk at the pass, on which terms may be rewritten. The plan and the machine are there for the
// contract alone.
fn desk_at<'a, R: Wait>(
    rt: &'a R,
    alloc: Global,
    store: &'a Store,
    pass: Pass,
    _plan: &Plan,
    _machine: &Machine,
) -> Result<Desk<OwnPass<'a, R>>, Memory>
    requires may { MayHaveDesk store.now pass }
    requires fits { IsFor _plan.now _machine.now }
    requires sizes { store.now.sizes ≡ sizes_of _plan.now.widest }
    requires depth { _machine.now.depth ≤ 65536 }
    ensures { IfOk result (λ desk. IsReady _plan.now _machine.now (store_of desk)) }
{
    Desk::<OwnPass<'a, R>>::new(rt, alloc, store, pass)
}

// The same laps on a store of one's own and on the shared one, at its pass.
fn laps_at<R: Wait + CpuClock>(
    rt: &R,
    alloc: Global,
    plan: &Plan,
    terms: &[Flat],
    laps: u32,
    store: &Store,
    pass: Pass,
) -> Result<Beside, Memory>
    requires sizes { store.now.sizes ≡ sizes_of plan.now.widest }
    requires may { MayHaveDesk store.now pass }
{
    let mut machine = Machine::new(alloc, plan, DEPTH)?;
    let mut own = own_store(alloc, ROWS, DEPTH, plan, &machine)?;
    let mut desk = desk_at(rt, alloc, store, pass, plan, &machine)?;
    Ok(laps_beside(rt, plan, terms, laps, &mut machine, &mut own, &mut desk))
}

/// Rewrites the terms so many times over by one thread, on a store of its own and on a shared one.
pub(crate) fn rewrite_beside<R: Wait + CpuClock>(
    rt: &R,
    alloc: Global,
    plan: &Plan,
    terms: &[Flat],
    laps: u32,
) -> Result<Beside, Memory>
    requires { plan.now.widest ≤ 16 }
{
    let (store, mut passes) = store_for(alloc, plan.widest())?;
    match passes.pop() {
        Some(pass) => laps_at(rt, alloc, plan, terms, laps, &store, pass),
        None => Ok(Beside {
            own: Lap::none(),
            shared: Lap::none(),
        }),
    }
}
