// The store of some work, the desks at its passes, and the passes that they give back.
ghost use Rattle.std.specs.Prelude.{◌≡◌, ℕ, ◌<◌, ◌≤◌, ◌^◌, [], IfOk, All, false, vec_len, vec_capacity};
ghost use Rattle.log_text.specs.Lines.{header_text};
ghost use Rattle.settings.specs.Words.{AreInRange};
ghost use Rattle.busy_forbidden.specs.Dealt.{EachPlace};
ghost use Rattle.store_model.specs.NewStore.{MaySize};
ghost use Rattle.node_rows.specs.Belonging.{IsOpen};
ghost use Rattle.node_rows.specs.Told.{view_of};
ghost use Rattle.shared_desk.specs.Desk.{store_of};
ghost use Rattle.shared_desk.specs.Telling.{MayHaveDesk};
ghost use Rattle.work_desks.specs.NewDesks.{sizes_for, IsNewPass, IsNewDesk, AreBack};

use faults::Memory;
use log_text::LogText;
use node_rows::{Pass, Store};
use rule_match::Plan;
use settings::Settings;
use shared_desk::{Desk, LogDesk, OwnPass};
use std::alloc::Global;
use std::sync::Wait;
use store_model::Sizes;

// The sizes of the store of some work.
fn sizes_of(settings: &Settings, plan: &Plan) -> Sizes
    requires in_range { AreInRange settings.now }
    requires width { plan.now.widest ≤ 16 }
    ensures sizes { result ≡ sizes_for settings.now plan.now }
    ensures may { MaySize result }
{
    let rows = settings.rows;
    Sizes {
        rows,
        buckets: rows,
        start: rows,
        seats: settings.workers,
        depth: settings.depth,
        arity: plan.widest(),
        first: 1,
    }
}

/// The store of some work, and its passes: with the rows and the depth of the settings, as many
/// buckets as rows, all in use from the start, a seat for each worker, and the plan's width.
pub fn store_for(
    alloc: Global,
    settings: &Settings,
    plan: &Plan,
) -> Result<(Store, Vec<Pass>), Memory>
    requires in_range { AreInRange settings.now }
    requires width { plan.now.widest ≤ 16 }
    ensures store { IfOk result (λ t. IsOpen t.0) }
    ensures sizes { IfOk result (λ t. t.0.sizes ≡ sizes_for settings.now plan.now) }
    ensures may { IfOk result (λ t. All (MayHaveDesk t.0) t.1.items) }
    ensures new { IfOk result (λ t. EachPlace (IsNewPass t.0) t.0.sizes.seats t.1.items) }
{
    Store::make(alloc, sizes_of(settings, plan))
}

// A desk at a pass of a new store.
fn desk_at<'a, R: Wait>(
    rt: &'a R,
    alloc: Global,
    store: &'a Store,
    pass: Pass,
) -> Result<Desk<OwnPass<'a, R>>, Memory>
    requires may { MayHaveDesk store.now pass }
    ensures { IfOk result (λ desk. (k : ℕ) → IsNewPass store.now k pass
        → IsNewDesk store.now k desk) }
{
    Desk::<OwnPass<'a, R>>::new(rt, alloc, store, pass)
}

// A desk at each pass of a new store, in their order.
fn each_desk<'a, R: Wait>(
    rt: &'a R,
    alloc: Global,
    store: &'a Store,
    passes: Vec<Pass>,
) -> Result<Vec<Desk<OwnPass<'a, R>>>, Memory>
    requires may { All (MayHaveDesk store.now) passes.items }
    requires new { EachPlace (IsNewPass store.now) store.now.sizes.seats passes.items }
    ensures { IfOk result
        (λ desks. EachPlace (IsNewDesk store.now) store.now.sizes.seats desks.items) }
{
    let mut desks = Vec::with_capacity(alloc, passes.len())?;
    for pass in passes {
        let desk = desk_at(rt, alloc, store, pass)?;
        desks.push_reserved(desk);
    }
    Ok(desks)
}

/// A desk at each pass of a new store, in their order, and room for the passes that they give back.
pub fn desks_at<'a, R: Wait>(
    rt: &'a R,
    alloc: Global,
    store: &'a Store,
    passes: Vec<Pass>,
) -> Result<(Vec<Desk<OwnPass<'a, R>>>, Vec<Pass>), Memory>
    requires may { All (MayHaveDesk store.now) passes.items }
    requires new { EachPlace (IsNewPass store.now) store.now.sizes.seats passes.items }
    ensures desks { IfOk result
        (λ t. EachPlace (IsNewDesk store.now) store.now.sizes.seats t.0.items) }
    ensures empty { IfOk result (λ t. t.1.items ≡ []) }
    ensures wide { IfOk result (λ t. vec_len t.0 ≤ vec_capacity t.1) }
{
    let room = Vec::with_capacity(alloc, passes.len())?;
    let desks = each_desk(rt, alloc, store, passes)?;
    Ok((desks, room))
}

/// The passes of desks that are out, in their order, in memory that has room for them.
pub fn passes_of<R: Wait>(room: Vec<Pass>, desks: Vec<Desk<OwnPass<'_, R>>>) -> Vec<Pass>
    requires outside { All (λ d. (store_of d).inside ≡ false) desks.items }
    requires empty { room.items ≡ [] }
    requires wide { vec_len desks ≤ vec_capacity room }
    ensures back { AreBack desks.entry.items result.items }
{
    let mut passes = room;
    for desk in desks {
        passes.push_reserved(desk.into_pass());
    }
    passes
}

// A desk that writes a log, at a pass of a new store.
fn log_desk_at<'a, R: Wait>(
    rt: &'a R,
    alloc: Global,
    store: &'a Store,
    pass: Pass,
) -> Result<LogDesk<'a, R>, Memory>
    requires may { MayHaveDesk store.now pass }
    requires unnoted { (view_of pass).store.entries ≡ [] }
    ensures { IfOk result (λ desk. (k : ℕ) → IsNewPass store.now k pass
        → IsNewDesk store.now k desk) }
{
    LogDesk::new(rt, alloc, store, pass)
}

// A desk that writes a log, at each pass of a new store, in their order.
fn each_log_desk<'a, R: Wait>(
    rt: &'a R,
    alloc: Global,
    store: &'a Store,
    passes: Vec<Pass>,
) -> Result<Vec<LogDesk<'a, R>>, Memory>
    requires may { All (MayHaveDesk store.now) passes.items }
    requires new { EachPlace (IsNewPass store.now) store.now.sizes.seats passes.items }
    ensures { IfOk result
        (λ desks. EachPlace (IsNewDesk store.now) store.now.sizes.seats desks.items) }
{
    let mut desks = Vec::with_capacity(alloc, passes.len())?;
    for pass in passes {
        let desk = log_desk_at(rt, alloc, store, pass)?;
        desks.push_reserved(desk);
    }
    Ok(desks)
}

/// A desk that writes a log at each pass of a new store, in their order; room for the passes that
/// they give back; and the first line of the log, of a store of so many rows.
pub fn log_desks_at<'a, R: Wait>(
    rt: &'a R,
    alloc: Global,
    store: &'a Store,
    passes: Vec<Pass>,
    rows: u32,
) -> Result<(Vec<LogDesk<'a, R>>, Vec<Pass>, LogText), Memory>
    requires may { All (MayHaveDesk store.now) passes.items }
    requires new { EachPlace (IsNewPass store.now) store.now.sizes.seats passes.items }
    requires few { vec_len passes < 2 ^ 32 }
    ensures desks { IfOk result
        (λ t. EachPlace (IsNewDesk store.now) store.now.sizes.seats t.0.items) }
    ensures empty { IfOk result (λ t. t.1.items ≡ []) }
    ensures wide { IfOk result (λ t. vec_len t.0 ≤ vec_capacity t.1) }
    ensures log { IfOk result (λ t. t.2 ≡ header_text rows (vec_len t.0)) }
{
    let room = Vec::with_capacity(alloc, passes.len())?;
    let log = LogText::begin(alloc, rows, passes.len() as u32)?;
    let desks = each_log_desk(rt, alloc, store, passes)?;
    Ok((desks, room, log))
}
