// All terms, by workers on one store.
ghost use Rattle.std.specs.Prelude.{◌≡◌, ◌<◌, ◌≤◌, [], None, true, IfOk, IfErr, IfSome, All, map};
ghost use Rattle.std.specs.List.{AllByRecursion};
ghost use Rattle.settings.specs.Words.{AreInRange};
ghost use Rattle.history_core.specs.Chronicle.{chronicle, IsLegal};
ghost use Rattle.node_rows.specs.Belonging.{IsOpen};
ghost use Rattle.work_order.specs.Lined.{said, worker_of, line_of, trace_of};
ghost use Rattle.work_order.specs.Works.{MayWork};
ghost use Rattle.log_text.specs.Keys.{HaveKeys};
ghost use Rattle.shared_work.specs.Filling.{TellsFull};
ghost use Rattle.shared_work.specs.Wearing.{TellsWorn};
ghost use Rattle.shared_work.specs.Fronts.{NamesFronts, NamesOnlyBuilt, TellsEach};
ghost use Rattle.shared_work.specs.Numbers.{TellsFew};
ghost use Rattle.shared_work.specs.Outcome.{Ran, Tells};
ghost use Rattle.shared_work.specs.Running.{MayBegin, WantsMemory, IsAskedLog};
ghost use Rattle.shared_work.specs.Sharing.{NamesWhatItBuilt, CollectsFew, KeepsOrders, EachRises};

use ends::Gate;
use faults::Memory;
use log_text::LogText;
use node_rows::{Chronicle, Pass, Store};
use rewrite_workers::{AllFault, Lines, Work, rewrite_all};
use std::alloc::Global;
use std::sync::Wait;
use std::thread::Threads;
use work_desks::{desks_at, log_desks_at, parts_of, passes_of, store_for, with_end, with_keys};

/// What comes of some work.
#[derive(Drop)]
pub struct Rewritten {
    /// The lines of its terms.
    pub lines: Result<Lines, AllFault>,
    /// The entries of the passes of the store, pass k being that of worker k; or of none, where
    /// there was no memory to begin with.
    pub chronicle: Chronicle,
    /// The chronicle's log, where one is asked and there was memory for it.
    pub log: Option<LogText>,
}

impl Rewritten {
    // There was no memory.
    fn nothing() -> Rewritten
        ensures lines { WantsMemory result.lines }
        ensures chronicle { result.chronicle ≡ [] }
        ensures log { result.log ≡ None }
    {
        Rewritten {
            lines: Err(AllFault::Memory),
            chronicle: Chronicle::empty(),
            log: None,
        }
    }
}

// The lines, the passes of the workers, which are out, and the log of their entries, where there is
// one.
struct Left {
    lines: Result<Lines, AllFault>,
    passes: Vec<Pass>,
    log: Option<LogText>,
}

// Rewrites the terms by workers at the passes of a new store. All memory that the end takes is
// taken first: where there is none, no term is drawn.
fn rewrite_on<R: Threads + Wait + Sync, G: Gate>(
    rt: &R,
    alloc: Global,
    work: &Work,
    store: &Store,
    passes: Vec<Pass>,
    gate: &G,
) -> Result<Left, Memory>
    requires begin { MayBegin work.now store.now passes.items }
    ensures { IfOk result
        (λ left. Ran work.now store.now left.lines left.passes.items left.log) }
{
    let (mut desks, room) = desks_at(rt, alloc, store, passes)?;
    let lines = rewrite_all(rt, alloc, work, &mut desks, gate);
    let passes = passes_of(room, desks);
    Ok(Left {
        lines,
        passes,
        log: None,
    })
}

// The same by desks that write a log. What the log's parts take at the end is taken then: where
// there is no memory for it, there is no log.
fn rewrite_logged<R: Threads + Wait + Sync, G: Gate>(
    rt: &R,
    alloc: Global,
    work: &Work,
    store: &Store,
    passes: Vec<Pass>,
    gate: &G,
) -> Result<Left, Memory>
    requires begin { MayBegin work.now store.now passes.items }
    requires asked { work.now.settings.log ≡ true }
    ensures { IfOk result
        (λ left. Ran work.now store.now left.lines left.passes.items left.log) }
{
    let (mut desks, room, log) = log_desks_at(rt, alloc, store, passes, work.settings.rows)?;
    let lines = rewrite_all(rt, alloc, work, &mut desks, gate);
    let (passes, log) = parts_of(alloc, room, log, desks);
    let log = with_end(alloc, log);
    Ok(Left { lines, passes, log })
}

// The same, with a log where one is asked.
fn rewrite_left<R: Threads + Wait + Sync, G: Gate>(
    rt: &R,
    alloc: Global,
    work: &Work,
    store: &Store,
    passes: Vec<Pass>,
    gate: &G,
) -> Result<Left, Memory>
    requires begin { MayBegin work.now store.now passes.items }
    ensures { IfOk result
        (λ left. Ran work.now store.now left.lines left.passes.items left.log) }
{
    if work.settings.log {
        rewrite_logged(rt, alloc, work, store, passes, gate)
    } else {
        rewrite_on(rt, alloc, work, store, passes, gate)
    }
}

// Rewrites the terms on a new store, and ends the store.
fn rewrite_at<R: Threads + Wait + Sync, G: Gate>(
    rt: &R,
    alloc: Global,
    work: &Work,
    store: Store,
    passes: Vec<Pass>,
    gate: &G,
) -> Rewritten
    requires store { IsOpen store }
    requires begin { MayBegin work.now store passes.items }
    ensures { Tells work.now result.lines result.chronicle result.log }
{
    match rewrite_left(rt, alloc, work, &store, passes, gate) {
        Ok(left) => {
            let Left { lines, passes, log } = left;
            let log = with_keys(log, &passes);
            let chronicle = store.close(passes);
            Rewritten {
                lines,
                chronicle,
                log,
            }
        }
        Err(_) => Rewritten::nothing(),
    }
}

// Rewrites the terms on a store of their own.
fn rewrite_new<R: Threads + Wait + Sync, G: Gate>(
    rt: &R,
    alloc: Global,
    work: &Work,
    gate: &G,
) -> Rewritten
    requires in_range { AreInRange work.now.settings }
    requires width { work.now.plan.now.widest ≤ 16 }
    requires may { MayWork work.now.plan.now work.now.symbols.now work.now.terms.now }
    ensures { Tells work.now result.lines result.chronicle result.log }
{
    match store_for(alloc, &work.settings, work.plan) {
        Ok((store, passes)) => rewrite_at(rt, alloc, work, store, passes, gate),
        Err(_) => Rewritten::nothing(),
    }
}

/// Rewrites the terms of some work on one new store, by one worker at a desk of its own for each of
/// the settings' workers. The store has the rows and the depth of the settings, as many buckets as
/// rows, all in use from the start, and the plan's width. At the end it is closed: the chronicle
/// has the entries of worker k under the number k. Where there is no memory to begin with no term
/// is drawn, and the chronicle is empty. It waits where desks enter the store; `rewrite_all` says
/// how terms are drawn and which fault is told.
pub fn rewrite_shared<R: Threads + Wait + Sync, G: Gate>(
    rt: &R,
    alloc: Global,
    work: &Work,
    gate: &G,
) -> Rewritten
    requires in_range { AreInRange work.now.settings }
    requires width { work.now.plan.now.widest ≤ 16 }
    requires may { MayWork work.now.plan.now work.now.symbols.now work.now.terms.now }

    // The lines are those of the terms, in their order, whoever drew them, and the events beside
    // them lead to their values, where the settings ask for them and no rule has a condition.
    ensures lines { IfOk result.lines (λ l. map said l.list.items
        ≡ map (line_of work.now.settings work.now.symbols.now work.now.plan.now.rules)
        work.now.terms.now) }
    ensures traces { IfOk result.lines (λ l. map (λ t. t.items) l.traces.items
        ≡ map (trace_of work.now.settings work.now.plan.now.rules) work.now.terms.now) }
    ensures workers { IfOk result.lines (λ l. All (λ w. w < work.now.settings.workers)
        (map worker_of l.list.items)) }

    // All entries together are a legal history of one thread, whatever the answer is.
    ensures legal { IsLegal work.now.settings.rows (chronicle result.chronicle) }

    // Each worker's entries stand there in its own order, none at a number below those of its
    // earlier ones, and a creation that adds or a collection at one above them.
    ensures order { KeepsOrders work.now.settings result.chronicle }
    ensures rises { EachRises result.chronicle }

    // Each worker made or found, in order, the trees that the terms build that it drew.
    ensures built { IfOk result.lines (λ l. NamesWhatItBuilt work.now.settings
        work.now.plan.now.rules work.now.terms.now (map worker_of l.list.items) result.chronicle) }
    ensures collects { CollectsFew work.now.settings result.chronicle }

    // The store is told to be full only where a worker's last Collect kept as many trees as there
    // are rows, all made by workers, and the worker's next tree isn't among them.
    ensures full { IfErr result.lines (TellsFull work.now.settings work.now.plan.now.rules
        work.now.terms.now result.chronicle) }

    // Then the terms build more different trees than there are rows, and the workers times the most
    // that one term needs at once are more than the rows too.
    ensures few { IfErr result.lines (TellsFew work.now.settings work.now.plan.now.rules
        work.now.terms.now) }

    // The numbers are told to be used up only where so many collections as the terms and the
    // workers may need can use up all below 2^62.
    ensures worn { IfErr result.lines (TellsWorn work.now.settings work.now.plan.now.rules
        work.now.terms.now) }

    // There are the entries of each worker, or of none, where there was no memory to begin with.
    ensures each { TellsEach work.now.settings result.lines result.chronicle }

    // At a fault each worker had drawn terms of its own, and made or found, in order, the first of
    // the trees that they build.
    ensures front { IfErr result.lines (λ fault. NamesFronts work.now.settings
        work.now.plan.now.rules work.now.terms.now result.chronicle) }

    // Whatever the answer is, workers made and found no trees but those that the terms build.
    ensures only { NamesOnlyBuilt work.now.settings work.now.plan.now.rules work.now.terms.now
        result.chronicle }

    // Where there is a log, it was asked, and is that of the chronicle, whose keys are those of a
    // log.
    ensures log { IfSome result.log
        (λ text. IsAskedLog work.now.settings result.chronicle text) }
    ensures keys { IfSome result.log (λ _. AllByRecursion HaveKeys result.chronicle) }
{
    rewrite_new(rt, alloc, work, gate)
}
