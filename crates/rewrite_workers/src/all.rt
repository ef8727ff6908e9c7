// All terms, by all workers.
ghost use Rattle.std.specs.Prelude.{◌≡◌, ◌<◌, ◌^◌, All, IfOk, IfErr, OnOk, length, map};
ghost use Rattle.work_order.specs.Lined.{said, worker_of, line_of, trace_of, drawn_by};
ghost use Rattle.rewrite_workers.specs.Desks.{IsReady, EachDesk, KeepsDesk};
ghost use Rattle.rewrite_workers.specs.Ends.{Stopped, BuiltAll};
ghost use Rattle.worker_crew.specs.Crews.{IsCrew};
ghost use Rattle.rewrite_workers.specs.Outcome.{Traces, Rewrites};
ghost use Rattle.work_order.specs.Works.{MayWork, need_of};

use crate::threads::work_all;
use crate::worker::Job;
use crate::{AllFault, Lines, Work};
use ends::Gate;
use std::alloc::Global;
use std::thread::Threads;
use terms_api::Terms;
use worker_crew::{Crew, Traced, beside, collect, crew_of};

// Rewrites the terms by a crew, and tells lines and events together.
fn trace_by<R: Threads + Sync, T: Terms + Send, G: Gate>(
    rt: &R,
    alloc: Global,
    work: &Work,
    desks: &mut [T],
    gate: &G,
    crew: Crew,
) -> Result<Vec<Traced>, AllFault>
    requires some { 0 < length desks.old }
    requires may { MayWork work.now.plan.now work.now.symbols.now work.now.terms.now }
    requires ready { All (λ d. IsReady work.now.settings work.now.plan.now (T.store d)) desks.old }
    requires crew { IsCrew (length desks.old) (length work.now.terms.now) crew }
    ensures { Traces T.store T.same work.now.settings work.now.plan.now work.now.symbols.now
        work.now.terms.now desks.old desks.new result }
{
    let Crew {
        draws,
        all,
        mut shares,
        lines,
    } = crew;
    let job = Job {
        alloc,
        work: *work,
        draws: &draws,
        gate,
    };
    work_all(rt, &job, desks, &mut shares);
    collect(&draws, all, shares, lines)
}

// Rewrites the terms by a crew.
fn rewrite_by<R: Threads + Sync, T: Terms + Send, G: Gate>(
    rt: &R,
    alloc: Global,
    work: &Work,
    desks: &mut [T],
    gate: &G,
    crew: Crew,
) -> Result<Lines, AllFault>
    requires some { 0 < length desks.old }
    requires may { MayWork work.now.plan.now work.now.symbols.now work.now.terms.now }
    requires ready { All (λ d. IsReady work.now.settings work.now.plan.now (T.store d)) desks.old }
    requires crew { IsCrew (length desks.old) (length work.now.terms.now) crew }
    ensures { Rewrites T.store T.same work.now.settings work.now.plan.now work.now.symbols.now
        work.now.terms.now desks.old desks.new result }
{
    match trace_by(rt, alloc, work, desks, gate, crew) {
        Ok(traced) => match beside(alloc, traced) {
            Ok(lines) => Ok(lines),
            Err(_) => Err(AllFault::Memory),
        },
        Err(fault) => Err(fault),
    }
}

/// Rewrites the terms of some work, by one worker for each desk, and tells the lines of all, with
/// the events that lead to their values where those are asked. The first worker works in this
/// thread, and each other in a thread of its own where one can be made; where none can, the others
/// do its work. Each worker draws the next term that nobody has drawn, until none is left, a build
/// is refused, or there is no memory. The gate is told before and after each term, while the
/// worker's desk is outside. Of several faults want of memory is told before want of numbers, and
/// that before want of rows.
pub fn rewrite_all<R: Threads + Sync, T: Terms + Send, G: Gate>(
    rt: &R,
    alloc: Global,
    work: &Work,
    desks: &mut [T],
    gate: &G,
) -> Result<Lines, AllFault>
    requires some { 0 < length desks.old }
    requires few { length desks.old < 2 ^ 32 }
    requires ready { All (λ d. IsReady work.now.settings work.now.plan.now (T.store d)) desks.old }
    requires may { MayWork work.now.plan.now work.now.symbols.now work.now.terms.now }

    // The lines are those of the terms, in their order, whoever drew them, and the events beside
    // them lead to their values, where the settings ask for them and no rule has a condition.
    ensures lines { IfOk result (λ l. map said l.list.items
        ≡ map (line_of work.now.settings work.now.symbols.now work.now.plan.now.rules)
        work.now.terms.now) }
    ensures traces { IfOk result (λ l. map (λ t. t.items) l.traces.items
        ≡ map (trace_of work.now.settings work.now.plan.now.rules) work.now.terms.now) }
    ensures workers { IfOk result (λ l. All (λ w. w < length desks.old)
        (map worker_of l.list.items)) }

    // Each desk built what the terms build that its worker drew.
    ensures built { IfOk result (λ l. EachDesk (λ k old new. BuiltAll work.now.settings
        work.now.plan.now.rules (drawn_by k (map worker_of l.list.items) work.now.terms.now)
        (T.store old) (T.store new)) desks.old desks.new) }
    ensures no_refusals { OnOk result (EachDesk
        (λ _ old new. (T.store new).refusals ≡ (T.store old).refusals) desks.old desks.new) }

    // Which desk refused what, and what each had built.
    ensures stopped { IfErr result (Stopped T.store work.now.settings work.now.plan.now.rules
        work.now.terms.now desks.old desks.new) }

    // What every answer leaves of each desk.
    ensures ready { All (λ d. IsReady work.now.settings work.now.plan.now (T.store d)) desks.new }
    ensures kept { EachDesk (λ _ old new. KeepsDesk work.now.settings
        (need_of work.now.settings work.now.plan.now.rules work.now.terms.now)
        (T.store old) (T.store new)) desks.old desks.new }
    ensures same { EachDesk (λ _ old new. T.same old new) desks.old desks.new }
{
    let workers = desks.len() as u32;
    match crew_of(alloc, workers, work.terms.len() as u32) {
        Ok(crew) => rewrite_by(rt, alloc, work, desks, gate, crew),
        Err(_) => Err(AllFault::Memory),
    }
}
