// One thread for each worker.
ghost use Rattle.std.specs.Thread.{IsSync, IsSend};
ghost use Rattle.std.specs.Prelude.{◌≡◌, All, length};
ghost use Rattle.work_order.specs.Works.{MayWork};
ghost use Rattle.rewrite_workers.specs.Desks.{IsReady};
ghost use Rattle.worker_crew.specs.Crews.{IsFresh};
ghost use Rattle.rewrite_workers.specs.Shares.{EachShare, Works};

use crate::worker::{Job, work};
use ends::Gate;
use std::thread::{Threads, join_mut};
use terms_api::Terms;
use worker_crew::Share;

/// Each worker works on its desk, all at the same time: the first in this thread, and each other in
/// one of its own where one can be made.
#[cycle(threads)]
pub(crate) fn work_all<R: Threads + Sync, T: Terms + Send, G: Gate>(
    rt: &R,
    job: &Job<G>,
    desks: &mut [T],
    shares: &mut [Share],
)
    requires may { MayWork job.now.work.plan.now job.now.work.symbols.now job.now.work.terms.now }
    requires ready { All (λ d. IsReady job.now.work.settings job.now.work.plan.now (T.store d))
        desks.old }
    requires fresh { All (IsFresh job.now.draws.now.shared.table_id (length job.now.work.terms.now))
        shares.old }
    requires one_each { length shares.old ≡ length desks.old }
    ensures { EachShare (λ d e x y. T.same d e × Works job.now.work.settings job.now.work.plan.now
        job.now.work.symbols.now job.now.work.terms.now job.now.draws.now.shared.table_id
        (T.store d) (T.store e) x y)
        desks.old desks.new shares.old shares.new }
{
    let Some((desk, desks)) = desks.split_first_mut() else {
        return;
    };
    let Some((share, shares)) = shares.split_first_mut() else {
        return;
    };
    work_both(rt, job, desk, share, desks, shares);
}

// A function of its own, so that what the closures require is what it is given.
#[cycle(threads)]
fn work_both<R: Threads + Sync, T: Terms + Send, G: Gate>(
    rt: &R,
    job: &Job<G>,
    desk: &mut T,
    share: &mut Share,
    desks: &mut [T],
    shares: &mut [Share],
)
    requires may { MayWork job.now.work.plan.now job.now.work.symbols.now job.now.work.terms.now }
    requires desk { IsReady job.now.work.settings job.now.work.plan.now (T.store desk.old) }
    requires share { IsFresh job.now.draws.now.shared.table_id (length job.now.work.terms.now)
        share.old }
    requires desks { All (λ d. IsReady job.now.work.settings job.now.work.plan.now (T.store d))
        desks.old }
    requires shares { All
        (IsFresh job.now.draws.now.shared.table_id (length job.now.work.terms.now)) shares.old }
    requires one_each { length shares.old ≡ length desks.old }
    ensures first { T.same desk.old desk.new × Works job.now.work.settings job.now.work.plan.now
        job.now.work.symbols.now job.now.work.terms.now job.now.draws.now.shared.table_id
        (T.store desk.old) (T.store desk.new) share.old share.new }
    ensures others { EachShare
        (λ d e x y. T.same d e × Works job.now.work.settings job.now.work.plan.now
        job.now.work.symbols.now job.now.work.terms.now job.now.draws.now.shared.table_id
        (T.store d) (T.store e) x y)
        desks.old desks.new shares.old shares.new }
{
    let mut others = ||
        requires { IsSync R.row × IsSync G.row × IsSend T.row
            × MayWork job.now.work.plan.now job.now.work.symbols.now job.now.work.terms.now
            × All (λ d. IsReady job.now.work.settings job.now.work.plan.now (T.store d)) desks.now
            × All (IsFresh job.now.draws.now.shared.table_id (length job.now.work.terms.now))
            shares.now
            × (length shares.now ≡ length desks.now) }
        ensures { EachShare
            (λ d e x y. T.same d e × Works job.entry.now.work.settings job.entry.now.work.plan.now
            job.entry.now.work.symbols.now job.entry.now.work.terms.now
            job.entry.now.draws.now.shared.table_id
            (T.store d) (T.store e) x y) desks.entry.now desks.exit.now shares.entry.now
            shares.exit.now }
    { work_all(rt, job, desks, shares) };
    let mut first = ||
        requires { MayWork job.now.work.plan.now job.now.work.symbols.now job.now.work.terms.now
            × IsReady job.now.work.settings job.now.work.plan.now (T.store desk.now)
            × IsFresh job.now.draws.now.shared.table_id (length job.now.work.terms.now) share.now }
        ensures { T.same desk.entry.now desk.exit.now
            × Works job.entry.now.work.settings job.entry.now.work.plan.now
            job.entry.now.work.symbols.now job.entry.now.work.terms.now
            job.entry.now.draws.now.shared.table_id
            (T.store desk.entry.now) (T.store desk.exit.now) share.entry.now share.exit.now }
    { work(job, desk, share) };
    join_mut(rt, &mut others, &mut first);
}
