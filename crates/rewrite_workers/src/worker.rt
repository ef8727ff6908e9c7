// What one worker does: it draws terms until none is left, and makes the line of each.
ghost use Rattle.std.specs.Prelude.{◌≡◌, ◌<◌, [], ◌∷◌, None, IfOk, OnErr, OnOk, length};
ghost use Rattle.term_model.specs.declared.Row.{Row};
ghost use Rattle.work_order.specs.Works.{MayWork, term_at, need_at};
ghost use Rattle.work_order.specs.Lined.{told, told_of};
ghost use Rattle.rewrite_workers.specs.Desks.{IsReady};
ghost use Rattle.rewrite_workers.specs.Ends.{Ended};
ghost use Rattle.rewrite_workers.specs.Working.{IsRewriterOf, Recalls, WorksOn};
ghost use Rattle.rewrite_workers.specs.Worked.{AddsLine, KeepsSeat, Drew, Worked};
ghost use Rattle.worker_crew.specs.Crews.{IsFresh};

use crate::Work;
use crate::remembered::Remembered;
use ends::Gate;
use faults::Memory;
use innermost::{Machine, Memo, NoMemo};
use result_memory::LruMemo;
use std::alloc::Global;
use term_lines::{LineStop, Rewriter};
use term_text::SizeMarks;
use terms_api::Terms;
use worker_crew::{Draws, Line, Numbered, Share, Traced, draw};

/// What all workers share: the work, the draws and the gate.
pub(crate) struct Job<'a, G> {
    pub alloc: Global,
    pub work: Work<'a>,
    pub draws: &'a Draws,
    pub gate: &'a G,
}

impl<'a, G> Drop for Job<'a, G> {
    fn drop(self) {
        let Job {
            alloc: _,
            work: _,
            draws: _,
            gate: _,
        } = self;
    }
}

// What rewrites the terms of some work.
fn rewriter_of<G>(job: &Job<G>) -> Result<Rewriter, Memory>
    ensures { IfOk result (IsRewriterOf job.now.work.settings job.now.work.plan.now) }
{
    let marks = SizeMarks::new(job.alloc, job.work.settings.rows)?;
    Ok(Rewriter {
        machine: Machine::new(job.alloc, job.work.plan, job.work.settings.depth)?,
        strategy: job.work.strategy(),
        marks,
        fuel: job.work.settings.fuel,
        sizes: job.work.settings.sizes,
        traced: job.work.traced(),
        remembers: job.work.settings.cache > 0,
    })
}

// Makes the line of a term on a desk, with its events. The gate is told before and after, while
// nobody is inside.
fn make_line<T: Terms, G: Gate, M: Memo>(
    job: &Job<G>,
    rewriter: &mut Rewriter,
    memory: &mut Remembered<M>,
    desk: &mut T,
    number: u32,
    worker: u32,
) -> Result<Traced, LineStop>
    requires number { number < length job.now.work.terms.now }
    requires may { MayWork job.now.work.plan.now job.now.work.symbols.now job.now.work.terms.now }
    requires rewriter { IsRewriterOf job.now.work.settings job.now.work.plan.now rewriter.old }
    requires ready { IsReady job.now.work.settings job.now.work.plan.now (T.store desk.old) }
    requires recalls { Recalls job.now.work.settings job.now.work.plan.now.rules (T.store desk.old)
        (M.map memory.old.memo) memory.old.epoch }
    ensures line { IfOk result (λ l. told l ≡ told_of job.now.work.settings job.now.work.symbols.now
        job.now.work.plan.now.rules (term_at job.now.work.terms.now number)) }
    ensures worker { IfOk result (λ l. l.line.worker ≡ worker) }
    ensures ended { Ended job.now.work.settings job.now.work.plan.now.rules
        (term_at job.now.work.terms.now number ∷ []) (T.store desk.old) (T.store desk.new) result }
    ensures works { WorksOn job.now.work.settings
        (need_at job.now.work.settings job.now.work.plan.now.rules job.now.work.terms.now number)
        (T.store desk.old) (T.store desk.new) result }
    ensures ready { IsReady job.now.work.settings job.now.work.plan.now (T.store desk.new) }
    ensures recalls { Recalls job.now.work.settings job.now.work.plan.now.rules (T.store desk.new)
        (M.map memory.new.memo) memory.new.epoch }
    ensures rewriter { rewriter.new ≡ rewriter.old }
    ensures same { T.same desk.old desk.new }
{
    let mut text = Vec::new(job.alloc);
    let mut events = Vec::new(job.alloc);
    let term = &job.work.terms[number as usize];
    job.gate.before(number);
    desk.enter();
    memory.enter(desk);
    let made = rewriter.write_line(
        job.work.plan,
        job.work.symbols,
        term,
        desk,
        &mut memory.memo,
        &mut text,
        &mut events,
    );
    memory.leave(desk);
    desk.leave();
    job.gate.after(number);
    match made {
        Ok(ending) => {
            let line = Line {
                kind: ending.kind,
                text,
                spent: ending.spent,
                worker,
            };
            Ok(Traced { line, events })
        }
        Err(stop) => Err(stop),
    }
}

// Makes the line of a term that was drawn, and puts it behind the worker's others.
fn add_line<T: Terms, G: Gate, M: Memo>(
    job: &Job<G>,
    rewriter: &mut Rewriter,
    memory: &mut Remembered<M>,
    desk: &mut T,
    share: &mut Share,
    number: u32,
) -> Result<(), LineStop>
    requires number { number < length job.now.work.terms.now }
    requires may { MayWork job.now.work.plan.now job.now.work.symbols.now job.now.work.terms.now }
    requires rewriter { IsRewriterOf job.now.work.settings job.now.work.plan.now rewriter.old }
    requires ready { IsReady job.now.work.settings job.now.work.plan.now (T.store desk.old) }
    requires recalls { Recalls job.now.work.settings job.now.work.plan.now.rules (T.store desk.old)
        (M.map memory.old.memo) memory.old.epoch }
    ensures line { OnOk result (AddsLine share.old share.new number (told_of job.now.work.settings
        job.now.work.symbols.now job.now.work.plan.now.rules
        (term_at job.now.work.terms.now number))) }
    ensures unmade { OnErr result (share.new.lines.items ≡ share.old.lines.items) }
    ensures seat { KeepsSeat share.old share.new }
    ensures ended { Ended job.now.work.settings job.now.work.plan.now.rules
        (term_at job.now.work.terms.now number ∷ []) (T.store desk.old) (T.store desk.new) result }
    ensures works { WorksOn job.now.work.settings
        (need_at job.now.work.settings job.now.work.plan.now.rules job.now.work.terms.now number)
        (T.store desk.old) (T.store desk.new) result }
    ensures ready { IsReady job.now.work.settings job.now.work.plan.now (T.store desk.new) }
    ensures recalls { Recalls job.now.work.settings job.now.work.plan.now.rules (T.store desk.new)
        (M.map memory.new.memo) memory.new.epoch }
    ensures rewriter { rewriter.new ≡ rewriter.old }
    ensures same { T.same desk.old desk.new }
{
    let line = make_line(job, rewriter, memory, desk, number, share.worker)?;
    match share.lines.push(Numbered { number, line }) {
        Ok(()) => Ok(()),
        Err(_) => Err(LineStop::Memory),
    }
}

// Draws terms until none is left, and makes the line of each.
fn draw_terms<T: Terms, G: Gate, M: Memo>(
    job: &Job<G>,
    rewriter: &mut Rewriter,
    memory: &mut Remembered<M>,
    desk: &mut T,
    share: &mut Share,
) -> Result<(), LineStop>
    requires may { MayWork job.now.work.plan.now job.now.work.symbols.now job.now.work.terms.now }
    requires rewriter { IsRewriterOf job.now.work.settings job.now.work.plan.now rewriter.old }
    requires ready { IsReady job.now.work.settings job.now.work.plan.now (T.store desk.old) }
    requires recalls { Recalls job.now.work.settings job.now.work.plan.now.rules (T.store desk.old)
        (M.map memory.old.memo) memory.old.epoch }
    requires fresh { IsFresh job.now.draws.now.shared.table_id (length job.now.work.terms.now)
        share.old }
    ensures seat { Drew job.now.draws.now.shared.table_id share.old share.new }
    ensures worked { Worked job.now.work.settings job.now.work.symbols.now
        job.now.work.plan.now.rules
        job.now.work.terms.now (T.store desk.old) (T.store desk.new) share.new result }
    ensures ready { IsReady job.now.work.settings job.now.work.plan.now (T.store desk.new) }
    ensures same { T.same desk.old desk.new }
{
    let count = job.work.terms.len() as u64;
    'terms: loop {
        let number = draw(job.draws, &mut share.seat);
        if number >= count {
            return Ok(());
        }
        add_line(job, rewriter, memory, desk, share, number as u32)?;
    }
}

// Makes a worker's rewriter, and draws terms with it and this memory of results, which has nothing
// yet.
fn draw_with<T: Terms, G: Gate, M: Memo + Drop>(
    job: &Job<G>,
    memo: M,
    desk: &mut T,
    share: &mut Share,
) -> Result<(), LineStop>
    requires may { MayWork job.now.work.plan.now job.now.work.symbols.now job.now.work.terms.now }
    requires memo { (row : Row) → M.map memo row ≡ None }
    requires ready { IsReady job.now.work.settings job.now.work.plan.now (T.store desk.old) }
    requires fresh { IsFresh job.now.draws.now.shared.table_id (length job.now.work.terms.now)
        share.old }
    ensures seat { Drew job.now.draws.now.shared.table_id share.old share.new }
    ensures worked { Worked job.now.work.settings job.now.work.symbols.now
        job.now.work.plan.now.rules
        job.now.work.terms.now (T.store desk.old) (T.store desk.new) share.new result }
    ensures ready { IsReady job.now.work.settings job.now.work.plan.now (T.store desk.new) }
    ensures same { T.same desk.old desk.new }
{
    let mut rewriter = rewriter_of(job)?;
    let mut memory = Remembered::new(memo);
    draw_terms(job, &mut rewriter, &mut memory, desk, share)
}

// A worker's whole work.
fn work_through<T: Terms, G: Gate>(
    job: &Job<G>,
    desk: &mut T,
    share: &mut Share,
) -> Result<(), LineStop>
    requires may { MayWork job.now.work.plan.now job.now.work.symbols.now job.now.work.terms.now }
    requires ready { IsReady job.now.work.settings job.now.work.plan.now (T.store desk.old) }
    requires fresh { IsFresh job.now.draws.now.shared.table_id (length job.now.work.terms.now)
        share.old }
    ensures seat { Drew job.now.draws.now.shared.table_id share.old share.new }
    ensures worked { Worked job.now.work.settings job.now.work.symbols.now
        job.now.work.plan.now.rules
        job.now.work.terms.now (T.store desk.old) (T.store desk.new) share.new result }
    ensures ready { IsReady job.now.work.settings job.now.work.plan.now (T.store desk.new) }
    ensures same { T.same desk.old desk.new }
{
    if job.work.settings.cache == 0 {
        return draw_with(job, NoMemo, desk, share);
    }
    let memo = LruMemo::new(job.alloc, job.work.settings.cache)?;
    draw_with(job, memo, desk, share)
}

/// One worker: draws terms until none is left or it must stop, and makes the line of each. How it
/// ended stands in its share.
pub(crate) fn work<T: Terms, G: Gate>(job: &Job<G>, desk: &mut T, share: &mut Share)
    requires may { MayWork job.now.work.plan.now job.now.work.symbols.now job.now.work.terms.now }
    requires ready { IsReady job.now.work.settings job.now.work.plan.now (T.store desk.old) }
    requires fresh { IsFresh job.now.draws.now.shared.table_id (length job.now.work.terms.now)
        share.old }
    ensures seat { Drew job.now.draws.now.shared.table_id share.old share.new }
    ensures worked { Worked job.now.work.settings job.now.work.symbols.now
        job.now.work.plan.now.rules
        job.now.work.terms.now (T.store desk.old) (T.store desk.new) share.new share.new.end }
    ensures ready { IsReady job.now.work.settings job.now.work.plan.now (T.store desk.new) }
    ensures same { T.same desk.old desk.new }
{
    share.end = work_through(job, desk, share);
}
