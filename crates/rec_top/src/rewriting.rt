// From a specification to the lines of its terms, for `rewrite`, `outermost` and `drill`.
ghost use Rattle.std.specs.Prelude.{◌≡◌, ◌≤◌, [], None, Err, length};
ghost use Rattle.settings.specs.Words.{AreInRange};
ghost use Rattle.rec_check.specs.Spec.{specified};
ghost use Rattle.rec_check.specs.Run.{MayBeRun};
ghost use Rattle.rec_check.specs.Symbols.{widest_of};
ghost use Rattle.rec_answers.specs.Rewritten.{IsNamed};
ghost use Rattle.rec_top.specs.Commands.{WorksSpec, WorksInput, RewritesInput};

use ends::Gate;
use faults::Memory;
use log_text::LogText;
use node_rows::Chronicle;
use rec_answers::{Conditions, Finished, Stop, lines_or_stop, specification_of, told_lines};
use rec_check::Spec;
use rule_match::Plan;
use settings::Settings;
use shared_work::{Lines, Rewritten, Work, rewrite_shared};
use std::alloc::Global;
use std::sync::Wait;
use std::thread::Threads;

/// The lines of terms, or why there are none; the history of the workers; and its log, where one is
/// asked and there was memory for it.
#[derive(Drop)]
pub struct Worked {
    pub lines: Result<Lines, Stop>,
    pub chronicle: Chronicle,
    pub log: Option<LogText>,
}

impl Worked {
    // No term was rewritten, for this reason.
    fn stopped(stop: Stop) -> Self
        ensures lines { result.lines ≡ Err stop }
        ensures chronicle { result.chronicle ≡ [] }
        ensures log { result.log ≡ None }
    {
        Worked {
            lines: Err(stop),
            chronicle: Chronicle::empty(),
            log: None,
        }
    }
}

// Rewrites the terms of a specification by the workers that the settings ask for, on one store.
fn rewrite<R: Threads + Wait + Sync, G: Gate>(
    rt: &R,
    alloc: Global,
    settings: &Settings,
    spec: Spec,
    gate: &G,
) -> Worked
    requires in_range { AreInRange settings.now }
    requires may_be_run { MayBeRun (specified spec) }
    requires named { IsNamed (specified spec) }
    requires widest { spec.widest ≡ widest_of spec.symbols }
    requires narrow { spec.widest ≤ 16 }
    requires few { length spec.terms.items ≤ 65535 }
    ensures { WorksSpec settings.now spec result.lines result.chronicle result.log }
{
    let plan = match Plan::of(alloc, spec.rules, spec.widest) {
        Ok(plan) => plan,
        Err(Memory) => {
            drop(spec.symbols);
            return Worked::stopped(Stop::Memory);
        }
    };
    let work = Work {
        plan: &plan,
        symbols: &spec.symbols,
        terms: &spec.terms,
        settings: *settings,
    };
    let Rewritten {
        lines,
        chronicle,
        log,
    } = rewrite_shared(rt, alloc, &work, gate);
    drop(plan);
    drop(spec.symbols);
    Worked {
        lines: lines_or_stop(lines),
        chronicle,
        log,
    }
}

/// Reads a specification, whose rules may have conditions or not, and makes the lines of its terms.
pub fn lines_for<R: Threads + Wait + Sync, G: Gate>(
    rt: &R,
    alloc: Global,
    settings: &Settings,
    conditions: Conditions,
    input: &[u8],
    gate: &G,
) -> Worked
    requires in_range { AreInRange settings.now }
    ensures { WorksInput conditions settings.now input.now result.lines result.chronicle
        result.log }
{
    match specification_of(alloc, conditions, input) {
        Ok(spec) => rewrite(rt, alloc, settings, spec, gate),
        Err(stop) => Worked::stopped(stop),
    }
}

/// Reads a specification, whose rules may have conditions or not, and answers the lines of its
/// terms.
pub fn rewritten<R: Threads + Wait + Sync, G: Gate>(
    rt: &R,
    alloc: Global,
    settings: &Settings,
    conditions: Conditions,
    input: &[u8],
    gate: &G,
) -> Finished
    requires in_range { AreInRange settings.now }
    ensures { RewritesInput conditions settings.now input.now result.answer result.chronicle
        result.log }
{
    let Worked {
        lines,
        chronicle,
        log,
    } = lines_for(rt, alloc, settings, conditions, input, gate);
    match lines {
        Ok(lines) => {
            let answer = told_lines(alloc, settings, &lines, log.is_some());
            drop(lines);
            Finished {
                answer,
                chronicle,
                log,
            }
        }
        Err(stop) => Finished {
            answer: Err(stop),
            chronicle,
            log: None,
        },
    }
}
