// The command `drill`: from a number to what came of the terms of its text.
ghost use Rattle.settings.specs.Words.{AreInRange};
ghost use Rattle.rec_top.specs.Commands.{Drills};

use crate::rewriting::{Worked, lines_for};
use ends::Gate;
use faults::Memory;
use rec_answers::{Conditions, Finished, Stop, stop_of_drill, told_counts};
use rec_drill::drill_text;
use settings::Settings;
use std::alloc::Global;
use std::sync::Wait;
use std::thread::Threads;

/// Rewrites the terms of a drill's text, and answers how many there were, how many have a value,
/// and the fuel that those took.
pub fn drilled<R: Threads + Wait + Sync, G: Gate>(
    rt: &R,
    alloc: Global,
    settings: &Settings,
    gate: &G,
) -> Finished
    requires in_range { AreInRange settings.now }
    ensures { Drills settings.now result.answer result.chronicle result.log }
{
    let text = match drill_text(alloc, settings.count) {
        Ok(text) => text,
        Err(Memory) => return Finished::alone(Err(Stop::Memory)),
    };
    let Worked {
        lines,
        chronicle,
        log,
    } = lines_for(rt, alloc, settings, Conditions::Accepted, &text, gate);
    match lines {
        Ok(lines) => {
            let answer = told_counts(alloc, settings, &lines, log.is_some());
            drop(lines);
            Finished {
                answer,
                chronicle,
                log,
            }
        }
        Err(stop) => Finished {
            answer: Err(stop_of_drill(stop)),
            chronicle,
            log: None,
        },
    }
}
