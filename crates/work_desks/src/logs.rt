// The log of desks that wrote their entries.
ghost use Rattle.std.specs.Prelude.{◌≡◌, ◌<◌, ◌≤◌, ◌^◌, ◌++◌, [], false, All, List, IfSome, vec_len, vec_capacity, map};
ghost use Rattle.history_core.specs.declared.entry.Entry.{Entry};
ghost use Rattle.log_text.specs.Lines.{callers_from, end_text, lines_of};
ghost use Rattle.shared_desk.specs.Desk.{store_of};
ghost use Rattle.work_desks.specs.NewDesks.{AreBack};
ghost use Rattle.work_desks.specs.Texts.{AddsText, AddsCaller};

use log_text::LogText;
use node_rows::Pass;
use shared_desk::LogDesk;
use std::alloc::Global;
use std::sync::Wait;

// A log with a caller more, whose lines these are; None where it was lost, or its lines, or memory
// lacks.
fn with_caller(
    alloc: Global,
    log: Option<LogText>,
    caller: u32,
    lines: Option<Vec<u8>>,
) -> Option<LogText>
    ensures { (entries : List Entry) → IfSome lines (λ steps. steps.items ≡ lines_of entries)
        → AddsCaller log result caller entries }
{
    log?.with_caller(alloc, caller, lines?).ok()
}

/// A log with its last line; None where it was lost, or memory lacks.
pub fn with_end(alloc: Global, log: Option<LogText>) -> Option<LogText>
    ensures { AddsText log result end_text }
{
    log?.with_end(alloc).ok()
}

/// What desks give that are out: their passes, in their order, in memory that has room for them;
/// and the log with their entries behind this one, desk k as caller k, where memory lacked for no
/// part of it.
pub fn parts_of<R: Wait>(
    alloc: Global,
    room: Vec<Pass>,
    log: LogText,
    desks: Vec<LogDesk<'_, R>>,
) -> (Vec<Pass>, Option<LogText>)
    requires outside { All (λ d. (store_of d).inside ≡ false) desks.items }
    requires empty { room.items ≡ [] }
    requires wide { vec_len desks ≤ vec_capacity room }
    requires few { vec_len desks < 2 ^ 32 }
    ensures back { AreBack desks.entry.items result.0.items }
    ensures log { IfSome result.1 (λ text. text
        ≡ log ++ callers_from 0 (map (λ d. d.pass.entries) desks.entry.items)) }
{
    let mut passes = room;
    let mut whole = Some(log);
    let mut caller = 0;
    for desk in desks {
        let (pass, lines) = desk.into_parts();
        passes.push_reserved(pass);
        whole = with_caller(alloc, whole, caller, lines);
        caller += 1;
    }
    (passes, whole)
}
