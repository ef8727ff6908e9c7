//! What is found of a log.

ghost use Rattle.std.specs.Prelude.{IfOk, IfErr};
ghost use Rattle.log_check.specs.Log.{log_in};
ghost use Rattle.log_check.specs.Verdict.{Rises, IsVerdict, IsFound, IsRefused};

use crate::keys::first_fall;
use crate::log::{Log, read_log};
use crate::merging::{merge, part};
use faults::Memory;
use history_core::{legal_entries, merge_laws};
use read_faults::ReadFail;
use std::alloc::Global;

/// What is found of a log.
#[derive(Clone, Copy, Debug, PartialEq, Eq)]
pub enum LogVerdict {
    /// It is good, and has so many entries.
    Legal(u64),
    /// The entry on this line, counted from 1, is the first that is wrong.
    Illegal(u64),
}

/// Checks a log: what the callers of a store noted of their steps, in the lines of the input that
/// begin with `# `. All other lines are passed over. The log is good where each caller's keys never
/// fall, those of its Make and Collect are above its earlier ones, and the entries of all callers,
/// in the order of their keys, are one legal history.
///
/// Illegal with the least line whose key breaks the first two rules, else with that of the first
/// entry in the order of keys that is no step. Refused with kind 15 at the first line of a wrong
/// form, and at the line after the last where the log has no end. Nothing of the store is used. It
/// takes the time of a sort of the entries and of a look-up for each name, and for each Collect of
/// a pass over all rows.
pub fn check_log(alloc: Global, bytes: &[u8]) -> Result<LogVerdict, ReadFail>
    ensures found { IfOk result (IsFound (log_in bytes.now)) }
    ensures refused { IfErr result (IsRefused (log_in bytes.now)) }
{
    let log = read_log(alloc, bytes)?;
    match first_fall(&log.noted) {
        Some(line) => Ok(LogVerdict::Illegal(line)),
        None => Ok(judge(alloc, log)?),
    }
}

/// The verdict on a log whose keys rise.
fn judge(alloc: Global, log: Log) -> Result<LogVerdict, Memory>
    requires { Rises log.noted }
    ensures { IfOk result (IsVerdict log) }
{
    let Log {
        rows,
        callers,
        mut noted,
        ..
    } = log;
    merge(&mut noted)?;
    let parted = part(alloc, noted)?;
    let legal = legal_entries(alloc, rows, callers, &parted.history)?;
    if legal < parted.lines.len() {
        Ok(LogVerdict::Illegal(parted.lines[legal]))
    } else {
        Ok(LogVerdict::Legal(legal as u64))
    }
}
