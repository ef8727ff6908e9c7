//! Whether a history is legal.

ghost use Rattle.std.specs.Prelude.{◌≡◌, ◌<◌, ◌↔◌, All, IfOk, length};
ghost use Rattle.history_core.specs.Chronicle.{IsLegal};
ghost use Rattle.history_core.specs.Table.{IsLegalUpTo};

use crate::{Entry, TermTable};
use faults::Memory;
use std::alloc::Global;

/// How many entries of a history, each with its caller, are legal from the start: all of them
/// exactly where the history is legal, and else the next is the first that is no step. Takes the
/// time of a look-up for each name in an entry, and for each Collect of a pass over all names.
pub fn legal_entries(
    alloc: Global,
    rows: u32,
    callers: u32,
    history: &[(u32, Entry)],
) -> Result<usize, Memory>
    requires { All (λ x. x.0 < callers) history.now }
    ensures legal { IfOk result (IsLegalUpTo rows history.now) }
    ensures whole { IfOk result (λ n. (n ≡ length history.now) ↔ IsLegal rows history.now) }
{
    let mut table = TermTable::new(alloc, rows, callers)?;
    for i in 0..history.len() {
        let (caller, entry) = &history[i];
        if !table.step(*caller, entry)? {
            return Ok(i);
        }
    }
    Ok(history.len())
}
