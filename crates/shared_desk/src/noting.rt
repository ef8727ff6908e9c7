// How the entries of a pass become the lines of a log.
ghost use Rattle.std.specs.Prelude.{◌≡◌, ◌<◌, ◌+◌, ℕ, List, OnOk, Contains};
ghost use Rattle.history_core.specs.Entry.{IsAscending};
ghost use Rattle.history_core.specs.declared.entry.Entry.{Entry};
ghost use Rattle.history_core.specs.declared.entry.Entry.TheVariants as entry;
ghost use Rattle.node_rows.specs.declared.store.Last.TheVariants as last;
ghost use Rattle.node_rows.specs.Rows.{names};
ghost use Rattle.node_rows.specs.Crowding.{kept_in};
ghost use Rattle.log_text.specs.Lines.{Adds};
ghost use Rattle.shared_desk.specs.Pass.{NotesCollect};
ghost use Rattle.shared_desk.specs.Logged.{AreTold, below};

use crate::pass::SharedPass;
use faults::Memory;
use log_text::Log;
use node_rows::Last;
use term_model::{Head, Row};

/// Notes a leave with these protected rows, which is the pass's last entry.
pub(crate) fn note_leave(log: &mut Log, told: Last, rows: &[Row])
    ensures { (n : ℕ) → told ≡ last.Roots n
        → Adds log.old log.new (entry.Roots n (names rows.now)) }
{
    match told {
        Last::Roots(after) => log.roots(after, rows),
        Last::Nothing | Last::Make(_) | Last::Find(_) | Last::Collect(_) => log.lose(),
    }
}

/// Notes a creation of a row by a head over rows, which is the pass's last entry.
pub(crate) fn note_creation(log: &mut Log, told: Last, head: Head, args: &[Row], row: Row)
    ensures made { (n : ℕ) → told ≡ last.Make n
        → Adds log.old log.new (entry.Make n head (names args.now) row.0) }
    ensures found { (n : ℕ) → told ≡ last.Find n
        → Adds log.old log.new (entry.Find n head (names args.now) row.0) }
{
    match told {
        Last::Make(number) => log.make(number, head, args, row),
        Last::Find(after) => log.find(after, head, args, row),
        Last::Nothing | Last::Roots(_) | Last::Collect(_) => log.lose(),
    }
}

// Notes a collection that kept these rows, which is the pass's last entry.
fn note_collection(log: &mut Log, told: Last, kept: &[Row])
    ensures { (n : ℕ) → told ≡ last.Collect n
        → Adds log.old log.new (entry.Collect n (names kept.now)) }
{
    match told {
        Last::Collect(number) => log.collect(number, kept),
        Last::Nothing | Last::Make(_) | Last::Find(_) | Last::Roots(_) => log.lose(),
    }
}

// Puts a row on the list, if the pass's last collection kept it.
fn list_one<S: SharedPass>(pass: &S, number: u32, kept: &mut Vec<Row>) -> Result<(), Memory>
    ensures { OnOk result (IsAscending (kept_in (S.view pass.now).entries)
        → names kept.old.items ≡ below number (kept_in (S.view pass.now).entries)
        → names kept.new.items ≡ below (number + 1) (kept_in (S.view pass.now).entries)) }
{
    if !pass.kept(Row(number)) {
        return Ok(());
    }
    kept.push(Row(number))?;
    Ok(())
}

// Makes the list that of the rows which the pass's last collection kept, ascending.
fn list_kept<S: SharedPass>(pass: &S, kept: &mut Vec<Row>) -> Result<(), Memory>
    ensures { OnOk result (IsAscending (kept_in (S.view pass.now).entries)
        → ((r : ℕ) → Contains (kept_in (S.view pass.now).entries) r → r < (S.view pass.now).rows)
        → names kept.new.items ≡ kept_in (S.view pass.now).entries) }
{
    kept.clear();
    for number in 0..pass.rows() {
        list_one(pass, number, kept)?;
    }
    Ok(())
}

/// Notes the collection that is the pass's last entry. The list is room for the rows that it kept.
pub(crate) fn note_sweep<S: SharedPass>(pass: &S, kept: &mut Vec<Row>, log: &mut Log)
    ensures { (es : List Entry) → NotesCollect (S.view pass.now).rows es (S.view pass.now).entries
        → AreTold log.old es → AreTold log.new (S.view pass.now).entries }
{
    match list_kept(pass, kept) {
        Ok(()) => note_collection(log, pass.last(), kept.as_slice()),
        Err(_) => log.lose(),
    }
}
