// The top call.
ghost use Rattle.std.specs.Prelude.{◌≡◌, ◌≢◌, ◌⊎◌, ◌≤◌, [], None};
ghost use Rattle.faults.specs.Count.{Rose};
ghost use Rattle.ends.specs.Bytes.{TookFront};
ghost use Rattle.rec_answers.specs.Logged.{with_log};
ghost use Rattle.settings.specs.Words.{settings_of, texts};
ghost use Rattle.rec_answers.specs.Written.{Output};
ghost use Rattle.rec_answers.specs.Lines.{fault_line, status_line, TookLine};
ghost use Rattle.rec_answers.specs.Run.{HasOutput, HasFault, HasTooMuch, HasTooMany, HasNoFault, Accepts, Refuses, IsWritten, HasWorkers, AsksDrill, IsMade, IsWhole, IsStatus, IsUpheld, IsRefuted, AsksRewriting};
ghost use Rattle.rec_answers.specs.GoodLog.{HasGoodLog};
ghost use Rattle.rec_top.specs.Promise.{IsPromised};
ghost use Rattle.rec_top.specs.Histories.{HasLegalHistory, StandInTurn, HasFewCollects, HasEach, HasSuch, NamesAll, NamesAllFronts, Fills};
ghost use Rattle.faults.specs.declared.refusal.Refusal.{Refusal};

use crate::answering::answer_of;
use ends::{Gate, Sink, Source};
use rec_answers::{Outcome, Stop, finish, stopped_before};
use settings::settings;
use std::alloc::Global;
use std::sync::Wait;
use std::thread::Threads;

/// Runs the program: reads the words and, but for a drill, all that the source has left, writes the
/// output to `out`, and to `err` the line that says why there is none. As many workers as the words
/// ask for rewrite the terms on one store, the caller's thread among them. The output is the same
/// for any number, and all creations and collections stand in one legal history of one thread, each
/// worker's own once and after all that it had seen.
///
/// | status | comes | `err` gets |
/// |---|---|---|
/// | 0 | `out` took the whole output, and each term's line is its value | nothing |
/// | 1 | `out` took the whole output, and some term has no value | nothing |
/// | 2 | the words are refused | `usage: rec COMMAND [OPTIONS]` |
/// | 3 | the input is refused | `fault K at O` |
/// | 4 | the rows are too few | `store full` |
/// | 5 | a read failed | `read fault` |
/// | 6 | a write to `out` failed; it took a front of the output | `write fault` |
/// | 7 | there is no memory | `out of memory` |
/// | 8 | the numbers of the store's entries may end | `worn` |
/// | 9 | `out` took the whole output, and the input was checked and isn't right | nothing |
///
/// The gate is told before and after the work on each term, by its number from 0.
pub fn run<R: Threads + Wait + Sync, S: Source, O: Sink, E: Sink, G: Gate>(
    rt: &R,
    alloc: Global,
    words: &[String],
    source: &mut S,
    out: &mut O,
    err: &mut E,
    gate: &G,
) -> Outcome
    // Refused words end at status 2, memory aside, and no other words do. Then nothing is read.
    ensures usage_only_where_refused { result.status ≡ 2 → settings_of (texts words.now) ≡ None }
    ensures refused_words { settings_of (texts words.now) ≡ None
        → (result.status ≡ 2) ⊎ (result.status ≡ 7) }
    ensures unread { settings_of (texts words.now) ≡ None → source.new ≡ source.old }

    // Each other status comes only where it has its cause.
    ensures whole_only_where_out_took_the_output { IsWhole result.status → (output : Output)
        × HasOutput (texts words.now) S.left source.old source.new output
        × IsWritten O.taken out.old out.new (with_log (texts words.now) result.chronicle output)
        result.status
        × HasWorkers (texts words.now) result.workers output }
    ensures upheld_where_right { result.status ≡ 0
        → IsUpheld (texts words.now) S.left source.old source.new }
    ensures refuted_only_where_wrong { result.status ≡ 9
        → IsRefuted (texts words.now) S.left source.old source.new }
    ensures refused_only_where_faulty { result.status ≡ 3 → (fault : Refusal)
        × HasFault (texts words.now) S.left source.old source.new fault
        × TookLine E.taken E.faults err.old err.new (fault_line fault) }
    ensures full_only_where_rows_are_few { result.status ≡ 4
        → HasTooMuch (texts words.now) S.left source.old source.new }
    ensures worn_only_where_numbers_end { result.status ≡ 8
        → HasTooMany (texts words.now) S.left source.old source.new }
    ensures read_fault_only_where_count_rose { result.status ≡ 5
        → Rose (S.faults source.old) (S.faults source.new) }
    ensures write_fault_only_where_count_rose { result.status ≡ 6
        → Rose (O.faults out.old) (O.faults out.new) }
    ensures write_fault_leaves_a_front { result.status ≡ 6 → (output : Output)
        × HasOutput (texts words.now) S.left source.old source.new output
        × TookFront (O.taken out.old) (O.taken out.new)
        (with_log (texts words.now) result.chronicle output).bytes
        × HasWorkers (texts words.now) result.workers output }
    ensures statuses { IsStatus result.status }

    // A drill reads nothing, and so is neither refused nor stopped by a read.
    ensures drill_unread { AsksDrill (texts words.now) → source.new ≡ source.old }
    ensures drill_unrefused { AsksDrill (texts words.now)
        → (result.status ≢ 3) × (result.status ≢ 5) }

    // A read or a write that fails isn't passed over.
    ensures reads_unfailed { result.status ≢ 5 → S.faults source.new ≡ S.faults source.old }
    ensures writes_unfailed { result.status ≢ 6 → O.faults out.new ≡ O.faults out.old }

    // What `err` and `out` get.
    ensures line { result.status ≢ 3
        → TookLine E.taken E.faults err.old err.new (status_line result.status) }
    ensures quiet { IsWhole result.status → err.new ≡ err.old }
    ensures silent { (IsMade result.status → ⊥) → out.new ≡ out.old }

    // Where no count rises and rows and numbers suffice, an accepted input gives its output, and a
    // refused one its fault, memory aside.
    ensures complete { (output : Output) → Accepts (texts words.now) S.left source.old output
        → HasNoFault S.faults source.old source.new → HasNoFault O.faults out.old out.new
        → IsWritten O.taken out.old out.new (with_log (texts words.now) result.chronicle output)
        result.status
        ⊎ (result.status ≡ 7) }
    ensures complete_for_refused { (fault : Refusal)
        → Refuses (texts words.now) S.left source.old fault
        → HasNoFault S.faults source.old source.new
        → ((result.status ≡ 3) × TookLine E.taken E.faults err.old err.new (fault_line fault))
        ⊎ (result.status ≡ 7) }

    // The counts never fall, and no term has a worker where there is no output.
    ensures source_later { S.faults source.old ≤ S.faults source.new }
    ensures out_later { O.faults out.old ≤ O.faults out.new }
    ensures err_later { E.faults err.old ≤ E.faults err.new }
    ensures no_worker { (IsMade result.status → ⊥) → result.workers ≡ [] }

    // Whatever the status is, the creations and collections of all workers are a legal history of
    // one thread.
    ensures legal { HasLegalHistory (texts words.now) result.chronicle }

    // Each worker's own stand there once, in its order, and each after all that its earlier ones
    // tell that it had seen: a creation that adds and a collection at a number above theirs, the
    // others at one not below.
    ensures rises { StandInTurn result.chronicle }

    // Each collected at most once more than it made or found a tree. Where nothing is rewritten
    // there is no history.
    ensures collects { HasFewCollects (texts words.now) result.chronicle }
    ensures no_history { (AsksRewriting (texts words.now) → ⊥) → result.chronicle ≡ [] }
    ensures no_history_of_the_refused { (result.status ≡ 2) ⊎ (result.status ≡ 3)
        ⊎ (result.status ≡ 5)
        → result.chronicle ≡ [] }

    // Where words ask for rewriting it has the entries of each worker asked for, and of no other
    // caller. At 2, 3, 5 and 7 it may be empty.
    ensures each { AsksRewriting (texts words.now)
        → HasEach (texts words.now) result.status result.chronicle }

    // Where terms are rewritten it tells what each worker built: all that its terms build, or a
    // front of it.
    ensures built { IsMade result.status → AsksRewriting (texts words.now)
        → HasSuch (texts words.now) S.left source.old source.new
        (NamesAll result.workers result.chronicle) }
    ensures fronts { (result.status ≡ 4) ⊎ (result.status ≡ 8) → AsksRewriting (texts words.now)
        → HasSuch (texts words.now) S.left source.old source.new (NamesAllFronts result.chronicle) }
    ensures fronts_or_nothing { result.status ≡ 7 → (result.chronicle ≡ [])
        ⊎ HasSuch (texts words.now) S.left source.old source.new (NamesAllFronts result.chronicle) }

    // With `--log` the output and the log of that history behind it are together a good log, which
    // is read as the same entries and found legal.
    ensures good_log { IsMade result.status
        → HasGoodLog (texts words.now) S.left source.old source.new result.chronicle }

    // At 4 a collection of a worker kept as many trees as there are rows, and the worker's next
    // tree isn't one.
    ensures full { result.status ≡ 4 → AsksRewriting (texts words.now)
        → HasSuch (texts words.now) S.left source.old source.new (Fills result.chronicle) }
{
    ran(rt, alloc, words, source, out, err, gate)
}

// Runs the program. All clauses of `run` are fields of one record.
fn ran<R: Threads + Wait + Sync, S: Source, O: Sink, E: Sink, G: Gate>(
    rt: &R,
    alloc: Global,
    words: &[String],
    source: &mut S,
    out: &mut O,
    err: &mut E,
    gate: &G,
) -> Outcome
    ensures { IsPromised (texts words.now) S.left S.faults source.old source.new
        O.taken O.faults out.old out.new E.taken E.faults err.old err.new result }
{
    let settings = match settings(alloc, words) {
        Ok(settings) => settings,
        Err(fault) => return stopped_before(alloc, err, Stop::from(fault)),
    };
    let finished = answer_of(rt, alloc, &settings, source, gate);
    finish(alloc, out, err, finished)
}
