//! Replaying the events of a trace.

ghost use Rattle.std.specs.Prelude.{IfOk, option_and_then, []};
ghost use Rattle.log_check.specs.Words.{words_after};
ghost use Rattle.rewrite_model.specs.Replay.{replayed};
ghost use Rattle.run_checks.specs.Form.{events_in};
ghost use Rattle.run_checks.specs.Held.{IsThere, IsReplayed, term_at};
ghost use Rattle.run_checks.specs.Rules.{ArePut};
ghost use Rattle.run_checks.specs.Standing.{IsStanding, Leads, led, place_of};

use crate::cursor::Cursor;
use crate::table::TermTable;
use faults::Memory;
use log_check::words::{capped_number_of, next_word};
use rule_match::Plan;
use std::alloc::Global;

/// The term to which the events of a trace lead from a term by the rules of a plan; None where one
/// of them isn't possible, or is no event. The events are words, each after a space.
///
/// An event costs the arguments of a node or the nodes of a rule.
pub(crate) fn replay(
    alloc: Global,
    table: &mut TermTable,
    plan: &Plan,
    term: u32,
    events: &[u8],
) -> Result<Option<u32>, Memory>
    requires term { IsThere table.old term }
    requires rules { ArePut table.old.symbols plan.now.rules }
    ensures { IfOk result (IsReplayed table.old table.new (option_and_then
        (λ es. replayed plan.now.rules es [] (term_at table.old term))
        (events_in (words_after events.now)))) }
{
    let mut cursor = Cursor::new(alloc, table, term);
    let mut rest = events;
    'events: while let Some((word, after)) = next_word(rest) {
        if !follow(alloc, table, plan, &mut cursor, word)? {
            return Ok(None);
        }
        rest = after;
    }
    let number = cursor.whole(alloc, table)?;
    Ok(Some(number))
}

/// Follows the event that a word spells, where it is possible.
fn follow(
    alloc: Global,
    table: &mut TermTable,
    plan: &Plan,
    cursor: &mut Cursor,
    word: &[u8],
) -> Result<bool, Memory>
    requires standing { IsStanding table.old cursor.old }
    requires rules { ArePut table.old.symbols plan.now.rules }
    ensures { IfOk result (Leads table.old table.new cursor.new
        (led plan.now.rules word.now (place_of table.old cursor.old))) }
{
    let Some((first, number)) = word.split_first() else {
        return Ok(false);
    };
    if *first == b'd' {
        return match capped_number_of(number) {
            Some(argument) => cursor.down(table, argument),
            None => Ok(false),
        };
    }
    if *first == b'r' {
        return match capped_number_of(number) {
            Some(rule) => cursor.rewrite(alloc, table, plan, rule),
            None => Ok(false),
        };
    }
    if word == b"u".as_slice() {
        cursor.up(alloc, table)
    } else {
        Ok(false)
    }
}
