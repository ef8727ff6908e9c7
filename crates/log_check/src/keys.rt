//! The keys of each caller's entries.

ghost use Rattle.std.specs.Prelude.{◌≡◌, ◌<◌, length, MatchOption};
ghost use Rattle.history_core.specs.Entry.{is_numbered};
ghost use Rattle.log_check.specs.Filed.{CallersRise, falls, breaks, breaks_at};
ghost use Rattle.log_check.specs.Verdict.{Rises, IsFirstFall};
ghost use Rattle.log_check.specs.declared.log.Noted.{Noted};

use crate::log::Noted;
use history_core::Entry;

fn is_numbered(entry: &Entry) -> bool
    ensures { result ≡ is_numbered entry.now }
{
    match entry {
        Entry::Make { .. } | Entry::Collect { .. } => true,
        Entry::Find { .. } | Entry::Roots { .. } => false,
    }
}

/// Whether the key of an entry breaks the rise after one of the same caller.
fn falls(last: &Entry, next: &Entry) -> bool
    ensures { result ≡ falls last.now next.now }
{
    if is_numbered(next) {
        next.key() <= last.key()
    } else {
        next.key() < last.key()
    }
}

fn breaks(last: &Noted, next: &Noted) -> bool
    ensures { result ≡ breaks last.now next.now }
{
    last.caller == next.caller && falls(&last.entry, &next.entry)
}

/// Whether the key of the entry at a place breaks the rise after the one before it.
fn breaks_at(noted: &[Noted], i: usize) -> bool
    requires { i < length noted.now }
    ensures { (d : Noted) → result ≡ breaks_at noted.now i d }
{
    i > 0 && breaks(&noted[i - 1], &noted[i])
}

/// The line of the first entry whose key breaks the rise of its caller's keys: they never fall, and
/// those of Make and Collect are above the earlier ones. The entries stand by callers, so each is
/// compared with the one before it.
pub(crate) fn first_fall(noted: &[Noted]) -> Option<u64>
    requires { CallersRise noted.now }
    ensures { MatchOption result (Rises noted.now) (IsFirstFall noted.now) }
{
    for i in 0..noted.len() {
        if breaks_at(noted, i) {
            return Some(noted[i].line);
        }
    }
    None
}
