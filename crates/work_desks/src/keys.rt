// Whether the keys of what passes noted are those of a log.
ghost use Rattle.std.specs.Prelude.{◌≡◌, All, IfSome};
ghost use Rattle.std.specs.List.{list_all};
ghost use Rattle.node_rows.specs.Told.{Tells, view_of};
ghost use Rattle.work_desks.specs.Keys.{number_of, HasKeys, has_log_key, told_log};

use log_text::LogText;
use node_rows::{Last, Pass, last};

// A log tells keys below 2^62, where those of a store end.
const KEYS: u64 = 0x4000_0000_0000_0000;

// The key of an entry.
fn number_of(told: Last) -> u64
    ensures { result ≡ number_of told }
{
    match told {
        Last::Nothing => 0,
        Last::Make(number) | Last::Collect(number) => number,
        Last::Find(after) | Last::Roots(after) => after,
    }
}

// Whether a log may tell a pass's last key.
fn has_log_key(pass: &Pass) -> bool
    requires told { Tells pass.now }
    ensures { result ≡ has_log_key pass.now }
{
    number_of(last(pass)) < KEYS
}

// Whether it may tell that of each pass.
fn have_log_keys(passes: &[Pass]) -> bool
    requires told { All Tells passes.now }
    ensures { result ≡ list_all has_log_key passes.now }
{
    for pass in passes {
        if !has_log_key(pass) {
            return false;
        }
    }
    true
}

/// The log, where the last key of each pass is below 2^62, and else None. With a log the keys of
/// all their entries are, where they rise.
pub fn with_keys(log: Option<LogText>, passes: &[Pass]) -> Option<LogText>
    requires told { All Tells passes.now }
    ensures log { result ≡ told_log log passes.now }
    ensures keys { IfSome result (λ _. All (λ p. HasKeys (view_of p).store.entries) passes.now) }
{
    if have_log_keys(passes) { log } else { None }
}
