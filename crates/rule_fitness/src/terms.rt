//! Which terms may be normalized.

ghost use Rattle.std.specs.Prelude.{◌↔◌, IsTrue};
ghost use Rattle.term_model.specs.Tree.{IsGround};
ghost use Rattle.rule_match.specs.Planned.{IsPlain};

use crate::rules::has_symbols_alone;
use term_model::Flat;

/// Whether a term may be normalized by a plan: it has symbols alone, each over at most `widest`
/// arguments, and no variables.
pub fn may_be_normalized(term: &Flat, widest: u32) -> bool
    ensures { IsTrue result ↔ (IsGround term.now × IsPlain widest term.now) }
{
    term.is_ground() && has_symbols_alone(term, widest)
}
