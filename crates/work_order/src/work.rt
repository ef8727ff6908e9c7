//! What is to be rewritten, and how.
ghost use Rattle.std.specs.Prelude.{◌≡◌};
ghost use Rattle.work_order.specs.Works.{strategy_of, is_traced, are_unconditional};

use rewrite_model::Rule;
use rule_match::Plan;
use settings::{Command, Settings};
use symbol_pool::Symbols;
use term_lines::Strategy;
use term_model::Flat;

/// What is to be rewritten, and how.
#[derive(Clone, Copy)]
pub struct Work<'a> {
    /// The rules.
    pub plan: &'a Plan,
    /// The names of all symbols.
    pub symbols: &'a Symbols,
    /// The terms, which are numbered from 0.
    pub terms: &'a [Flat],
    /// The command, by which terms are rewritten outermost or innermost; the fuel and the depth of
    /// each term, the rows of each desk, whether sizes are written, and whether the events that
    /// lead to values are told.
    pub settings: Settings,
}

// Whether no rule has a condition.
fn are_unconditional(rules: &[Rule]) -> bool
    ensures { result ≡ are_unconditional rules.now }
{
    rules.iter().all(|rule| rule.conditions().is_empty())
}

impl Work<'_> {
    /// Whether events are asked, of rules without conditions. Of others they would say nothing.
    pub fn traced(&self) -> bool
        ensures { result ≡ is_traced self.now.settings self.now.plan.now.rules }
    {
        self.settings.trace && are_unconditional(self.plan.rules())
    }

    /// How the terms are rewritten: innermost, but for the command that asks for the other.
    pub fn strategy(&self) -> Strategy
        ensures { result ≡ strategy_of self.now.settings.command }
    {
        match self.settings.command {
            Command::Outermost => Strategy::Outermost,
            _ => Strategy::Innermost,
        }
    }
}
