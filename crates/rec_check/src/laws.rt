//! What is true of what a syntax spells, as the contract of a function that does nothing.
ghost use Rattle.rec_check.specs.Laws.{WithoutIfUnconditional};

/// Without an `if` among the rules that are run, no rule of what is spelled has a condition.
#[tactic(auto, using(crate::proofs::WithoutIf::unconditional_rules))]
pub fn condition_laws()
    ensures { WithoutIfUnconditional }
{}
