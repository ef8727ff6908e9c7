//! What is true of all matches and evaluations, each law the contract of a function that does
//! nothing.

ghost use Rattle.rewrite_model.specs.Laws.{MatchGivesInstance, MatchBindsVariables, InstancesMatch, BeginsWithItself, FuelFalls, MoreFuelIsLeft, SubtreesAreBuilt, OutermostSubtreesAreBuilt, NeedIsBounded, NeedOfAllIsBounded, ValueIsReached, OutermostValueIsReached, ChangeTakesOne, SameTakesNone, OutermostFuelIsSteps, StepsAreAll, NormalHasNone};
ghost use Rattle.rewrite_model.specs.TraceLaws.{DerivationReaches, EventsLead, EventsMake, EventsAreFewest, EventsReach, EvaluationDerives, TraceLeads, ReplacementsTakeFuel};

/// A pattern matches exactly its instances.
pub fn matching_laws()
    ensures instance { MatchGivesInstance }
    ensures variables { MatchBindsVariables }
    ensures found { InstancesMatch }
{}

/// Fuel is only spent, and more of it changes no value.
pub fn fuel_laws()
    ensures equation { BeginsWithItself }
    ensures falls { FuelFalls }
    ensures more { MoreFuelIsLeft }
{}

/// An outermost step takes one unit of fuel where it changes the term, and none where it doesn't.
pub fn outermost_fuel_laws()
    ensures change { ChangeTakesOne }
    ensures same { SameTakesNone }
    ensures steps { OutermostFuelIsSteps }
{}

/// What is built holds its subtrees, and what is in hand is built.
pub fn built_laws()
    ensures subtrees { SubtreesAreBuilt }
    ensures outermost { OutermostSubtreesAreBuilt }
    ensures need { NeedIsBounded }
    ensures need_of_all { NeedOfAllIsBounded }
{}

/// By rules without conditions values are reached by single steps, and are normal forms.
pub fn value_laws()
    ensures innermost { ValueIsReached }
    ensures outermost { OutermostValueIsReached }
{}

/// The single steps of a term are those that `steps` lists, and a normal form is a term without
/// any.
pub fn one_step_laws()
    ensures all { StepsAreAll }
    ensures normal { NormalHasNone }
{}

/// Derivations are steps, their events lead where they lead, and the leftmost innermost derivation
/// of a term leads to its value.
pub fn derivation_laws()
    ensures steps { DerivationReaches }
    ensures events { EventsLead }
    ensures made { EventsMake }
    ensures fewest { EventsAreFewest }
    ensures reached { EventsReach }
    ensures value { EvaluationDerives }
    ensures trace { TraceLeads }
    ensures fuel { ReplacementsTakeFuel }
{}
