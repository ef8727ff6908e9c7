//! What is true of all code, each law the contract of a function that does nothing.

ghost use Rattle.innermost.specs.Laws.{CodeEvaluates, CodeTests, RulesGoOn};
ghost use Rattle.innermost.specs.OutwardLaws.{CodeConstructs, GoesOn, LeavesTheSame, BuildsAgain, EndsForRoom};
ghost use Rattle.innermost.specs.State.{Begins, Closes, Builds, BuildsLast, HasNoRoom, PutsBound, Gives, Chooses, Tests, Opens, Stays};
ghost use Rattle.innermost.specs.Reducing.{TreeStays, RulePasses, NeedsFuel, NeedsRoom, RuleIsUsed};

/// Code comes to what it is the code of.
pub fn code_laws()
    ensures patterns { CodeEvaluates }
    ensures conditions { CodeTests }
    ensures rules { RulesGoOn }
{}

/// Reducing a tree goes on by the choice of one rule after another.
pub fn choice_laws()
    ensures stays { TreeStays }
    ensures passes { RulePasses }
    ensures fuel { NeedsFuel }
    ensures room { NeedsRoom }
    ensures used { RuleIsUsed }
{}

/// Each step of the machine keeps what its state comes to, but for the points that it comes to.
pub fn step_laws()
    ensures begins { Begins }
    ensures closes { Closes }
    ensures builds { Builds }
    ensures builds_last { BuildsLast }
    ensures no_room { HasNoRoom }
    ensures bound { PutsBound }
    ensures gives { Gives }
    ensures chosen { Chooses }
    ensures tests { Tests }
    ensures opens { Opens }
    ensures stays { Stays }
{}

/// Each part of an outermost step comes to what the definition says.
pub fn outermost_laws()
    ensures instances { CodeConstructs }
    ensures goes_on { GoesOn }
    ensures same { LeavesTheSame }
    ensures builds { BuildsAgain }
    ensures no_room { EndsForRoom }
{}
