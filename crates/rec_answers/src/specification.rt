// From the bytes of an input to the specification that they spell.
ghost use Rattle.std.specs.Prelude.{◌≡◌, ◌≤◌, None, Some, IfOk, IfErr, OnOk, length};
ghost use Rattle.rec_offences.specs.Faults.{fault_of};
ghost use Rattle.rec_check.specs.Spelled.{Specified};
ghost use Rattle.rec_check.specs.Spec.{specified};
ghost use Rattle.rec_check.specs.Conditional.{first_if, IsConditional};
ghost use Rattle.rec_check.specs.Run.{MayBeRun, spelled_in};
ghost use Rattle.rec_check.specs.Symbols.{widest_of};
ghost use Rattle.rec_answers.specs.Rewritten.{Spells, IsInputFault, MeetsConditions, IsNamed, conditions_of};
ghost use Rattle.rec_answers.specs.Answered.{Answers, StopsWith, StopsSpelling, FailsSpelling};
ghost use Rattle.rec_answers.specs.Conditioned.{HasNone, IsRefusedSyntax};
ghost use Rattle.rec_answers.specs.declared.specification.Conditions.TheVariants as variant;
ghost use Rattle.faults.specs.declared.refusal.Refusal.{Refusal};

use crate::stops::Stop;
use rec_check::{Spec, check, unconditional};
use rec_reader::{ReadFail, Syntax};
use settings::Settings;
use std::alloc::Global;

/// Whether the rules that are run may have conditions.
#[derive(Clone, Copy, Debug, PartialEq, Eq)]
pub enum Conditions {
    Accepted,
    Refused,
}

/// Whether the rules of terms that are rewritten innermost may have conditions: not where traces
/// are asked.
pub fn conditions_of(settings: &Settings) -> Conditions
    ensures { result ≡ conditions_of settings.now }
{
    if settings.trace {
        Conditions::Refused
    } else {
        Conditions::Accepted
    }
}

// Refuses the first condition, where rules may have none.
fn refuse_conditions(alloc: Global, conditions: Conditions, syntax: &Syntax) -> Result<(), ReadFail>
    ensures accepted { OnOk result (HasNone conditions syntax.now) }
    ensures refused { IfErr result (λ fail. (conditions ≡ variant.Refused)
        × IsConditional (first_if syntax.now) fail) }
{
    match conditions {
        Conditions::Accepted => Ok(()),
        Conditions::Refused => unconditional(alloc, syntax),
    }
}

// Checks a syntax, and then whether its rules have conditions, where they may have none.
fn checked(alloc: Global, conditions: Conditions, syntax: &Syntax) -> Result<Spec, ReadFail>
    ensures faultless { OnOk result (fault_of syntax.now ≡ None) }
    ensures none { OnOk result (HasNone conditions syntax.now) }
    ensures spelled { IfOk result (λ spec. spelled_in syntax.now ≡ Some (specified spec)) }
    ensures may_be_run { IfOk result (λ spec. MayBeRun (specified spec)) }
    ensures widest { IfOk result (λ spec. spec.widest ≡ widest_of spec.symbols) }
    ensures refused { IfErr result (IsRefusedSyntax conditions syntax.now) }
{
    let spec = check(alloc, syntax)?;
    refuse_conditions(alloc, conditions, syntax)?;
    Ok(spec)
}

// Reads, and tells what is wrong.
fn read(alloc: Global, conditions: Conditions, input: &[u8]) -> Result<Spec, ReadFail>
    ensures made { IfOk result (λ spec. Spells input.now (specified spec)) }
    ensures may_be_run { IfOk result (λ spec. MayBeRun (specified spec)) }
    ensures named { IfOk result (λ spec. IsNamed (specified spec)) }
    ensures widest { IfOk result (λ spec. spec.widest ≡ widest_of spec.symbols) }
    ensures meets { OnOk result (MeetsConditions conditions input.now) }
    ensures failed { IfErr result (FailsSpelling conditions input.now) }
{
    let syntax = rec_reader::read(alloc, input)?;
    checked(alloc, conditions, &syntax)
}

/// The specification that an input spells, whose rules may have conditions or not.
pub fn specification_of(alloc: Global, conditions: Conditions, input: &[u8]) -> Result<Spec, Stop>
    ensures made { IfOk result (λ spec. Spells input.now (specified spec)) }
    ensures may_be_run { IfOk result (λ spec. MayBeRun (specified spec)) }
    ensures named { IfOk result (λ spec. IsNamed (specified spec)) }
    ensures widest { IfOk result (λ spec. spec.widest ≡ widest_of spec.symbols) }
    ensures few { IfOk result (λ spec. length spec.terms.items ≤ 65535) }
    ensures narrow { IfOk result (λ spec. spec.widest ≤ 16) }
    ensures meets { OnOk result (MeetsConditions conditions input.now) }
    ensures stopped { IfErr result (StopsSpelling conditions input.now) }
    ensures accepted { (spec : Specified) → Spells input.now spec
        → MeetsConditions conditions input.now
        → Answers result (λ made. specified made ≡ spec) }
    ensures refused { (fault : Refusal) → IsInputFault conditions input.now fault
        → StopsWith result fault }
{
    Ok(read(alloc, conditions, input)?)
}
