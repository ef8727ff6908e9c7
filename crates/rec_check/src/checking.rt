//! Checks a syntax.

ghost use Rattle.std.specs.Prelude.{◌≡◌, None, Some, IfErr, IfOk, IsSome, OnOk};
ghost use Rattle.rec_includes.specs.Numbered.{headers_in};
ghost use Rattle.rec_offences.specs.Faults.{fault_of};
ghost use Rattle.rec_check.specs.Checked.{IsFault};
ghost use Rattle.rec_check.specs.Run.{MayBeRun, spelled_in};
ghost use Rattle.rec_check.specs.Spec.{specified};
ghost use Rattle.rec_check.specs.Symbols.{widest_of};

use crate::last::spell_last;
use crate::spec::Spec;
use rec_includes::{Directory, headers_in};
use rec_offences::fault_with;
use rec_reader::{ReadFail, Syntax};
use std::alloc::Global;

/// The specification that a syntax spells: the symbols and the rules of its last specification,
/// those that it includes first, and the terms of the last one. All specifications are checked.
///
/// Refuses the fault of a syntax with offences, kinds 4 to 13: the offence with the least place,
/// and of those the least kind.
pub fn check(alloc: Global, syntax: &Syntax) -> Result<Spec, ReadFail>
    ensures accepted_only_without_offence { OnOk result (fault_of syntax.now ≡ None) }
    ensures refused_only_with_the_fault { IfErr result (IsFault (fault_of syntax.now)) }
    // Nothing but an offence keeps an input from being spelled.
    ensures spelled_where_faultless { fault_of syntax.now ≡ None → IsSome (spelled_in syntax.now) }
    ensures spelled { IfOk result (λ s. spelled_in syntax.now ≡ Some (specified s)) }
    ensures widest { IfOk result (λ s. s.widest ≡ widest_of s.symbols) }
    ensures may_be_run { IfOk result (λ s. MayBeRun (specified s)) }
{
    // This does nothing. Its contract brings to the proof that the terms of each specification are
    // whole, without which an input with no offence might spell nothing.
    let _ = syntax.as_slice();
    let headers = headers_in(alloc, syntax)?;
    check_with(alloc, &headers, syntax)
}

/// The same, where the names of the headers are at hand.
fn check_with(alloc: Global, headers: &Directory, syntax: &Syntax) -> Result<Spec, ReadFail>
    requires headers { headers.now ≡ headers_in syntax.now }
    requires spelled { fault_of syntax.now ≡ None → IsSome (spelled_in syntax.now) }
    ensures accepted { OnOk result (fault_of syntax.now ≡ None) }
    ensures refused { IfErr result (IsFault (fault_of syntax.now)) }
    ensures spelled { IfOk result (λ s. spelled_in syntax.now ≡ Some (specified s)) }
    ensures widest { IfOk result (λ s. s.widest ≡ widest_of s.symbols) }
{
    if let Some(fault) = fault_with(alloc, headers, syntax)? {
        return Err(fault.into());
    }
    Ok(spell_last(alloc, headers, syntax)?)
}
