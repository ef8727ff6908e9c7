//! Whether the rules that are run have conditions.

ghost use Rattle.std.specs.Prelude.{◌≡◌, None, IfErr, OnOk};
ghost use Rattle.std.specs.Option.{option_to_list};
ghost use Rattle.rec_includes.specs.Material.{rules_of};
ghost use Rattle.rec_check.specs.Conditional.{IsConditional, first_if, ifs_of, least_with};

use crate::last::last_material;
use faults::kinds;
use rec_includes::headers_in;
use rec_offences::specification_at;
use rec_reader::{ReadFail, Rule, Specification, Syntax};
use std::alloc::Global;

/// The earlier of two places.
fn earlier(found: Option<usize>, place: Option<usize>) -> Option<usize>
    ensures { result ≡ least_with found (option_to_list place) }
{
    match (found, place) {
        (Some(first), Some(other)) => Some(first.min(other)),
        (Some(first), None) => Some(first),
        (None, place) => place,
    }
}

/// The first `if` of rules, or what was found if that is earlier.
fn first_in(found: Option<usize>, rules: &[Rule]) -> Option<usize>
    ensures { result ≡ least_with found (ifs_of rules.now) }
{
    let mut first = found;
    for rule in rules {
        first = earlier(first, rule.condition_at);
    }
    first
}

/// The first `if` of the rules of a material.
#[tactic(auto, using(crate::proofs::Ifs::first_ifs))]
fn first_of(specifications: &[Specification], material: &[usize]) -> Option<usize>
    ensures { result ≡ least_with None (ifs_of (rules_of specifications.now material.now)) }
{
    let mut first = None;
    for number in material {
        if let Some(specification) = specification_at(specifications, *number) {
            first = first_in(first, specification.rules.as_slice());
        }
    }
    first
}

/// Accepts rules without conditions.
///
/// Refuses with kind 19 the first `if` in the input among the rules of the last specification and
/// of those that it includes.
#[tactic(auto, using(crate::proofs::Ifs::first_ifs))]
pub fn unconditional(alloc: Global, syntax: &Syntax) -> Result<(), ReadFail>
    ensures accepted_only_without_conditions { OnOk result (first_if syntax.now ≡ None) }
    ensures refused_only_at_the_first { IfErr result (IsConditional (first_if syntax.now)) }
{
    let headers = headers_in(alloc, syntax)?;
    let material = last_material(alloc, &headers, syntax)?;
    match first_of(syntax.as_slice(), &material) {
        Some(place) => Err(ReadFail::Refused {
            kind: kinds::CONDITIONAL,
            offset: place as u64,
        }),
        None => Ok(()),
    }
}
