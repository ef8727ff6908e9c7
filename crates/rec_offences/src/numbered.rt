//! What the specifications with these numbers have.
ghost use Rattle.std.specs.Prelude.{◌≡◌, ◌+◌, ◌++◌, ◌∷◌, [], IfOk, OnOk, length, slice_get};
ghost use Rattle.std.specs.Option.{option_copied};
ghost use Rattle.rec_includes.specs.Material.{sorts_of, rules_of};
ghost use Rattle.rec_offences.specs.Faults.{included_entries};
ghost use Rattle.rec_includes.specs.Listing.{listing};
ghost use Rattle.rec_offences.specs.Known.{entries_of};
ghost use Rattle.rec_offences.specs.Inclusion.{counted};

use crate::signatures::{Signature, add_symbols};
use faults::Memory;
use rec_includes::Directory;
use rec_reader::{Name, Specification};
use std::alloc::Global;

/// The specification with this number.
pub fn specification_at(specifications: &[Specification], number: usize) -> Option<&Specification>
    ensures { option_copied result ≡ slice_get specifications.now number }
{
    specifications.get(number)
}

/// Adds the symbols of the specification with this number.
#[tactic(auto, using(rec_includes::proofs::Gathered::at_number))]
fn add_symbols_at<'a>(
    specifications: &'a [Specification],
    number: usize,
    signatures: &mut Vec<Signature<'a>>,
) -> Result<(), Memory>
    ensures { OnOk result (entries_of signatures.new.items
        ≡ entries_of signatures.old.items ++ included_entries specifications.now (number ∷ [])) }
{
    match specification_at(specifications, number) {
        Some(specification) => add_symbols(specification, signatures),
        None => Ok(()),
    }
}

/// The symbols of the specifications with these numbers.
#[tactic(auto, using(crate::proofs::Levels::in_turn))]
pub fn symbols_at<'a>(
    alloc: Global,
    specifications: &'a [Specification],
    numbers: &[usize],
) -> Result<Vec<Signature<'a>>, Memory>
    ensures { IfOk result
        (λ v. entries_of v.items ≡ included_entries specifications.now numbers.now) }
{
    let mut signatures = Vec::new(alloc);
    for number in numbers {
        add_symbols_at(specifications, *number, &mut signatures)?;
    }
    Ok(signatures)
}

/// The sorts of the specification with this number.
#[tactic(auto, using(rec_includes::proofs::Gathered::at_number))]
fn sorts_at(specifications: &[Specification], number: usize) -> &[Name]
    ensures { result.now ≡ sorts_of specifications.now (number ∷ []) }
{
    match specification_at(specifications, number) {
        Some(specification) => specification.sorts.as_slice(),
        None => &[],
    }
}

/// Adds the sorts of the specifications with these numbers.
#[tactic(auto, using(crate::proofs::Levels::in_turn))]
pub(crate) fn add_sorts(
    sorts: &mut Directory,
    specifications: &[Specification],
    numbers: &[usize],
) -> Result<(), Memory>
    ensures { OnOk result (sorts.new
        ≡ listing sorts.old.bytes (sorts.old.names ++ sorts_of specifications.now numbers.now)) }
{
    for number in numbers {
        sorts.add_all(sorts_at(specifications, *number))?;
    }
    Ok(())
}

/// How many rules the specification with this number has.
#[tactic(auto, using(rec_includes::proofs::Gathered::at_number))]
fn rules_at(specifications: &[Specification], number: usize) -> usize
    ensures { result ≡ length (rules_of specifications.now (number ∷ [])) }
{
    match specification_at(specifications, number) {
        Some(specification) => specification.rules.as_slice().len(),
        None => 0,
    }
}

/// How many rules there are with those of the specifications with these numbers.
pub(crate) fn count_rules(
    specifications: &[Specification],
    numbers: &[usize],
    before: usize,
) -> usize
    ensures { result ≡ counted (before + length (rules_of specifications.now numbers.now)) }
{
    let mut rules = before;
    for number in numbers {
        rules = rules.saturating_add(rules_at(specifications, *number));
    }
    rules
}
