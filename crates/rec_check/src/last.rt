//! What the last specification of a syntax spells.

ghost use Rattle.std.specs.Prelude.{◌≡◌, ◌-◌, Some, IfOk, IsSome, length};
ghost use Rattle.std.specs.Option.{option_copied};
ghost use Rattle.rec_includes.specs.Material.{material_of};
ghost use Rattle.rec_includes.specs.Numbered.{headers_in};
ghost use Rattle.rec_check.specs.Run.{last_of, spelled_in};
ghost use Rattle.rec_check.specs.Spec.{specified};
ghost use Rattle.rec_check.specs.Symbols.{widest_of};

use crate::spec::{Spec, spell};
use faults::Memory;
use rec_includes::{Directory, material_with};
use rec_reader::{Specification, Syntax};
use std::alloc::Global;

fn last_of(specifications: &[Specification]) -> Option<&Specification>
    ensures { option_copied result ≡ last_of specifications.now }
{
    specifications.last()
}

/// The material of the last specification.
pub(crate) fn last_material(
    alloc: Global,
    headers: &Directory,
    syntax: &Syntax,
) -> Result<Vec<usize>, Memory>
    requires { headers.now ≡ headers_in syntax.now }
    ensures { IfOk result (λ v. v.items ≡ material_of syntax.now.bytes
        syntax.now.specifications (length syntax.now.specifications - 1)) }
{
    let number = syntax.as_slice().len().saturating_sub(1);
    material_with(alloc, headers, syntax, number)
}

/// What the last specification spells with what it includes.
pub(crate) fn spell_last(
    alloc: Global,
    headers: &Directory,
    syntax: &Syntax,
) -> Result<Spec, Memory>
    requires headers { headers.now ≡ headers_in syntax.now }
    requires spelled { IsSome (spelled_in syntax.now) }
    ensures spelled { IfOk result (λ s. spelled_in syntax.now ≡ Some (specified s)) }
    ensures widest { IfOk result (λ s. s.widest ≡ widest_of s.symbols) }
{
    let specifications = syntax.as_slice();
    match last_of(specifications) {
        Some(last) => {
            let material = last_material(alloc, headers, syntax)?;
            spell(
                alloc,
                syntax.text(),
                specifications,
                &material,
                last.terms.as_slice(),
            )
        }
        None => Ok(Spec::empty(alloc)),
    }
}
