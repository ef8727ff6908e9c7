//! What is wrong at the entries of a list of includes, while what they bring is taken in.
ghost use Rattle.std.specs.Prelude.{◌≡◌, ◌<◌, ℕ, List, [], ◌||◌, IfOk, OnOk, length, map, take};
ghost use Rattle.std.specs.List.{list_any};
ghost use Rattle.rec_reader.specs.declared.syntax_tree.Specification.{Specification};
ghost use Rattle.rec_includes.specs.Names.{is_among};
ghost use Rattle.rec_includes.specs.Material.{fresh, with_numbers, included, material_of, headers_of};
ghost use Rattle.rec_offences.specs.Scope.{names_of};
ghost use Rattle.rec_offences.specs.Offences.{includes_from, passes, include};
ghost use Rattle.rec_offences.specs.Known.{entries_of};
ghost use Rattle.rec_includes.specs.Numbered.{header_names, includes_at};
ghost use Rattle.rec_includes.specs.Forest.{cut, parent_of};
ghost use Rattle.rec_offences.specs.Inclusion.{IsInclusion, IsAtLevel, IsPastLevel, path_of};
ghost use Rattle.rec_offences.specs.Grouped.{verdict_of};

use crate::inclusion::Inclusion;
use crate::numbered::{add_sorts, count_rules, symbols_at};
use crate::offences::limits::MOST;
use crate::scope::Scope;
use crate::signatures::Signature;
use faults::Memory;
use rec_includes::{Directory, first_target, gather, includes_at};
use rec_reader::{Name, Specification};
use std::alloc::Global;

/// What is wrong at an entry.
#[derive(Clone, Copy)]
pub(crate) struct Verdict {
    pub entry: Name,
    pub is_clashing: bool,
    pub is_passing: bool,
}

/// Whether one of these is declared.
fn clashes(scope: &Scope, signatures: &[Signature]) -> bool
    ensures { result ≡ list_any (is_among scope.now.bytes (names_of scope.now.entries))
        (names_of (entries_of signatures.now)) }
{
    for signature in signatures {
        if scope.has(signature.name) {
            return true;
        }
    }
    false
}

/// Whether the limit is passed in between.
fn passes(before: usize, after: usize) -> bool
    ensures { result ≡ passes before after }
{
    before <= MOST && after > MOST
}

/// Whether the symbols pass the limit in between, or the rules do.
fn one_passes(symbols: (usize, usize), rules: (usize, usize)) -> bool
    ensures { result ≡ (passes symbols.0 symbols.1 || passes rules.0 rules.1) }
{
    passes(symbols.0, symbols.1) || passes(rules.0, rules.1)
}

impl<'a> Inclusion<'a> {
    /// What is wrong at the first entry that brings something, where its material alone is at hand.
    #[tactic(auto, using(crate::proofs::Along::first_verdict))]
    fn verdict_on_first(&self, entry: Name) -> Verdict
        ensures { (bytes : List ℕ) (specifications : List Specification)
            → IsInclusion bytes specifications self.now
            → fresh [] self.now.material.keys ≡ self.now.material.keys
            → result ≡ verdict_of bytes specifications (include entry [] self.now.material.keys) }
    {
        Verdict {
            entry,
            is_clashing: false,
            is_passing: one_passes((0, self.scope.len()), (0, self.rules)),
        }
    }

    /// Adds what an entry brings, the material of the specification with this number, and says what
    /// is wrong at the entry.
    fn include(
        &mut self,
        alloc: Global,
        headers: &Directory,
        specifications: &'a [Specification],
        number: usize,
        entry: Name,
    ) -> Result<Verdict, Memory>
        requires names { headers.now.names ≡ header_names specifications.now }
        requires there { number < length specifications.now }
        requires at_hand { IsInclusion headers.now.bytes specifications.now self.old }
        ensures kept { OnOk result (IsInclusion headers.now.bytes specifications.now self.new) }
        ensures levels { self.new.levels ≡ self.old.levels }
        ensures material { OnOk result (self.new.material.keys
            ≡ with_numbers self.old.material.keys
            (material_of headers.now.bytes specifications.now number)) }
        ensures verdict { IfOk result (λ v. v ≡ verdict_of headers.now.bytes specifications.now
            (include entry self.old.material.keys
            (material_of headers.now.bytes specifications.now number))) }
    {
        let added = gather(alloc, headers, specifications, &mut self.material, number)?;
        let signatures = symbols_at(alloc, specifications, &added)?;
        let is_clashing = clashes(&self.scope, &signatures);
        let symbols = self.scope.len();
        let rules = self.rules;
        self.scope.add_all(&signatures)?;
        add_sorts(&mut self.sorts, specifications, &added)?;
        self.rules = count_rules(specifications, &added, rules);
        let is_passing = one_passes((symbols, self.scope.len()), (rules, self.rules));
        Ok(Verdict {
            entry,
            is_clashing,
            is_passing,
        })
    }

    /// What the entries of the specification with this number bring, and what is wrong at each.
    /// What the first of them brings is kept where it is at hand.
    pub(crate) fn include_all(
        &mut self,
        alloc: Global,
        headers: &Directory,
        specifications: &'a [Specification],
        number: usize,
    ) -> Result<Vec<Verdict>, Memory>
        requires names { headers.now.names ≡ header_names specifications.now }
        requires there { number < length specifications.now }
        requires at_level { IsAtLevel headers.now.bytes specifications.now self.old }
        ensures path { OnOk result (path_of self.new.levels.items
            ≡ cut (parent_of headers.now.bytes headers.now.names specifications.now number)
            (path_of self.old.levels.items)) }
        ensures past { OnOk result (IsPastLevel headers.now.bytes specifications.now self.new) }
        ensures material { OnOk result (self.new.material.keys ≡ included headers.now.bytes
            (headers_of headers.now.bytes (take number specifications.now))
            (includes_at specifications.now number)) }
        ensures verdicts { IfOk result (λ v. v.items
            ≡ map (verdict_of headers.now.bytes specifications.now)
            (includes_from headers.now.bytes
            (headers_of headers.now.bytes (take number specifications.now)) []
            (includes_at specifications.now number))) }
    {
        let entries = includes_at(specifications, number);
        let mut is_there = self.return_to(first_target(headers, number, entries));
        let mut verdicts = Vec::new(alloc);
        for entry in entries {
            let verdict = match headers.place_before(number, *entry) {
                None => Verdict {
                    entry: *entry,
                    is_clashing: false,
                    is_passing: false,
                },
                Some(_) if is_there => {
                    is_there = false;
                    self.verdict_on_first(*entry)
                }
                Some(place) => self.include(alloc, headers, specifications, place, *entry)?,
            };
            verdicts.push(verdict)?;
        }
        Ok(verdicts)
    }
}
