//! The material that is at hand while specifications are checked.
ghost use Rattle.std.specs.Prelude.{◌≡◌, ◌-◌, ◌∷◌, ℕ, List, [], false, true, IsSome, OnOk, length, take};
ghost use Rattle.rec_reader.specs.declared.syntax_tree.Specification.{Specification};
ghost use Rattle.rec_includes.specs.Forest.{cut};
ghost use Rattle.rec_offences.specs.Inclusion.{IsAtLevel, IsDeclared, AreLevels, extent_of, last_material, last_number, path_of};

use crate::scope::Scope;
use faults::Memory;
use indexmap::IndexSet;
use rec_includes::Directory;
use rec_reader::Specification;
use std::alloc::Global;

/// How much a material has.
#[derive(Clone, Copy)]
pub(crate) struct Extent {
    pub material: usize,
    pub symbols: usize,
    pub sorts: usize,
    pub rules: usize,
}

/// A specification whose material is a front of what is at hand, and how much its material has.
#[derive(Clone, Copy)]
pub(crate) struct Level {
    pub number: usize,
    pub extent: Extent,
}

/// The material that is at hand, with what it has. The levels are the specifications to which it
/// can be cut back, each the first one that the next includes.
#[derive(Drop)]
pub(crate) struct Inclusion<'a> {
    pub scope: Scope<'a>,
    pub sorts: Directory<'a>,
    pub rules: usize,
    pub material: IndexSet<usize>,
    pub levels: Vec<Level>,
}

impl<'a> Inclusion<'a> {
    /// Nothing is at hand.
    pub(crate) fn new(alloc: Global, text: &'a [u8]) -> Self
        ensures { (specifications : List Specification)
            → IsAtLevel text.now specifications result }
    {
        Inclusion {
            scope: Scope::new(alloc, text),
            sorts: Directory::new(alloc, text),
            rules: 0,
            material: IndexSet::new(alloc),
            levels: Vec::new(alloc),
        }
    }

    /// The number of the last level.
    fn last_number(&self) -> Option<usize>
        ensures { result ≡ last_number self.now.levels.items }
    {
        let level = self.levels.last()?;
        Some(level.number)
    }

    /// How much the last level has, nothing where there is none.
    #[tactic(auto, using(crate::proofs::Levels::extents))]
    fn extent(&self) -> Extent
        ensures { (bytes : List ℕ) (specifications : List Specification)
            → AreLevels bytes specifications [] self.now.levels.items
            → result ≡ extent_of specifications
            (last_material bytes specifications [] self.now.levels.items) }
    {
        match self.levels.last() {
            Some(level) => level.extent,
            None => Extent {
                material: 0,
                symbols: 0,
                sorts: 0,
                rules: 0,
            },
        }
    }

    /// Cuts back what is at hand to the level before the last.
    fn leave(&mut self)
        ensures levels { self.new.levels.items
            ≡ take (length self.old.levels.items - 1) self.old.levels.items }
        ensures kept { (bytes : List ℕ) (specifications : List Specification)
            → IsAtLevel bytes specifications self.old → IsAtLevel bytes specifications self.new }
    {
        self.levels.pop();
        let extent = self.extent();
        self.material.truncate(extent.material);
        self.scope.truncate(extent.symbols);
        self.sorts.truncate(extent.sorts);
        self.rules = extent.rules;
    }

    /// Cuts back what is at hand to the level of this specification, or to nothing where it has
    /// none. Whether it has one.
    pub(crate) fn return_to(&mut self, number: Option<usize>) -> bool
        ensures kept { (bytes : List ℕ) (specifications : List Specification)
            → IsAtLevel bytes specifications self.old → IsAtLevel bytes specifications self.new }
        ensures path { path_of self.new.levels.items
            ≡ cut number (path_of self.old.levels.items) }
        ensures there { result ≡ true → IsSome number × last_number self.new.levels.items ≡ number }
        ensures none { result ≡ false → self.new.levels.items ≡ [] }
    {
        while let Some(last) = self.last_number() {
            if number == Some(last) {
                return true;
            }
            self.leave();
        }
        false
    }

    /// Makes a specification a level, after its own names were declared: of the names at hand the
    /// first `symbols` stay, so its variables go.
    pub(crate) fn enter(
        &mut self,
        specification: &Specification,
        number: usize,
        symbols: usize,
    ) -> Result<(), Memory>
        ensures path { OnOk result (path_of self.new.levels.items
            ≡ number ∷ path_of self.old.levels.items) }
        ensures at_level { (bytes : List ℕ) (specifications : List Specification)
            → IsDeclared bytes specifications number specification.now symbols self.old
            → OnOk result (IsAtLevel bytes specifications self.new) }
    {
        self.scope.truncate(symbols);
        self.rules = self
            .rules
            .saturating_add(specification.rules.as_slice().len());
        self.material.insert(number)?;
        self.levels.push(Level {
            number,
            extent: Extent {
                material: self.material.len(),
                symbols: self.scope.len(),
                sorts: self.sorts.len(),
                rules: self.rules,
            },
        })?;
        Ok(())
    }
}
