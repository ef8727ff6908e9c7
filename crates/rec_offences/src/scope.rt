//! Declared names, and what each is first declared as.
ghost use Rattle.std.specs.Prelude.{◌≡◌, ◌<◌, ◌^◌, ◌∷◌, [], OnOk, length, not, slice_get, take};
ghost use Rattle.std.specs.Option.{option_map};
ghost use Rattle.rec_includes.specs.Names.{is_among, same_text};
ghost use Rattle.rec_offences.specs.Scope.{look_up, names_of, is_variable};
ghost use Rattle.rec_offences.specs.Known.{known, entry_of, entries_of, with_entries};

use crate::signatures::Signature;
use faults::Memory;
use rec_includes::{Directory, text_of};
use rec_reader::Name;
use std::alloc::Global;
use std::marker::Model;

/// Declared names in order.
#[derive(Drop)]
pub(crate) struct Scope<'a> {
    names: Directory<'a>,
    signatures: Vec<Signature<'a>>,
}

impl<'a> Model for Scope<'a> {
    ghost use Rattle.rec_offences.specs.Known.{Known};

    ghost Value = { Known };

    ghost use Rattle.rec_offences.specs.KnownKept.{scope_shown, IsScopeKept};

    ghost view = { λ s. scope_shown s };

    ghost invariant = { λ s. IsScopeKept s };
}

impl<'a> Scope<'a> {
    pub(crate) fn new(alloc: Global, text: &'a [u8]) -> Self
        ensures { result ≡ known text.now [] }
    {
        Scope {
            names: Directory::new(alloc, text),
            signatures: Vec::new(alloc),
        }
    }

    /// The bytes in which the names stand.
    pub(crate) fn text(&self) -> &'a [u8]
        ensures { result.now ≡ self.now.bytes }
    {
        self.names.text()
    }

    /// Whether two names have different texts.
    pub(crate) fn differ(&self, first: Name, second: Name) -> bool
        ensures { result ≡ not (same_text self.now.bytes first second) }
    {
        let text = self.names.text();
        text_of(text, first) != text_of(text, second)
    }

    /// How many names are declared, those that are repeated too.
    pub(crate) fn len(&self) -> usize
        ensures count { result ≡ length self.now.entries }
        ensures fits { result < 2 ^ 63 }
    {
        self.signatures.len()
    }

    /// What a name is first declared as.
    #[inline(always)]
    #[tactic(auto, using(crate::proofs::LookUps::looking_up))]
    pub(crate) fn find(&self, name: Name) -> Option<Signature<'a>>
        ensures { option_map entry_of result ≡ look_up self.now.bytes self.now.entries name }
    {
        match self.names.place(name) {
            Some(place) => self.at(place),
            None => None,
        }
    }

    #[inline(always)]
    fn at(&self, place: usize) -> Option<Signature<'a>>
        ensures { option_map entry_of result ≡ slice_get self.now.entries place }
    {
        match self.signatures.get(place) {
            Some(signature) => Some(*signature),
            None => None,
        }
    }

    /// Whether a name is declared.
    pub(crate) fn has(&self, name: Name) -> bool
        ensures { result ≡ is_among self.now.bytes (names_of self.now.entries) name }
    {
        self.names.has(name)
    }

    /// Keeps the first `count` names.
    pub(crate) fn truncate(&mut self, count: usize)
        ensures { self.new ≡ known self.old.bytes (take count self.old.entries) }
    {
        self.names.truncate(count);
        self.signatures.truncate(count);
    }

    /// Declares a name, after the others.
    pub(crate) fn add(&mut self, signature: Signature<'a>) -> Result<(), Memory>
        ensures { OnOk result (self.new
            ≡ with_entries self.old (entry_of signature.entry ∷ [])) }
    {
        self.signatures.push(signature)?;
        match self.names.add(signature.name) {
            Ok(()) => Ok(()),
            Err(Memory) => {
                self.signatures.pop();
                Err(Memory)
            }
        }
    }

    /// Declares names, after the others.
    pub(crate) fn add_all(&mut self, signatures: &[Signature<'a>]) -> Result<(), Memory>
        ensures { OnOk result (self.new ≡ with_entries self.old (entries_of signatures.now)) }
    {
        for signature in signatures {
            self.add(*signature)?;
        }
        Ok(())
    }

    /// Whether a name is that of a variable.
    pub(crate) fn is_variable(&self, name: Name) -> bool
        ensures { result ≡ is_variable self.now.bytes self.now.entries name }
    {
        match self.find(name) {
            Some(signature) => signature.is_variable,
            None => false,
        }
    }
}
