//! Names in order, found by their text.
ghost use Rattle.std.specs.Prelude.{◌≡◌, ◌++◌, ◌∷◌, [], IfSome, OnOk, OnErr, Some, false, length, take};
ghost use Rattle.rec_includes.specs.Names.{is_among, same_text};
ghost use Rattle.rec_includes.specs.Listing.{listing, place_in, place_of, place_of_text, with_new};

use crate::names::text_of;
use crate::recent::Recent;
use faults::Memory;
use indexmap::IndexMap;
use rec_reader::Name;
use std::alloc::Global;
use std::marker::Model;

/// Names in the order in which they were added. The first with a text is looked up by hashing.
#[derive(Drop)]
pub struct Directory<'a> {
    text: &'a [u8],
    names: Vec<Name>,
    places: IndexMap<Vec<u8>, usize>,
    recent: Recent,
}

impl<'a> Model for Directory<'a> {
    ghost use Rattle.rec_includes.specs.Listing.{Listing};

    ghost Value = { Listing };

    ghost use Rattle.rec_includes.specs.Indexed.{shown, IsIndexed};

    ghost view = { λ d. shown d };

    ghost invariant = { λ d. IsIndexed d };
}

impl<'a> Directory<'a> {
    /// No names, of this text. Takes no memory.
    pub fn new(alloc: Global, text: &'a [u8]) -> Self
        ensures { result ≡ listing text.now [] }
    {
        Directory {
            text,
            names: Vec::new(alloc),
            places: IndexMap::new(alloc),
            recent: Recent::new(),
        }
    }

    /// The bytes in which the names stand.
    pub fn text(&self) -> &'a [u8]
        ensures { result.now ≡ self.now.bytes }
    {
        self.text
    }

    /// How many names there are.
    pub fn len(&self) -> usize
        ensures { result ≡ length self.now.names }
    {
        self.names.len()
    }

    /// The place of the first name with the same text.
    #[inline(always)]
    pub fn place(&self, name: Name) -> Option<usize>
        ensures { result ≡ place_of self.now name }
    {
        let text = text_of(self.text, name);
        match self.guess(text) {
            Some(place) => Some(place),
            None if self.places.is_empty() => None,
            None => self.places.get(text).copied(),
        }
    }

    /// The place of the first name with this text, if the entry that is guessed is that of the
    /// text. No hash is made for it.
    #[inline(always)]
    fn guess(&self, text: &[u8]) -> Option<usize>
        ensures { IfSome result (λ place. place_of_text self.now text.now ≡ Some place) }
    {
        let (key, place) = self.places.get_index(self.recent.guess(text))?;
        if key.as_slice() == text {
            Some(*place)
        } else {
            None
        }
    }

    /// Whether a name has the same text.
    #[tactic(auto, using(crate::proofs::Places::is_some_place))]
    pub fn has(&self, name: Name) -> bool
        ensures { result ≡ is_among self.now.bytes self.now.names name }
    {
        self.place(name).is_some()
    }

    /// The place of the first name with the same text, if it is among the first `count`.
    #[tactic(auto, using(crate::proofs::Places::place_in_front))]
    pub fn place_before(&self, count: usize, name: Name) -> Option<usize>
        ensures { result ≡ place_in (same_text self.now.bytes name) (take count self.now.names) }
    {
        match self.place(name) {
            Some(place) if place < count => Some(place),
            _ => None,
        }
    }

    /// Whether one of the first `count` names has the same text.
    #[tactic(auto, using(crate::proofs::Places::is_some_place))]
    pub fn has_before(&self, count: usize, name: Name) -> bool
        ensures { result ≡ is_among self.now.bytes (take count self.now.names) name }
    {
        self.place_before(count, name).is_some()
    }

    /// Keeps the first `count` names.
    pub fn truncate(&mut self, count: usize)
        ensures { self.new ≡ listing self.old.bytes (take count self.old.names) }
    {
        self.names.truncate(count);
        while let Some((_, place)) = self.places.last() {
            if *place < count {
                return;
            }
            self.places.pop();
        }
    }

    /// Puts a name at the end. An `Err` changes nothing.
    pub fn add(&mut self, name: Name) -> Result<(), Memory>
        ensures ok { OnOk result (self.new ≡ listing self.old.bytes (self.old.names ++ name ∷ [])) }
        ensures err { OnErr result (self.new ≡ self.old) }
    {
        if self.has(name) {
            self.names.push(name)?;
            return Ok(());
        }
        self.add_absent(name)
    }

    /// Puts a name at the end, unless one with the same text is there. An `Err` changes nothing.
    pub fn add_new(&mut self, name: Name) -> Result<(), Memory>
        ensures ok { OnOk result (self.new ≡ with_new self.old name) }
        ensures err { OnErr result (self.new ≡ self.old) }
    {
        if self.has(name) {
            Ok(())
        } else {
            self.add_absent(name)
        }
    }

    /// Puts a name whose text isn't there at the end. An `Err` changes nothing.
    fn add_absent(&mut self, name: Name) -> Result<(), Memory>
        requires { is_among self.old.bytes self.old.names name ≡ false }
        ensures ok { OnOk result (self.new ≡ listing self.old.bytes (self.old.names ++ name ∷ [])) }
        ensures err { OnErr result (self.new ≡ self.old) }
    {
        let text = text_of(self.text, name);
        let key = Vec::from_slice(*self.names.allocator(), text)?;
        self.names.push(name)?;
        self.recent.note(text, self.places.len());
        match self.places.insert(key, self.names.len() - 1) {
            Ok(_) => Ok(()),
            Err(_) => {
                self.names.pop();
                Err(Memory)
            }
        }
    }

    /// Puts names at the end.
    pub fn add_all(&mut self, names: &[Name]) -> Result<(), Memory>
        ensures { OnOk result (self.new ≡ listing self.old.bytes (self.old.names ++ names.now)) }
    {
        for name in names {
            self.add(*name)?;
        }
        Ok(())
    }
}
