//! Places: each position of the left sides has a number.

ghost use Rattle.std.specs.Prelude.{◌≡◌, ◌+◌, ◌^◌, ◌<◌, Some, IfOk, OnOk};
ghost use Rattle.rule_automaton.specs.Places.{IsTable, Keeps};
ghost use Rattle.rule_automaton.specs.Tables.{tabled};

use faults::Memory;
use std::alloc::Global;
use std::collections::HashMap;

/// The places of the arguments of nodes. The root has place 0, and the arguments of a node over so
/// many trees have places in a row, by the node's own place and their number.
#[derive(Drop)]
pub(crate) struct Table {
    bases: HashMap<(u32, u32), u32>,
    places: u32,
}

impl Table {
    /// The root alone.
    pub(crate) fn new(alloc: Global) -> Self
        ensures { IsTable (tabled result) }
    {
        Table {
            bases: HashMap::new(alloc),
            places: 1,
        }
    }

    /// How many places there are.
    pub(crate) fn places(&self) -> u32
        ensures { result ≡ (tabled self.now).places }
    {
        self.places
    }

    /// The place of the first of so many arguments of a node at a place. Memory is wanting where 32
    /// bits don't number the places.
    pub(crate) fn kids(&mut self, place: u32, count: u32) -> Result<u32, Memory>
        requires table { IsTable (tabled self.old) }
        requires place { place < (tabled self.old).places }
        ensures found { IfOk result (λ base. (tabled self.new).base_of place count ≡ Some base) }
        ensures small { IfOk result (λ base. base + count < 2 ^ 32) }
        ensures kept { OnOk result (Keeps (tabled self.old) (tabled self.new)) }
        ensures table { OnOk result (IsTable (tabled self.new)) }
    {
        let base = self.places;
        if let Some(found) = self.bases.get(&(place, count)) {
            return Ok(*found);
        }
        let Some(places) = base.checked_add(count) else {
            return Err(Memory);
        };
        self.bases.insert((place, count), base)?;
        self.places = places;
        Ok(base)
    }
}
