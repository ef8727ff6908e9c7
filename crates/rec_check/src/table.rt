//! The symbols of the specifications that are read together.

ghost use Rattle.std.specs.Prelude.{◌≡◌, Some, IsSome, OnOk};
ghost use Rattle.rec_check.specs.Symbols.{widest_of};

use faults::Memory;
use std::alloc::Global;
use symbol_pool::{PoolFault, Symbols};

/// Symbols, and the greatest number of arguments of one.
#[derive(Drop)]
pub(crate) struct Table {
    pub symbols: Symbols,
    pub widest: u32,
    ghost is_widest: { widest ≡ widest_of symbols },
}

impl Table {
    ghost use Rattle.std.specs.Prelude.{[]};
    ghost use Rattle.symbol_pool.specs.Pool.{named};
    ghost use Rattle.rec_check.specs.Symbols.{with_symbol};

    /// No symbols. It takes no memory.
    pub(crate) fn new(alloc: Global) -> Self
        ensures { result.symbols ≡ [] }
    {
        Table {
            symbols: Symbols::new(alloc),
            widest: 0,
        }
    }

    /// Adds a symbol that isn't there.
    #[tactic(auto, using(crate::proofs::Declaring::adding))]
    pub(crate) fn add(&mut self, name: &[u8], arity: usize) -> Result<(), Memory>
        requires { IsSome (with_symbol self.old.symbols (named name.now arity)) }
        ensures { OnOk result (with_symbol self.old.symbols (named name.now arity)
            ≡ Some self.new.symbols) }
    {
        let arity = arity as u32;
        match self.symbols.intern(name, arity) {
            Ok(_) => {
                self.widest = self.widest.max(arity);
                Ok(())
            }
            Err(PoolFault::Full) => unreachable!(),
            Err(PoolFault::Memory) => Err(Memory),
        }
    }
}
