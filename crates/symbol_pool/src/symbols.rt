//! Symbols numbered in the order in which they were first interned.

ghost use Rattle.std.specs.Prelude.{◌≡◌, ◌<◌, ◌↔◌, ◌++◌, ◌∷◌, [], Some, IfSome, IfNone, IfOk, IfErr, OnOk, OnErr, Err, length};
ghost use Rattle.symbol_pool.specs.Pool.{named, Holds, Lacks, Has, IsFullFor, IsPool, name_at, arity_at};
ghost use Rattle.symbol_pool.specs.Names.{GrowsNames, IsNameAt, same_name};
ghost use Rattle.symbol_pool.specs.declared.fault.PoolFault.TheVariants.{Full, Memory};
ghost use Rattle.std.specs.List.{IsDistinct};

use crate::PoolFault;
use crate::recent::Recent;
use indexmap::IndexSet;
use std::alloc::Global;
use std::marker::Model;
use term_model::Symbol;

/// How many symbols a pool may hold.
pub const MOST_SYMBOLS: usize = 65_535;

/// Function symbols, each a name with a number of arguments. They are numbered from 0 in the order
/// in which they were first interned, and looked up by hashing.
#[derive(Drop)]
pub struct Symbols {
    names: IndexSet<Vec<u8>>,
    pairs: IndexSet<(usize, u32)>,
    recent: Recent,
}

impl Model for Symbols {
    ghost use Rattle.std.specs.Prelude.{List};
    ghost use Rattle.symbol_pool.specs.Pool.{Named};

    ghost Value = { List Named };

    ghost use Rattle.symbol_pool.specs.Kept.{shown, IsKept};

    ghost view = { λ s. shown s };

    ghost invariant = { λ s. IsKept s };
}

impl Symbols {
    /// A pool without symbols. It takes no memory.
    pub fn new(alloc: Global) -> Self
        ensures { result ≡ [] }
    {
        Symbols {
            names: IndexSet::new(alloc),
            pairs: IndexSet::new(alloc),
            recent: Recent::new(),
        }
    }

    /// The symbol that is this name with this number of arguments; None where none is. It takes no
    /// memory.
    pub fn find(&self, name: &[u8], arity: u32) -> Option<Symbol>
        ensures found { IfSome result (λ s. Holds self.now s (named name.now arity)) }
        ensures within { IfSome result (λ s. s.0 < length self.now) }
        ensures absent { IfNone result (Lacks self.now (named name.now arity)) }
        ensures pool { IsPool self.now }
    {
        match self.guess(name, arity) {
            Some(symbol) => Some(symbol),
            None => self.look_up(name, arity),
        }
    }

    /// How many symbols are held.
    fn len(&self) -> usize
        ensures count { result ≡ length self.now }
        ensures pool { IsPool self.now }
    {
        self.pairs.len()
    }

    /// The symbol that was noted last at the place of this name with this number of arguments, if
    /// it is that one. No hash is made for it.
    fn guess(&self, name: &[u8], arity: u32) -> Option<Symbol>
        ensures found { IfSome result (λ s. Holds self.now s (named name.now arity)) }
        ensures within { IfSome result (λ s. s.0 < length self.now) }
        ensures pool { IsPool self.now }
    {
        let symbol = self.recent.guess(name, arity);
        if symbol.0 as usize >= self.len() {
            return None;
        }
        if self.arity(symbol) == arity && self.name(symbol) == name {
            Some(symbol)
        } else {
            None
        }
    }

    /// The symbol that is this name with this number of arguments, by hashing.
    fn look_up(&self, name: &[u8], arity: u32) -> Option<Symbol>
        ensures found { IfSome result (λ s. Holds self.now s (named name.now arity)) }
        ensures within { IfSome result (λ s. s.0 < length self.now) }
        ensures absent { IfNone result (Lacks self.now (named name.now arity)) }
        ensures pool { IsPool self.now }
    {
        let name = self.names.get_index_of(name)?;
        let symbol = self.pairs.get_index_of(&(name, arity))?;
        Some(Symbol(symbol as u32))
    }

    /// The symbol that is this name with this number of arguments, which becomes the next symbol if
    /// none is. Full where that would be a symbol too many. After an error the pool is as before.
    pub fn intern(&mut self, name: &[u8], arity: u32) -> Result<Symbol, PoolFault>
        ensures held { IfOk result (λ s. Holds self.new s (named name.now arity)) }
        ensures within { IfOk result (λ s. s.0 < length self.new) }
        ensures added { OnOk result (Lacks self.old (named name.now arity)
            → self.new ≡ self.old ++ named name.now arity ∷ []) }
        ensures found { OnOk result (Has self.old (named name.now arity) → self.new ≡ self.old) }
        ensures full { (result ≡ Err Full) ↔ IsFullFor self.old (named name.now arity) }
        ensures unchanged { OnErr result (self.new ≡ self.old) }
        ensures pool { IsPool self.new }
    {
        if let Some(symbol) = self.guess(name, arity) {
            return Ok(symbol);
        }
        let symbol = self.take_up(name, arity)?;
        self.recent.note(name, arity, symbol);
        Ok(symbol)
    }

    /// The same, by hashing.
    fn take_up(&mut self, name: &[u8], arity: u32) -> Result<Symbol, PoolFault>
        ensures held { IfOk result (λ s. Holds self.new s (named name.now arity)) }
        ensures within { IfOk result (λ s. s.0 < length self.new) }
        ensures added { OnOk result (Lacks self.old (named name.now arity)
            → self.new ≡ self.old ++ named name.now arity ∷ []) }
        ensures found { OnOk result (Has self.old (named name.now arity) → self.new ≡ self.old) }
        ensures full { (result ≡ Err Full) ↔ IsFullFor self.old (named name.now arity) }
        ensures unchanged { OnErr result (self.new ≡ self.old) }
        ensures pool { IsPool self.new }
    {
        if let Some(symbol) = self.look_up(name, arity) {
            return Ok(symbol);
        }
        if self.pairs.len() == MOST_SYMBOLS {
            return Err(PoolFault::Full);
        }
        let name = name_index(&mut self.names, name)?;
        let (symbol, _) = self.pairs.insert_full((name, arity))?;
        Ok(Symbol(symbol as u32))
    }

    /// The name of a symbol that is held. It takes no memory.
    pub fn name(&self, symbol: Symbol) -> &[u8]
        requires { symbol.0 < length self.now }
        ensures { name_at self.now symbol ≡ Some result.now }
    {
        let (name, _) = self.pairs.as_slice()[symbol.0 as usize];
        &self.names.as_slice()[name]
    }

    /// The number of arguments of a symbol that is held. It takes no memory.
    pub fn arity(&self, symbol: Symbol) -> u32
        requires { symbol.0 < length self.now }
        ensures { arity_at self.now symbol ≡ Some result }
    {
        let (_, arity) = self.pairs.as_slice()[symbol.0 as usize];
        arity
    }
}

/// The number of a name, which becomes the next name if it is none yet.
fn name_index(names: &mut IndexSet<Vec<u8>>, name: &[u8]) -> Result<usize, PoolFault>
    ensures stays { GrowsNames names.old.keys names.new.keys }
    ensures named { IfOk result (λ i. IsNameAt names.new.keys i name.now) }
    ensures memory { IfErr result (λ e. e ≡ Memory) }
    ensures differ { IsDistinct same_name names.old.keys → IsDistinct same_name names.new.keys }
{
    if let Some(index) = names.get_index_of(name) {
        return Ok(index);
    }
    let copy = name.to_vec(*names.allocator())?;
    let (index, _) = names.insert_full(copy)?;
    Ok(index)
}
