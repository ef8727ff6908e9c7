//! Symbols that are numbered as terms use them.
ghost use Rattle.std.specs.Prelude.{◌≡◌, ◌<◌, [], length, IfOk, IfErr, true};
ghost use Rattle.symbol_pool.specs.Pool.{IsPool};
ghost use Rattle.term_file.specs.declared.fault.ShareFault.TheVariants.{Memory};
ghost use Rattle.term_file.specs.Outcome.{head_of};
ghost use Rattle.term_file.specs.Sharing.{IsPart, Numbers, NumbersHead, is_writable_item};

use crate::fault::ShareFault;
use crate::record::Kind;
use std::alloc::Global;
use std::marker::Model;
use symbol_pool::{PoolFault, Symbols};
use term_model::{Item, Symbol};

/// Symbols, numbered from 0 in the order of the first use, and how many there are.
#[derive(Drop)]
pub(crate) struct Numbering {
    symbols: Symbols,
    count: u32,
}

impl Model for Numbering {
    ghost use Rattle.std.specs.Prelude.{◌≡◌, List, length};
    ghost use Rattle.symbol_pool.specs.Pool.{Named};
    ghost use Rattle.term_file.specs.TermsCode.{named_code};
    ghost use Rattle.std.specs.Coded.{coded_list};

    ghost Value = { List Named };

    ghost coded = { coded_list named_code };

    ghost view = { λ n. n.symbols };

    ghost invariant = { λ n. n.count ≡ length n.symbols };
}

impl Numbering {
    /// No symbols. It takes no memory.
    pub(crate) fn new(alloc: Global) -> Self
        ensures { result ≡ [] }
    {
        Numbering {
            symbols: Symbols::new(alloc),
            count: 0,
        }
    }

    /// The number of one of `names`, which becomes the next symbol where it is none yet.
    fn number(&mut self, names: &Symbols, symbol: Symbol) -> Result<u32, ShareFault>
        requires held { symbol.0 < length names.now }
        requires pool { IsPool names.now }
        requires part { IsPart self.old names.now }
        ensures numbered { IfOk result (Numbers names.now symbol.0 self.old self.new) }
        ensures memory { IfErr result (λ e. e ≡ Memory) }
    {
        match self.symbols.intern(names.name(symbol), names.arity(symbol)) {
            Ok(symbol) => {
                if symbol.0 == self.count {
                    self.count += 1;
                }
                Ok(symbol.0)
            }
            Err(PoolFault::Memory) => Err(ShareFault::Memory),
            Err(PoolFault::Full) => unreachable!(),
        }
    }

    /// What stands at the root of a record for an item, whose symbol is one of `names`.
    pub(crate) fn kind_of(&mut self, names: &Symbols, item: Item) -> Result<Kind, ShareFault>
        requires writable { is_writable_item names.now item ≡ true }
        requires pool { IsPool names.now }
        requires part { IsPart self.old names.now }
        ensures numbered { IfOk result (λ kind.
            NumbersHead names.now item self.old self.new (head_of kind)) }
        ensures memory { IfErr result (λ e. e ≡ Memory) }
    {
        match item {
            Item::Var(_) => unreachable!(),
            Item::App(symbol, _) => Ok(Kind::Call(self.number(names, symbol)?)),
            Item::Int(value) => Ok(Kind::Integer(value)),
            Item::Nil => Ok(Kind::Empty),
            Item::Cons => Ok(Kind::Cell),
        }
    }

    /// The symbols, and how many there are.
    pub(crate) fn into_parts(self) -> (Symbols, u32)
        ensures symbols { result.0 ≡ self }
        ensures count { result.1 ≡ length self }
    {
        let Numbering { symbols, count } = self;
        (symbols, count)
    }
}
