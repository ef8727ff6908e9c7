//! Terms that share their equal subterms.
ghost use Rattle.std.specs.Prelude.{◌≡◌, ◌<◌, ◌↔◌, [], length, All, IfOk, IsTrue, Some};
ghost use Rattle.symbol_pool.specs.Pool.{name_at};
ghost use Rattle.run_checks.specs.Held.{IsThere, IsPut, term_at, term_over};

use faults::Memory;
use std::alloc::Global;
use std::marker::Model;
use symbol_pool::Symbols;
use term_file::{Kind, Record, ShareFault, Table, number_of};
use term_model::Symbol;

/// Terms over symbols, each different one once, by their numbers. It grows with what is put into
/// it.
#[derive(Drop)]
pub(crate) struct TermTable {
    symbols: Symbols,
    records: Table,
}

impl Model for TermTable {
    ghost use Rattle.run_checks.specs.Held.{Held};
    ghost use Rattle.run_checks.specs.HeldCode.{held_code};

    ghost Value = { Held };

    ghost coded = { held_code };

    ghost use Rattle.run_checks.specs.Shelved.{held, IsTable};

    ghost view = { held };

    ghost invariant = { IsTable };
}

impl TermTable {
    /// No terms over these symbols. It takes no memory.
    pub(crate) fn new(alloc: Global, symbols: Symbols) -> Self
        ensures { result ≡ record { symbols = symbols; terms = [] } }
    {
        TermTable {
            symbols,
            records: Table::new(alloc),
        }
    }

    /// The name of a symbol.
    pub(crate) fn name(&self, symbol: Symbol) -> &[u8]
        requires { symbol.0 < length self.now.symbols }
        ensures { name_at self.now.symbols symbol ≡ Some result.now }
    {
        self.symbols.name(symbol)
    }

    /// The symbol of a term, and the numbers of its arguments.
    pub(crate) fn at(&self, number: u32) -> (Symbol, &[u32])
        requires { IsThere self.now number }
        ensures term { term_at self.now number ≡ term_over self.now result.0 result.1.now }
        ensures there { All (IsThere self.now) result.1.now }
        ensures symbol { result.0.0 < length self.now.symbols }
    {
        let record = self.records.at(number as usize);
        match record.kind {
            Kind::Call(symbol) => (Symbol(symbol), &record.arguments),
            _ => unreachable!(),
        }
    }

    /// Whether two terms are equal: they have the same number.
    pub(crate) fn are_equal(&self, first: u32, second: u32) -> bool
        requires first { IsThere self.now first }
        requires second { IsThere self.now second }
        ensures { IsTrue result ↔ (term_at self.now first ≡ term_at self.now second) }
    {
        let _ = &self.records;
        first == second
    }

    /// The number of a symbol over terms, which is put behind the others where it is none of them.
    pub(crate) fn put(&mut self, symbol: Symbol, arguments: Vec<u32>) -> Result<u32, Memory>
        requires symbol { symbol.0 < length self.old.symbols }
        requires there { All (IsThere self.old) arguments.items }
        ensures { IfOk result
            (λ n. IsPut self.old self.new n (term_over self.old symbol arguments.items)) }
    {
        let record = Record {
            kind: Kind::Call(symbol.0),
            arguments,
        };
        match number_of(&mut self.records, record, u32::MAX) {
            Ok(number) => Ok(number),
            Err(ShareFault::StoreFull) => Err(Memory),
            Err(ShareFault::Memory) => Err(Memory),
        }
    }
}
