//! Terms that share their equal subterms.
ghost use Rattle.std.specs.Prelude.{◌≡◌, ◌<◌, ◌^◌, ◌↔◌, length, IsTrue};
ghost use Rattle.term_model.specs.Tree.{nodes};
ghost use Rattle.term_text.specs.Sizes.{saturated};
ghost use Rattle.term_file.specs.Contents as contents;

use crate::table::Table;
use std::marker::Model;
use symbol_pool::Symbols;

/// Terms in order, each different subterm of them once, with the symbols that they use. Contracts
/// see the terms as trees. Symbols and subterms are numbered in the order of the first use.
#[derive(Drop)]
pub struct Shared {
    pub(crate) symbols: Symbols,
    pub(crate) symbol_count: u32,
    pub(crate) table: Table,
    pub(crate) roots: Vec<u32>,
}

impl Model for Shared {
    ghost use Rattle.term_file.specs.File.{Terms, terms_in};
    ghost use Rattle.term_file.specs.TermsCode.{terms_code};

    ghost Value = { Terms };

    ghost coded = { terms_code };

    ghost use Rattle.term_file.specs.SharedView.{contents_of, IsShared};

    ghost view = { λ s. terms_in (contents_of s) };

    ghost invariant = { IsShared };
}

impl Shared {
    /// How many terms there are: fewer than 2^32.
    pub fn len(&self) -> usize
        ensures count { result ≡ length self.now.trees }
        ensures few { length self.now.trees < 2 ^ 32 }
    {
        self.roots.len()
    }

    /// Whether there is no term.
    pub fn is_empty(&self) -> bool
        ensures { IsTrue result ↔ (length self.now.trees ≡ 0) }
    {
        self.roots.is_empty()
    }

    /// How many nodes a term has, or 2^64 - 1 where it has more. It takes constant time.
    pub fn node_count(&self, root: u32) -> u64
        requires { root < length self.now.trees }
        ensures { result ≡ saturated (nodes (contents.tree_at self.now.trees root)) }
    {
        let number = self.roots[root as usize];
        self.table.node_count(number as usize)
    }
}
