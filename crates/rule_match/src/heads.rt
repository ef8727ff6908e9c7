//! Heads of trees and of patterns.

ghost use Rattle.std.specs.Prelude.{◌≡◌};
ghost use Rattle.term_model.specs.Tree.{head_eq, root};
ghost use Rattle.term_model.specs.declared.Head.TheVariants.{App};
ghost use Rattle.rule_match.specs.Groups.{symbol_of};

use term_model::{Flat, Head, Symbol};

/// Whether a head is this symbol.
pub(crate) fn is_symbol(head: Head, symbol: Symbol) -> bool
    ensures { result ≡ head_eq (App symbol) head }
{
    match head {
        Head::App(other) => symbol.0 == other.0,
        _ => false,
    }
}

/// The symbol at the root of a pattern; None where another head or a variable is there.
pub(crate) fn root_symbol(pattern: &Flat) -> Option<Symbol>
    ensures { result ≡ symbol_of (root pattern.now) }
{
    match pattern.root() {
        Some(Head::App(symbol)) => Some(symbol),
        _ => None,
    }
}
