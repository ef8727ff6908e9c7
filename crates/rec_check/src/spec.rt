//! The specification that a syntax spells.

ghost use Rattle.std.specs.Prelude.{◌≡◌, All, Some, IfOk, IsSome};
ghost use Rattle.rec_reader.specs.Few.{HasFewLeftNodes};
ghost use Rattle.rec_check.specs.Spelled.{nothing, spelled_by};
ghost use Rattle.rec_check.specs.Spec.{specified};
ghost use Rattle.rec_check.specs.Symbols.{widest_of};

use crate::spelling::{rules_of, table_of, terms_of};
use faults::Memory;
use rec_reader::{Node, Sequence, Specification};
use rewrite_model::Rule;
use std::alloc::Global;
use symbol_pool::Symbols;
use term_model::Flat;

/// A specification that may be run.
#[derive(Drop)]
pub struct Spec {
    /// The symbols in the order in which they are declared, those that are included first.
    pub symbols: Symbols,
    /// The rules in order, those that are included first.
    pub rules: Vec<Rule>,
    /// The terms to be rewritten, in order.
    pub terms: Vec<Flat>,
    /// The greatest number of arguments of a symbol, 0 where there is none.
    pub widest: u32,
}

impl Spec {
    /// A specification of nothing. It takes no memory.
    pub(crate) fn empty(alloc: Global) -> Self
        ensures nothing { specified result ≡ nothing }
        ensures widest { result.widest ≡ 0 }
    {
        Spec {
            symbols: Symbols::new(alloc),
            rules: Vec::new(alloc),
            terms: Vec::new(alloc),
            widest: 0,
        }
    }
}

/// What the specifications of a material spell, with terms.
pub(crate) fn spell(
    alloc: Global,
    text: &[u8],
    specifications: &[Specification],
    material: &[usize],
    terms: &[Sequence<Node>],
) -> Result<Spec, Memory>
    requires few { All HasFewLeftNodes specifications.now }
    requires spelled { IsSome
        (spelled_by text.now specifications.now material.now terms.now) }
    ensures spelled { IfOk result (λ s.
        spelled_by text.now specifications.now material.now terms.now ≡ Some (specified s)) }
    ensures widest { IfOk result (λ s. s.widest ≡ widest_of s.symbols) }
{
    let table = table_of(alloc, text, specifications, material)?;
    let rules = rules_of(alloc, text, &table.symbols, specifications, material)?;
    let terms = terms_of(alloc, text, &table.symbols, terms)?;
    Ok(Spec {
        symbols: table.symbols,
        rules,
        terms,
        widest: table.widest,
    })
}
