//! How large terms are together.
ghost use Rattle.std.specs.Prelude.{◌≡◌, ◌≤◌, ◌<◌, ◌+◌, [], true, All, IfOk, IfErr, sum_by, length};
ghost use Rattle.term_model.specs.Tree.{nodes, IsGround};
ghost use Rattle.terms_api.specs.Terms.{IsSound};
ghost use Rattle.plain_store.specs.Contents.{store_of};
ghost use Rattle.term_text.specs.Sizes.{saturated};
ghost use Rattle.term_commands.specs.Building.{IsNarrow};
ghost use Rattle.term_commands.specs.Different.{different};
ghost use Rattle.term_commands.specs.Listing.{IsUncounted};

use crate::building::build_terms;
use crate::counting::{depth_for, widest};
use crate::fault::TermsFault;
use plain_store::PlainStore;
use std::alloc::Global;
use term_model::Flat;
use term_text::{SizeMarks, TermSizes, stack_sizes};
use terms_api::Terms;

/// How many rows are tried first: a store of so few rows is made at once, and serves most inputs.
const FEW_ROWS: u32 = 16_384;

/// How many different subtrees and nodes the terms have, by an empty store of so many rows.
fn sizes_by(
    alloc: Global,
    terms: &[Flat],
    rows: u32,
    store: &mut PlainStore,
) -> Result<TermSizes, TermsFault>
    requires inside { store.old.inside ≡ true }
    requires sound { IsSound (store_of store.old) }
    requires empty { store.old.stack ≡ [] }
    requires rows { length store.old.trees ≡ rows }
    requires ground { All IsGround terms.now }
    requires room { All (λ t. length terms.now + nodes t ≤ store.old.room) terms.now }
    requires width { All (IsNarrow store.old.widest) terms.now }
    ensures distinct { IfOk result (λ sizes. sizes.distinct ≡ different terms.now) }
    ensures nodes { IfOk result (λ sizes. sizes.nodes ≡ saturated (sum_by nodes terms.now)) }
    ensures fit { IfOk result (λ sizes. different terms.now ≤ rows) }
    ensures uncounted { IfErr result (IsUncounted rows terms.now) }
{
    build_terms(store, terms)?;
    let mut marks = SizeMarks::new(alloc, rows)?;
    Ok(stack_sizes(store, &mut marks))
}

/// How many different subtrees the terms have together, and how many nodes, at most 2^64 - 1. They
/// are built in a store of so many rows, which suffice exactly where there are no more different
/// subtrees, on a stack of so many places, of nodes with at most so many arguments.
fn sizes_in(
    alloc: Global,
    terms: &[Flat],
    rows: u32,
    depth: u32,
    width: u32,
) -> Result<TermSizes, TermsFault>
    requires ground { All IsGround terms.now }
    requires depth { All (λ t. length terms.now + nodes t ≤ depth) terms.now }
    requires width { All (IsNarrow width) terms.now }
    ensures distinct { IfOk result (λ sizes. sizes.distinct ≡ different terms.now) }
    ensures nodes { IfOk result (λ sizes. sizes.nodes ≡ saturated (sum_by nodes terms.now)) }
    ensures fit { IfOk result (λ sizes. different terms.now ≤ rows) }
    ensures uncounted { IfErr result (IsUncounted rows terms.now) }
{
    let mut store = PlainStore::new(alloc, rows, depth, width)?;
    store.enter();
    sizes_by(alloc, terms, rows, &mut store)
}

/// The same, with few rows first, and with all of them only where those don't do.
pub(crate) fn sizes_together(
    alloc: Global,
    terms: &[Flat],
    rows: u32,
) -> Result<TermSizes, TermsFault>
    requires { All IsGround terms.now }
    ensures distinct { IfOk result (λ sizes. sizes.distinct ≡ different terms.now) }
    ensures nodes { IfOk result (λ sizes. sizes.nodes ≡ saturated (sum_by nodes terms.now)) }
    ensures fit { IfOk result (λ sizes. different terms.now ≤ rows) }
    ensures uncounted { IfErr result (IsUncounted rows terms.now) }
{
    let Some(depth) = depth_for(terms) else {
        return Err(TermsFault::Memory);
    };
    let width = widest(terms);
    if rows > FEW_ROWS {
        if let Ok(sizes) = sizes_in(alloc, terms, FEW_ROWS, depth, width) {
            return Ok(sizes);
        }
    }
    sizes_in(alloc, terms, rows, depth, width)
}
