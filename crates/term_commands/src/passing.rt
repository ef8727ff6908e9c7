//! The command `terms` in one pass over the text, where all is well.
ghost use Rattle.std.specs.Prelude.{◌≡◌, ◌≤◌, [], IfOk, true, length, sum_by};
ghost use Rattle.term_model.specs.Tree.{nodes};
ghost use Rattle.terms_api.specs.Terms.{trees};
ghost use Rattle.plain_store.specs.Contents.{store_of};
ghost use Rattle.term_text.specs.Sizes.{saturated};
ghost use Rattle.term_commands.specs.Different.{different};
ghost use Rattle.term_commands.specs.Listing.{IsListed};

use crate::counted::Counted;
use crate::listing::write_sizes;
use plain_store::PlainStore;
use std::alloc::Global;
use term_building::{GivenUp, build_text};
use term_text::{SizeMarks, TermSizes, stack_sizes};
use terms_api::Terms;

/// How many rows are tried first for a text of few bytes.
const FEW_ROWS: u32 = 16_384;

/// Such a text has fewer bytes than this.
const FEW_BYTES: usize = 262_144;

/// How many arguments a symbol may have at the first try. The texts measured have none with more,
/// and a store with less room is faster.
const FEW_ARGUMENTS: u32 = 4;

/// How many arguments a symbol may have.
const MOST_ARGUMENTS: u32 = 16;

/// How many rows are tried first.
fn rows_for(input: &[u8], rows: u32) -> u32
    ensures { result ≤ rows }
{
    if input.len() < FEW_BYTES {
        rows.min(FEW_ROWS)
    } else {
        rows
    }
}

/// A number of places of the stack, with some more.
fn places_for(count: usize) -> Result<u32, GivenUp> {
    match u32::try_from(count.saturating_add(64)) {
        Ok(places) => Ok(places),
        Err(_) => Err(GivenUp::Otherwise),
    }
}

/// How large the trees of the stack are, where the store has so many rows.
fn sizes_in(alloc: Global, store: &mut Counted, rows: u32) -> Result<TermSizes, GivenUp>
    requires inside { store.old.inside ≡ true }
    requires rows { length store.old.trees ≡ rows }
    ensures distinct { IfOk result (λ s. s.distinct ≡ different (trees (store_of store.old))) }
    ensures nodes { IfOk result
        (λ s. s.nodes ≡ saturated (sum_by nodes (trees (store_of store.old)))) }
    ensures fit { IfOk result (λ s. s.distinct ≤ rows) }
{
    if let Some(sizes) = store.sizes() {
        return Ok(sizes);
    }
    let _ = store.depth();
    let mut marks = SizeMarks::new(alloc, rows)?;
    Ok(stack_sizes(store, &mut marks))
}

/// The output, by an empty store of so many rows with room for so many arguments.
fn told_by(
    alloc: Global,
    input: &[u8],
    rows: u32,
    widest: u32,
    store: &mut Counted,
) -> Result<Vec<u8>, GivenUp>
    requires inside { store.old.inside ≡ true }
    requires wide { widest ≤ store.old.widest }
    requires cells { 2 ≤ store.old.widest }
    requires empty { trees (store_of store.old) ≡ [] }
    requires rows { length store.old.trees ≡ rows }
    ensures { IfOk result (λ text. IsListed rows input.now text.items) }
{
    let mut text = build_text(alloc, input, widest, store)?;
    let sizes = sizes_in(alloc, store, rows)?;
    write_sizes(sizes, &mut text)?;
    Ok(text)
}

/// The output, with so many rows, places and arguments.
fn told_in(
    alloc: Global,
    input: &[u8],
    rows: u32,
    places: u32,
    widest: u32,
) -> Result<Vec<u8>, GivenUp>
    ensures { IfOk result (λ text. IsListed rows input.now text.items) }
{
    let mut store = Counted::new(PlainStore::new(alloc, rows, places, widest)?);
    store.enter();
    told_by(alloc, input, rows, widest, &mut store)
}

/// The output, in the smaller store that does for most texts.
fn told_in_small(alloc: Global, input: &[u8], rows: u32) -> Result<Vec<u8>, GivenUp>
    ensures { IfOk result (λ text. IsListed rows input.now text.items) }
{
    let places = places_for(input.len() / 8)?;
    let text = told_in(alloc, input, rows_for(input, rows), places, FEW_ARGUMENTS)?;
    Ok(text)
}

/// The output, in a store of all rows, with room for the most arguments, and with a place for each
/// two bytes of the text, which suffice for most texts.
fn told_in_large(alloc: Global, input: &[u8], rows: u32) -> Result<Vec<u8>, GivenUp>
    ensures { IfOk result (λ text. IsListed rows input.now text.items) }
{
    let places = places_for(input.len() / 2)?;
    told_in(alloc, input, rows, places, MOST_ARGUMENTS)
}

/// The output, where the text is read in one pass, or in a second one where the smaller store was
/// too small.
pub(crate) fn told_at_once(alloc: Global, input: &[u8], rows: u32) -> Result<Vec<u8>, GivenUp>
    ensures { IfOk result (λ text. IsListed rows input.now text.items) }
{
    match told_in_small(alloc, input, rows) {
        Err(GivenUp::TooSmall) => told_in_large(alloc, input, rows),
        told => told,
    }
}
