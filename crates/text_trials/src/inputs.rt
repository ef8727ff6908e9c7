//! Inputs of term text: how their terms are written, and how large they are in a small store.

ghost use Rattle.std.specs.Prelude.{◌≤◌, All};
ghost use Rattle.term_model.specs.Tree.{IsGround};
ghost use Rattle.tree_text.specs.Text.{HasNames};
ghost use Rattle.tree_text.specs.Writing.{IsItemHeld};
ghost use Rattle.term_text.specs.Trials.{IsTried};

use crate::sizes::{begin, build_cell, build_empty, build_integer, build_symbol};
use plain_store::PlainStore;
use std::alloc::Global;
use std::test::Fail;
use symbol_pool::Symbols;
use term_model::{Flat, Item};
use term_syntax::{Flats, ReadFail, read_terms};
use term_text::{Memory, SizeMarks, stack_sizes, write_rec};
use terms_api::Terms;
use tree_text::write_term;

/// Builds the tree of an item over the last trees, if it may stand over them.
fn build_item<T: Terms>(terms: &mut T, symbols: &Symbols, item: Item) -> bool
    requires tried { IsTried symbols.now (T.store terms.old) }
    requires held { IsItemHeld symbols.now item }
    ensures { IsTried symbols.now (T.store terms.new) }
{
    match item {
        Item::Var(_) => false,
        Item::App(symbol, n) => build_symbol(terms, symbols, symbol, n),
        Item::Int(value) => build_integer(terms, symbols, value),
        Item::Nil => build_empty(terms, symbols),
        Item::Cons => build_cell(terms, symbols),
    }
}

/// Builds the trees of items one after another, and says whether each was possible.
fn build_items<T: Terms>(terms: &mut T, symbols: &Symbols, items: &[Item]) -> bool
    requires tried { IsTried symbols.now (T.store terms.old) }
    requires held { All (IsItemHeld symbols.now) items.now }
    ensures { IsTried symbols.now (T.store terms.new) }
{
    let mut all = true;
    for item in items {
        all = all && build_item(terms, symbols, *item);
    }
    all
}

/// Builds a term, and says whether there was room.
fn build_term<T: Terms>(terms: &mut T, symbols: &Symbols, term: &Flat) -> bool
    requires tried { IsTried symbols.now (T.store terms.old) }
    requires held { HasNames symbols.now term.now }
    ensures { IsTried symbols.now (T.store terms.new) }
{
    build_items(terms, symbols, term.items())
}

/// Builds terms one after another, and says whether there was room.
fn build_terms<T: Terms>(terms: &mut T, symbols: &Symbols, flats: &[Flat]) -> bool
    requires tried { IsTried symbols.now (T.store terms.old) }
    requires held { All (HasNames symbols.now) flats.now }
    ensures { IsTried symbols.now (T.store terms.new) }
{
    let mut all = true;
    for flat in flats {
        all = all && build_term(terms, symbols, flat);
    }
    all
}

/// Writes the row at a place of the stack, if there is one, and a line feed.
fn write_place<T: Terms>(
    terms: &mut T,
    symbols: &Symbols,
    place: u32,
    out: &mut Vec<u8>,
) -> Result<(), Memory>
    requires { IsTried symbols.now (T.store terms.old) }
    ensures { IsTried symbols.now (T.store terms.new) }
{
    if place < terms.depth() {
        let row = terms.at(place);
        write_rec(terms, symbols, row, 1_048_576, out)?;
        out.push(b'\n')?;
    }
    Ok(())
}

/// Writes the trees of the stack from the lowest on, each with a line feed.
fn write_stack<T: Terms>(terms: &mut T, symbols: &Symbols, out: &mut Vec<u8>) -> Result<(), Memory>
    requires { IsTried symbols.now (T.store terms.old) }
    ensures { IsTried symbols.now (T.store terms.new) }
{
    for place in 0..terms.depth() {
        write_place(terms, symbols, place, out)?;
    }
    Ok(())
}

/// The canonical text of each term, and a line feed.
fn write_terms(flats: &[Flat], symbols: &Symbols, out: &mut Vec<u8>) -> Result<(), Memory>
    requires ground { All IsGround flats.now }
    requires held { All (HasNames symbols.now) flats.now }
{
    for flat in flats {
        write_term(flat, symbols, out)?;
        out.push(b'\n')?;
    }
    Ok(())
}

/// What was read: the canonical lines of the terms; of the terms in a store the lines with names as
/// they are; and the different subtrees and the nodes.
#[derive(Drop)]
struct Input {
    canonical: Vec<u8>,
    lines: Vec<u8>,
    sizes: Option<(u64, u64)>,
}

/// Puts the terms into a store of so many rows. Without room for all there are no sizes.
fn store_terms(
    alloc: Global,
    symbols: &Symbols,
    flats: &[Flat],
    rows: u32,
) -> Result<(Vec<u8>, Option<(u64, u64)>), Memory>
    requires rows { rows ≤ 100 }
    requires held { All (HasNames symbols.now) flats.now }
{
    let mut store = PlainStore::new(alloc, rows, 10, 3)?;
    let mut lines = Vec::new(alloc);
    begin(&mut store, symbols);
    if !build_terms(&mut store, symbols, flats) {
        return Ok((lines, None));
    }
    write_stack(&mut store, symbols, &mut lines)?;
    let mut marks = SizeMarks::new(alloc, 100)?;
    let sizes = stack_sizes(&mut store, &mut marks);
    Ok((lines, Some((sizes.distinct, sizes.nodes))))
}

/// Reads term text, and puts the terms into a store of so many rows, at most 100.
fn read_input(alloc: Global, bytes: &[u8], rows: u32) -> Result<Input, ReadFail> {
    let mut symbols = Symbols::new(alloc);
    let flats: Flats = read_terms(alloc, bytes, &mut symbols)?;
    let mut canonical = Vec::new(alloc);
    write_terms(flats.as_slice(), &symbols, &mut canonical)?;
    let (lines, sizes) = store_terms(alloc, &symbols, flats.as_slice(), rows.min(100))?;
    Ok(Input {
        canonical,
        lines,
        sizes,
    })
}

/// Term text, the rows of a store, the canonical lines, the lines with names as they are, and the
/// different subtrees and the nodes of all terms, unless there is no room for them.
static INPUTS: [(&str, u32, &str, &str, Option<(u64, u64)>); 6] = [
    (
        "f(a, \"b c\")  f(a,a)",
        4,
        "f(a,\"b c\")\nf(a,a)\n",
        "f(a,b c)\nf(a,a)\n",
        Some((4, 6)),
    ),
    (
        "f(a, \"b c\")  f(a,a)",
        3,
        "f(a,\"b c\")\nf(a,a)\n",
        "",
        None,
    ),
    ("", 100, "", "", Some((0, 0))),
    (
        "\"f\"(a) \"1\"",
        100,
        "f(a)\n\"1\"\n",
        "f(a)\n1\n",
        Some((3, 3)),
    ),
    (
        "[1,f(2)] [] [[],1]",
        100,
        "[1,f(2)]\n[]\n[[],1]\n",
        "[1,f(2)]\n[]\n[[],1]\n",
        Some((8, 12)),
    ),
    (
        "\"a\\\"\\\\\"(\"\") []",
        100,
        "\"a\\\"\\\\\"(\"\")\n[]\n",
        "a\"\\()\n[]\n",
        Some((3, 3)),
    ),
];

#[test]
fn what_is_read_is_written_and_counted(rt: HostRuntime) -> Result<(), Fail> {
    for (bytes, rows, canonical, lines, sizes) in &INPUTS {
        let input = read_input(rt.alloc(), bytes.as_bytes(), *rows)?;
        assert_eq!(rt; input.canonical.as_slice(), canonical.as_bytes());
        assert_eq!(rt; input.lines.as_slice(), lines.as_bytes());
        assert_eq!(rt; input.sizes, *sizes);
    }
    Ok(())
}
