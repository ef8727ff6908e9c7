//! The command `terms`: term text to the canonical line of each term, and how large they are
//! together.
ghost use Rattle.std.specs.Prelude.{◌≡◌, ◌≤◌, ◌++◌, [], All, IfOk, IfErr, OnOk};
ghost use Rattle.term_model.specs.Tree.{IsGround};
ghost use Rattle.tree_text.specs.Canonical.{canonical_lines};
ghost use Rattle.tree_text.specs.Text.{HasNames};
ghost use Rattle.term_commands.specs.Different.{different};
ghost use Rattle.term_commands.specs.Listing.{IsListed, IsUncounted, IsUntold, counts_line, sizes_line};

use crate::fault::TermsFault;
use crate::measuring::sizes_together;
use crate::passing::told_at_once;
use faults::Memory;
use itoa::Buffer;
use std::alloc::Global;
use symbol_pool::Symbols;
use term_model::Flat;
use term_syntax::read_terms;
use term_text::TermSizes;
use tree_text::write_term;

/// Appends the canonical text of each term, and a line feed.
fn write_lines(terms: &[Flat], symbols: &Symbols, out: &mut Vec<u8>) -> Result<(), Memory>
    requires ground { All IsGround terms.now }
    requires held { All (HasNames symbols.now) terms.now }
    ensures { OnOk result
        (out.new.items ≡ out.old.items ++ canonical_lines symbols.now terms.now) }
{
    for term in terms {
        write_term(term, symbols, out)?;
        out.push(b'\n')?;
    }
    Ok(())
}

/// Appends the line of sizes.
pub(crate) fn write_sizes(sizes: TermSizes, out: &mut Vec<u8>) -> Result<(), Memory>
    ensures { OnOk result
        (out.new.items ≡ out.old.items ++ counts_line sizes.distinct sizes.nodes) }
{
    out.extend_from_slice(b"distinct ")?;
    out.extend_from_slice(Buffer::new().format(sizes.distinct).as_bytes())?;
    out.extend_from_slice(b" nodes ")?;
    out.extend_from_slice(Buffer::new().format(sizes.nodes).as_bytes())?;
    out.extend_from_slice(b"\n")?;
    Ok(())
}

/// What is told of terms over these symbols.
fn told(alloc: Global, terms: &[Flat], symbols: &Symbols, rows: u32) -> Result<Vec<u8>, TermsFault>
    requires ground { All IsGround terms.now }
    requires held { All (HasNames symbols.now) terms.now }
    ensures told { IfOk result
        (λ text. text.items ≡ canonical_lines symbols.now terms.now ++ sizes_line terms.now) }
    ensures fit { OnOk result (different terms.now ≤ rows) }
    ensures uncounted { IfErr result (IsUncounted rows terms.now) }
{
    let sizes = sizes_together(alloc, terms, rows)?;
    let mut text = Vec::new(alloc);
    write_lines(terms, symbols, &mut text)?;
    write_sizes(sizes, &mut text)?;
    Ok(text)
}

/// What is told of the terms that the input spells, over symbols that are taken up meanwhile.
fn told_over(
    alloc: Global,
    input: &[u8],
    symbols: &mut Symbols,
    rows: u32,
) -> Result<Vec<u8>, TermsFault>
    requires { symbols.old ≡ [] }
    ensures told { IfOk result (λ text. IsListed rows input.now text.items) }
    ensures untold { IfErr result (IsUntold rows input.now) }
{
    let terms = read_terms(alloc, input, symbols)?;
    told(alloc, terms.as_slice(), symbols, rows)
}

/// The canonical line of each term that the input spells, and the line `distinct D nodes N`: how
/// many different subtrees the terms have together, and how many nodes, at most 2^64 - 1.
///
/// The input is refused as `read_terms` refuses it. `StoreFull` is answered exactly where there are
/// more different subtrees than rows, and `Memory` may be wherever there is none.
pub fn tell_terms(alloc: Global, input: &[u8], rows: u32) -> Result<Vec<u8>, TermsFault>
    ensures told { IfOk result (λ text. IsListed rows input.now text.items) }
    ensures untold { IfErr result (IsUntold rows input.now) }
{
    if let Ok(text) = told_at_once(alloc, input, rows) {
        return Ok(text);
    }
    let mut symbols = Symbols::new(alloc);
    told_over(alloc, input, &mut symbols, rows)
}
