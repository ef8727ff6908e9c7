//! Reads term text.
ghost use Rattle.std.specs.Prelude.{◌≡◌, ◌≤◌, ◌^◌, List, IfOk, IfErr, IsErrOf, OnErr, All, length};
ghost use Rattle.read_faults.specs.declared.fail.ReadFail.TheVariants.{Memory};
ghost use Rattle.term_model.specs.Tree.{Tree, IsGround};
ghost use Rattle.symbol_pool.specs.Pool.{Named};
ghost use Rattle.symbol_pool.specs.Taking.{GrowsPool};
ghost use Rattle.tree_text.specs.Text.{HasNames};
ghost use Rattle.tree_text.specs.Canonical.{IsWritable};
ghost use Rattle.term_syntax.specs.Reading.{IsReading, IsRefusal, TookFrontOf};

use crate::flats::flats;
use crate::parser::syntax;
use crate::symbols::items_of;
use read_faults::ReadFail;
use std::alloc::Global;
use symbol_pool::Symbols;
use tree_text::Flats;

/// The most bytes that a text may have: 32 bits hold each count of what it spells.
const MOST_BYTES: usize = u32::MAX as usize;

/// The terms that the bytes spell, one after another. A name with its number of arguments becomes a
/// symbol, in the order of the text.
///
/// Names are plain or in quotes, numbers are integers from 0 to 2^64 - 1, and lists stand in square
/// brackets; white space may stand between any two tokens. Refuses with a place in bytes from 0:
/// first kind 1, a byte that begins nothing, or kind 3, quotes that aren't closed; else kind 2, the
/// first token that no input has there, or kind 3, an input that ends within a term; else, at the
/// least place, kind 13, a 17th argument, a name of more than 255 bytes or a symbol too many, or
/// kind 17, a number that isn't such an integer. After an error a front of the symbols that the
/// text spells may have been taken up, and nothing else was. A text of 2^32 bytes or more isn't
/// read, and is answered as want of memory.
pub fn read_terms(alloc: Global, bytes: &[u8], symbols: &mut Symbols) -> Result<Flats, ReadFail>
    ensures too_long { 2 ^ 32 ≤ length bytes.now → IsErrOf result Memory }
    ensures read { IfOk result (IsReading bytes.now symbols.old symbols.new) }
    ensures ground { IfOk result (All IsGround) }
    ensures held { IfOk result (All (HasNames symbols.new)) }
    ensures writable { IfOk result (All (IsWritable symbols.new)) }
    // The bytes spell no other terms.
    ensures only { IfOk result (λ trees. (new : List Named) (others : List Tree)
        → IsReading bytes.now symbols.old new others → (new ≡ symbols.new) × (others ≡ trees)) }
    // Nothing that can be read is refused.
    ensures accepted { (new : List Named) (trees : List Tree)
        → IsReading bytes.now symbols.old new trees → IfErr result (λ e. e ≡ Memory) }
    ensures refused { IfErr result (IsRefusal bytes.now symbols.old) }
    ensures grows { GrowsPool symbols.old symbols.new }
    ensures front_where_not_read { OnErr result (TookFrontOf bytes.now symbols.old symbols.new) }
{
    if bytes.len() > MOST_BYTES {
        return Err(ReadFail::Memory);
    }
    let (parts, nodes) = syntax(alloc, bytes)?;
    let items = items_of(alloc, bytes, parts.as_slice(), symbols)?;
    let flats = flats(alloc, items.as_slice(), &nodes)?;
    Ok(flats)
}
