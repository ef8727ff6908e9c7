//! Writes a term as its canonical text.
ghost use Rattle.std.specs.Prelude.{◌≡◌, ◌++◌, OnOk, OnErr};
ghost use Rattle.term_model.specs.Tree.{IsGround};
ghost use Rattle.tree_text.specs.Text.{HasNames};
ghost use Rattle.tree_text.specs.Canonical.{canonical};

use crate::writer::Writer;
use faults::Memory;
use symbol_pool::Symbols;
use term_model::Flat;

/// How much room is taken for each item at first.
const BYTES_AN_ITEM: usize = 4;

/// Puts the canonical text of a term without variables, whose symbols are held, behind what `out`
/// has.
///
/// There is no white space in it, names are plain where they can be and else in quotes, integers
/// are decimal without leading zeros, and lists stand in brackets. An `Err` changes nothing. The
/// term is written from its end, which is where a list of items in postorder has the heads before
/// their arguments.
pub fn write_term(term: &Flat, symbols: &Symbols, out: &mut Vec<u8>) -> Result<(), Memory>
    requires ground { IsGround term.now }
    requires held { HasNames symbols.now term.now }
    ensures written { OnOk result
        (out.new.items ≡ out.old.items ++ canonical symbols.now term.now) }
    ensures unchanged { OnErr result (out.new.items ≡ out.old.items) }
{
    let items = term.items();
    let size = items.len().saturating_mul(BYTES_AN_ITEM);
    let mut writer = Writer::new(*out.allocator(), size)?;
    let mut at = items.len();
    while at > 0 {
        at -= 1;
        writer.write(symbols, items[at])?;
    }
    writer.append_to(out)?;
    Ok(())
}
