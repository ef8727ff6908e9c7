//! Terms of a store as text.

ghost use Rattle.std.specs.Prelude.{◌≡◌, ◌++◌, ◌<◌, ◌↔◌, IfOk, OnOk, OnErr, Ok, true};
ghost use Rattle.term_model.specs.Tree.{nodes};
ghost use Rattle.terms_api.specs.Terms.{IsHeld, tree_at};
ghost use Rattle.tree_text.specs.Text.{HasNames};
ghost use Rattle.term_text.specs.Text.{text};
ghost use Rattle.term_text.specs.Works.{Extends};

use crate::nodes::has_at_most;
use crate::works::{Work, write_work};
use faults::Memory;
use symbol_pool::Symbols;
use term_model::Row;
use terms_api::Terms;

/// Whether a term was written.
#[derive(Clone, Copy, Debug, PartialEq, Eq)]
pub enum Printed {
    Whole,
    /// It has more nodes than it may have.
    TooLarge,
}

/// Appends the text of the tree of a held row to `out`, unless the tree has more nodes than the
/// limit. It looks at no more nodes than that before, and it doesn't recurse. Without memory, as
/// where the tree is too large, `out` is as before.
pub fn write_rec<T: Terms>(
    terms: &mut T,
    symbols: &Symbols,
    row: Row,
    limit: u64,
    out: &mut Vec<u8>,
) -> Result<Printed, Memory>
    requires inside { (T.store terms.old).inside ≡ true }
    requires held { IsHeld (T.store terms.old) row }
    requires named { HasNames symbols.now (tree_at (T.store terms.old) row) }
    ensures whole { result ≡ Ok Printed.Whole
        → out.new.items ≡ out.old.items ++ text symbols.now (tree_at (T.store terms.old) row) }
    ensures too_large { IfOk result (λ printed. (printed ≡ Printed.TooLarge)
        ↔ (limit < nodes (tree_at (T.store terms.old) row))) }
    ensures unwritten { result ≡ Ok Printed.TooLarge → out.new.items ≡ out.old.items }
    ensures memory { OnErr result (out.new.items ≡ out.old.items) }
    ensures unchanged { T.store terms.new ≡ T.store terms.old }
    ensures same { T.same terms.old terms.new }
{
    if has_at_most(*out.allocator(), terms, row, limit)? {
        write_or_restore(terms, symbols, row, out)?;
        Ok(Printed::Whole)
    } else {
        Ok(Printed::TooLarge)
    }
}

/// Appends the text of the tree of a held row; without memory `out` is as before.
fn write_or_restore<T: Terms>(
    terms: &mut T,
    symbols: &Symbols,
    row: Row,
    out: &mut Vec<u8>,
) -> Result<(), Memory>
    requires inside { (T.store terms.old).inside ≡ true }
    requires held { IsHeld (T.store terms.old) row }
    requires named { HasNames symbols.now (tree_at (T.store terms.old) row) }
    ensures whole { OnOk result (out.new.items
        ≡ out.old.items ++ text symbols.now (tree_at (T.store terms.old) row)) }
    ensures memory { OnErr result (out.new.items ≡ out.old.items) }
    ensures unchanged { T.store terms.new ≡ T.store terms.old }
    ensures same { T.same terms.old terms.new }
{
    let before = out.len();
    match write_tree(terms, symbols, row, out) {
        Ok(()) => Ok(()),
        Err(memory) => {
            out.truncate(before);
            Err(memory)
        }
    }
}

/// Appends the text of the tree of a held row, or without memory a part of it.
fn write_tree<T: Terms>(
    terms: &mut T,
    symbols: &Symbols,
    row: Row,
    out: &mut Vec<u8>,
) -> Result<(), Memory>
    requires inside { (T.store terms.old).inside ≡ true }
    requires held { IsHeld (T.store terms.old) row }
    requires named { HasNames symbols.now (tree_at (T.store terms.old) row) }
    ensures whole { OnOk result (out.new.items
        ≡ out.old.items ++ text symbols.now (tree_at (T.store terms.old) row)) }
    ensures grows { Extends out.old.items out.new.items }
    ensures unchanged { T.store terms.new ≡ T.store terms.old }
    ensures same { T.same terms.old terms.new }
{
    let mut works = Vec::new(*out.allocator());
    works.push(Work::Term(row))?;
    'works: while let Some(work) = works.pop() {
        write_work(terms, symbols, work, &mut works, out)?;
    }
    Ok(())
}
