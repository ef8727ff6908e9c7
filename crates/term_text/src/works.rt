//! Writing a term piece by piece, with a stack of what is still to be written.

ghost use Rattle.std.specs.Prelude.{◌≡◌, ◌<◌, [], OnOk, Some, true, length};
ghost use Rattle.term_model.specs.Tree.{root, arguments};
ghost use Rattle.term_model.specs.declared.Head.TheVariants.{App, Cons};
ghost use Rattle.terms_api.specs.Terms.{IsHeld, tree_at};
ghost use Rattle.tree_text.specs.Text.{HasNames};
ghost use Rattle.term_text.specs.Works.{IsReady, Advances, Extends, PushesArgument, PushesCell, is_cell};

use faults::Memory;
use itoa::Buffer;
use symbol_pool::Symbols;
use term_model::{Head, Row, Symbol};
use terms_api::Terms;

/// What is still to be written, of the tree of a held row.
#[derive(Clone, Copy)]
pub(crate) enum Work {
    /// The tree.
    Term(Row),
    /// The arguments from this one on, each after a comma, and the parenthesis that closes them.
    Arguments(Row, u32),
    /// The elements of the list, each after a comma, and the bracket that closes them.
    Elements(Row),
}

/// Writes the beginning of a piece of work, and leaves the rest of it on the stack.
pub(crate) fn write_work<T: Terms>(
    terms: &mut T,
    symbols: &Symbols,
    work: Work,
    works: &mut Vec<Work>,
    out: &mut Vec<u8>,
) -> Result<(), Memory>
    requires inside { (T.store terms.old).inside ≡ true }
    requires ready { IsReady symbols.now (T.store terms.old) work }
    ensures advances { OnOk result (Advances symbols.now (T.store terms.old) work
        works.old.items works.new.items out.old.items out.new.items) }
    ensures grows { Extends out.old.items out.new.items }
    ensures unchanged { T.store terms.new ≡ T.store terms.old }
    ensures same { T.same terms.old terms.new }
{
    match work {
        Work::Term(row) => write_term(terms, symbols, row, works, out),
        Work::Arguments(row, from) => write_arguments(terms, symbols, row, from, works, out),
        Work::Elements(row) => write_elements(terms, symbols, row, works, out),
    }
}

fn write_term<T: Terms>(
    terms: &mut T,
    symbols: &Symbols,
    row: Row,
    works: &mut Vec<Work>,
    out: &mut Vec<u8>,
) -> Result<(), Memory>
    requires inside { (T.store terms.old).inside ≡ true }
    requires ready { IsReady symbols.now (T.store terms.old) (Work.Term row) }
    ensures advances { OnOk result (Advances symbols.now (T.store terms.old) (Work.Term row)
        works.old.items works.new.items out.old.items out.new.items) }
    ensures grows { Extends out.old.items out.new.items }
    ensures unchanged { T.store terms.new ≡ T.store terms.old }
    ensures same { T.same terms.old terms.new }
{
    match terms.head(row) {
        Head::App(symbol) => write_symbol(terms, symbols, row, symbol, works, out),
        Head::Int(value) => {
            let mut digits = Buffer::new();
            out.extend_from_slice(digits.format(value).as_bytes())?;
            Ok(())
        }
        Head::Nil => {
            out.extend_from_slice(b"[]")?;
            Ok(())
        }
        Head::Cons => {
            out.extend_from_slice(b"[")?;
            push_cell(terms, symbols, row, works)
        }
    }
}

/// Writes a symbol, and the parenthesis that opens its arguments where it has some.
fn write_symbol<T: Terms>(
    terms: &mut T,
    symbols: &Symbols,
    row: Row,
    symbol: Symbol,
    works: &mut Vec<Work>,
    out: &mut Vec<u8>,
) -> Result<(), Memory>
    requires inside { (T.store terms.old).inside ≡ true }
    requires ready { IsReady symbols.now (T.store terms.old) (Work.Term row) }
    requires symbol { root (tree_at (T.store terms.old) row) ≡ Some (App symbol) }
    ensures advances { OnOk result (Advances symbols.now (T.store terms.old) (Work.Term row)
        works.old.items works.new.items out.old.items out.new.items) }
    ensures grows { Extends out.old.items out.new.items }
    ensures unchanged { T.store terms.new ≡ T.store terms.old }
    ensures same { T.same terms.old terms.new }
{
    out.extend_from_slice(symbols.name(symbol))?;
    if terms.count(row) == 0 {
        return Ok(());
    }
    out.push(b'(')?;
    push_argument(terms, row, 0, works)
}

/// Writes a comma before the next argument, or the parenthesis after the last.
fn write_arguments<T: Terms>(
    terms: &mut T,
    symbols: &Symbols,
    row: Row,
    from: u32,
    works: &mut Vec<Work>,
    out: &mut Vec<u8>,
) -> Result<(), Memory>
    requires inside { (T.store terms.old).inside ≡ true }
    requires ready { IsReady symbols.now (T.store terms.old) (Work.Arguments row from) }
    ensures advances { OnOk result (Advances symbols.now (T.store terms.old)
        (Work.Arguments row from) works.old.items works.new.items out.old.items out.new.items) }
    ensures grows { Extends out.old.items out.new.items }
    ensures unchanged { T.store terms.new ≡ T.store terms.old }
    ensures same { T.same terms.old terms.new }
{
    if terms.count(row) <= from {
        out.push(b')')?;
        return Ok(());
    }
    out.push(b',')?;
    push_argument(terms, row, from, works)
}

/// Puts an argument on the stack, and below it those after it, with the closing parenthesis.
fn push_argument<T: Terms>(
    terms: &mut T,
    row: Row,
    from: u32,
    works: &mut Vec<Work>,
) -> Result<(), Memory>
    requires inside { (T.store terms.old).inside ≡ true }
    requires held { IsHeld (T.store terms.old) row }
    requires below { from < length (arguments (tree_at (T.store terms.old) row)) }
    requires fits { from < u32.MAX }
    ensures argument { OnOk result (PushesArgument (T.store terms.old) row from
        works.old.items works.new.items) }
    ensures unchanged { T.store terms.new ≡ T.store terms.old }
    ensures same { T.same terms.old terms.new }
{
    let next = terms.child(row, from);
    works.push(Work::Arguments(row, from + 1))?;
    works.push(Work::Term(next))?;
    Ok(())
}

/// Writes a comma before the next element, or the bracket after the last.
fn write_elements<T: Terms>(
    terms: &mut T,
    symbols: &Symbols,
    row: Row,
    works: &mut Vec<Work>,
    out: &mut Vec<u8>,
) -> Result<(), Memory>
    requires inside { (T.store terms.old).inside ≡ true }
    requires ready { IsReady symbols.now (T.store terms.old) (Work.Elements row) }
    ensures advances { OnOk result (Advances symbols.now (T.store terms.old) (Work.Elements row)
        works.old.items works.new.items out.old.items out.new.items) }
    ensures grows { Extends out.old.items out.new.items }
    ensures unchanged { T.store terms.new ≡ T.store terms.old }
    ensures same { T.same terms.old terms.new }
{
    if is_cell(terms.head(row)) {
        out.push(b',')?;
        push_cell(terms, symbols, row, works)
    } else {
        out.push(b']')?;
        Ok(())
    }
}

/// Whether a head is that of a cell.
fn is_cell(head: Head) -> bool
    ensures { result ≡ is_cell head }
{
    matches!(head, Head::Cons)
}

/// Puts the elements of a cell on the stack, the first on top.
fn push_cell<T: Terms>(
    terms: &mut T,
    symbols: &Symbols,
    row: Row,
    works: &mut Vec<Work>,
) -> Result<(), Memory>
    requires inside { (T.store terms.old).inside ≡ true }
    requires held { IsHeld (T.store terms.old) row }
    requires named { HasNames symbols.now (tree_at (T.store terms.old) row) }
    requires root { root (tree_at (T.store terms.old) row) ≡ Some Cons }
    ensures cell { OnOk result (PushesCell symbols.now (T.store terms.old) row
        works.old.items works.new.items) }
    ensures unchanged { T.store terms.new ≡ T.store terms.old }
    ensures same { T.same terms.old terms.new }
{
    let _ = terms.depth();
    let list = terms.child(row, 1);
    let first = terms.child(row, 0);
    works.push(Work::Elements(list))?;
    works.push(Work::Term(first))?;
    Ok(())
}
