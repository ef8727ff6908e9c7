// The line of a value.
ghost use Rattle.std.specs.Prelude.{◌≡◌, ◌++◌, ◌≤◌, IfOk, OnErr, OnOk, true, false};
ghost use Rattle.terms_api.specs.Terms.{IsHeld, tree_at};
ghost use Rattle.term_text.specs.Text.{HasNames};
ghost use Rattle.term_lines.specs.Line.{counts_text, value_text, is_written};

use arrayvec::ArrayString;
use faults::Memory;
use itoa::Buffer;
use symbol_pool::Symbols;
use term_model::Row;
use term_text::{Printed, SizeMarks, TermSizes, sizes, write_rec};
use terms_api::Terms;

// How many nodes a value may have whose text is written.
const MOST_WRITTEN: u64 = 1_048_576;

// `distinct `, a number of 20 digits, ` nodes ` and another fit.
const LONGEST_COUNTS: usize = 56;

// How large a value is. It takes no memory.
fn counts(sizes: TermSizes) -> ArrayString<LONGEST_COUNTS>
    ensures { result.bytes ≡ counts_text sizes.distinct sizes.nodes }
{
    let mut text = ArrayString::new();
    text.push_str("distinct ");
    text.push_str(Buffer::new().format(sizes.distinct));
    text.push_str(" nodes ");
    text.push_str(Buffer::new().format(sizes.nodes));
    text
}

// Appends how large a value is.
fn write_sizes(sizes: TermSizes, out: &mut Vec<u8>) -> Result<(), Memory>
    ensures text { OnOk result (out.new.items
        ≡ out.old.items ++ counts_text sizes.distinct sizes.nodes) }
    ensures unwritten { OnErr result (out.new.items ≡ out.old.items) }
{
    out.extend_from_slice(counts(sizes).as_str().as_bytes())?;
    Ok(())
}

// Appends the text of a value, unless it is too large, and says whether it isn't.
fn write_text<T: Terms>(
    terms: &mut T,
    symbols: &Symbols,
    row: Row,
    out: &mut Vec<u8>,
) -> Result<bool, Memory>
    requires inside { (T.store terms.old).inside ≡ true }
    requires held { IsHeld (T.store terms.old) row }
    requires named { HasNames symbols.now (tree_at (T.store terms.old) row) }
    ensures text { OnOk result (out.new.items
        ≡ out.old.items ++ value_text false symbols.now (tree_at (T.store terms.old) row)) }
    ensures written { IfOk result
        (λ written. written ≡ is_written false (tree_at (T.store terms.old) row)) }
    ensures unwritten { OnErr result (out.new.items ≡ out.old.items) }
    ensures unchanged { T.store terms.new ≡ T.store terms.old }
    ensures same { T.same terms.old terms.new }
{
    match write_rec(terms, symbols, row, MOST_WRITTEN, out)? {
        Printed::Whole => Ok(true),
        Printed::TooLarge => {
            out.extend_from_slice(b"too large")?;
            Ok(false)
        }
    }
}

/// Appends the sizes of the value of a held row, where they are asked, or its text, and says
/// whether a value was written.
pub fn write_value<T: Terms>(
    terms: &mut T,
    symbols: &Symbols,
    row: Row,
    sized: bool,
    marks: &mut SizeMarks,
    out: &mut Vec<u8>,
) -> Result<bool, Memory>
    requires inside { (T.store terms.old).inside ≡ true }
    requires held { IsHeld (T.store terms.old) row }
    requires named { HasNames symbols.now (tree_at (T.store terms.old) row) }
    requires room { (T.store terms.old).rows ≤ marks.old }
    ensures text { OnOk result (out.new.items
        ≡ out.old.items ++ value_text sized symbols.now (tree_at (T.store terms.old) row)) }
    ensures written { IfOk result
        (λ written. written ≡ is_written sized (tree_at (T.store terms.old) row)) }
    ensures unwritten { OnErr result (out.new.items ≡ out.old.items) }
    ensures room { marks.new ≡ marks.old }
    ensures unchanged { T.store terms.new ≡ T.store terms.old }
    ensures same { T.same terms.old terms.new }
{
    if sized {
        let sizes = sizes(terms, row, marks);
        write_sizes(sizes, out)?;
        Ok(true)
    } else {
        write_text(terms, symbols, row, out)
    }
}
