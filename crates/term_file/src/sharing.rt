//! Shares the equal subterms of terms.
ghost use Rattle.std.specs.Prelude.{◌≡◌, ◌<◌, ◌≤◌, ◌^◌, All, IfOk, OnOk, Err, length};
ghost use Rattle.tree_text.specs.Canonical.{IsWritable};
ghost use Rattle.term_file.specs.declared.fault.ShareFault.TheVariants.{StoreFull};
ghost use Rattle.term_file.specs.NamedTree.{AreSame};
ghost use Rattle.term_file.specs.Sharing.{different};

use crate::fault::ShareFault;
use crate::growing::Growing;
use crate::shared::Shared;
use std::alloc::Global;
use symbol_pool::Symbols;
use tree_text::Flats;

/// The terms, each different subterm once, of which there may be `rows`. Memory is linear in the
/// terms, whatever their depth.
pub fn share(
    alloc: Global,
    terms: &Flats,
    symbols: &Symbols,
    rows: u32,
) -> Result<Shared, ShareFault>
    requires rows { rows ≤ 262144 }
    requires terms { length terms.now < 2 ^ 32 }
    requires writable { All (IsWritable symbols.now) terms.now }
    // The same terms, with other numbers of the symbols.
    ensures shared { IfOk result (λ shared.
        AreSame symbols.now terms.now shared.symbols shared.trees) }
    ensures fits { OnOk result (different terms.now ≤ rows) }
    ensures full_only_where { result ≡ Err StoreFull → rows < different terms.now }
{
    // that different numbers are different symbols
    let _pool = symbols.find(b"", 0);
    let mut growing = Growing::new(alloc);
    for term in terms.as_slice() {
        match growing.take_term(alloc, symbols, term, rows) {
            Ok(()) => {}
            Err(fault) => {
                // Dropped by name: one step of the proof; `?` takes one for each of its lists.
                drop(growing);
                return Err(fault);
            }
        }
    }
    let Growing {
        symbols,
        table,
        stack,
    } = growing;
    let (symbols, symbol_count) = symbols.into_parts();
    Ok(Shared {
        symbols,
        symbol_count,
        table,
        roots: stack,
    })
}
