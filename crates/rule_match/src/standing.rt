//! Whether a symbol stands at a stored row.

ghost use Rattle.std.specs.Prelude.{◌≡◌, true};
ghost use Rattle.term_model.specs.declared.Head.TheVariants.{App};
ghost use Rattle.terms_api.specs.Terms.{IsHeld, tree_at};
ghost use Rattle.rule_match.specs.Stands.{stands};

use crate::heads::is_symbol;
use term_model::{Row, Symbol};
use terms_api::Terms;

/// Whether the tree of a held row is this symbol over so many trees.
pub fn stands_at<T: Terms>(terms: &mut T, row: Row, symbol: Symbol, count: u32) -> bool
    requires inside { (T.store terms.old).inside ≡ true }
    requires held { IsHeld (T.store terms.old) row }
    ensures stands { result ≡ stands (App symbol) count (tree_at (T.store terms.old) row) }
    ensures unchanged { T.store terms.new ≡ T.store terms.old }
    ensures same { T.same terms.old terms.new }
{
    let head = terms.head(row);
    let arguments = terms.count(row);
    is_symbol(head, symbol) && arguments == count
}
