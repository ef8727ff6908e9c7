//! What is done with a memory of results: rows are taken from it and kept in it.

ghost use Rattle.std.specs.Prelude.{◌≡◌, ℕ, ◌-◌, ◌<◌, List, Some, length, true, false, slice_get};
ghost use Rattle.term_model.specs.Tree.{Tree};
ghost use Rattle.term_model.specs.declared.Row.{Row as Rows};
ghost use Rattle.terms_api.specs.Terms.{IsHeld, IsSound, pushed, kept};
ghost use Rattle.rewrite_model.specs.Rule.{Rule as Rules};
ghost use Rattle.innermost.specs.Remembered.{AreRight};
ghost use Rattle.innermost.specs.Caching.{WasRight, IsSteady, IsResult, IsTaken};

use crate::{Known, Memo};
use term_model::Row;
use terms_api::Terms;

/// The row on top of the stack.
pub(crate) fn top_row<T: Terms>(terms: &mut T) -> Row
    requires inside { (T.store terms.old).inside ≡ true }
    requires some { 0 < length (T.store terms.old).stack }
    ensures row { slice_get (T.store terms.old).stack (length (T.store terms.old).stack - 1)
        ≡ Some result }
    ensures unchanged { T.store terms.new ≡ T.store terms.old }
    ensures sound { IsSound (T.store terms.new) }
    ensures same { T.same terms.old terms.new }
{
    let places = terms.depth();
    terms.at(places - 1)
}

/// Puts a held row in the place of the one on top.
fn replace_top<T: Terms>(row: Row, terms: &mut T)
    requires inside { (T.store terms.old).inside ≡ true }
    requires some { 0 < length (T.store terms.old).stack }
    requires held { IsHeld (T.store terms.old) row }
    ensures replaced { T.store terms.new
        ≡ pushed (kept (T.store terms.old) (length (T.store terms.old).stack - 1) 0) row }
    ensures middle { IsSound (kept (T.store terms.old) (length (T.store terms.old).stack - 1) 0) }
    ensures sound { IsSound (T.store terms.new) }
    ensures same { T.same terms.old terms.new }
{
    let places = terms.depth();
    terms.keep(places - 1, 0);
    terms.put(row);
}

/// Whether both are one number.
fn is_same(old: Option<u64>, new: Option<u64>) -> bool
    ensures { result ≡ true → (n : ℕ) × (old ≡ Some n) × (new ≡ Some n) }
{
    match (old, new) {
        (Some(before), Some(now)) => before == now,
        _ => false,
    }
}

/// Forgets all where rows may have been lost since the memory was right, and says whether none was.
pub(crate) fn refresh<T: Terms, M: Memo>(epoch: &mut Option<u64>, terms: &T, memo: &mut M) -> bool
    requires inside { (T.store terms.now).inside ≡ true }
    ensures right { (rules : List Rules) (built : List Tree)
        → WasRight rules built (M.map memo.old) epoch.old (T.store terms.now)
        → AreRight rules built (T.store terms.now) (M.map memo.new) }
    ensures epoch { epoch.new ≡ (T.store terms.now).epoch }
    ensures steady { result ≡ true → IsSteady epoch.old (T.store terms.now) }
{
    let present = terms.epoch();
    if is_same(*epoch, present) {
        return true;
    }
    memo.forget();
    *epoch = present;
    false
}

/// Takes what is known of the row on top in its place, where there is as much fuel and room.
pub(crate) fn take_known<T: Terms, M: Memo>(
    row: Row,
    room: u32,
    left: &mut u64,
    terms: &mut T,
    memo: &mut M,
) -> bool
    requires inside { (T.store terms.old).inside ≡ true }
    requires some { 0 < length (T.store terms.old).stack }
    requires right { (rules : List Rules) × (built : List Tree)
        × AreRight rules built (T.store terms.old) (M.map memo.old) }
    ensures taken { result ≡ true → (rules : List Rules) (built : List Tree)
        → AreRight rules built (T.store terms.old) (M.map memo.old)
        → IsTaken rules built (T.store terms.old) (T.store terms.new) row room left.old left.new }
    ensures store { result ≡ false → T.store terms.new ≡ T.store terms.old }
    ensures left { result ≡ false → left.new ≡ left.old }
    ensures map { (other : Rows) → M.map memo.new other ≡ M.map memo.old other }
    ensures same { T.same terms.old terms.new }
{
    let Some(known) = memo.find(row) else {
        return false;
    };
    if known.fuel > *left || known.depth > room {
        return false;
    }
    replace_top(known.value, terms);
    *left -= known.fuel;
    true
}

/// Remembers that the tree of a row has its value on top, unless rows may have been lost since.
pub(crate) fn remember<T: Terms, M: Memo>(
    row: Row,
    fuel: u64,
    room: u32,
    epoch: &mut Option<u64>,
    terms: &mut T,
    memo: &mut M,
)
    requires inside { (T.store terms.old).inside ≡ true }
    requires some { 0 < length (T.store terms.old).stack }
    ensures right { (rules : List Rules) (built : List Tree)
        → WasRight rules built (M.map memo.old) epoch.old (T.store terms.old)
        → IsResult rules built epoch.old (T.store terms.old) row fuel room
        → AreRight rules built (T.store terms.new) (M.map memo.new) }
    ensures epoch { epoch.new ≡ (T.store terms.new).epoch }
    ensures unchanged { T.store terms.new ≡ T.store terms.old }
    ensures same { T.same terms.old terms.new }
{
    if refresh(epoch, terms, memo) {
        let value = top_row(terms);
        memo.keep(
            row,
            Known {
                value,
                fuel,
                depth: room,
            },
        );
    }
}
