//! Building terms on the stack of a store.

ghost use Rattle.std.specs.Prelude.{◌≡◌, ◌≤◌, length, true};

use crate::writing::WIDEST;
use term_model::{Head, Item, Symbol};
use terms_api::Terms;

fn build_symbol<T: Terms>(symbol: Symbol, count: u32, terms: &mut T) -> bool
    requires inside { (T.store terms.old).inside ≡ true }
    requires wide { count ≤ (T.store terms.old).widest }
    requires places { count ≤ length (T.store terms.old).stack }
    ensures inside { (T.store terms.new).inside ≡ true }
    ensures wide { (T.store terms.new).widest ≡ (T.store terms.old).widest }
{
    match terms.build(Head::App(symbol), count) {
        Ok(()) => true,
        Err(_) => false,
    }
}

/// Builds a symbol over the last places; false where there is no place or no row for it.
fn build_item<T: Terms>(item: Item, terms: &mut T) -> bool
    requires inside { (T.store terms.old).inside ≡ true }
    requires wide { 2 ≤ (T.store terms.old).widest }
    ensures inside { (T.store terms.new).inside ≡ true }
    ensures wide { (T.store terms.new).widest ≡ (T.store terms.old).widest }
{
    let places = terms.depth();
    match item {
        Item::App(symbol, count) => {
            count <= WIDEST && places >= count && build_symbol(symbol, count, terms)
        }
        _ => false,
    }
}

/// Builds terms on the stack, whose items in postorder follow one another.
pub(crate) fn build_terms<T: Terms>(items: &[Item], terms: &mut T) -> bool
    requires inside { (T.store terms.old).inside ≡ true }
    requires wide { 2 ≤ (T.store terms.old).widest }
    ensures inside { (T.store terms.new).inside ≡ true }
    ensures wide { (T.store terms.new).widest ≡ (T.store terms.old).widest }
{
    for item in items {
        if !build_item(*item, terms) {
            return false;
        }
    }
    true
}
