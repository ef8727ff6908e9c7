//! Comparing the trees of a store with terms in boxes.

ghost use Rattle.std.specs.Prelude.{◌≡◌, ◌≤◌, length, true};
ghost use Rattle.terms_api.specs.Terms.{IsHeld};

use plain_rewriting::{Arguments, Term};
use term_model::{Head, Row};
use terms_api::Terms;

/// Whether the tree of a row is this term.
#[cycle(reading)]
pub(crate) fn is_term<T: Terms>(term: &Term, row: Row, terms: &mut T) -> bool
    requires inside { (T.store terms.old).inside ≡ true }
    requires held { IsHeld (T.store terms.old) row }
    ensures unchanged { T.store terms.new ≡ T.store terms.old }
    ensures same { T.same terms.old terms.new }
{
    let root = terms.head(row);
    match term {
        Term::Var(_) => false,
        Term::Over(head, arguments) => root == *head && has_arguments(arguments, row, 0, terms),
    }
}

/// Whether the arguments of a row's tree, from one of them on, are these terms.
#[cycle(reading)]
fn has_arguments<T: Terms>(arguments: &Arguments, row: Row, from: u32, terms: &mut T) -> bool
    requires inside { (T.store terms.old).inside ≡ true }
    requires held { IsHeld (T.store terms.old) row }
    ensures unchanged { T.store terms.new ≡ T.store terms.old }
    ensures same { T.same terms.old terms.new }
{
    let count = terms.count(row);
    match arguments {
        Arguments::Empty => from == count,
        Arguments::Next(first, others) => {
            if from >= count {
                return false;
            }
            let argument = terms.child(row, from);
            is_term(first, argument, terms) && has_arguments(others, row, from + 1, terms)
        }
    }
}

/// Whether a head over the last places is this term.
pub(crate) fn is_asked<T: Terms>(term: &Term, head: Head, count: u32, terms: &mut T) -> bool
    requires inside { (T.store terms.old).inside ≡ true }
    requires places { count ≤ length (T.store terms.old).stack }
    ensures unchanged { T.store terms.new ≡ T.store terms.old }
    ensures same { T.same terms.old terms.new }
{
    let from = terms.depth() - count;
    match term {
        Term::Var(_) => false,
        Term::Over(root, arguments) => *root == head && are_on_top(arguments, from, terms),
    }
}

/// Whether the trees of the places, from one of them on, are these terms.
fn are_on_top<T: Terms>(arguments: &Arguments, from: u32, terms: &mut T) -> bool
    requires inside { (T.store terms.old).inside ≡ true }
    ensures unchanged { T.store terms.new ≡ T.store terms.old }
    ensures same { T.same terms.old terms.new }
{
    let places = terms.depth();
    match arguments {
        Arguments::Empty => from == places,
        Arguments::Next(first, others) => {
            if from >= places {
                return false;
            }
            let row = terms.at(from);
            is_term(first, row, terms) && are_on_top(others, from + 1, terms)
        }
    }
}
