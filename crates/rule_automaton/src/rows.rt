//! Rows at places.

ghost use Rattle.std.specs.Prelude.{◌≡◌, ◌+◌, ◌≤◌, ◌<◌, List, Some, length, slice_get, true};
ghost use Rattle.term_model.specs.Tree.{arguments};
ghost use Rattle.terms_api.specs.Terms.{Store, IsHeld, tree_at};
ghost use Rattle.rule_automaton.specs.Rows.{Fills};

use term_model::Row;
use terms_api::Terms;

/// Puts a row at a place, counted from a base.
#[inline(always)]
fn put_at(argument: Row, base: u32, place: u32, rows: &mut [Row])
    requires within { base + place < length rows.old }
    ensures more { (s : Store) (row : Row) (all : List Row) → Fills s row base place all rows.old
        → IsHeld s argument
        → slice_get (arguments (tree_at s row)) place ≡ Some (tree_at s argument)
        → Fills s row base (place + 1) all rows.new }
    ensures size { length rows.new ≡ length rows.old }
{
    rows[base as usize + place as usize] = argument;
}

/// Puts an argument of a held row's tree at its place, counted from a base.
#[inline(always)]
fn put_argument<T: Terms>(row: Row, base: u32, place: u32, terms: &mut T, rows: &mut [Row])
    requires inside { (T.store terms.old).inside ≡ true }
    requires held { IsHeld (T.store terms.old) row }
    requires below { place < length (arguments (tree_at (T.store terms.old) row)) }
    requires within { base + place < length rows.old }
    ensures more { (all : List Row) → Fills (T.store terms.old) row base place all rows.old
        → Fills (T.store terms.old) row base (place + 1) all rows.new }
    ensures size { length rows.new ≡ length rows.old }
    ensures unchanged { T.store terms.new ≡ T.store terms.old }
    ensures same { T.same terms.old terms.new }
{
    let argument = terms.child(row, place);
    put_at(argument, base, place, rows);
}

/// Puts a single argument at its place.
#[inline(always)]
fn put_one<T: Terms>(row: Row, base: u32, terms: &mut T, rows: &mut [Row])
    requires inside { (T.store terms.old).inside ≡ true }
    requires held { IsHeld (T.store terms.old) row }
    requires one { length (arguments (tree_at (T.store terms.old) row)) ≡ 1 }
    requires within { base + 1 ≤ length rows.old }
    ensures fills { Fills (T.store terms.old) row base 1 rows.old rows.new }
    ensures unchanged { T.store terms.new ≡ T.store terms.old }
    ensures same { T.same terms.old terms.new }
{
    put_argument(row, base, 0, terms, rows);
}

/// Puts two arguments at their places.
#[inline(always)]
fn put_pair<T: Terms>(row: Row, base: u32, terms: &mut T, rows: &mut [Row])
    requires inside { (T.store terms.old).inside ≡ true }
    requires held { IsHeld (T.store terms.old) row }
    requires two { length (arguments (tree_at (T.store terms.old) row)) ≡ 2 }
    requires within { base + 2 ≤ length rows.old }
    ensures fills { Fills (T.store terms.old) row base 2 rows.old rows.new }
    ensures unchanged { T.store terms.new ≡ T.store terms.old }
    ensures same { T.same terms.old terms.new }
{
    let (first, second) = terms.pair(row);
    put_at(first, base, 0, rows);
    put_at(second, base, 1, rows);
}

/// Puts the arguments of a held row's tree at the places from a base on.
#[inline(always)]
pub(crate) fn fill<T: Terms>(row: Row, base: u32, count: u32, terms: &mut T, rows: &mut [Row])
    requires inside { (T.store terms.old).inside ≡ true }
    requires held { IsHeld (T.store terms.old) row }
    requires count { count ≡ length (arguments (tree_at (T.store terms.old) row)) }
    requires within { base + count ≤ length rows.old }
    ensures fills { Fills (T.store terms.old) row base count rows.old rows.new }
    ensures unchanged { T.store terms.new ≡ T.store terms.old }
    ensures same { T.same terms.old terms.new }
{
    match count {
        1 => put_one(row, base, terms, rows),
        2 => put_pair(row, base, terms, rows),
        _ => put_all(row, base, count, terms, rows),
    }
}

/// Puts so many arguments at their places, one after another.
fn put_all<T: Terms>(row: Row, base: u32, count: u32, terms: &mut T, rows: &mut [Row])
    requires inside { (T.store terms.old).inside ≡ true }
    requires held { IsHeld (T.store terms.old) row }
    requires count { count ≡ length (arguments (tree_at (T.store terms.old) row)) }
    requires within { base + count ≤ length rows.old }
    ensures fills { Fills (T.store terms.old) row base count rows.old rows.new }
    ensures unchanged { T.store terms.new ≡ T.store terms.old }
    ensures same { T.same terms.old terms.new }
{
    for place in 0..count {
        put_argument(row, base, place, terms, rows);
    }
}
