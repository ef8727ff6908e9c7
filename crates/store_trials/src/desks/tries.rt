//! Tries on a desk: builds that never wait.
ghost use Rattle.std.specs.Prelude.{◌≡◌, ◌≤◌, true};

use super::{build_symbol, desk_at, keep_lowest, last_pass, new_store, row_at, sizes};
use std::process::Abort;
use std::test::Fail;
use term_model::{Head, Symbol};
use terms_api::{BuildFault, Terms};

// Tries to build a constant.
fn try_constant<T: Terms>(terms: &mut T, symbol: u32) -> bool
    requires inside { (T.store terms.old).inside ≡ true }
    ensures inside { (T.store terms.new).inside ≡ true }
    ensures widest { (T.store terms.new).widest ≡ (T.store terms.old).widest }
{
    if terms.try_build(Head::App(Symbol(symbol)), 0) {
        return true;
    }
    false
}

// Tries to build a symbol over the lowest row.
fn try_over_lowest<T: Terms>(rt: &impl Abort, terms: &mut T, symbol: u32) -> bool
    requires inside { (T.store terms.old).inside ≡ true }
    requires width { 1 ≤ (T.store terms.old).widest }
    ensures inside { (T.store terms.new).inside ≡ true }
    ensures widest { (T.store terms.new).widest ≡ (T.store terms.old).widest }
{
    let row = row_at(rt, terms, 0);
    assert!(rt; terms.depth() < 4 && terms.room() == 4);
    if terms.try_build_of(Head::App(Symbol(symbol)), &[row]) {
        return true;
    }
    false
}

// Two rows, which a constant and a symbol over it take. Then no try gives another tree a row, also
// once the second row isn't on the stack any more, and nothing happens; but a tree that has a row is
// found. The build after that collects, number 1 + 2, and its tree is found then. Gives what the
// tries said, the build's fault, the epochs before and after the build, and how many places were in
// use before the second row was given up.
fn try_where_rows_end<T: Terms>(
    rt: &impl Abort,
    terms: &mut T,
) -> ([bool; 7], Option<BuildFault>, [Option<u64>; 2], u32)
    requires inside { (T.store terms.old).inside ≡ true }
    requires width { 1 ≤ (T.store terms.old).widest }
{
    let zero = try_constant(terms, 0);
    let over = try_over_lowest(rt, terms, 1);
    let other = try_constant(terms, 2);
    let other_over = try_over_lowest(rt, terms, 3);
    let found = try_over_lowest(rt, terms, 1);
    let places = terms.depth();
    keep_lowest(rt, terms, 1);
    let unused = try_constant(terms, 2);
    let before = terms.epoch();
    let built = build_symbol(terms, 2, 0);
    let after = terms.epoch();
    let known = try_constant(terms, 2);
    let tried = [zero, over, other, other_over, found, unused, known];
    (tried, built, [before, after], places)
}

#[test]
fn a_try_takes_free_rows_and_never_collects(rt: HostRuntime) -> Result<(), Fail> {
    let (store, mut passes) = new_store(rt.alloc(), sizes(2, 1, 1))?;
    let pass = last_pass(&rt, &store, &mut passes);
    let mut desk = desk_at(&rt, rt.alloc(), &store, pass)?;
    desk.enter();
    let seen = try_where_rows_end(&rt, &mut desk);
    let tried = [true, true, false, false, true, false, true];
    assert_eq!(rt; seen, (tried, None, [Some(1), Some(4)], 3));
    Ok(())
}
