//! Builds on a small store, and the small calls that any store is put through.
ghost use Rattle.std.specs.Prelude.{◌≡◌, ◌<◌, ◌≤◌, true, length};

use plain_store::PlainStore;
use std::alloc::Global;
use std::collections::{BTreeMap, BTreeSet};
use std::test::Fail;
use term_model::{Head, Row, Symbol};
use terms_api::{BuildFault, Deep, Terms};
use terms_calls::{have_one_row, read_back};

// Builds a symbol over the last `n` places, if there are so many, and tells the fault.
fn build_symbol<T: Terms>(terms: &mut T, symbol: u32, n: u32) -> Option<BuildFault>
    requires inside { (T.store terms.old).inside ≡ true }
    requires width { n ≤ (T.store terms.old).widest }
    ensures inside { (T.store terms.new).inside ≡ true }
    ensures widest { (T.store terms.new).widest ≡ (T.store terms.old).widest }
{
    if terms.depth() < n {
        return None;
    }
    match terms.build(Head::App(Symbol(symbol)), n) {
        Ok(()) => None,
        Err(fault) => Some(fault),
    }
}

// Pushes the row of the lowest place, if there is one.
fn push_lowest<T: Terms>(terms: &mut T) -> Result<(), Deep>
    requires { (T.store terms.old).inside ≡ true }
    ensures inside { (T.store terms.new).inside ≡ true }
    ensures widest { (T.store terms.new).widest ≡ (T.store terms.old).widest }
{
    if terms.depth() == 0 {
        return Ok(());
    }
    let row = terms.at(0);
    match terms.push(row) {
        Ok(()) => Ok(()),
        Err(deep) => Err(deep),
    }
}

// The row of the lowest place, if there is one.
fn lowest<T: Terms>(terms: &mut T) -> Option<Row>
    requires { (T.store terms.old).inside ≡ true }
    ensures { T.store terms.new ≡ T.store terms.old }
{
    if terms.depth() == 0 {
        return None;
    }
    Some(terms.at(0))
}

// What four builds answer: two that fill both rows, one that finds the store full, and, after two
// pushes, one that finds the stack full; whether the third leaves the stack as it was; and what the
// pushes answer.
fn fill<T: Terms>(terms: &mut T) -> ([Option<BuildFault>; 4], bool, [Result<(), Deep>; 2])
    requires inside { (T.store terms.old).inside ≡ true }
    requires width { 1 ≤ (T.store terms.old).widest }
    ensures inside { (T.store terms.new).inside ≡ true }
{
    let first = build_symbol(terms, 0, 0);
    let second = build_symbol(terms, 1, 1);
    let before = (terms.depth(), lowest(terms));
    let full = build_symbol(terms, 2, 1);
    let stays = before.0 == 1 && terms.depth() == 1 && lowest(terms) == before.1;
    let pushed = [push_lowest(terms), push_lowest(terms)];
    let deep = build_symbol(terms, 3, 0);
    ([first, second, full, deep], stays, pushed)
}

#[test]
fn full_store_refuses_and_full_stack_is_deep(rt: HostRuntime) -> Result<(), Fail> {
    let mut store = PlainStore::new(rt.alloc(), 2, 2, 1)?;
    store.enter();
    let (built, stays, pushed) = fill(&mut store);
    assert_eq!(rt;
        built,
        [
            None,
            None,
            Some(BuildFault::StoreFull),
            Some(BuildFault::Deep)
        ]
    );
    assert!(rt; stays);
    assert_eq!(rt; pushed, [Ok(()), Err(Deep)]);
    Ok(())
}

#[test]
fn three_rows_serve_five_trees(rt: HostRuntime) -> Result<(), Fail> {
    let mut store = PlainStore::new(rt.alloc(), 3, 4, 2)?;
    store.enter();
    for symbol in 0..5 {
        assert_eq!(rt; build_symbol(&mut store, symbol, 0), None);
        assert_eq!(rt; store.depth(), 1);
        store.keep(0, 0);
    }
    assert_eq!(rt; store.epoch(), Some(1));
    Ok(())
}

#[test]
fn equal_trees_have_one_row(rt: HostRuntime) -> Result<(), Fail> {
    let mut store = PlainStore::new(rt.alloc(), 8, 8, 2)?;
    store.enter();
    assert_eq!(rt; have_one_row(&mut store, Symbol(0), Symbol(1)), Ok(true));
    Ok(())
}

// The next number of a linear congruential generator (Knuth's MMIX), without its low bits.
fn drawn(state: &mut u64) -> u32 {
    *state = state
        .wrapping_mul(6_364_136_223_846_793_005)
        .wrapping_add(1_442_695_040_888_963_407);
    (*state >> 33) as u32
}

// Writes a tree's text in the place of its arguments' texts: its letter, and then theirs.
fn write_text(alloc: Global, texts: &mut Vec<String>, letter: char, n: usize) -> Result<(), Fail> {
    let from = texts.len().saturating_sub(n);
    let mut text = String::new(alloc);
    text.push(letter)?;
    for argument in &texts[from..] {
        text.push_str(argument)?;
    }
    texts.truncate(from);
    texts.push(text)?;
    Ok(())
}

/// The rows of trees by their texts.
#[derive(Drop)]
struct Known {
    by_text: BTreeMap<String, u32>,
    rows: BTreeSet<u32>,
}

// Whether the text had this row before, or both are new.
fn agrees(known: &mut Known, text: &str, row: Row, alloc: Global) -> Result<bool, Fail> {
    if let Some(same) = known.by_text.get(text) {
        return Ok(*same == row.0);
    }
    known.by_text.insert(String::from_str(alloc, text)?, row.0)?;
    Ok(known.rows.insert(row.0)?)
}

/// Trees by chance: those on a store's stack by their texts, and all that there were.
#[derive(Drop)]
struct Chance {
    state: u64,
    texts: Vec<String>,
    known: Known,
}

// Builds a tree by chance over up to two of the last ones, and empties a stack of eight. Whether it
// was built, and has the row that its text had before, or one that no other text had.
fn build_drawn<T: Terms>(terms: &mut T, chance: &mut Chance, alloc: Global) -> Result<bool, Fail>
    requires inside { (T.store terms.old).inside ≡ true }
    requires width { 2 ≤ (T.store terms.old).widest }
    ensures inside { (T.store terms.new).inside ≡ true }
    ensures widest { (T.store terms.new).widest ≡ (T.store terms.old).widest }
{
    let number = drawn(&mut chance.state);
    let count = number % 3;
    let n = if count > terms.depth() { 0 } else { count };
    let symbol = 3 * n + number / 3 % 3;
    if build_symbol(terms, symbol, n).is_some() || terms.depth() == 0 {
        return Ok(false);
    }
    let row = terms.at(terms.depth() - 1);
    let letter = (b'a' + symbol as u8) as char;
    write_text(alloc, &mut chance.texts, letter, n as usize)?;
    let Some(text) = chance.texts.last() else {
        return Ok(false);
    };
    let agree = agrees(&mut chance.known, text, row, alloc)?;
    if chance.texts.len() == 8 {
        chance.texts.clear();
        terms.keep(0, 0);
    }
    Ok(agree)
}

#[test]
fn random_trees_share_rows_as_their_texts_say(rt: HostRuntime) -> Result<(), Fail> {
    let mut store = PlainStore::new(rt.alloc(), 1500, 8, 2)?;
    let mut chance = Chance {
        state: 1,
        texts: Vec::new(rt.alloc()),
        known: Known {
            by_text: BTreeMap::new(rt.alloc()),
            rows: BTreeSet::new(rt.alloc()),
        },
    };
    store.enter();
    for _ in 0..3000 {
        assert!(rt; build_drawn(&mut store, &mut chance, rt.alloc())?);
    }
    assert_eq!(rt; chance.known.by_text.len(), 1267);
    assert_eq!(rt; store.epoch(), Some(0));
    Ok(())
}

// Builds the list of one integer.
fn build_list<T: Terms>(terms: &mut T, number: u64) -> Result<(), BuildFault>
    requires inside { (T.store terms.old).inside ≡ true }
    requires width { 2 ≤ (T.store terms.old).widest }
    ensures inside { (T.store terms.new).inside ≡ true }
    ensures widest { (T.store terms.new).widest ≡ (T.store terms.old).widest }
{
    terms.build(Head::Int(number), 0)?;
    terms.build(Head::Nil, 0)?;
    terms.build(Head::Cons, 2)?;
    Ok(())
}

// The head of the lowest tree, read back from the top of the stack.
fn read_lowest<T: Terms>(terms: &mut T) -> Result<Head, Deep>
    requires inside { (T.store terms.old).inside ≡ true }
    requires some { 0 < length (T.store terms.old).stack }
    ensures { T.store terms.new ≡ T.store terms.old }
{
    let row = terms.at(0);
    read_back(terms, row)
}

// Whether four lists have two rows in turn, and the lowest is one.
fn are_two_in_turn<T: Terms>(terms: &mut T) -> bool
    requires { (T.store terms.old).inside ≡ true }
    ensures { T.store terms.new ≡ T.store terms.old }
{
    if terms.depth() != 4 {
        return false;
    }
    let rows = [terms.at(0), terms.at(1), terms.at(2), terms.at(3)];
    rows[0] == rows[2]
        && rows[1] == rows[3]
        && rows[0] != rows[1]
        && read_lowest(terms) == Ok(Head::Cons)
}

#[test]
fn five_rows_serve_the_lists_of_two_integers(rt: HostRuntime) -> Result<(), Fail> {
    let mut store = PlainStore::new(rt.alloc(), 5, 6, 2)?;
    store.enter();
    for number in [0, u64::MAX, 0, u64::MAX] {
        assert_eq!(rt; build_list(&mut store, number), Ok(()));
    }
    assert!(rt; are_two_in_turn(&mut store));
    assert_eq!(rt; build_symbol(&mut store, 0, 0), Some(BuildFault::StoreFull));
    assert_eq!(rt; store.epoch(), Some(0));
    Ok(())
}
