//! What rules ask for at places.

ghost use Rattle.std.specs.Prelude.{◌≡◌, ℕ, ◌<◌, ◌≤◌, ◌⊎◌, ◌&&◌, ◌||◌, ◌==◌, not, nat_lt, length, true, All, Contains, IfOk, OnOk, IfSome, IfNone};
ghost use Rattle.std.specs.List.{list_all};
ghost use Rattle.std.specs.List.Sorted.{IsNonDecreasingBy};
ghost use Rattle.rule_automaton.specs.Shapes.{tests_at};
ghost use Rattle.rule_automaton.specs.Automata.{asks_for, is_allowed, kept as kept_of, passing as passing_of};
ghost use Rattle.rule_automaton.specs.Asking.{is_from, total, word_key, HasWord, NotesWords, ArePicked, AreWords};

use crate::shapes::{Shape, Test};
use crate::states::key_of;
use faults::Memory;
use std::alloc::Global;
use term_model::Symbol;

/// The least place not below a bound at which these tests ask for a symbol, or another place where
/// that is less.
fn least_place(tests: &[Test], bound: u32, other: u32) -> u32
    ensures low { result ≤ other }
    ensures all { list_all (λ (t : Test). is_from bound result t) tests.now ≡ true }
    ensures asked { (result ≡ other) ⊎ ((t : Test) × Contains tests.now t × (t.place ≡ result)) }
{
    let mut least = other;
    for test in tests {
        if test.place >= bound && test.place < least {
            least = test.place;
        }
    }
    least
}

/// A place not below a bound at which these tests ask for a symbol.
pub(crate) fn some_place(tests: &[Test], bound: u32) -> Option<u32>
    ensures some { IfSome result (λ place. (t : Test) × Contains tests.now t × (t.place ≡ place)) }
    ensures none { IfNone result (list_all (λ (t : Test). nat_lt t.place bound) tests.now ≡ true) }
{
    for test in tests {
        if test.place >= bound {
            return Some(test.place);
        }
    }
    None
}

/// The least place not below a bound at which some of these rules ask for a symbol, or another
/// place where that is less.
pub(crate) fn least_of_all(shapes: &[Shape], rules: &[u32], bound: u32, other: u32) -> u32
    requires { All (λ r. r < length shapes.now) rules.now }
    ensures all { All (λ r. list_all (λ (t : Test). is_from bound result t)
        (tests_at shapes.now r) ≡ true) rules.now }
    ensures asked { (result ≡ other) ⊎ ((r : ℕ) × Contains rules.now r
        × ((t : Test) × Contains (tests_at shapes.now r) t × (t.place ≡ result))) }
{
    let mut least = other;
    for rule in rules {
        least = least_place(&shapes[*rule as usize].tests, bound, least);
    }
    least
}

/// Whether a test asks for this symbol over so many trees.
fn asks_for(test: &Test, symbol: Symbol, count: u32) -> bool
    ensures { result ≡ asks_for symbol count test.now }
{
    test.symbol.0 == symbol.0 && test.count == count
}

/// Notes the tests of a place.
fn note_tests(tests: &[Test], place: u32, noted: &mut Vec<Test>) -> Result<(), Memory>
    ensures { OnOk result (NotesWords place tests.now noted.old.items noted.new.items) }
{
    for test in tests {
        if test.place == place {
            noted.push(*test)?;
        }
    }
    Ok(())
}

/// The tests by which rules ask for symbols at a place.
fn asked_at(alloc: Global, shapes: &[Shape], rules: &[u32], place: u32) -> Result<Vec<Test>, Memory>
    requires { All (λ r. r < length shapes.now) rules.now }
    ensures { IfOk result (λ words. AreWords shapes.now rules.now place words.items) }
{
    let mut noted = Vec::new(alloc);
    for rule in rules {
        note_tests(&shapes[*rule as usize].tests, place, &mut noted)?;
    }
    Ok(noted)
}

/// Whether the last of some tests asks for the same symbol.
fn is_last(words: &[Test], test: &Test) -> bool
    ensures { result ≡ true → HasWord words.now test.now }
{
    match words.last() {
        Some(word) => asks_for(test, word.symbol, word.count),
        None => false,
    }
}

/// Some tests without those that ask for the same symbol as the one before.
fn picked(alloc: Global, tests: &[Test]) -> Result<Vec<Test>, Memory>
    ensures { IfOk result (λ words. ArePicked tests.now tests.now words.items) }
{
    let mut words = Vec::new(alloc);
    for test in tests {
        if !is_last(&words, test) {
            words.push(*test)?;
        }
    }
    Ok(words)
}

/// The different symbols that rules ask for at a place, in order.
pub(crate) fn words_at(
    alloc: Global,
    shapes: &[Shape],
    rules: &[u32],
    place: u32,
) -> Result<Vec<Test>, Memory>
    requires { All (λ r. r < length shapes.now) rules.now }
    ensures words { IfOk result (λ words. AreWords shapes.now rules.now place words.items) }
    ensures order { IfOk result (λ words. IsNonDecreasingBy word_key words.items) }
{
    let mut noted = asked_at(alloc, shapes, rules, place)?;
    noted.sort_unstable_by_key(|test| key_of(test.symbol, test.count));
    let words = picked(alloc, &noted)?;
    Ok(words)
}

/// How many tests some rules have, and how many they are: what it takes to go over them once.
pub(crate) fn size_of(shapes: &[Shape], rules: &[u32]) -> usize
    requires { All (λ r. r < length shapes.now) rules.now }
    ensures { result ≤ total shapes.now rules.now }
{
    let mut size = rules.len();
    for rule in rules {
        size = size.saturating_add(shapes[*rule as usize].tests.len());
    }
    size
}

/// Whether tests ask for no other symbol at a place.
fn allow(tests: &[Test], place: u32, symbol: Symbol, count: u32) -> bool
    ensures { result ≡ list_all (λ (t : Test). is_allowed place symbol count t) tests.now }
{
    // A loop is cheaper to prove than a closure.
    for test in tests {
        if test.place == place && !asks_for(test, symbol, count) {
            return false;
        }
    }
    true
}

/// Whether tests ask for no symbol at a place.
fn pass(tests: &[Test], place: u32) -> bool
    ensures { result ≡ list_all (λ (t : Test). not (t.place == place)) tests.now }
{
    // A loop is cheaper to prove than a closure.
    for test in tests {
        if test.place == place {
            return false;
        }
    }
    true
}

/// The rules that ask for no other symbol at a place.
pub(crate) fn kept(
    alloc: Global,
    shapes: &[Shape],
    rules: &[u32],
    place: u32,
    word: &Test,
) -> Result<Vec<u32>, Memory>
    requires { All (λ r. r < length shapes.now) rules.now }
    ensures { IfOk result (λ all. all.items
        ≡ kept_of shapes.now place word.now.symbol word.now.count rules.now) }
{
    let mut all = Vec::new(alloc);
    for rule in rules {
        if allow(
            &shapes[*rule as usize].tests,
            place,
            word.symbol,
            word.count,
        ) {
            all.push(*rule)?;
        }
    }
    Ok(all)
}

/// The rules that ask for no symbol at a place.
pub(crate) fn passing(
    alloc: Global,
    shapes: &[Shape],
    rules: &[u32],
    place: u32,
) -> Result<Vec<u32>, Memory>
    requires { All (λ r. r < length shapes.now) rules.now }
    ensures { IfOk result (λ all. all.items ≡ passing_of shapes.now place rules.now) }
{
    let mut all = Vec::new(alloc);
    for rule in rules {
        if pass(&shapes[*rule as usize].tests, place) {
            all.push(*rule)?;
        }
    }
    Ok(all)
}
