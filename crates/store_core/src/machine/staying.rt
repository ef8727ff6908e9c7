//! What a seat still knows when its epoch ends: what its protected rows lead to by the words that
//! it knows.
ghost use Rattle.std.specs.Prelude.{◌≡◌, ◌∷◌, ◌++◌, [], if◌then◌else◌, IfOk, OnOk, nat_lt, ◌+◌};
ghost use Rattle.std.specs.List.{list_any};
ghost use Rattle.store_model.specs.Machine.{rows_kept, words_kept};
ghost use Rattle.store_model.specs.Staying.{is_among, is_argument, is_next, is_within, joined, led_to, words_of_rows};

use crate::machine::moves::narrow;
use crate::machine::rooting::protected_rows;
use crate::machine::rows::list_of;
use faults::Memory;
use std::alloc::Global;
use std::collections::LinkedList;
use store_model::{KnownWord, View};

/// What the view keeps alone is left of it: the rows, and their words.
pub(crate) fn keep(view: &mut View) -> Result<(), Memory>
    ensures { OnOk result
        (view.new ≡ record view.old { got = rows_kept view.old; knows = words_kept view.old }) }
{
    let words = words_known(&view.knows)?;
    let rows = rows_led_to(words.as_slice(), protected_rows(view)?)?;
    know_alone(view, rows.as_slice(), words.as_slice())
}

// The view has these rows, and knows those of the words that are theirs.
fn know_alone(view: &mut View, rows: &[u32], words: &[KnownWord]) -> Result<(), Memory>
    ensures { OnOk result
        (view.new
        ≡ record view.old { got = rows.now; knows = words_of_rows rows.now words.now }) }
{
    let knows = words_of_rows(*view.got.allocator(), rows, words)?;
    view.got = list_of(*view.got.allocator(), rows)?;
    view.knows = knows;
    Ok(())
}

// The words of a list.
fn words_known(list: &LinkedList<KnownWord>) -> Result<Vec<KnownWord>, Memory>
    ensures { IfOk result (λ words. words.items ≡ list.now) }
{
    let mut words = Vec::new(*list.allocator());
    for word in list {
        words.push(*word)?;
    }
    Ok(words)
}

// These rows, and those that they lead to.
fn rows_led_to(words: &[KnownWord], rows: Vec<u32>) -> Result<Vec<u32>, Memory>
    ensures { IfOk result (λ all. all.items ≡ led_to words.now rows.items) }
{
    let mut rows = rows;
    for _look in 0..words.len() {
        rows = look_on(words, rows)?;
    }
    Ok(rows)
}

// One look at each word: the rows that join are after those that were there.
fn look_on(words: &[KnownWord], rows: Vec<u32>) -> Result<Vec<u32>, Memory>
    ensures { IfOk result (λ more. more.items ≡ joined words.now words.now rows.items) }
{
    let mut rows = rows;
    for word in words.iter() {
        rows = with_next(words, rows, word)?;
    }
    Ok(rows)
}

// The rows, with the one that a word adds.
fn with_next(words: &[KnownWord], mut rows: Vec<u32>, word: &KnownWord) -> Result<Vec<u32>, Memory>
    ensures { IfOk result
        (λ more. more.items
        ≡ (if is_next words.now rows.items word.now
        then rows.items ++ word.now.value ∷ [] else rows.items)) }
{
    if is_next(words, rows.as_slice(), word) {
        rows.push(narrow(word.value)?)?;
    }
    Ok(rows)
}

// Whether a word is an argument of one of these rows, and isn't among them.
fn is_next(words: &[KnownWord], rows: &[u32], word: &KnownWord) -> bool
    ensures { result ≡ is_next words.now rows.now word.now }
{
    !is_among(rows, word.value) && is_among(rows, u64::from(word.row)) && is_argument(words, word)
}

fn is_among(rows: &[u32], row: u64) -> bool
    ensures { result ≡ is_among rows.now row }
{
    rows.iter().any(|other| u64::from(*other) == row)
}

// Whether a word is an argument of its row: it stands within the count that is known.
fn is_argument(words: &[KnownWord], word: &KnownWord) -> bool
    ensures { result ≡ is_argument words.now word.now }
{
    word.word > 1 && is_counted(words, word)
}

// Whether a word stands within a count of its row.
fn is_counted(words: &[KnownWord], word: &KnownWord) -> bool
    ensures { result ≡ list_any (is_within word.now) words.now }
{
    words.iter().any(|count| is_within(word, count))
}

// Whether a word tells how many arguments the row of another has, and that one stands within them.
fn is_within(word: &KnownWord, count: &KnownWord) -> bool
    ensures { result ≡ is_within word.now count.now }
{
    count.row == word.row && count.word == 1 && stands_below(word.word, count.value)
}

// Whether a word stands before the end of so many arguments.
fn stands_below(word: u32, count: u64) -> bool
    ensures { result ≡ nat_lt word (count + 2) }
{
    word < 2 || u64::from(word) - 2 < count
}

// The words of these rows.
fn words_of_rows(
    alloc: Global,
    rows: &[u32],
    words: &[KnownWord],
) -> Result<LinkedList<KnownWord>, Memory>
    ensures { IfOk result (λ kept. kept ≡ words_of_rows rows.now words.now) }
{
    let mut kept = LinkedList::new(alloc);
    for word in words.iter() {
        if is_among(rows, u64::from(word.row)) {
            kept.push_back(*word)?;
        }
    }
    Ok(kept)
}
