//! The words that a head over rows has in a row, and its bucket.
ghost use Rattle.std.specs.Prelude.{◌≡◌, ◌+◌, ◌<◌, ◌%◌, get_or, length};
ghost use Rattle.hash_buckets.specs.Hash.{mixed, mixed_all, hash_of};
ghost use Rattle.hash_buckets.specs.Spelled.{symbol_word};
ghost use Rattle.store_model.specs.Calls.{words_of, bucket};
ghost use Rattle.node_rows.specs.Rows.{names};
ghost use Rattle.node_rows.specs.Steps.{over};
ghost use Rattle.term_create.specs.Stage.{content};

use crate::asked::Asked;
use hash_buckets::{OFFSET_BASIS, with_word};
use term_model::{Head, Row};

/// How many words there are.
#[tactic(auto, using(crate::proofs::Arguments::as_many_names))]
#[inline]
pub(crate) fn word_count(asked: &Asked<'_>) -> usize
    ensures { result ≡ length (words_of (content asked.now)) }
{
    let count = asked.args.len();
    match asked.head {
        Head::Int(_) => 3,
        Head::App(_) => count + 2,
        Head::Nil => count + 2,
        Head::Cons => count + 2,
    }
}

// What stands after the first two words.
#[inline]
fn later_word(head: Head, args: &[Row], k: usize) -> u64
    requires later { 1 < k }
    requires below { k < length (words_of (over head (names args.now))) }
    ensures { result ≡ get_or (words_of (over head (names args.now))) k 0 }
{
    match head {
        Head::Int(value) => value,
        Head::App(_) => args[k - 2].0 as u64,
        Head::Nil => 0,
        Head::Cons => args[k - 2].0 as u64,
    }
}

/// One of them.
#[inline]
pub(crate) fn word_at(asked: &Asked<'_>, k: usize) -> u64
    requires { k < length (words_of (content asked.now)) }
    ensures { result ≡ get_or (words_of (content asked.now)) k 0 }
{
    if k == 0 {
        asked.symbol
    } else if k == 1 {
        asked.args.len() as u64
    } else {
        later_word(asked.head, asked.args, k)
    }
}

/// Argument j, which stands after the first two words.
#[tactic(auto, using(crate::proofs::Arguments::later_argument))]
#[inline(always)]
pub(crate) fn argument_at(asked: &Asked<'_>, j: usize) -> u64
    requires { j < length asked.now.args.now }
    ensures { result ≡ get_or (words_of (content asked.now)) (j + 2) 0 }
{
    asked.args[j].0 as u64
}

// The hash with one row number more.
#[inline(always)]
fn with_row(first: u64, row: Row) -> u64
    ensures { result ≡ mixed first row.0 }
{
    with_word(first, row.0 as u64)
}

// The hash with the row numbers, in order, however many they are.
fn with_each(first: u64, rows: &[Row]) -> u64
    ensures { result ≡ mixed_all first (names rows.now) }
{
    let mut hash = first;
    for row in rows {
        hash = with_row(hash, *row);
    }
    hash
}

// The same, without a loop where they are few, as they mostly are.
#[inline(always)]
fn with_rows(first: u64, rows: &[Row]) -> u64
    ensures { result ≡ mixed_all first (names rows.now) }
{
    match rows {
        [one] => with_row(first, *one),
        [one, two] => with_row(with_row(first, *one), *two),
        _ => with_each(first, rows),
    }
}

// The hash of a head over rows, by its symbol word.
#[tactic(auto, unfolding(hash_buckets::specs::Hash::hash_of))]
fn hash(symbol: u64, head: Head, args: &[Row]) -> u64
    requires { symbol ≡ symbol_word head }
    ensures { result ≡ hash_of head (names args.now) }
{
    let first = with_word(OFFSET_BASIS, symbol);
    match head {
        Head::Int(value) => with_word(first, value),
        Head::App(_) | Head::Nil | Head::Cons => with_rows(first, args),
    }
}

// The remainder. A power of two, as the number of buckets mostly is, has it in the low bits, which
// spares a division; it alone shares no bit with the number before it.
#[tactic(auto, using(crate::proofs::Remainders::low_bits))]
fn remainder(hash: u64, in_use: u64) -> u64
    requires used { 0 < in_use }
    ensures { result ≡ hash % in_use }
{
    if in_use & (in_use - 1) == 0 {
        hash & (in_use - 1)
    } else {
        hash % in_use
    }
}

/// The bucket, of those in use.
#[tactic(auto, unfolding(hash_buckets::specs::Hash::bucket_of))]
pub(crate) fn bucket_of(symbol: u64, head: Head, args: &[Row], in_use: u64) -> u64
    requires symbol { symbol ≡ symbol_word head }
    requires used { 0 < in_use }
    ensures bucket { result ≡ bucket (over head (names args.now)) in_use }
    ensures below { result < in_use }
{
    remainder(hash(symbol, head, args), in_use)
}
