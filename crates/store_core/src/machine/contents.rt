//! The words and the bucket of a content.
ghost use Rattle.std.specs.Prelude.{◌≡◌, [], ◌∷◌, get_or, IfOk};
ghost use Rattle.hash_buckets.specs.Hash.{hash_of, mixed_all};
ghost use Rattle.store_model.specs.Calls.{words_of, bucket};

use faults::Memory;
use hash_buckets::{hash, symbol_word, with_word};
use std::alloc::Global;
use std::collections::LinkedList;
use store_model::Content;
use term_model::Head;

/// The words that a row has for a content: the symbol word, the count of arguments, and the
/// arguments, or an integer's value.
pub(crate) fn words_of(content: &Content) -> Result<Vec<u64>, Memory>
    ensures { IfOk result (λ words. words.items ≡ words_of content.now) }
{
    let alloc = *content.arguments.allocator();
    match content.head {
        Head::App(symbol) => over_rows(
            alloc,
            u64::from(symbol.0),
            content.arguments.len() as u64,
            &content.arguments,
        ),
        Head::Int(value) => three_words(alloc, symbol_word(content.head), 0, value),
        Head::Nil => two_words(alloc, symbol_word(content.head), 0),
        Head::Cons => over_rows(alloc, symbol_word(content.head), 2, &content.arguments),
    }
}

fn two_words(alloc: Global, symbol: u64, count: u64) -> Result<Vec<u64>, Memory>
    ensures { IfOk result (λ words. words.items ≡ symbol ∷ count ∷ []) }
{
    let mut words = Vec::new(alloc);
    words.push(symbol)?;
    words.push(count)?;
    Ok(words)
}

fn three_words(alloc: Global, symbol: u64, count: u64, value: u64) -> Result<Vec<u64>, Memory>
    ensures { IfOk result (λ words. words.items ≡ symbol ∷ count ∷ value ∷ []) }
{
    let mut words = two_words(alloc, symbol, count)?;
    words.push(value)?;
    Ok(words)
}

fn over_rows(
    alloc: Global,
    symbol: u64,
    count: u64,
    rows: &LinkedList<u32>,
) -> Result<Vec<u64>, Memory>
    ensures { IfOk result (λ words. words.items ≡ symbol ∷ count ∷ rows.now) }
{
    let mut words = two_words(alloc, symbol, count)?;
    for row in rows {
        words.push(u64::from(*row))?;
    }
    Ok(words)
}

/// Word k, and 0 past the words.
pub(crate) fn word_at(words: &[u64], k: u32) -> u64
    ensures { result ≡ get_or words.now k 0 }
{
    if (k as usize) < words.len() {
        words[k as usize]
    } else {
        0
    }
}

/// The bucket of a content, of so many in use.
#[tactic(auto, unfolding(hash_buckets::specs::Hash::bucket_of))]
pub(crate) fn bucket_of(content: &Content, in_use: u32) -> Result<u32, Memory>
    ensures { IfOk result (λ b. b ≡ bucket content.now in_use) }
{
    if in_use == 0 {
        return Err(Memory);
    }
    Ok(hash_buckets::bucket(hash_of(content), in_use))
}

#[tactic(auto, unfolding(hash_buckets::specs::Hash::hash_of))]
fn hash_of(content: &Content) -> u64
    ensures { result ≡ hash_of content.now.head content.now.arguments }
{
    let first = hash(content.head, &[]);
    match content.head {
        Head::Int(_) => first,
        Head::App(_) | Head::Nil | Head::Cons => with_rows(first, &content.arguments),
    }
}

#[tactic(auto, using(crate::proofs::Contents::mixed_on))]
fn with_rows(first: u64, rows: &LinkedList<u32>) -> u64
    ensures { result ≡ mixed_all first rows.now }
{
    let mut hash = first;
    for row in rows {
        hash = with_word(hash, u64::from(*row));
    }
    hash
}
