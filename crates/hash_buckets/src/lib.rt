//! The hash of a head over rows, and the bucket of a store in which such a term stands.
#![tactic(auto)]

ghost use Rattle.std.specs.Prelude.{◌≡◌, ℕ, ◌%◌, ◌<◌, List, map};
ghost use Rattle.term_model.specs.declared.Head.{Head};
ghost use Rattle.hash_buckets.specs.Spelled.{symbol_word};
ghost use Rattle.hash_buckets.specs.Hash.{mixed, mixed_all, hash_of, bucket_of};
ghost use Rattle.hash_buckets.specs.Worked.{HasHash};

use term_model::{Head, Row};

/// FNV's offset basis for 64 bits: the hash of no words.
pub const OFFSET_BASIS: u64 = 14695981039346656037;

/// The symbol word of an integer, which is above the number of each symbol. Those of the empty list
/// and of a cell follow it.
pub const INTEGER: u64 = 1 << 32;

// FNV's prime for 64 bits.
const PRIME: u64 = 1099511628211;

/// The hash of a head and its arguments: FNV-1a on words of 64 bits. The words are the symbol word,
/// and then an integer's value or each argument's row number.
#[tactic(auto, unfolding(crate::specs::Hash::hash_of))]
pub fn hash(head: Head, args: &[Row]) -> u64
    ensures { result ≡ hash_of head (map (λ row. row.0) args.now) }
{
    let first = with_word(OFFSET_BASIS, symbol_word(head));
    match head {
        Head::Int(value) => with_word(first, value),
        Head::App(_) | Head::Nil | Head::Cons => with_rows(first, args),
    }
}

/// The bucket of a hash, of so many buckets in use.
pub fn bucket(hash: u64, buckets: u32) -> u32
    requires { 0 < buckets }
    ensures remainder { result ≡ hash % buckets }
    ensures below { result < buckets }
{
    (hash % u64::from(buckets)) as u32
}

/// The word that says which head a row has: a symbol's number, or a number above all symbols.
pub fn symbol_word(head: Head) -> u64
    ensures { result ≡ symbol_word head }
{
    match head {
        Head::App(symbol) => u64::from(symbol.0),
        Head::Int(_) => INTEGER,
        Head::Nil => INTEGER + 1,
        Head::Cons => INTEGER + 2,
    }
}

/// A hash with one more word.
pub fn with_word(hash: u64, word: u64) -> u64
    ensures { result ≡ mixed hash word }
{
    (hash ^ word).wrapping_mul(PRIME)
}

// The hash with the row numbers, in order.
fn with_rows(first: u64, rows: &[Row]) -> u64
    ensures { result ≡ mixed_all first (map (λ row. row.0) rows.now) }
{
    let mut hash = first;
    for row in rows {
        hash = with_word(hash, u64::from(row.0));
    }
    hash
}

/// Equal heads over equal rows stand in one bucket, which is one of those in use.
pub fn bucket_laws()
    ensures same { (f g : Head) (rows others : List ℕ) (in_use : ℕ) → f ≡ g → rows ≡ others
        → bucket_of f rows in_use ≡ bucket_of g others in_use }
    ensures below { (f : Head) (rows : List ℕ) (in_use : ℕ) → 0 < in_use
        → bucket_of f rows in_use < in_use }
{}

/// Three hashes with their buckets, which the check computes from the definition.
pub fn worked_hashes()
    ensures zero { HasHash 0 0xaf63bd4c8601b7df 3 }
    ensures one { HasHash 1 0xaf63bc4c8601b62c 0 }
    ensures two { HasHash 2 0xaf63bf4c8601bb45 1 }
{}
