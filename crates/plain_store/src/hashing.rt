// The hash of a row, by its head and the rows of its arguments.
ghost use Rattle.std.specs.Prelude.{◌≡◌, length};
ghost use Rattle.term_model.specs.Tree.{head_eq};
ghost use Rattle.plain_store.specs.Hash.{head_kind, mixed, head_hash, hash_by, pair_hash, hash};

use crate::pairs::{Pair, pair_of, word_of};
use term_model::{Head, Row};

#[inline(always)]
fn kind_of(head: Head) -> u8
    ensures { result ≡ head_kind head }
{
    match head {
        Head::App(_) => 0,
        Head::Int(_) => 1,
        Head::Nil => 2,
        Head::Cons => 3,
    }
}

#[inline(always)]
fn same_cases(one: Head, other: Head) -> bool
    ensures { result ≡ head_eq one other }
{
    match (one, other) {
        (Head::App(f), Head::App(g)) => f.0 == g.0,
        (Head::Int(m), Head::Int(n)) => m == n,
        (Head::Nil, Head::Nil) | (Head::Cons, Head::Cons) => true,
        _ => false,
    }
}

/// Whether two heads are the same. Their kinds are compared first, which takes no choice between
/// the cases.
#[inline(always)]
pub(crate) fn same_head(one: Head, other: Head) -> bool
    ensures { result ≡ head_eq one other }
{
    if kind_of(one) != kind_of(other) {
        return false;
    }
    same_cases(one, other)
}

// One word more: by exclusive or, and then multiplied by 2^64 over the golden ratio, which spreads
// words that follow one another (Knuth's multiplicative hashing).
#[inline(always)]
fn mix(hash: u64, word: u64) -> u64
    ensures { result ≡ mixed hash word }
{
    (hash ^ word).wrapping_mul(11_400_714_819_323_198_485)
}

// Symbols are below 2^32. Both lists begin alike, since their rows mostly tell them apart.
#[inline(always)]
fn hash_head(head: Head) -> u64
    ensures { result ≡ head_hash head }
{
    match head {
        Head::App(symbol) => mix(0, symbol.0 as u64),
        Head::Int(number) => mix(1 << 32, number),
        Head::Nil | Head::Cons => mix(1 << 33, 0),
    }
}

// The hash with the words of these rows.
#[inline(never)]
fn hash_rows(hash: u64, rows: &[Row]) -> u64
    ensures { result ≡ hash_by hash rows.now }
{
    let mut mixed = hash;
    for row in rows {
        mixed = mix(mixed, row.0 as u64);
    }
    mixed
}

/// The hash of this head over the rows of a pair.
#[inline(always)]
pub(crate) fn hash_pair(head: Head, pair: Pair) -> u64
    requires { length pair ≡ 2 }
    ensures { result ≡ pair_hash head pair }
{
    mix(hash_head(head), word_of(pair))
}

/// The hash of this head over these rows. Its high bits are the ones to use.
#[inline(always)]
pub(crate) fn hash_of(head: Head, arguments: &[Row]) -> u64
    ensures { result ≡ hash head arguments.now }
{
    match pair_of(arguments) {
        Some(pair) => hash_pair(head, pair),
        None => hash_rows(hash_head(head), arguments),
    }
}
