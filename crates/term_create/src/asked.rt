//! What a creation asks for, where, and how it may end.
ghost use Rattle.std.specs.Prelude.{◌≡◌, ◌+◌, ◌*◌, ◌<◌, get_or, length};
ghost use Rattle.hash_buckets.specs.Spelled.{symbol_word};
ghost use Rattle.store_model.specs.Calls.{words_of};
ghost use Rattle.store_model.specs.Machine.{widest};
ghost use Rattle.node_rows.specs.Belonging.{IsOpen};
ghost use Rattle.node_rows.specs.Rows.{names};
ghost use Rattle.node_rows.specs.Steps.{over};
ghost use Rattle.term_create.specs.Fitting.{Fits};

use node_rows::Store;
use term_model::{Head, Row};

/// A head over rows that is asked of a store, at the base of the pass, its symbol word, and the
/// bucket of it; with the word where the rows of the store begin, and how many words a row has.
#[derive(Drop)]
pub(crate) struct Asked<'a> {
    pub(crate) store: &'a Store,
    pub(crate) head: Head,
    pub(crate) args: &'a [Row],
    pub(crate) symbol: u64,
    pub(crate) base: u64,
    pub(crate) place: u64,
    pub(crate) first_row: usize,
    pub(crate) row_size: usize,
    ghost at: { IsOpen store.now },
    ghost symbol_is: { symbol ≡ symbol_word head },
    ghost second: { length args.now ≡ get_or (words_of (over head (names args.now))) 1 0 },
    ghost fits: { Fits store.now.sizes head (names args.now) },
    ghost within: { place < store.now.sizes.buckets },
    ghost rows_begin: { first_row ≡ 1 + 2 * store.now.sizes.seats + 4 + store.now.sizes.rows
        + store.now.sizes.buckets },
    ghost rows_are: { row_size ≡ widest store.now.sizes + 4 },
}

/// A walk: the drawn row with its index, the head of the chain that was read, and the word where
/// the walk is to end.
#[derive(Clone, Copy)]
pub(crate) struct Walk {
    pub(crate) drawn: Option<(u64, u64)>,
    pub(crate) from: u64,
    pub(crate) old: u64,
}

/// A drawn row with its index, and the head of the chain that was read last.
#[derive(Clone, Copy)]
pub(crate) struct Drawn {
    pub(crate) from: u64,
    pub(crate) index: u64,
    pub(crate) row: u64,
}

/// How a creation ends with a row: it is made, with this number, or found, with this birth number.
#[derive(Clone, Copy)]
pub(crate) enum Noted {
    Made(u64, u64),
    Found(u64, u64),
}

/// No row is free.
#[derive(Clone, Copy, Debug, PartialEq, Eq)]
pub struct Full;
