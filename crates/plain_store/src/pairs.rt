// At most two arguments, filled up to two, so that they are read and compared without a loop.
ghost use Rattle.std.specs.Prelude.{◌≡◌, ◌^◌, ◌<◌, ◌≤◌, ◌↔◌, IsTrue, IfSome, IfNone, length, slice_index_or};
ghost use Rattle.plain_store.specs.Pairs.{filled, no_row, pair_word};

use term_model::Row;

/// Two rows.
pub(crate) type Pair = [Row; 2];

/// What stands in the places of arguments that a row doesn't have.
pub(crate) const EMPTY: Pair = [Row(0), Row(0)];

/// The rows, if they are at most two, with row 0 in the place of each that lacks.
#[inline(always)]
pub(crate) fn pair_of(rows: &[Row]) -> Option<Pair>
    ensures filled { IfSome result (λ pair. pair ≡ filled rows.now) }
    ensures few { IfSome result (λ _. length rows.now ≤ 2) }
    ensures many { IfNone result (2 < length rows.now) }
{
    match rows {
        [] => Some(EMPTY),
        [one] => Some([*one, Row(0)]),
        [first, second] => Some([*first, *second]),
        _ => None,
    }
}

/// The two rows as one word.
#[inline(always)]
pub(crate) fn word_of(pair: Pair) -> u64
    requires { length pair ≡ 2 }
    ensures word { result ≡ pair_word pair }
    ensures low { (slice_index_or pair 0 no_row).0 < 2 ^ 32 }
{
    pair[0].0 as u64 + pair[1].0 as u64 * (1 << 32)
}

/// Whether two pairs are the same.
#[inline(always)]
pub(crate) fn same_pair(one: Pair, other: Pair) -> bool
    requires { (length one ≡ 2) × (length other ≡ 2) }
    ensures { IsTrue result ↔ (one ≡ other) }
{
    word_of(one) == word_of(other)
}
