//! The order in which a collection comes to the rows that it compares and frees.
ghost use Rattle.std.specs.Prelude.{◌≡◌, ◌<◌};
ghost use Rattle.row_sweep.specs.Gathered.{sizes_of};
ghost use Rattle.row_sweep.specs.Turns.{in_blocks, order_for, row_in_turn};

use crate::sweep::Sweep;
use store_model::Sizes;

/// An order of the rows: they ascend, or those that come after each other stand apart.
#[derive(Clone, Copy, Drop)]
pub(crate) enum Order {
    Ascending,
    Apart,
}

/// The order of a collection that keeps so many rows. Rows that come after each other are drawn
/// after each other, where there are several seats often by workers that make rows at the same
/// time, so there they stand apart: in lines of the cache of their own. Where a collection keeps
/// many, an epoch is short and mostly one worker's, who makes rows side by side more quickly.
pub(crate) fn order_for(sizes: &Sizes, live: u32) -> Order
    ensures { result ≡ order_for sizes.now live }
{
    if sizes.seats == 1 || live >= sizes.rows / 64 {
        Order::Ascending
    } else {
        Order::Apart
    }
}

// How many rows come in whole blocks.
#[inline]
fn blocks(sizes: &Sizes, order: Order) -> u32
    ensures { result ≡ in_blocks sizes.now order }
{
    match order {
        Order::Ascending => 0,
        Order::Apart => sizes.rows / 64 * 64,
    }
}

// The row that comes in a turn.
#[inline]
fn turned(sizes: &Sizes, order: Order, turn: u32) -> u32
    requires below { turn < sizes.now.rows }
    ensures row { result ≡ row_in_turn sizes.now order turn }
    ensures below { result < sizes.now.rows }
    ensures back { row_in_turn sizes.now order result ≡ turn }
{
    if turn >= blocks(sizes, order) {
        return turn;
    }
    turn / 64 * 64 + turn % 8 * 8 + turn / 8 % 8
}

/// The row that comes in a turn.
#[inline]
pub(crate) fn row_in_turn(sweep: &Sweep<'_>, order: Order, turn: u32) -> u32
    requires below { turn < (sizes_of sweep.now).rows }
    ensures row { result ≡ row_in_turn (sizes_of sweep.now) order turn }
    ensures below { result < (sizes_of sweep.now).rows }
    ensures back { row_in_turn (sizes_of sweep.now) order result ≡ turn }
{
    turned(&sweep.store.sizes, order, turn)
}
