//! The rule: words and views show a store in which the facts of the store hold.
use crate::view::NodeView;
use atomic_table::{Join, Play, Split, TableRule};
use busy_forbidden::{HasLock, HasMore};
use std::collections::LinkedList;
use store_model::{Sizes, View};
use term_model::Flat;

/// The rule of a store. It is told the sizes.
pub struct NodeRows;

impl TableRule<(), NodeView, Sizes> for NodeRows {
    ghost use Rattle.node_rows.specs.Shown.{first_view};
    ghost use Rattle.node_rows.specs.Joining.{ShowsJoined};

    ghost holds = { ShowsJoined };

    ghost first = { first_view };
}

impl HasLock for NodeRows {
    ghost use Rattle.node_rows.specs.Shown.{lock_of, seats_of, node_next, node_can};
    ghost use Rattle.node_rows.specs.Locking.{node_moves, node_shows, node_keeps, node_follows};

    type View = NodeView;

    type Key = Sizes;

    ghost seats = { seats_of };

    ghost lock = { lock_of };

    ghost can = { node_can };

    ghost next = { node_next };

    ghost shows = { node_shows };

    ghost moves = { node_moves };

    ghost keeps = { node_keeps };

    ghost follows = { node_follows };
}

impl HasMore for NodeRows {
    ghost use Rattle.node_rows.specs.Shown.{rest_of, is_out};
    ghost use Rattle.node_rows.specs.Locking.{node_leaves};

    type More = (Sizes, View, LinkedList<Flat>);

    ghost more = { rest_of };

    ghost away = { is_out };

    ghost leaves = { node_leaves };
}

// The first seat makes one more.
pub(crate) struct Deal;

impl Split<NodeView> for Deal {
    ghost use Rattle.node_rows.specs.Shown.{one_made, next_seat};

    ghost left = { one_made };

    ghost right = { next_seat };
}

// A seat takes in another one.
pub(crate) struct Gather;

impl Join<NodeView> for Gather {
    ghost use Rattle.node_rows.specs.Joining.{both_views, spent_view};

    ghost both = { both_views };

    ghost spent = { spent_view };
}

// A seat looks at the table, and knows what all seats know that were joined into it.
pub(crate) struct OnLook;

impl Play<(), NodeView> for OnLook {
    ghost use Rattle.node_rows.specs.Joining.{looks};

    ghost then = { looks };
}
