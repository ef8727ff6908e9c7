//! The rows of a rule's variables.

ghost use Rattle.std.specs.Prelude.{◌≡◌, ◌<◌, ◌≤◌, [], IfOk};
ghost use Rattle.row_match.specs.Binding.{HasRoom};

use faults::Memory;
use rule_match::Plan;
use std::alloc::Global;
use std::marker::Model;
use term_model::Row;

/// The rows to which a match binds the variables of a rule, in their order, with the room that a
/// match needs.
#[derive(Drop)]
pub struct Binds {
    pub(crate) rows: Vec<Row>,
    pub(crate) stack: Vec<Row>,
    room: usize,
}

impl Model for Binds {
    ghost use Rattle.std.specs.Prelude.{◌≤◌, vec_capacity};
    ghost use Rattle.row_match.specs.Binding.{Bound, bound_code};

    ghost Value = { Bound };

    ghost coded = { bound_code };

    ghost view = { λ b. record { rows = b.rows.items; room = b.room } };

    ghost invariant = { λ b. (b.room ≤ vec_capacity b.rows) × (b.room ≤ vec_capacity b.stack) };
}

impl Binds {
    /// Nothing bound, with room for every rule of a plan.
    pub fn of(alloc: Global, plan: &Plan) -> Result<Self, Memory>
        ensures empty { IfOk result (λ binds. binds.rows ≡ []) }
        ensures room { IfOk result (λ binds. HasRoom binds.room plan.now.rules) }
    {
        let mut room = 0;
        for rule in plan.rules() {
            room = room.max(rule.left().node_count());
        }
        Ok(Binds {
            rows: Vec::with_capacity(alloc, room)?,
            stack: Vec::with_capacity(alloc, room)?,
            room,
        })
    }

    /// The rows bound by the last match; none where the rule didn't match.
    pub fn rows(&self) -> &[Row]
        ensures { result.now ≡ self.now.rows }
    {
        &self.rows
    }
}
