// Rows and their children.
ghost use Rattle.std.specs.Prelude.{◌≡◌, ◌<◌, Some, List, length, slice_get};
ghost use Rattle.term_model.specs.declared.Row.{Row};

use term_model::Row;

/// Rows, each with its children. Reading changes nothing of them.
pub trait Graph {
    /// The children of each row, in order.
    ghost children: { Self → Row → List Row };

    /// The row may be read.
    ghost may_read: { Self → Row → Type 0 };

    /// It is the same graph, read further.
    ghost same: { Self → Self → Type 0 };

    /// How many children a row has.
    fn count(&mut self, row: Row) -> u32
        requires { may_read self.old row }
        ensures count { result ≡ length (children self.old row) }
        ensures same { same self.old self.new };

    /// Child `j` of a row, the first being 0.
    fn child(&mut self, row: Row, j: u32) -> Row
        requires may { may_read self.old row }
        requires below { j < length (children self.old row) }
        ensures child { slice_get (children self.old row) j ≡ Some result }
        ensures same { same self.old self.new };

    ghost same_as_itself: { (g : Self) → same g g };

    ghost same_in_turn: { (g h i : Self) → same g h → same h i → same g i };

    ghost same_children: { (g h : Self) → same g h → (r : Row) → children h r ≡ children g r };

    ghost same_reading: { (g h : Self) → same g h → (r : Row) → may_read g r → may_read h r };
}
