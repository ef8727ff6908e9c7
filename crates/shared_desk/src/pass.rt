//! The calls of the shared store, as one pass of it sees them.
ghost use Rattle.std.specs.Prelude.{◌≡◌, ◌⊎◌, ◌<◌, ◌≤◌, Some, OnOk, OnErr, IfOk, All, true, false, length, slice_get};
ghost use Rattle.term_model.specs.Tree.{arguments, root};
ghost use Rattle.terms_api.specs.Terms.{IsHeld, IsSound, tree_at};
ghost use Rattle.std.specs.Prelude.{◌↔◌, ℕ, List, Option, IsTrue, Contains};
ghost use Rattle.node_rows.specs.Told.{last_in};
ghost use Rattle.node_rows.specs.Crowding.{kept_in};
ghost use Rattle.shared_desk.specs.Pass.{PassView, own, IsWorn, Arrived, left, MayCreate, Got, Swept, IsFilled};

use node_rows::Last;
use sweep_phase::{Kept, Worn};
use term_create::Full;
use term_model::{Head, Row};

/// A pass of a shared store.
pub trait SharedPass {
    /// What it knows.
    ghost view: { Self → PassView };

    /// The log that it writes; None where it is lost, or where it writes none.
    ghost log: { Self → Option (List ℕ) };

    /// Enters shared access. Rows that the protected ones don't reach may be lost where the base is
    /// a later one.
    fn enter_shared(&mut self)
        requires shared { (view self.old).shared ≡ false }
        requires alone { (view self.old).alone ≡ false }
        ensures arrived { Arrived (view self.old) (view self.new) }
        ensures shared { (view self.new).shared ≡ true }
        ensures alone { (view self.new).alone ≡ false }
        ensures sound { IsSound (own (view self.new)) };

    /// Ends shared access, and notes the protected rows, which the caller names.
    fn leave_shared(&mut self, rows: &[Row])
        requires shared { (view self.old).shared ≡ true }
        requires roots { (view self.old).roots ≡ rows.now }
        ensures { view self.new ≡ left (view self.old) };

    /// Enters exclusive access; rows may be lost as in `enter_shared`.
    fn enter_exclusive(&mut self)
        requires shared { (view self.old).shared ≡ false }
        requires alone { (view self.old).alone ≡ false }
        ensures arrived { Arrived (view self.old) (view self.new) }
        ensures shared { (view self.new).shared ≡ false }
        ensures alone { (view self.new).alone ≡ true }
        ensures sound { IsSound (own (view self.new)) };

    /// Ends exclusive access, and notes the protected rows, which the caller names.
    fn leave_exclusive(&mut self, rows: &[Row])
        requires alone { (view self.old).alone ≡ true }
        requires roots { (view self.old).roots ≡ rows.now }
        ensures { view self.new ≡ left (view self.old) };

    /// Makes the protected rows these, each of the own list.
    fn store_roots(&mut self, rows: &[Row])
        requires access { ((view self.old).shared ≡ true) ⊎ ((view self.old).alone ≡ true) }
        requires held { All (IsHeld (own (view self.old))) rows.now }
        requires room { length rows.now ≤ (view self.old).depth }
        ensures { view self.new ≡ record (view self.old) { roots = rows.now } };

    /// Creates a head over rows of the own list, in shared access. Nothing has changed after
    /// `Full`.
    fn create(&mut self, head: Head, rows: &[Row]) -> Result<Row, Full>
        requires shared { (view self.old).shared ≡ true }
        requires may { MayCreate (view self.old) head rows.now }
        ensures got { IfOk result (Got (view self.old) (view self.new) head rows.now) }
        ensures full { OnErr result (view self.new ≡ view self.old) }
        ensures sound { IsSound (own (view self.new)) };

    /// Collects, in exclusive access, where the protected rows are those of the last Roots. `Worn`
    /// comes only where the base leaves no room for two epochs more; nothing has changed then.
    fn collect(&mut self) -> Result<Kept, Worn>
        requires alone { (view self.old).alone ≡ true }
        requires roots { (view self.old).roots ≡ (view self.old).noted }
        ensures swept { OnOk result (Swept (view self.old) (view self.new)) }
        ensures unchanged { OnErr result (view self.new ≡ view self.old) }
        ensures worn { OnErr result (IsWorn (view self.old)) }
        ensures sound { IsSound (own (view self.new)) };

    /// Creates after a collection of this access. `Full` comes only where the collection kept as
    /// many trees as there are rows, and this one isn't among them; nothing has changed then.
    fn create_exclusive(&mut self, head: Head, rows: &[Row]) -> Result<Row, Full>
        requires alone { (view self.old).alone ≡ true }
        requires fresh { (view self.old).fresh ≡ true }
        requires may { MayCreate (view self.old) head rows.now }
        ensures got { IfOk result (Got (view self.old) (view self.new) head rows.now) }
        ensures unchanged { OnErr result (view self.new ≡ view self.old) }
        ensures full { OnErr result (IsFilled (view self.old) head rows.now) }
        ensures sound { IsSound (own (view self.new)) };

    /// The head of a row of the own list.
    fn head(&mut self, row: Row) -> Head
        requires shared { (view self.old).shared ≡ true }
        requires held { IsHeld (own (view self.old)) row }
        ensures head { root (tree_at (own (view self.old)) row) ≡ Some result }
        ensures unchanged { view self.new ≡ view self.old };

    /// How many arguments a row of the own list has.
    fn count(&mut self, row: Row) -> u32
        requires shared { (view self.old).shared ≡ true }
        requires held { IsHeld (own (view self.old)) row }
        ensures count { result ≡ length (arguments (tree_at (own (view self.old)) row)) }
        ensures unchanged { view self.new ≡ view self.old };

    /// The row of argument `j` of a row of the own list.
    fn child(&mut self, row: Row, j: u32) -> Row
        requires shared { (view self.old).shared ≡ true }
        requires held { IsHeld (own (view self.old)) row }
        requires below { j < length (arguments (tree_at (own (view self.old)) row)) }
        ensures held { IsHeld (own (view self.old)) result }
        ensures tree { slice_get (arguments (tree_at (own (view self.old)) row)) j
            ≡ Some (tree_at (own (view self.old)) result) }
        ensures unchanged { view self.new ≡ view self.old };

    /// The head of a row of the own list, and how many arguments it has.
    fn node(&mut self, row: Row) -> (Head, u32)
        requires shared { (view self.old).shared ≡ true }
        requires held { IsHeld (own (view self.old)) row }
        ensures head { root (tree_at (own (view self.old)) row) ≡ Some result.0 }
        ensures count { result.1 ≡ length (arguments (tree_at (own (view self.old)) row)) }
        ensures unchanged { view self.new ≡ view self.old };

    /// The rows of both arguments of a row of the own list whose tree has two.
    fn pair(&mut self, row: Row) -> (Row, Row)
        requires shared { (view self.old).shared ≡ true }
        requires held { IsHeld (own (view self.old)) row }
        requires two { length (arguments (tree_at (own (view self.old)) row)) ≡ 2 }
        ensures held { IsHeld (own (view self.old)) result.0
            × IsHeld (own (view self.old)) result.1 }
        ensures first { slice_get (arguments (tree_at (own (view self.old)) row)) 0
            ≡ Some (tree_at (own (view self.old)) result.0) }
        ensures second { slice_get (arguments (tree_at (own (view self.old)) row)) 1
            ≡ Some (tree_at (own (view self.old)) result.1) }
        ensures unchanged { view self.new ≡ view self.old };

    /// Whether another pass has asked for exclusive access. It is a hint, of which no clause says
    /// anything.
    fn is_asked(&self) -> bool;

    /// Whether it is better to go outside than to collect, since another pass is about to collect.
    /// It is a hint as well.
    fn gives_way(&self) -> bool {
        false
    }

    /// The base that was loaded or stored last.
    fn base(&self) -> u64
        requires { ((view self.now).shared ≡ true) ⊎ ((view self.now).alone ≡ true) }
        ensures { result ≡ (view self.now).base };

    /// Its last entry.
    fn last(&self) -> Last
        ensures { result ≡ last_in (view self.now).entries };

    /// Whether its last collection kept the row.
    fn kept(&self, row: Row) -> bool
        ensures { IsTrue result ↔ Contains (kept_in (view self.now).entries) row.0 };

    /// How many rows the store has.
    fn rows(&self) -> u32
        ensures { result ≡ (view self.now).rows };

    /// How many rows may be protected.
    fn depth(&self) -> u32
        ensures { result ≡ (view self.now).depth };
}
