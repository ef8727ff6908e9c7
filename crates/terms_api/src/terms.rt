// What every store of terms offers.
ghost use Rattle.std.specs.Prelude.{◌≡◌, ◌+◌, ◌<◌, ◌≤◌, ◌↔◌, Option, Some, All, Result, OnOk, OnErr, IsErr, IsErrOf, true, false, false, [], ◌∷◌, ◌++◌, length, slice_get};
ghost use Rattle.term_model.specs.Tree.{arguments, root};
ghost use Rattle.terms_api.specs.Terms.{Store, IsHeld, IsSound, tree_at, Entered, Left, Breathed, pushed, pushed_all, kept, MayBuild, Built, NotBuilt, NeedsPlace, IsCrowded, CountsRefusal, trees, but_last, asked};

use term_model::{Head, Row};

/// All places of the stack are in use.
#[derive(Clone, Copy, Debug, PartialEq, Eq)]
pub struct Deep;

/// Why nothing was built.
#[derive(Clone, Copy, Debug, PartialEq, Eq)]
pub enum BuildFault {
    /// A tree without arguments needs a place of the stack, and all are in use.
    Deep,
    /// Every row has a tree that is still protected, and none of them is the asked one.
    StoreFull,
    /// The numbers of the store are used up.
    Worn,
}

/// A store of maximally shared terms, as one caller sees it. It is used between `enter` and
/// `leave`. What stands on its stack of rows, with all that can be reached from there, keeps its
/// rows; other rows may be lost at `enter`, at `breathe` and by builds. No call takes memory.
pub trait Terms {
    /// Its rows, trees, stack and numbers.
    ghost store: { Self → Store };

    /// It is the same store and the same caller.
    ghost same: { Self → Self → Type 0 };

    /// Goes inside. Rows that can't be reached from the stack may be lost.
    fn enter(&mut self)
        requires { (store self.old).inside ≡ false }
        ensures entered { Entered (store self.old) (store self.new) }
        ensures trees { trees (store self.new) ≡ trees (store self.old) }
        ensures was_sound { IsSound (store self.old) }
        ensures sound { IsSound (store self.new) }
        ensures same { same self.old self.new };

    /// Goes outside. The stack's trees stay under their rows.
    fn leave(&mut self)
        requires { (store self.old).inside ≡ true }
        ensures left { Left (store self.old) (store self.new) }
        ensures trees { trees (store self.new) ≡ trees (store self.old) }
        ensures was_sound { IsSound (store self.old) }
        ensures sound { IsSound (store self.new) }
        ensures same { same self.old self.new };

    /// Goes outside and comes back, so that others may collect.
    fn breathe(&mut self)
        requires { (store self.old).inside ≡ true }
        ensures breathed { Breathed (store self.old) (store self.new) }
        ensures trees { trees (store self.new) ≡ trees (store self.old) }
        ensures was_sound { IsSound (store self.old) }
        ensures sound { IsSound (store self.new) }
        ensures same { same self.old self.new };

    /// How many places of the stack are in use.
    fn depth(&self) -> u32
        ensures depth { result ≡ length (store self.now).stack }
        ensures sound { IsSound (store self.now) };

    /// How many places the stack has.
    fn room(&self) -> u32
        requires { (store self.now).inside ≡ true }
        ensures room { result ≡ (store self.now).room }
        ensures sound { IsSound (store self.now) };

    /// The row at place `i`, the lowest being 0.
    fn at(&mut self, i: u32) -> Row
        requires inside { (store self.old).inside ≡ true }
        requires place { i < length (store self.old).stack }
        ensures row { slice_get (store self.old).stack i ≡ Some result }
        ensures unchanged { store self.new ≡ store self.old }
        ensures sound { IsSound (store self.new) }
        ensures same { same self.old self.new };

    /// The head of a held row's tree.
    fn head(&mut self, row: Row) -> Head
        requires inside { (store self.old).inside ≡ true }
        requires held { IsHeld (store self.old) row }
        ensures head { root (tree_at (store self.old) row) ≡ Some result }
        ensures unchanged { store self.new ≡ store self.old }
        ensures sound { IsSound (store self.new) }
        ensures same { same self.old self.new };

    /// How many arguments a held row's tree has.
    fn count(&mut self, row: Row) -> u32
        requires inside { (store self.old).inside ≡ true }
        requires held { IsHeld (store self.old) row }
        ensures count { result ≡ length (arguments (tree_at (store self.old) row)) }
        ensures unchanged { store self.new ≡ store self.old }
        ensures sound { IsSound (store self.new) }
        ensures same { same self.old self.new };

    /// The row of argument `j` of a held row's tree, the first being 0.
    fn child(&mut self, row: Row, j: u32) -> Row
        requires inside { (store self.old).inside ≡ true }
        requires held { IsHeld (store self.old) row }
        requires below { j < length (arguments (tree_at (store self.old) row)) }
        ensures held { IsHeld (store self.old) result }
        ensures tree { slice_get (arguments (tree_at (store self.old) row)) j
            ≡ Some (tree_at (store self.old) result) }
        ensures unchanged { store self.new ≡ store self.old }
        ensures sound { IsSound (store self.new) }
        ensures same { same self.old self.new };

    /// The head of a held row's tree, and how many arguments it has.
    fn node(&mut self, row: Row) -> (Head, u32)
        requires inside { (store self.old).inside ≡ true }
        requires held { IsHeld (store self.old) row }
        ensures head { root (tree_at (store self.old) row) ≡ Some result.0 }
        ensures count { result.1 ≡ length (arguments (tree_at (store self.old) row)) }
        ensures unchanged { store self.new ≡ store self.old }
        ensures sound { IsSound (store self.new) }
        ensures same { same self.old self.new }
    {
        let head = self.head(row);
        let count = self.count(row);
        (head, count)
    }

    /// The rows of both arguments of a held row's tree that has two.
    fn pair(&mut self, row: Row) -> (Row, Row)
        requires inside { (store self.old).inside ≡ true }
        requires held { IsHeld (store self.old) row }
        requires two { length (arguments (tree_at (store self.old) row)) ≡ 2 }
        ensures held { IsHeld (store self.old) result.0 × IsHeld (store self.old) result.1 }
        ensures first { slice_get (arguments (tree_at (store self.old) row)) 0
            ≡ Some (tree_at (store self.old) result.0) }
        ensures second { slice_get (arguments (tree_at (store self.old) row)) 1
            ≡ Some (tree_at (store self.old) result.1) }
        ensures unchanged { store self.new ≡ store self.old }
        ensures sound { IsSound (store self.new) }
        ensures same { same self.old self.new }
    {
        let first = self.child(row, 0);
        let second = self.child(row, 1);
        (first, second)
    }

    /// Puts a held row on top of the stack.
    fn push(&mut self, row: Row) -> Result<(), Deep>
        requires inside { (store self.old).inside ≡ true }
        requires held { IsHeld (store self.old) row }
        ensures ok { OnOk result (store self.new ≡ pushed (store self.old) row) }
        ensures deep { IsErr result ↔ (length (store self.old).stack ≡ (store self.old).room) }
        ensures err { OnErr result (store self.new ≡ store self.old) }
        ensures was_sound { IsSound (store self.old) }
        ensures sound { IsSound (store self.new) }
        ensures same { same self.old self.new };

    /// Puts a held row on top of the stack, which has a free place.
    fn put(&mut self, row: Row)
        requires inside { (store self.old).inside ≡ true }
        requires held { IsHeld (store self.old) row }
        requires place { length (store self.old).stack < (store self.old).room }
        ensures pushed { store self.new ≡ pushed (store self.old) row }
        ensures was_sound { IsSound (store self.old) }
        ensures sound { IsSound (store self.new) }
        ensures same { same self.old self.new }
    {
        let _ = self.push(row);
    }

    /// Replaces the top `n` places by the row of the tree of the head over them. Equal trees have
    /// one row. A symbol stands over any trees, an integer and the empty list over none, and a cell
    /// over two, the second being a list.
    fn build(&mut self, head: Head, n: u32) -> Result<(), BuildFault>
        requires inside { (store self.old).inside ≡ true }
        requires may { MayBuild (store self.old) head n }
        ensures ok { OnOk result (Built (store self.old) (store self.new) head n) }
        ensures trees { OnOk result (trees (store self.new)
            ≡ but_last n (trees (store self.old)) ++ asked (store self.old) head n ∷ []) }
        ensures err { OnErr result (NotBuilt (store self.old) (store self.new) head n) }
        ensures err_trees { OnErr result (trees (store self.new) ≡ trees (store self.old)) }
        ensures deep { IsErrOf result BuildFault.Deep ↔ NeedsPlace (store self.old) n }
        ensures store_full_only_where_crowded { IsErrOf result BuildFault.StoreFull
            → IsCrowded (store self.old) (store self.new) head n }
        ensures worn_only_where_spent { IsErrOf result BuildFault.Worn
            → (store self.new).spent ≡ true }
        ensures was_sound { IsSound (store self.old) }
        ensures refusals { CountsRefusal result (store self.old) (store self.new) }
        ensures sound { IsSound (store self.new) }
        ensures same { same self.old self.new };

    /// Puts the row of the tree of the head over these rows on top of the stack, which has a free
    /// place for each of the rows. It is what pushing the rows one after another and building over
    /// them comes to, also where nothing is built: then the rows lie on top.
    fn build_of(&mut self, head: Head, rows: &[Row]) -> Result<(), BuildFault>
        requires inside { (store self.old).inside ≡ true }
        requires held { All (IsHeld (store self.old)) rows.now }
        requires places { length (store self.old).stack + length rows.now ≤ (store self.old).room }
        requires may { MayBuild (pushed_all (store self.old) rows.now) head (length rows.now) }
        ensures ok { OnOk result (Built (pushed_all (store self.old) rows.now) (store self.new)
            head (length rows.now)) }
        ensures trees { OnOk result (trees (store self.new) ≡ trees (store self.old)
            ++ asked (pushed_all (store self.old) rows.now) head (length rows.now) ∷ []) }
        ensures err { OnErr result (NotBuilt (pushed_all (store self.old) rows.now) (store self.new)
            head (length rows.now)) }
        ensures err_trees { OnErr result (trees (store self.new)
            ≡ trees (pushed_all (store self.old) rows.now)) }
        ensures deep { IsErrOf result BuildFault.Deep
            ↔ NeedsPlace (pushed_all (store self.old) rows.now) (length rows.now) }
        ensures store_full_only_where_crowded { IsErrOf result BuildFault.StoreFull
            → IsCrowded (pushed_all (store self.old) rows.now) (store self.new)
            head (length rows.now) }
        ensures worn_only_where_spent { IsErrOf result BuildFault.Worn
            → (store self.new).spent ≡ true }
        ensures was_sound { IsSound (store self.old) }
        ensures refusals { CountsRefusal result (store self.old) (store self.new) }
        ensures sound { IsSound (store self.new) }
        ensures same { same self.old self.new }
    {
        let _ = self.depth();
        for row in rows {
            let _ = self.push(*row);
        }
        self.build(head, rows.len() as u32)
    }

    /// Builds as `build` does, without a collection or a wait, or else does nothing, and says
    /// whether it built. A store may always say no, as here; `build` may do it then.
    fn try_build(&mut self, head: Head, n: u32) -> bool
        requires inside { (store self.old).inside ≡ true }
        requires may { MayBuild (store self.old) head n }
        ensures ok { result ≡ true → Built (store self.old) (store self.new) head n }
        ensures trees { result ≡ true → trees (store self.new)
            ≡ but_last n (trees (store self.old)) ++ asked (store self.old) head n ∷ [] }
        ensures unchanged { result ≡ false → store self.new ≡ store self.old }
        ensures was_sound { IsSound (store self.old) }
        ensures refusals { (store self.new).refusals ≡ (store self.old).refusals }
        ensures sound { IsSound (store self.new) }
        ensures same { same self.old self.new }
    {
        let _ = self.depth();
        false
    }

    /// Builds as `build_of` does, without a collection or a wait, or else does nothing, and says
    /// whether it built. A store may always say no; `build_of` may do it then.
    fn try_build_of(&mut self, head: Head, rows: &[Row]) -> bool
        requires inside { (store self.old).inside ≡ true }
        requires held { All (IsHeld (store self.old)) rows.now }
        requires places { length (store self.old).stack + length rows.now ≤ (store self.old).room }
        requires may { MayBuild (pushed_all (store self.old) rows.now) head (length rows.now) }
        ensures ok { result ≡ true → Built (pushed_all (store self.old) rows.now) (store self.new)
            head (length rows.now) }
        ensures trees { result ≡ true → trees (store self.new) ≡ trees (store self.old)
            ++ asked (pushed_all (store self.old) rows.now) head (length rows.now) ∷ [] }
        ensures unchanged { result ≡ false → store self.new ≡ store self.old }
        ensures was_sound { IsSound (store self.old) }
        ensures refusals { (store self.new).refusals ≡ (store self.old).refusals }
        ensures sound { IsSound (store self.new) }
        ensures same { same self.old self.new }
    {
        let below = self.depth();
        for row in rows {
            let _ = self.push(*row);
        }
        if self.try_build(head, rows.len() as u32) {
            return true;
        }
        self.keep(below, 0);
        false
    }

    /// Leaves the lowest `from` and the last `top` places of the stack.
    fn keep(&mut self, from: u32, top: u32)
        requires inside { (store self.old).inside ≡ true }
        requires places { from + top ≤ length (store self.old).stack }
        ensures kept { store self.new ≡ kept (store self.old) from top }
        ensures was_sound { IsSound (store self.old) }
        ensures sound { IsSound (store self.new) }
        ensures same { same self.old self.new };

    /// A number that rises when a row is lost. Without one nothing may be remembered by its row.
    fn epoch(&self) -> Option<u64>
        requires { (store self.now).inside ≡ true }
        ensures epoch { result ≡ (store self.now).epoch }
        ensures sound { IsSound (store self.now) };

    /// A store is the same as itself.
    ghost same_as_itself: { (s : Self) → same s s };

    ghost same_in_turn: { (s t u : Self) → same s t → same t u → same s u };
}
