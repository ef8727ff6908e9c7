// The store as its callers see it.
ghost use Rattle.std.specs.Prelude.{◌≡◌, ◌+◌, ◌-◌, ◌^◌, ◌<◌, ◌⊎◌, ◌↔◌, Option, Some, None, Result, OnOk, OnErr, IsErrOf, IsNone, IfSome, true, false, [], ◌∷◌, ◌++◌};
ghost use Rattle.terms_api.specs.Terms.{IsSound, KeepsAll, MayBuild, Entered, Breathed, Built as BuiltOf, NotBuilt, NeedsPlace, IsCrowded, CountsRefusal, trees, but_last, asked};
ghost use Rattle.plain_store.specs.Contents.{store_of, IsFilled, IsSame, LosesRow, CountsLosses, IsUsedUp};

use crate::PlainStore;
use term_model::{Head, Row};
use terms_api::{BuildFault, Deep, Terms};

impl Terms for PlainStore {
    ghost use Rattle.std.specs.Prelude.{◌≡◌};
    ghost use Rattle.plain_store.specs.Contents.{store_of, IsSame, same_itself, same_turn};

    ghost store = { store_of };

    ghost same = { IsSame };

    ghost same_as_itself = { same_itself };

    ghost same_in_turn = { same_turn };

    /// Loses no row.
    fn enter(&mut self)
        requires { (store_of self.old).inside ≡ false }
        ensures entered { Entered (store_of self.old) (store_of self.new) }
        ensures trees { trees (store_of self.new) ≡ trees (store_of self.old) }
        ensures was_sound { IsSound (store_of self.old) }
        ensures sound { IsSound (store_of self.new) }
        ensures same { IsSame self.old self.new }
        ensures inside_alone { self.new ≡ record self.old { inside = true } }
    {
        self.inside = true;
    }

    fn leave(&mut self) {
        self.inside = false;
    }

    /// There is nobody else, so nothing happens.
    fn breathe(&mut self)
        requires { (store_of self.old).inside ≡ true }
        ensures breathed { Breathed (store_of self.old) (store_of self.new) }
        ensures trees { trees (store_of self.new) ≡ trees (store_of self.old) }
        ensures was_sound { IsSound (store_of self.old) }
        ensures sound { IsSound (store_of self.new) }
        ensures same { IsSame self.old self.new }
        ensures nothing { self.new ≡ self.old }
    {
        let _ = &self.inside;
    }

    fn depth(&self) -> u32 {
        self.places.len() as u32
    }

    fn room(&self) -> u32 {
        self.room
    }

    fn at(&mut self, i: u32) -> Row {
        self.places.at(i as usize)
    }

    fn head(&mut self, row: Row) -> Head {
        self.nodes.head(row).unwrap_or(Head::Nil)
    }

    fn count(&mut self, row: Row) -> u32 {
        self.nodes.arguments(row).len() as u32
    }

    fn child(&mut self, row: Row, j: u32) -> Row {
        self.nodes.arguments(row)[j as usize]
    }

    fn push(&mut self, row: Row) -> Result<(), Deep> {
        if self.is_full() {
            return Err(Deep);
        }
        self.places.put(0, row);
        Ok(())
    }

    /// Finds the tree's row, or takes a free one, or collects and takes one that was freed. The
    /// store is full exactly where the trees under the stack fill all rows without the asked one,
    /// and its numbers never end.
    fn build(&mut self, head: Head, n: u32) -> Result<(), BuildFault>
        requires inside { (store_of self.old).inside ≡ true }
        requires may { MayBuild (store_of self.old) head n }
        ensures ok { OnOk result (BuiltOf (store_of self.old) (store_of self.new) head n) }
        ensures trees { OnOk result (trees (store_of self.new)
            ≡ but_last n (trees (store_of self.old)) ++ asked (store_of self.old) head n ∷ []) }
        ensures err { OnErr result (NotBuilt (store_of self.old) (store_of self.new) head n) }
        ensures err_trees { OnErr result (trees (store_of self.new) ≡ trees (store_of self.old)) }
        ensures deep { IsErrOf result BuildFault.Deep ↔ NeedsPlace (store_of self.old) n }
        ensures store_full_only_where_crowded { IsErrOf result BuildFault.StoreFull
            → IsCrowded (store_of self.old) (store_of self.new) head n }
        ensures worn_only_where_spent { IsErrOf result BuildFault.Worn
            → (store_of self.new).spent ≡ true }
        ensures was_sound { IsSound (store_of self.old) }
        ensures refusals { CountsRefusal result (store_of self.old) (store_of self.new) }
        ensures sound { IsSound (store_of self.new) }
        ensures same { IsSame self.old self.new }
        ensures store_full_only_where_filled { IsErrOf result BuildFault.StoreFull
            → IsFilled (store_of self.old) head n }
        ensures filled_is_store_full { IsFilled (store_of self.old) head n
            → (NeedsPlace (store_of self.old) n → ⊥) → IsErrOf result BuildFault.StoreFull }
        ensures never_worn { IsErrOf result BuildFault.Worn → ⊥ }
        ensures losses { CountsLosses self.old self.new }
        ensures rows_lost_only_where_used_up { LosesRow (store_of self.old) (store_of self.new)
            → IsUsedUp self.old head n }
    {
        let _ = self.is_full();
        self.build_tree(head, n)
    }

    /// Finds the tree's row, or takes a free one. It says no exactly where every row has a tree and
    /// none has the asked one, or where a tree without arguments finds all places in use.
    fn try_build(&mut self, head: Head, n: u32) -> bool
        requires inside { (store_of self.old).inside ≡ true }
        requires may { MayBuild (store_of self.old) head n }
        ensures ok { result ≡ true → BuiltOf (store_of self.old) (store_of self.new) head n }
        ensures trees { result ≡ true → trees (store_of self.new)
            ≡ but_last n (trees (store_of self.old)) ++ asked (store_of self.old) head n ∷ [] }
        ensures unchanged { result ≡ false → store_of self.new ≡ store_of self.old }
        ensures was_sound { IsSound (store_of self.old) }
        ensures refusals { (store_of self.new).refusals ≡ (store_of self.old).refusals }
        ensures sound { IsSound (store_of self.new) }
        ensures same { IsSame self.old self.new }
        ensures nothing { result ≡ false → self.new ≡ self.old }
        ensures no_only_where_late { result ≡ false
            → NeedsPlace (store_of self.old) n ⊎ IsUsedUp self.old head n }
        ensures no_place_is_no { NeedsPlace (store_of self.old) n → result ≡ false }
        ensures used_up_is_no { IsUsedUp self.old head n → result ≡ false }
        ensures keeps_rows { KeepsAll (store_of self.old) (store_of self.new) }
        ensures keeps_epoch { self.new.raised ≡ self.old.raised }
    {
        let _ = self.is_full();
        self.try_tree(head, n)
    }

    fn keep(&mut self, from: u32, top: u32) {
        self.places.keep_ends(from as usize, top as usize);
    }

    /// How often it was raised, and none exactly where it was raised 2^64 - 1 times.
    fn epoch(&self) -> Option<u64>
        requires { (store_of self.now).inside ≡ true }
        ensures epoch { result ≡ (store_of self.now).epoch }
        ensures sound { IsSound (store_of self.now) }
        ensures count { IfSome result (λ raised. raised ≡ self.now.raised) }
        ensures none { IsNone result ↔ (self.now.raised ≡ 2 ^ 64 - 1) }
    {
        if self.raised == u64::MAX {
            None
        } else {
            Some(self.raised)
        }
    }
}
