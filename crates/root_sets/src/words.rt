//! Each step on the words of a pass's protected rows.
ghost use Rattle.std.specs.Prelude.{◌≡◌, ◌⊎◌, ◌<◌, ◌≤◌, ℕ, get_or};
ghost use Rattle.store_model.specs.Machine.{In, with_got, rooted, root_counted};
ghost use Rattle.node_rows.specs.Belonging.{IsSamePass};
ghost use Rattle.node_rows.specs.Told.{view_of};
ghost use Rattle.node_rows.specs.Inside.{IsInside};
ghost use Rattle.node_rows.specs.Steps.{with_store};

use node_rows::{Pass, Store, root_count_word, root_word};

// Loads protected row k.
pub(crate) fn load_root(store: &Store, pass: &mut Pass, k: u32) -> u64
    requires inside { IsInside store.now pass.old }
    requires below { k < pass.old.root_count }
    ensures inside { IsInside store.now pass.new }
    ensures same { IsSamePass pass.old pass.new }
    ensures count { pass.new.root_count ≡ pass.old.root_count }
    ensures view { view_of pass.new ≡ with_store (view_of pass.old)
        (with_got (view_of pass.old).store result) }
    ensures row { result ≡ get_or (view_of pass.old).store.roots k 0 }
{
    let word = root_word(&store.sizes, pass.seat.number, k as u64);
    node_rows::load_root(&store.table, &mut pass.seat, word, k as u64)
}

// Stores a row that the pass may use as protected row k.
pub(crate) fn set_root(store: &Store, pass: &mut Pass, k: u32, row: u64)
    requires inside { IsInside store.now pass.old }
    requires below { k < store.now.sizes.depth }
    requires uses { In row (view_of pass.old).store.got }
    ensures inside { IsInside store.now pass.new }
    ensures same { IsSamePass pass.old pass.new }
    ensures count { pass.new.root_count ≡ pass.old.root_count }
    ensures view { view_of pass.new ≡ with_store (view_of pass.old)
        (rooted (view_of pass.old).store k row) }
{
    let word = root_word(&store.sizes, pass.seat.number, k as u64);
    node_rows::store_root(&store.table, &mut pass.seat, word, k as u64, row);
}

// Stores how many rows are protected.
pub(crate) fn set_count(store: &Store, pass: &mut Pass, count: u32)
    requires inside { IsInside store.now pass.old }
    requires few { count ≤ store.now.sizes.depth }
    requires uses { (k : ℕ) → k < count → (k < (view_of pass.old).store.root_count)
        ⊎ In (get_or (view_of pass.old).store.roots k 0) (view_of pass.old).store.got }
    ensures inside { IsInside store.now pass.new }
    ensures same { IsSamePass pass.old pass.new }
    ensures count { pass.new.root_count ≡ count }
    ensures view { view_of pass.new ≡ with_store (view_of pass.old)
        (root_counted (view_of pass.old).store count) }
{
    let word = root_count_word(&store.sizes, pass.seat.number);
    node_rows::store_root_count(&store.table, &mut pass.seat, word, count as u64);
    pass.root_count = count;
}
