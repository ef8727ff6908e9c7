//! The protected rows of a pass that keeps its stack in plain memory.
ghost use Rattle.std.specs.Prelude.{◌≡◌, ◌<◌, ◌≤◌, IsTrue, length, get_or, set, take};
ghost use Rattle.store_model.specs.Machine.{In, Each, protected_in};
ghost use Rattle.node_rows.specs.Belonging.{IsSamePass};
ghost use Rattle.node_rows.specs.Told.{view_of};
ghost use Rattle.node_rows.specs.Inside.{IsInside};
ghost use Rattle.node_rows.specs.Rows.{names};
ghost use Rattle.root_sets.specs.Protected.{Keeps};

use crate::words::{load_root, set_count, set_root};
use node_rows::{Pass, Store};
use store_model::Sizes;
use term_model::Row;

// Whether protected row k is this one.
fn has_root(store: &Store, pass: &mut Pass, k: u32, row: u64) -> bool
    requires inside { IsInside store.now pass.old }
    ensures inside { IsInside store.now pass.new }
    ensures same { IsSamePass pass.old pass.new }
    ensures count { pass.new.root_count ≡ pass.old.root_count }
    ensures roots { (view_of pass.new).store.roots ≡ (view_of pass.old).store.roots }
    ensures has { IsTrue result → get_or (view_of pass.old).store.roots k 0 ≡ row }
    ensures keeps { Keeps (view_of pass.old) (view_of pass.new) }
{
    if k >= pass.root_count {
        return false;
    }
    load_root(store, pass, k) == row
}

// Makes protected row k this one, by a store where it is another.
fn put_root(store: &Store, pass: &mut Pass, k: u32, row: u64)
    requires inside { IsInside store.now pass.old }
    requires below { k < store.now.sizes.depth }
    requires uses { In row (view_of pass.old).store.got }
    ensures inside { IsInside store.now pass.new }
    ensures same { IsSamePass pass.old pass.new }
    ensures count { pass.new.root_count ≡ pass.old.root_count }
    ensures roots { (view_of pass.new).store.roots ≡ set (view_of pass.old).store.roots k row }
    ensures keeps { Keeps (view_of pass.old) (view_of pass.new) }
{
    if has_root(store, pass, k, row) {
        return;
    }
    set_root(store, pass, k, row);
}

// How many rows these are, of which the store has room for each.
fn count_rows(sizes: &Sizes, rows: &[Row]) -> u32
    requires { length rows.now ≤ sizes.now.depth }
    ensures { result ≡ length rows.now }
{
    rows.len().min(sizes.depth as usize) as u32
}

// Makes the first protected rows these.
fn put_roots(store: &Store, pass: &mut Pass, rows: &[Row])
    requires inside { IsInside store.now pass.old }
    requires few { length rows.now ≤ store.now.sizes.depth }
    requires uses { Each (λ r. In r (view_of pass.old).store.got) (names rows.now) }
    ensures inside { IsInside store.now pass.new }
    ensures same { IsSamePass pass.old pass.new }
    ensures count { pass.new.root_count ≡ pass.old.root_count }
    ensures roots { take (length rows.now) (view_of pass.new).store.roots ≡ names rows.now }
    ensures keeps { Keeps (view_of pass.old) (view_of pass.new) }
{
    for k in 0..count_rows(&store.sizes, rows) {
        put_root(store, pass, k, rows[k as usize].0 as u64);
    }
}

/// Makes the protected rows exactly these, at most as many as the store has room for, each of which
/// the pass may use: stores those that differ, and then the count.
pub fn store_roots(store: &Store, pass: &mut Pass, rows: &[Row])
    requires inside { IsInside store.now pass.old }
    requires few { length rows.now ≤ store.now.sizes.depth }
    requires uses { Each (λ r. In r (view_of pass.old).store.got) (names rows.now) }
    ensures inside { IsInside store.now pass.new }
    ensures same { IsSamePass pass.old pass.new }
    ensures rows { protected_in (view_of pass.new).store ≡ names rows.now }
    ensures keeps { Keeps (view_of pass.old) (view_of pass.new) }
{
    put_roots(store, pass, rows);
    set_count(store, pass, count_rows(&store.sizes, rows));
}
