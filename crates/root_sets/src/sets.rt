//! Calls on the protected rows of a pass. Each is made in shared or exclusive access, and none
//! takes memory or waits.
ghost use Rattle.std.specs.Prelude.{◌≡◌, ◌<◌, ◌≤◌, ◌+◌, ◌-◌, ◌↔◌, [], ◌∷◌, ◌++◌, IfOk, IfErr, IsErr, length, get_or, set};
ghost use Rattle.store_model.specs.Machine.{In, with_got, protected_in};
ghost use Rattle.node_rows.specs.Belonging.{IsSamePass};
ghost use Rattle.node_rows.specs.Told.{view_of};
ghost use Rattle.node_rows.specs.Inside.{IsInside};
ghost use Rattle.node_rows.specs.Steps.{with_store};
ghost use Rattle.root_sets.specs.Protected.{Keeps, Moved, ends_of};

use crate::words::{load_root, set_count, set_root};
use node_rows::{Pass, Store, row_of};
use term_model::Row;
use terms_api::Deep;

/// Protects a row that the pass may use, after the others. `Deep` comes exactly where as many rows
/// are protected as the store has room for; nothing has changed then.
pub fn push_root(store: &Store, pass: &mut Pass, row: Row) -> Result<(), Deep>
    requires inside { IsInside store.now pass.old }
    requires uses { In row.0 (view_of pass.old).store.got }
    ensures inside { IsInside store.now pass.new }
    ensures same { IsSamePass pass.old pass.new }
    ensures rows { IfOk result (λ _. protected_in (view_of pass.new).store
        ≡ protected_in (view_of pass.old).store ++ row.0 ∷ []) }
    ensures deep { IsErr result
        ↔ (length (protected_in (view_of pass.old).store) ≡ store.now.sizes.depth) }
    ensures unchanged { IfErr result (λ _. view_of pass.new ≡ view_of pass.old) }
    ensures keeps { Keeps (view_of pass.old) (view_of pass.new) }
{
    if pass.root_count == store.sizes.depth {
        return Err(Deep);
    }
    let count = pass.root_count;
    set_root(store, pass, count, row.0 as u64);
    set_count(store, pass, count + 1);
    Ok(())
}

/// The i-th protected row, which the pass may use then.
pub fn root_at(store: &Store, pass: &mut Pass, i: u32) -> Row
    requires inside { IsInside store.now pass.old }
    requires below { i < length (protected_in (view_of pass.old).store) }
    ensures inside { IsInside store.now pass.new }
    ensures same { IsSamePass pass.old pass.new }
    ensures row { result.0 ≡ get_or (protected_in (view_of pass.old).store) i 0 }
    ensures gets { view_of pass.new ≡ with_store (view_of pass.old)
        (with_got (view_of pass.old).store result.0) }
{
    let row = load_root(store, pass, i);
    row_of(&store.sizes, row)
}

// Copies a protected row to a place below it.
fn copy_root(store: &Store, pass: &mut Pass, k: u32, to: u32)
    requires inside { IsInside store.now pass.old }
    requires below { (k < pass.old.root_count) × (to ≤ k) }
    ensures inside { IsInside store.now pass.new }
    ensures same { IsSamePass pass.old pass.new }
    ensures count { pass.new.root_count ≡ pass.old.root_count }
    ensures roots { (view_of pass.new).store.roots ≡ set (view_of pass.old).store.roots to
        (get_or (view_of pass.old).store.roots k 0) }
    ensures keeps { Keeps (view_of pass.old) (view_of pass.new) }
{
    let row = load_root(store, pass, k);
    set_root(store, pass, to, row);
}

// Copies the last so many protected rows to the places from `from` on.
fn copy_roots(store: &Store, pass: &mut Pass, from: u32, top: u32)
    requires inside { IsInside store.now pass.old }
    requires below { from + top < pass.old.root_count }
    ensures inside { IsInside store.now pass.new }
    ensures same { IsSamePass pass.old pass.new }
    ensures count { pass.new.root_count ≡ pass.old.root_count }
    ensures moved { Moved (view_of pass.old).store.roots (view_of pass.new).store.roots
        (pass.old.root_count - top) from top }
    ensures keeps { Keeps (view_of pass.old) (view_of pass.new) }
{
    let last = pass.root_count - top;
    for k in 0..top {
        copy_root(store, pass, last + k, from + k);
    }
}

/// Keeps the lowest `from` and the last `top` of the protected rows.
pub fn keep_roots(store: &Store, pass: &mut Pass, from: u32, top: u32)
    requires inside { IsInside store.now pass.old }
    requires within { from + top ≤ length (protected_in (view_of pass.old).store) }
    ensures inside { IsInside store.now pass.new }
    ensures same { IsSamePass pass.old pass.new }
    ensures rows { let rows = protected_in (view_of pass.old).store in
        protected_in (view_of pass.new).store ≡ ends_of rows (length rows) from top }
    ensures keeps { Keeps (view_of pass.old) (view_of pass.new) }
{
    let count = pass.root_count;
    if from + top == count {
        return;
    }
    copy_roots(store, pass, from, top);
    set_count(store, pass, from + top);
}
