//! Reads of a row that the pass may use: its head, its count of arguments, and its arguments. Each
//! takes one atomic step, or two where it reads an integer; none of them takes memory or waits.
ghost use Rattle.std.specs.Prelude.{◌≡◌, ◌⊎◌, ◌<◌, ◌≤◌, ◌+◌, true, Some, [], ◌∷◌, length, get_or};
ghost use Rattle.term_model.specs.Tree.{Tree, Leaf, root, arguments};
ghost use Rattle.store_model.specs.ByView.{KnowsWord};
ghost use Rattle.store_model.specs.Machine.{In, knowing, widest};
ghost use Rattle.store_model.specs.declared.view.Place.TheVariants.{RowWord};
ghost use Rattle.store_model.specs.Shown.{index_of, in_table};
ghost use Rattle.node_rows.specs.Belonging.{IsSamePass};
ghost use Rattle.node_rows.specs.Told.{view_of};
ghost use Rattle.node_rows.specs.Inside.{IsInside};
ghost use Rattle.node_rows.specs.Steps.{with_store};
ghost use Rattle.node_rows.specs.Knowing.{KnowsTree};
ghost use Rattle.term_create.specs.Read.{Reads, ReadsChild, HasArgument, word, head_words};

use hash_buckets::INTEGER;
use node_rows::{Pass, Store, read_argument, read_word, row_of, word_in};
use store_model::Sizes;
use term_model::{Head, Row, Symbol};

// The symbol word of the empty list.
const EMPTY_LIST: u64 = INTEGER + 1;

/// Where a row begins that the pass may use: the place of its symbol word.
pub fn start_of(store: &Store, pass: &Pass, row: Row) -> usize
    requires inside { IsInside store.now pass.now }
    requires uses { In row.0 (view_of pass.now).store.got }
    ensures { result ≡ index_of store.now.sizes (RowWord row.0 0) }
{
    word_in(store, row.0 as u64, 0)
}

// The place of word k of a row that begins here. What it is a row of only the proof reads.
fn place_of(_store: &Store, _pass: &Pass, _row: Row, start: usize, k: usize) -> usize
    requires inside { IsInside _store.now _pass.now }
    requires uses { In _row.0 (view_of _pass.now).store.got }
    requires start { start ≡ index_of _store.now.sizes (RowWord _row.0 0) }
    requires within { k < widest _store.now.sizes + 2 }
    ensures word { result ≡ index_of _store.now.sizes (RowWord _row.0 k) }
    ensures there { in_table _store.now.sizes (RowWord _row.0 k) ≡ true }
{
    start + k
}

// Loads word k of a row that the pass may use, and that begins here.
fn read(store: &Store, pass: &mut Pass, row: Row, start: usize, k: u64) -> u64
    requires inside { IsInside store.now pass.old }
    requires uses { In row.0 (view_of pass.old).store.got }
    requires start { start ≡ index_of store.now.sizes (RowWord row.0 0) }
    requires may { (k < 2)
        ⊎ ((k ≡ 2) × KnowsWord row.0 0 4294967296 (view_of pass.old).store.knows) }
    ensures inside { IsInside store.now pass.new }
    ensures same { IsSamePass pass.old pass.new }
    ensures view { view_of pass.new ≡ with_store (view_of pass.old)
        (knowing (view_of pass.old).store row.0 k result) }
{
    let place = place_of(store, pass, row, start, k as usize);
    read_word(&store.table, &mut pass.seat, place, row.0 as u64, k)
}

// A count of arguments, for which a row has room.
fn narrow(sizes: &Sizes, count: u64) -> u32
    requires { count ≤ widest sizes.now }
    ensures { result ≡ count }
{
    prove!(count <= u64::from(sizes.arity.max(2)));
    count as u32
}

/// The head of a row that the pass may use, and that begins here: exactly that of its tree, where
/// the pass knows the tree.
pub fn head_at(store: &Store, pass: &mut Pass, row: Row, start: usize) -> Head
    requires inside { IsInside store.now pass.old }
    requires uses { In row.0 (view_of pass.old).store.got }
    requires start { start ≡ index_of store.now.sizes (RowWord row.0 0) }
    ensures inside { IsInside store.now pass.new }
    ensures same { IsSamePass pass.old pass.new }
    ensures reads { Reads (view_of pass.old) (view_of pass.new) (head_words row.0 result) }
    ensures tree { (t : Tree) → KnowsTree (view_of pass.old).store.knows row.0 t
        → root t ≡ Some result }
{
    let word = read(store, pass, row, start, 0);
    if word < INTEGER {
        Head::App(Symbol(word as u32))
    } else if word == INTEGER {
        Head::Int(read(store, pass, row, start, 2))
    } else if word == EMPTY_LIST {
        Head::Nil
    } else {
        Head::Cons
    }
}

/// How many arguments a row has that the pass may use, and that begins here: exactly as many as its
/// tree, where the pass knows the tree.
pub fn count_at(store: &Store, pass: &mut Pass, row: Row, start: usize) -> u32
    requires inside { IsInside store.now pass.old }
    requires uses { In row.0 (view_of pass.old).store.got }
    requires start { start ≡ index_of store.now.sizes (RowWord row.0 0) }
    ensures inside { IsInside store.now pass.new }
    ensures same { IsSamePass pass.old pass.new }
    ensures reads { Reads (view_of pass.old) (view_of pass.new) (word row.0 1 result ∷ []) }
    ensures within { result ≤ widest store.now.sizes }
    ensures tree { (t : Tree) → KnowsTree (view_of pass.old).store.knows row.0 t
        → length (arguments t) ≡ result }
{
    let count = read(store, pass, row, start, 1);
    narrow(&store.sizes, count)
}

/// The row of argument `j` of a row that the pass may use, and that begins here; the pass may use
/// it then. It is exactly the row of that subtree, where the pass knows the tree. The pass has to
/// know the count of arguments, which `count_at` reads.
pub fn child_at(store: &Store, pass: &mut Pass, row: Row, start: usize, j: u32) -> Row
    requires inside { IsInside store.now pass.old }
    requires uses { In row.0 (view_of pass.old).store.got }
    requires start { start ≡ index_of store.now.sizes (RowWord row.0 0) }
    requires argument { HasArgument (view_of pass.old).store.knows row.0 j }
    ensures inside { IsInside store.now pass.new }
    ensures same { IsSamePass pass.old pass.new }
    ensures reads { ReadsChild (view_of pass.old) (view_of pass.new) row.0 j result.0 }
    ensures tree { (t : Tree) → KnowsTree (view_of pass.old).store.knows row.0 t
        → KnowsTree (view_of pass.new).store.knows result.0 (get_or (arguments t) j (Leaf 0)) }
{
    let number = row.0 as u64;
    let place = place_of(store, pass, row, start, j as usize + 2);
    let child = read_argument(&store.table, &mut pass.seat, place, number, j as u64);
    row_of(&store.sizes, child)
}

/// The head of a row that the pass may use, as `head_at` reads it.
pub fn head_of(store: &Store, pass: &mut Pass, row: Row) -> Head
    requires inside { IsInside store.now pass.old }
    requires uses { In row.0 (view_of pass.old).store.got }
    ensures inside { IsInside store.now pass.new }
    ensures same { IsSamePass pass.old pass.new }
    ensures reads { Reads (view_of pass.old) (view_of pass.new) (head_words row.0 result) }
    ensures tree { (t : Tree) → KnowsTree (view_of pass.old).store.knows row.0 t
        → root t ≡ Some result }
{
    let start = start_of(store, pass, row);
    head_at(store, pass, row, start)
}

/// How many arguments a row has that the pass may use, as `count_at` reads it.
pub fn count_of(store: &Store, pass: &mut Pass, row: Row) -> u32
    requires inside { IsInside store.now pass.old }
    requires uses { In row.0 (view_of pass.old).store.got }
    ensures inside { IsInside store.now pass.new }
    ensures same { IsSamePass pass.old pass.new }
    ensures reads { Reads (view_of pass.old) (view_of pass.new) (word row.0 1 result ∷ []) }
    ensures within { result ≤ widest store.now.sizes }
    ensures tree { (t : Tree) → KnowsTree (view_of pass.old).store.knows row.0 t
        → length (arguments t) ≡ result }
{
    let start = start_of(store, pass, row);
    count_at(store, pass, row, start)
}

/// The row of argument `j` of a row that the pass may use, as `child_at` reads it.
pub fn child_of(store: &Store, pass: &mut Pass, row: Row, j: u32) -> Row
    requires inside { IsInside store.now pass.old }
    requires uses { In row.0 (view_of pass.old).store.got }
    requires argument { HasArgument (view_of pass.old).store.knows row.0 j }
    ensures inside { IsInside store.now pass.new }
    ensures same { IsSamePass pass.old pass.new }
    ensures reads { ReadsChild (view_of pass.old) (view_of pass.new) row.0 j result.0 }
    ensures tree { (t : Tree) → KnowsTree (view_of pass.old).store.knows row.0 t
        → KnowsTree (view_of pass.new).store.knows result.0 (get_or (arguments t) j (Leaf 0)) }
{
    let start = start_of(store, pass, row);
    child_at(store, pass, row, start, j)
}
