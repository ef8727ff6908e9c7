//! Texts and sizes of terms in a small store.

ghost use Rattle.std.specs.Prelude.{◌≡◌, ◌<◌, ◌≤◌, true, false, length};
ghost use Rattle.term_model.specs.declared.Head.TheVariants.{App, Int, Nil, Cons};
ghost use Rattle.terms_api.specs.Terms.{trees};
ghost use Rattle.term_text.specs.Trials.{IsTried, is_list};

use plain_store::PlainStore;
use std::alloc::Global;
use std::test::Fail;
use symbol_pool::{PoolFault, Symbols};
use term_model::{Head, Symbol};
use term_text::{Memory, Printed, SizeMarks, TermSizes, sizes, stack_sizes, write_rec};
use terms_api::Terms;

/// How the next tree comes onto the stack.
#[derive(Clone, Copy)]
enum Step {
    /// A name over so many trees.
    Name(&'static [u8], u32),
    Int(u64),
    Nil,
    Cons,
    /// The last tree once more.
    Again,
}

/// Goes inside with an empty stack.
pub(crate) fn begin<T: Terms>(terms: &mut T, symbols: &Symbols)
    requires outside { (T.store terms.old).inside ≡ false }
    requires widest { 3 ≤ (T.store terms.old).widest }
    requires rows { (T.store terms.old).rows ≤ 100 }
    ensures { IsTried symbols.now (T.store terms.new) }
{
    terms.enter();
    terms.keep(0, 0);
}

/// Builds a symbol over the last trees, if there are so many.
pub(crate) fn build_symbol<T: Terms>(
    terms: &mut T,
    symbols: &Symbols,
    symbol: Symbol,
    n: u32,
) -> bool
    requires tried { IsTried symbols.now (T.store terms.old) }
    requires held { symbol.0 < length symbols.now }
    ensures { IsTried symbols.now (T.store terms.new) }
{
    if n > 3 || terms.depth() < n {
        return false;
    }
    terms.build(Head::App(symbol), n).is_ok()
}

fn build_name<T: Terms>(terms: &mut T, symbols: &Symbols, name: &[u8], n: u32) -> bool
    requires { IsTried symbols.now (T.store terms.old) }
    ensures { IsTried symbols.now (T.store terms.new) }
{
    match symbols.find(name, n) {
        Some(symbol) => build_symbol(terms, symbols, symbol, n),
        None => false,
    }
}

pub(crate) fn build_integer<T: Terms>(terms: &mut T, symbols: &Symbols, value: u64) -> bool
    requires { IsTried symbols.now (T.store terms.old) }
    ensures { IsTried symbols.now (T.store terms.new) }
{
    terms.build(Head::Int(value), 0).is_ok()
}

pub(crate) fn build_empty<T: Terms>(terms: &mut T, symbols: &Symbols) -> bool
    requires { IsTried symbols.now (T.store terms.old) }
    ensures { IsTried symbols.now (T.store terms.new) }
{
    terms.build(Head::Nil, 0).is_ok()
}

/// Builds a cell over the last two trees, if the second is a list.
pub(crate) fn build_cell<T: Terms>(terms: &mut T, symbols: &Symbols) -> bool
    requires { IsTried symbols.now (T.store terms.old) }
    ensures { IsTried symbols.now (T.store terms.new) }
{
    let depth = terms.depth();
    if depth < 2 {
        return false;
    }
    let top = terms.at(depth - 1);
    if !is_list(terms.head(top)) {
        return false;
    }
    terms.build(Head::Cons, 2).is_ok()
}

fn is_list(head: Head) -> bool
    ensures { result ≡ is_list head }
{
    matches!(head, Head::Nil | Head::Cons)
}

/// Puts the last tree onto the stack once more.
fn push_again<T: Terms>(terms: &mut T, symbols: &Symbols) -> bool
    requires { IsTried symbols.now (T.store terms.old) }
    ensures { IsTried symbols.now (T.store terms.new) }
{
    let depth = terms.depth();
    if depth == 0 {
        return false;
    }
    let top = terms.at(depth - 1);
    terms.push(top).is_ok()
}

fn build_step<T: Terms>(terms: &mut T, symbols: &Symbols, step: Step) -> bool
    requires { IsTried symbols.now (T.store terms.old) }
    ensures { IsTried symbols.now (T.store terms.new) }
{
    match step {
        Step::Name(name, n) => build_name(terms, symbols, name, n),
        Step::Int(value) => build_integer(terms, symbols, value),
        Step::Nil => build_empty(terms, symbols),
        Step::Cons => build_cell(terms, symbols),
        Step::Again => push_again(terms, symbols),
    }
}

/// Takes all steps, and says whether each was possible.
fn build<T: Terms>(terms: &mut T, symbols: &Symbols, steps: &[Step]) -> bool
    requires { IsTried symbols.now (T.store terms.old) }
    ensures { IsTried symbols.now (T.store terms.new) }
{
    let mut all = true;
    for step in steps {
        all &= build_step(terms, symbols, *step);
    }
    all
}

/// Builds a tree of so many levels over the last tree, each node over twice the same tree.
fn double<T: Terms>(terms: &mut T, symbols: &Symbols, levels: u32) -> bool
    requires { IsTried symbols.now (T.store terms.old) }
    ensures { IsTried symbols.now (T.store terms.new) }
{
    let mut all = true;
    for _level in 0..levels {
        all &= push_again(terms, symbols) && build_name(terms, symbols, b"p", 2);
    }
    all
}

/// Writes the last tree, if there is one.
fn write_last<T: Terms>(
    terms: &mut T,
    symbols: &Symbols,
    limit: u64,
    out: &mut Vec<u8>,
) -> Result<Option<Printed>, Memory>
    requires { IsTried symbols.now (T.store terms.old) }
{
    let depth = terms.depth();
    if depth == 0 {
        return Ok(None);
    }
    let top = terms.at(depth - 1);
    let printed = write_rec(terms, symbols, top, limit, out)?;
    Ok(Some(printed))
}

/// How large the last tree is.
fn sizes_of_last<T: Terms>(terms: &mut T, marks: &mut SizeMarks) -> Option<TermSizes>
    requires inside { (T.store terms.old).inside ≡ true }
    requires room { (T.store terms.old).rows ≤ marks.old }
    ensures unchanged { T.store terms.new ≡ T.store terms.old }
    ensures room { marks.new ≡ marks.old }
{
    let depth = terms.depth();
    if depth == 0 {
        return None;
    }
    let top = terms.at(depth - 1);
    Some(sizes(terms, top, marks))
}

/// What came of writing a term after the bytes `> `.
#[derive(Drop)]
struct Written {
    printed: Printed,
    out: Vec<u8>,
}

impl Written {
    fn is_too_large(&self) -> bool {
        matches!(self.printed, Printed::TooLarge)
    }
}

/// Writes the last of the trees that the steps build, under so many levels of nodes over twice it.
fn write_steps(
    alloc: Global,
    symbols: &Symbols,
    steps: &[Step],
    levels: u32,
    limit: u64,
) -> Result<Option<Written>, Memory> {
    let mut store = PlainStore::new(alloc, 100, 10, 3)?;
    begin(&mut store, symbols);
    if !build(&mut store, symbols, steps) || !double(&mut store, symbols, levels) {
        return Ok(None);
    }
    let mut out = Vec::from_slice(alloc, b"> ")?;
    match write_last(&mut store, symbols, limit, &mut out)? {
        Some(printed) => Ok(Some(Written { printed, out })),
        None => Ok(None),
    }
}

/// How large the last of those trees is, as found with room that was used before.
fn measure_steps(
    alloc: Global,
    symbols: &Symbols,
    steps: &[Step],
    levels: u32,
) -> Result<Option<TermSizes>, Memory> {
    let mut store = PlainStore::new(alloc, 100, 10, 3)?;
    begin(&mut store, symbols);
    if !build(&mut store, symbols, steps) || !double(&mut store, symbols, levels) {
        return Ok(None);
    }
    let mut marks = SizeMarks::new(alloc, 100)?;
    let _ = sizes_of_last(&mut store, &mut marks);
    Ok(sizes_of_last(&mut store, &mut marks))
}

/// How large the trees of the stack are that the steps build.
fn measure_stack(
    alloc: Global,
    symbols: &Symbols,
    steps: &[Step],
) -> Result<Option<TermSizes>, Memory> {
    let mut store = PlainStore::new(alloc, 100, 10, 3)?;
    begin(&mut store, symbols);
    if !build(&mut store, symbols, steps) {
        return Ok(None);
    }
    let mut marks = SizeMarks::new(alloc, 100)?;
    Ok(Some(stack_sizes(&mut store, &mut marks)))
}

/// A pool with the names of these tests.
fn names(alloc: Global) -> Result<Symbols, PoolFault> {
    let mut symbols = Symbols::new(alloc);
    for (name, arity) in NAMES {
        symbols.intern(name, arity)?;
    }
    Ok(symbols)
}

static NAMES: [(&[u8], u32); 7] = [
    (b"a", 0),
    (b"b c", 0),
    (b"z", 0),
    (b"g", 1),
    (b"f", 2),
    (b"p", 2),
    (b"h", 3),
];

const A: Step = Step::Name(b"a", 0);

const B: Step = Step::Name(b"b c", 0);

const Z: Step = Step::Name(b"z", 0);

const G: Step = Step::Name(b"g", 1);

const F: Step = Step::Name(b"f", 2);

const H: Step = Step::Name(b"h", 3);

const ONE: Step = Step::Int(1);

const NIL: Step = Step::Nil;

const CONS: Step = Step::Cons;

/// How a term is built, its text after the bytes `> `, and how many nodes it has.
static TEXTS: [(&[Step], &str, u64); 14] = [
    (&[A], "> a", 1),
    (&[A, B, F], "> f(a,b c)", 3),
    (&[A, G, B, F], "> f(g(a),b c)", 4),
    (&[A, B, G, Z, H], "> h(a,g(b c),z)", 5),
    (&[A, G, G, G], "> g(g(g(a)))", 4),
    (&[Step::Int(0)], "> 0", 1),
    (
        &[Step::Int(18_446_744_073_709_551_615)],
        "> 18446744073709551615",
        1,
    ),
    (&[NIL], "> []", 1),
    (&[ONE, NIL, CONS], "> [1]", 3),
    (&[ONE, Step::Int(20), NIL, CONS, CONS], "> [1,20]", 5),
    (&[NIL, ONE, NIL, CONS, NIL, CONS, CONS], "> [[],[1]]", 7),
    (&[A, ONE, NIL, CONS, CONS, NIL, F], "> f([a,1],[])", 7),
    (&[B, NIL, CONS, G], "> g([b c])", 4),
    (&[A, B, F, Step::Again, F], "> f(f(a,b c),f(a,b c))", 7),
];

fn texts() -> &'static [(&'static [Step], &'static str, u64)] {
    &TEXTS
}

/// Whether exactly the text is written where there may be so many nodes.
fn is_written(
    alloc: Global,
    symbols: &Symbols,
    steps: &[Step],
    limit: u64,
    text: &str,
) -> Result<bool, Memory> {
    match write_steps(alloc, symbols, steps, 0, limit)? {
        Some(term) => Ok(!term.is_too_large() && term.out.as_slice() == text.as_bytes()),
        None => Ok(false),
    }
}

/// Whether nothing is written since there may be only so many nodes.
fn is_refused(
    alloc: Global,
    symbols: &Symbols,
    steps: &[Step],
    limit: u64,
) -> Result<bool, Memory> {
    match write_steps(alloc, symbols, steps, 0, limit)? {
        Some(term) => Ok(term.is_too_large() && term.out.len() == 2),
        None => Ok(false),
    }
}

#[test]
fn a_term_is_written_unless_it_has_more_nodes_than_the_limit(rt: HostRuntime) -> Result<(), Fail> {
    let symbols = names(rt.alloc())?;
    for (steps, text, nodes) in texts() {
        let refused = is_refused(rt.alloc(), &symbols, steps, nodes.saturating_sub(1))?;
        assert!(rt; refused, "{text}");
        let written = is_written(rt.alloc(), &symbols, steps, *nodes, text)?;
        assert!(rt; written, "{text}");
    }
    Ok(())
}

/// Levels of nodes over twice one tree, and then the different subtrees and the nodes.
static DOUBLED: [(u32, u64, u64); 6] = [
    (0, 1, 1),
    (1, 2, 3),
    (19, 20, 1_048_575),
    (20, 21, 2_097_151),
    (63, 64, 18_446_744_073_709_551_615),
    (64, 65, 18_446_744_073_709_551_615),
];

#[test]
fn a_shared_part_is_one_subtree_and_counts_wherever_it_stands(rt: HostRuntime) -> Result<(), Fail> {
    let symbols = names(rt.alloc())?;
    for (levels, distinct, nodes) in DOUBLED {
        let sizes = measure_steps(rt.alloc(), &symbols, &[Z], levels)?.ok_or("not built")?;
        assert_eq!(rt; sizes.distinct, distinct);
        assert_eq!(rt; sizes.nodes, nodes);
    }
    Ok(())
}

/// Levels of nodes over twice one tree, and the bytes that are written with at most 2^20 nodes.
static HUGE: [(u32, usize); 3] = [(19, 2_621_438), (20, 2), (64, 2)];

#[test]
fn a_huge_shared_tree_is_too_large(rt: HostRuntime) -> Result<(), Fail> {
    let symbols = names(rt.alloc())?;
    for (levels, bytes) in HUGE {
        let term = write_steps(rt.alloc(), &symbols, &[Z], levels, 1_048_576)?.ok_or("not built")?;
        assert_eq!(rt; term.out.len(), bytes);
    }
    Ok(())
}

/// How a stack is built, and then the different subtrees and the nodes of its trees.
static STACKS: [(&[Step], u64, u64); 4] = [
    (&[], 0, 0),
    (&[A, Step::Again, Step::Again], 1, 3),
    (&[A, B, F, A, A, F], 4, 6),
    (
        &[
            ONE,
            Step::Int(2),
            G,
            NIL,
            CONS,
            CONS,
            NIL,
            NIL,
            ONE,
            NIL,
            CONS,
            CONS,
        ],
        8,
        12,
    ),
];

fn stacks() -> &'static [(&'static [Step], u64, u64)] {
    &STACKS
}

#[test]
fn the_trees_of_a_stack_are_counted_together(rt: HostRuntime) -> Result<(), Fail> {
    let symbols = names(rt.alloc())?;
    for (steps, distinct, nodes) in stacks() {
        let sizes = measure_stack(rt.alloc(), &symbols, steps)?.ok_or("not built")?;
        assert_eq!(rt; sizes.distinct, *distinct);
        assert_eq!(rt; sizes.nodes, *nodes);
    }
    Ok(())
}
