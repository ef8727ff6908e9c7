//! Builds the terms of a text.
ghost use Rattle.std.specs.Prelude.{◌≡◌, ◌≤◌, [], true, List, IfOk, OnOk, length};
ghost use Rattle.symbol_pool.specs.Pool.{Named};
ghost use Rattle.terms_api.specs.Terms.{trees};
ghost use Rattle.term_building.specs.declared.builder.Stage.TheVariants as stage;
ghost use Rattle.term_building.specs.Built.{IsBuilt};
ghost use Rattle.term_building.specs.Copying.{copied};
ghost use Rattle.term_building.specs.Reached.{HasPassed};
ghost use Rattle.term_building.specs.Ready.{IsReady, state_in};

use crate::builder::{Builder, Stage};
use crate::given_up::GivenUp;
use crate::lines::Lines;
use std::alloc::Global;
use terms_api::Terms;

// Takes all tokens of the text.
fn run<T: Terms>(alloc: Global, text: &[u8], most: u32, store: &mut T) -> Result<Builder, GivenUp>
    requires inside { (T.store store.old).inside ≡ true }
    requires wide { most ≤ (T.store store.old).widest }
    requires cells { 2 ≤ (T.store store.old).widest }
    requires empty { trees (T.store store.old) ≡ [] }
    ensures passed { IfOk result (λ b.
        HasPassed text.now (length text.now) (state_in b (T.store store.new))) }
    ensures ready { IfOk result (IsReady (T.store store.new)) }
    ensures same { OnOk result (T.same store.old store.new) }
{
    let mut builder = Builder::start(alloc, text, most)?;
    let mut at = 0;
    while at < text.len() {
        match builder.pass(alloc, text, at, store) {
            Ok(after) => at = after,
            Err(cause) => {
                // Dropped by name: one step of the proof; `?` takes one for each of its lists.
                drop(builder);
                return Err(cause);
            }
        }
    }
    Ok(builder)
}

// What was written and copied, where the text may end here.
fn written(alloc: Global, mut builder: Builder, text: &[u8]) -> Result<Vec<u8>, GivenUp>
    ensures stage { OnOk result (builder.stage ≡ stage.Settled) }
    ensures groups { OnOk result (builder.groups ≡ []) }
    ensures written { IfOk result (λ lines. lines.items ≡ copied text.now (length text.now)
        builder.lines.written.items builder.lines.from) }
{
    match builder.stage {
        Stage::Settled if builder.groups.is_empty() => {
            let lines = builder.lines.whole(alloc, text);
            drop(builder);
            Ok(lines?)
        }
        _ => {
            drop(builder);
            Err(GivenUp::Otherwise)
        }
    }
}

/// Builds the terms that the text spells, one after another on the empty stack of a store, and
/// gives their canonical lines. Gives up where the text is refused, or a symbol has more arguments
/// than `most`, or the store is full, too small or worn, or there is no memory. Then nothing is
/// said of the store: it may be inside, with trees on its stack.
pub fn build_text<T: Terms>(
    alloc: Global,
    text: &[u8],
    most: u32,
    store: &mut T,
) -> Result<Vec<u8>, GivenUp>
    requires inside { (T.store store.old).inside ≡ true }
    requires wide { most ≤ (T.store store.old).widest }
    requires cells { 2 ≤ (T.store store.old).widest }
    requires empty { trees (T.store store.old) ≡ [] }
    ensures built { IfOk result (λ lines. (symbols : List Named)
        × IsBuilt text.now symbols (trees (T.store store.new)) lines.items) }
    ensures inside { OnOk result ((T.store store.new).inside ≡ true) }
    ensures same { OnOk result (T.same store.old store.new) }
{
    let mut builder = run(alloc, text, most, store)?;
    match builder.settle_last(alloc, text, store) {
        Ok(()) => {}
        Err(cause) => {
            drop(builder);
            return Err(cause);
        }
    }
    let lines = written(alloc, builder, text)?;
    Ok(lines)
}
