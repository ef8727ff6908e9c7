//! What a seat knows after a stage of a creation, by what it knew and the word that it found.
ghost use Rattle.std.specs.Prelude.{◌≡◌, ◌++◌, ◌∷◌, [], ◌==◌, get_or, suc, IfOk, OnOk};
ghost use Rattle.store_model.specs.Machine as machine;
ghost use Rattle.store_model.specs.Calls.{words_of};
ghost use Rattle.store_model.specs.declared.view.Call.TheVariants.{Comparing, Passing, Placing};

use crate::machine::contents::{word_at, words_of};
use crate::machine::moves::{narrow, set_call};
use faults::Memory;
use std::collections::LinkedList;
use store_model::{Call, Content, Passed, View};

// The next number.
fn next(n: u32) -> Result<u32, Memory>
    ensures { IfOk result (λ m. m ≡ suc n) }
{
    match n.checked_add(1) {
        Some(next) => Ok(next),
        None => Err(Memory),
    }
}

// The call when the walk from the head `from` has come to its end.
fn ended(content: Content, drawn: Option<(u32, u32)>, from: u32) -> Call
    ensures { result ≡ machine.ended content drawn from }
{
    match drawn {
        None => Call::Ended(content, from),
        Some((index, row)) => Call::Linking(content, from, index, row),
    }
}

// The call when the walk comes to a word of the chain.
pub(crate) fn arrived(
    content: Content,
    drawn: Option<(u32, u32)>,
    from: u32,
    old: u32,
    at: u32,
) -> Call
    ensures { result ≡ machine.arrived content drawn from old at }
{
    if at == old {
        ended(content, drawn, from)
    } else {
        Call::Comparing(content, drawn, from, old, at, 0)
    }
}

// The call after the first k + 1 words were found the same.
fn compared(
    content: Content,
    drawn: Option<(u32, u32)>,
    from: u32,
    old: u32,
    at: u32,
    k: u32,
) -> Result<Call, Memory>
    ensures { IfOk result (λ call. call ≡ machine.compared content drawn from old at k) }
{
    let after = next(k)?;
    if after as usize == words_of(&content)?.len() {
        Ok(Call::Finding(content, drawn, at.saturating_sub(1)))
    } else {
        Ok(Call::Comparing(content, drawn, from, old, at, after))
    }
}

// The call after the first k + 1 words of the own row were stored.
fn filled(content: Content, from: u32, index: u32, row: u32, k: u32) -> Result<Call, Memory>
    ensures { IfOk result (λ call. call ≡ machine.filled content from index row k) }
{
    let after = next(k)?;
    if after as usize == words_of(&content)?.len() {
        Ok(Call::Numbering(content, from, index, row))
    } else {
        Ok(Call::Filling(content, from, index, row, after))
    }
}

// The rows that the walks of the call have passed.
fn set_path(view: &mut View, passed: u32, path: LinkedList<Passed>)
    ensures { view.new ≡ machine.with_path view.old passed path }
{
    view.passed = passed;
    view.path = path;
}

/// A creation begins: the head of its bucket was loaded.
pub(crate) fn begin_walk(view: &mut View, content: Content, word: u64) -> Result<(), Memory>
    ensures { OnOk result (view.new ≡ (machine.begins view.old content).moved word) }
{
    let from = narrow(word)?;
    let path = LinkedList::new(*view.path.allocator());
    set_path(view, 0, path);
    set_call(view, arrived(content, None, from, 0, from));
    Ok(())
}

/// A word of the row that the walk is at was loaded.
pub(crate) fn after_compared(
    view: &mut View,
    content: Content,
    drawn: Option<(u32, u32)>,
    from: u32,
    old: u32,
    at: u32,
    k: u32,
    word: u64,
) -> Result<(), Memory>
    ensures { OnOk result
        (view.new
        ≡ (machine.action view.old (Comparing content drawn from old at k)).moved word) }
{
    if is_word(&content, k, word)? {
        set_call(view, compared(content, drawn, from, old, at, k)?);
    } else {
        set_call(
            view,
            Call::Passing(content, drawn, from, old, at, (k, word)),
        );
    }
    Ok(())
}

// Whether this is word k of a content.
fn is_word(content: &Content, k: u32, word: u64) -> Result<bool, Memory>
    ensures { IfOk result (λ b. b ≡ (word == get_or (words_of content.now) k 0)) }
{
    let words = words_of(content)?;
    Ok(word == word_at(words.as_slice(), k))
}

// The walk has passed one more row.
fn pass(view: &mut View, passed_row: Passed) -> Result<(), Memory>
    ensures { OnOk result
        (view.new
        ≡ machine.with_path view.old (suc view.old.passed) (view.old.path ++ passed_row ∷ [])) }
{
    let passed = next(view.passed)?;
    view.path.push_back(passed_row)?;
    view.passed = passed;
    Ok(())
}

/// The next word of the chain was loaded.
pub(crate) fn after_passed(
    view: &mut View,
    content: Content,
    drawn: Option<(u32, u32)>,
    from: u32,
    old: u32,
    at: u32,
    differs: (u32, u64),
    word: u64,
) -> Result<(), Memory>
    ensures { OnOk result
        (view.new
        ≡ (machine.action view.old (Passing content drawn from old at differs)).moved word) }
{
    let next_at = narrow(word)?;
    let passed_row = Passed {
        row: at.saturating_sub(1),
        word: differs.0,
        found: differs.1,
        next: next_at,
    };
    pass(view, passed_row)?;
    set_call(view, arrived(content, drawn, from, old, next_at));
    Ok(())
}

/// The own row was loaded from its free place.
pub(crate) fn after_placed(
    view: &mut View,
    content: Content,
    from: u32,
    index: u32,
    word: u64,
) -> Result<(), Memory>
    ensures { OnOk result
        (view.new ≡ (machine.action view.old (Placing content from index)).moved word) }
{
    let row = narrow(word)?;
    set_call(view, Call::Filling(content, from, index, row, 0));
    Ok(())
}

/// A word of the own row was stored.
pub(crate) fn after_filled(
    view: &mut View,
    content: Content,
    from: u32,
    index: u32,
    row: u32,
    k: u32,
) -> Result<(), Memory>
    ensures { OnOk result
        (view.new ≡ machine.with_call view.old (machine.filled content from index row k)) }
{
    set_call(view, filled(content, from, index, row, k)?);
    Ok(())
}
