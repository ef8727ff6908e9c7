//! How a creation ends: with a row, or with Full.
ghost use Rattle.std.specs.Prelude.{◌≡◌, ◌+◌, ◌++◌, max, OnOk};
ghost use Rattle.store_model.specs.Calls.{words_of};
ghost use Rattle.history_core.specs.declared.entry.Entry.TheVariants.{Make, Find};
ghost use Rattle.store_model.specs.Machine as machine;
ghost use Rattle.store_model.specs.declared.view.Content.{Content};
ghost use Rattle.store_model.specs.declared.view.Call.TheVariants.{Counting, Drawing, Publishing};

use crate::machine::contents::words_of;
use crate::machine::copies::copy_path;
use crate::machine::moves::{narrow, set_call, sum};
use crate::machine::stages::arrived;
use faults::Memory;
use history_core::Entry;
use std::collections::LinkedList;
use store_model::{Call, Content, KnownWord, Refusal, View};

// Puts the words of row r before those that are known already.
#[tactic(auto, using(crate::proofs::Contents::known_more, crate::proofs::Contents::known_none))]
fn put_words(known: &mut LinkedList<KnownWord>, row: u32, words: &[u64]) -> Result<(), Memory>
    ensures { OnOk result (known.new ≡ machine.words_known row 0 words.now ++ known.old) }
{
    let mut word = words.len();
    while word > 0 {
        word -= 1;
        known.push_front(KnownWord {
            row,
            word: narrow(word as u64)?,
            value: words[word],
        })?;
    }
    Ok(())
}

// A creation ends with a row.
fn gain(view: &mut View, words: &[u64], row: u32, number: u64, entry: Entry) -> Result<(), Memory>
    ensures { (c : Content) → words_of c ≡ words.now
        → OnOk result (view.new ≡ machine.gained view.old c row number entry) }
{
    view.entries.push_back(entry)?;
    view.got.push_front(row)?;
    put_words(&mut view.knows, row, words)?;
    set_call(view, Call::Idle);
    view.seen = view.seen.max(number);
    Ok(())
}

// A creation ends with Full.
fn refuse(
    view: &mut View,
    content: Content,
    head: u32,
    claim: u64,
    count: u64,
) -> Result<(), Memory>
    ensures { OnOk result (view.new ≡ machine.refusing view.old content head claim count) }
{
    let path = copy_path(&view.path)?;
    view.refused.push_back(Refusal {
        content,
        head,
        path,
        claim,
        count,
    })?;
    set_call(view, Call::Idle);
    Ok(())
}

// A creation ends with Full by a draw past the free count.
fn overdraw(
    view: &mut View,
    content: Content,
    head: u32,
    claim: u64,
    count: u64,
) -> Result<(), Memory>
    ensures { OnOk result (view.new ≡ machine.overdrawn view.old content head claim count) }
{
    refuse(view, content, head, claim, count)?;
    view.overdraw = Some(view.base);
    Ok(())
}

/// The birth number of an equal row was loaded.
pub(crate) fn after_found(
    view: &mut View,
    content: Content,
    row: u32,
    word: u64,
) -> Result<(), Memory>
    ensures { OnOk result
        (view.new ≡ machine.gained view.old content row word
        (Find (max view.old.seen word) content.head content.arguments row)) }
{
    let words = words_of(&content)?;
    let entry = Entry::Find {
        after: view.seen.max(word),
        head: content.head,
        args: content.arguments,
        row,
    };
    gain(view, words.as_slice(), row, word, entry)
}

/// The free count was loaded.
pub(crate) fn after_counted(
    view: &mut View,
    content: Content,
    from: u32,
    claim: u64,
    word: u64,
) -> Result<(), Memory>
    ensures { OnOk result
        (view.new ≡ (machine.action view.old (Counting content from claim)).moved word) }
{
    if claim < word {
        set_call(view, Call::Drawing(content, from, word));
        return Ok(());
    }
    refuse(view, content, from, claim, word)
}

/// The claim was drawn.
pub(crate) fn after_drawn(
    view: &mut View,
    content: Content,
    from: u32,
    count: u64,
    word: u64,
) -> Result<(), Memory>
    ensures { OnOk result
        (view.new ≡ (machine.action view.old (Drawing content from count)).moved word) }
{
    if word >= count {
        return overdraw(view, content, from, word, count);
    }
    set_call(view, Call::Placing(content, from, narrow(word)?));
    Ok(())
}

// The bucket's head was exchanged for the own row.
fn after_exchange(view: &mut View, content: Content, index: u32, row: u32) -> Result<(), Memory>
    ensures { OnOk result (view.new ≡ machine.gained view.old content row (view.old.base + index)
        (Make (view.old.base + index) content.head content.arguments row)) }
{
    let number = sum(view.base, index)?;
    let words = words_of(&content)?;
    let entry = Entry::Make {
        number,
        head: content.head,
        args: content.arguments,
        row,
    };
    gain(view, words.as_slice(), row, number, entry)
}

/// The bucket's head was exchanged for the own row, or another head was found there.
pub(crate) fn after_published(
    view: &mut View,
    content: Content,
    from: u32,
    index: u32,
    row: u32,
    word: u64,
) -> Result<(), Memory>
    ensures { OnOk result
        (view.new ≡ (machine.action view.old (Publishing content from index row)).moved word) }
{
    if word == u64::from(from) {
        return after_exchange(view, content, index, row);
    }
    let found = narrow(word)?;
    set_call(
        view,
        arrived(content, Some((index, row)), found, from, found),
    );
    Ok(())
}
