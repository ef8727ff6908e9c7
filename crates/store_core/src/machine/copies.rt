//! Copies of what a seat knows, and of its steps.
ghost use Rattle.std.specs.Prelude.{◌≡◌, IfOk};

use history_core::Entry;
use std::alloc::AllocError;
use std::collections::LinkedList;
use store_model::{Call, Content, KnownWord, Passed, Place, Refusal, StoreStep, View};

/// The rows that a seat protects, those that it got, and the words that it knows of them.
#[derive(Drop)]
struct Known {
    roots: LinkedList<u32>,
    got: LinkedList<u32>,
    knows: LinkedList<KnownWord>,
}

/// What a seat has noted.
#[derive(Drop)]
struct Noted {
    entries: LinkedList<Entry>,
    path: LinkedList<Passed>,
    refused: LinkedList<Refusal>,
}

fn copy_known(view: &View) -> Result<Known, AllocError>
    ensures roots { IfOk result (λ k. k.roots ≡ view.now.roots) }
    ensures got { IfOk result (λ k. k.got ≡ view.now.got) }
    ensures knows { IfOk result (λ k. k.knows ≡ view.now.knows) }
{
    Ok(Known {
        roots: copy_rows(&view.roots)?,
        got: copy_rows(&view.got)?,
        knows: copy_words(&view.knows)?,
    })
}

fn copy_noted(view: &View) -> Result<Noted, AllocError>
    ensures entries { IfOk result (λ n. n.entries ≡ view.now.entries) }
    ensures path { IfOk result (λ n. n.path ≡ view.now.path) }
    ensures refused { IfOk result (λ n. n.refused ≡ view.now.refused) }
{
    Ok(Noted {
        entries: copy_entries(&view.entries)?,
        path: copy_path(&view.path)?,
        refused: copy_refusals(&view.refused)?,
    })
}

/// The same view.
pub(crate) fn copy(view: &View) -> Result<View, AllocError>
    ensures { IfOk result (λ v. v ≡ view.now) }
{
    let Known { roots, got, knows } = copy_known(view)?;
    let Noted {
        entries,
        path,
        refused,
    } = copy_noted(view)?;
    Ok(View {
        call: copy_call(&view.call)?,
        stay: view.stay,
        base: view.base,
        in_use: view.in_use,
        roots,
        root_count: view.root_count,
        got,
        knows,
        seen: view.seen,
        overdraw: view.overdraw,
        entries,
        fresh: view.fresh,
        passed: view.passed,
        path,
        refused,
    })
}

fn copy_call(call: &Call) -> Result<Call, AllocError>
    ensures { IfOk result (λ c. c ≡ call.now) }
{
    match call {
        Call::Idle => Ok(Call::Idle),
        Call::Comparing(c, d, from, old, at, k) => Ok(Call::Comparing(
            copy_content(c)?,
            *d,
            *from,
            *old,
            *at,
            *k,
        )),
        Call::Passing(c, d, from, old, at, differs) => Ok(Call::Passing(
            copy_content(c)?,
            *d,
            *from,
            *old,
            *at,
            *differs,
        )),
        Call::Finding(c, d, row) => Ok(Call::Finding(copy_content(c)?, *d, *row)),
        Call::Ended(c, from) => Ok(Call::Ended(copy_content(c)?, *from)),
        Call::Counting(c, from, claim) => Ok(Call::Counting(copy_content(c)?, *from, *claim)),
        Call::Drawing(c, from, count) => Ok(Call::Drawing(copy_content(c)?, *from, *count)),
        Call::Placing(c, from, i) => Ok(Call::Placing(copy_content(c)?, *from, *i)),
        Call::Filling(c, from, i, row, k) => Ok(Call::Filling(
            copy_content(c)?,
            *from,
            *i,
            *row,
            *k,
        )),
        Call::Numbering(c, from, i, row) => Ok(Call::Numbering(copy_content(c)?, *from, *i, *row)),
        Call::Linking(c, from, i, row) => Ok(Call::Linking(copy_content(c)?, *from, *i, *row)),
        Call::Publishing(c, from, i, row) => Ok(Call::Publishing(
            copy_content(c)?,
            *from,
            *i,
            *row,
        )),
        Call::Loading(loads) => Ok(Call::Loading(copy_loads(loads)?)),
        Call::Storing(loads, stores) => Ok(Call::Storing(copy_loads(loads)?, copy_loads(stores)?)),
    }
}

fn copy_content(content: &Content) -> Result<Content, AllocError>
    ensures { IfOk result (λ c. c ≡ content.now) }
{
    content.clone()
}

pub(crate) fn copy_loads(
    loads: &LinkedList<(Place, u64)>,
) -> Result<LinkedList<(Place, u64)>, AllocError>
    ensures { IfOk result (λ l. l ≡ loads.now) }
{
    loads.clone()
}

pub(crate) fn copy_rows(rows: &LinkedList<u32>) -> Result<LinkedList<u32>, AllocError>
    ensures { IfOk result (λ r. r ≡ rows.now) }
{
    rows.clone()
}

fn copy_words(words: &LinkedList<KnownWord>) -> Result<LinkedList<KnownWord>, AllocError>
    ensures { IfOk result (λ w. w ≡ words.now) }
{
    words.clone()
}

fn copy_entries(entries: &LinkedList<Entry>) -> Result<LinkedList<Entry>, AllocError>
    ensures { IfOk result (λ e. e ≡ entries.now) }
{
    entries.clone()
}

pub(crate) fn copy_path(path: &LinkedList<Passed>) -> Result<LinkedList<Passed>, AllocError>
    ensures { IfOk result (λ p. p ≡ path.now) }
{
    path.clone()
}

fn copy_refusals(refusals: &LinkedList<Refusal>) -> Result<LinkedList<Refusal>, AllocError>
    ensures { IfOk result (λ r. r ≡ refusals.now) }
{
    refusals.clone()
}

/// The same step.
pub(crate) fn copy_step(step: &StoreStep) -> Result<StoreStep, AllocError>
    ensures { IfOk result (λ s. s ≡ step.now) }
{
    match step {
        StoreStep::Lock(step) => Ok(StoreStep::Lock(*step)),
        StoreStep::LoadBase => Ok(StoreStep::LoadBase),
        StoreStep::LoadFreeCount => Ok(StoreStep::LoadFreeCount),
        StoreStep::LoadClaim => Ok(StoreStep::LoadClaim),
        StoreStep::LoadInUse => Ok(StoreStep::LoadInUse),
        StoreStep::Draw => Ok(StoreStep::Draw),
        StoreStep::LoadFreePlace(index) => Ok(StoreStep::LoadFreePlace(*index)),
        StoreStep::StoreDrawn { row, word, value } => Ok(StoreStep::StoreDrawn {
            row: *row,
            word: *word,
            value: *value,
        }),
        StoreStep::LoadBucket { bucket, content } => Ok(StoreStep::LoadBucket {
            bucket: *bucket,
            content: copy_content(content)?,
        }),
        StoreStep::LoadRow { row, word } => Ok(StoreStep::LoadRow {
            row: *row,
            word: *word,
        }),
        StoreStep::Publish { bucket, old, new } => Ok(StoreStep::Publish {
            bucket: *bucket,
            old: *old,
            new: *new,
        }),
        StoreStep::StoreRoot { place, row } => Ok(StoreStep::StoreRoot {
            place: *place,
            row: *row,
        }),
        StoreStep::StoreRootCount(count) => Ok(StoreStep::StoreRootCount(*count)),
        StoreStep::LoadRoot(place) => Ok(StoreStep::LoadRoot(*place)),
        StoreStep::LoadAny(place) => Ok(StoreStep::LoadAny(*place)),
        StoreStep::StoreNext { row, value } => Ok(StoreStep::StoreNext {
            row: *row,
            value: *value,
        }),
        StoreStep::StoreBucket { bucket, value } => Ok(StoreStep::StoreBucket {
            bucket: *bucket,
            value: *value,
        }),
        StoreStep::StoreFreePlace { index, value } => Ok(StoreStep::StoreFreePlace {
            index: *index,
            value: *value,
        }),
        StoreStep::StoreFreeCount(value) => Ok(StoreStep::StoreFreeCount(*value)),
        StoreStep::StoreBase(value) => Ok(StoreStep::StoreBase(*value)),
        StoreStep::StoreInUse(value) => Ok(StoreStep::StoreInUse(*value)),
        StoreStep::StoreClaim(value) => Ok(StoreStep::StoreClaim(*value)),
    }
}
