//! The chains of the rows that are marked.
ghost use Rattle.std.specs.Prelude.{◌≡◌, ◌<◌, ◌↔◌, ℕ, IfOk, IsTrue, MatchBool, MatchOption, length, get_or};
ghost use Rattle.store_model.specs.Shown.{shown};
ghost use Rattle.store_model.specs.Words.{write};
ghost use Rattle.store_model.specs.declared.view.Place.TheVariants.{Claim, InUse};
ghost use Rattle.store_model.specs.Meaning.{Meaning};
ghost use Rattle.store_model.specs.Invariant.{ChainsHold};
ghost use Rattle.store_model.specs.MarkedChains.{AllStand, ChainsMarked, IsChain, IsSound, NotMeant, OneStrays, StandInFirst, StandsIn, UsesBuckets};

use crate::machine::marking::{are_marked, mark_rows, no_marks};
use crate::machine::row_contents::stands_in;
use crate::machine::table::Table;
use faults::Memory;
use std::alloc::Global;
use store_model::Place;

// The rows of a bucket's chain; None where it doesn't end after rows of the store, each once.
fn chain_of(alloc: Global, table: &Table, number: u32) -> Result<Option<Vec<u32>>, Memory>
    ensures { IfOk result (λ o. MatchOption o
        ((n : Meaning)
        → ChainsHold table.now.sizes (write (shown table.now.sizes table.now.words.items) Claim 0) n
        → ⊥)
        (λ v. IsChain table.now.sizes
        (shown table.now.sizes table.now.words.items) number v.items)) }
{
    let mut rows = Vec::new(alloc);
    let mut at = table.load(&Place::Bucket(number));
    while at > 0 {
        if at > u64::from(table.sizes.rows) || rows.len() >= table.sizes.rows as usize {
            return Ok(None);
        }
        let row = (at - 1) as u32;
        rows.push(row)?;
        at = table.load(&Place::Next(row));
    }
    Ok(Some(rows))
}

// Whether the contents of these rows are all of this bucket.
fn all_stand(
    alloc: Global,
    table: &Table,
    rows: &[u32],
    number: u32,
    in_use: u32,
) -> Result<bool, Memory>
    ensures { IfOk result (λ b. MatchBool b
        ((k : ℕ) → k < length rows.now
        → StandsIn (shown table.now.sizes table.now.words.items) in_use number
        (get_or rows.now k 0))
        (OneStrays table.now.sizes (shown table.now.sizes table.now.words.items)
        in_use number rows.now)) }
{
    for row in rows {
        if !stands_in(alloc, table, *row, number, in_use)? {
            return Ok(false);
        }
    }
    Ok(true)
}

// The chain of a bucket, where its rows are marked and stand in it.
fn sound_chain(
    alloc: Global,
    table: &Table,
    live: &[bool],
    number: u32,
    in_use: u32,
) -> Result<Option<Vec<u32>>, Memory>
    requires size { length live.now ≡ table.now.sizes.rows }
    requires in_use { in_use ≡ shown table.now.sizes table.now.words.items InUse }
    ensures { IfOk result (λ o. MatchOption o
        (NotMeant table.now.sizes (shown table.now.sizes table.now.words.items) live.now)
        (λ v. IsSound table.now.sizes (shown table.now.sizes table.now.words.items) live.now
        in_use number v.items)) }
{
    let Some(rows) = chain_of(alloc, table, number)? else {
        return Ok(None);
    };
    if !are_marked(live, rows.as_slice()) {
        return Ok(None);
    }
    if !all_stand(alloc, table, rows.as_slice(), number, in_use)? {
        return Ok(None);
    }
    Ok(Some(rows))
}

// Marks the rows in the chains of the buckets in use.
fn standing_rows(
    alloc: Global,
    table: &Table,
    live: &[bool],
    in_use: u32,
) -> Result<Option<Vec<bool>>, Memory>
    requires size { length live.now ≡ table.now.sizes.rows }
    requires in_use { in_use ≡ shown table.now.sizes table.now.words.items InUse }
    ensures { IfOk result (λ o. MatchOption o
        (NotMeant table.now.sizes (shown table.now.sizes table.now.words.items) live.now)
        (λ v. StandInFirst table.now.sizes (shown table.now.sizes table.now.words.items) live.now
        in_use in_use v.items)) }
{
    let mut standing = no_marks(alloc, table.sizes.rows)?;
    for number in 0..in_use {
        let Some(rows) = sound_chain(alloc, table, live, number, in_use)? else {
            return Ok(None);
        };
        mark_rows(standing.as_mut_slice(), rows.as_slice());
    }
    Ok(Some(standing))
}

// Whether each marked row stands.
fn do_all_stand(live: &[bool], standing: &[bool]) -> bool
    requires { length live.now ≡ length standing.now }
    ensures { IsTrue result ↔ AllStand live.now standing.now }
{
    for row in 0..live.len() {
        if live[row] && !standing[row] {
            return false;
        }
    }
    true
}

// The buckets in use, where the heads past them are 0.
fn buckets_in_use(table: &Table) -> Option<u32>
    ensures { MatchOption result
        (UsesBuckets table.now.sizes (shown table.now.sizes table.now.words.items) → ⊥)
        (λ u. (u ≡ shown table.now.sizes table.now.words.items InUse)
        × UsesBuckets table.now.sizes (shown table.now.sizes table.now.words.items)) }
{
    let word = table.load(&Place::InUse);
    if word == 0 || word > u64::from(table.sizes.buckets) {
        return None;
    }
    let in_use = word as u32;
    for number in in_use..table.sizes.buckets {
        if table.load(&Place::Bucket(number)) != 0 {
            return None;
        }
    }
    Some(in_use)
}

/// Whether each marked row stands in the chain of its bucket, and no other row in any.
pub(crate) fn chains_stand(alloc: Global, table: &Table, live: &[bool]) -> Result<bool, Memory>
    requires { length live.now ≡ table.now.sizes.rows }
    ensures { IfOk result (λ b. MatchBool b
        (ChainsMarked table.now.sizes (shown table.now.sizes table.now.words.items) live.now)
        (NotMeant table.now.sizes (shown table.now.sizes table.now.words.items) live.now)) }
{
    let Some(in_use) = buckets_in_use(table) else {
        return Ok(false);
    };
    let Some(standing) = standing_rows(alloc, table, live, in_use)? else {
        return Ok(false);
    };
    Ok(do_all_stand(live, standing.as_slice()))
}
