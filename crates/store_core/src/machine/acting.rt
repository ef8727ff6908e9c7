//! The steps of a creation under way.
ghost use Rattle.std.specs.Prelude.{◌≡◌, ◌↔◌, ◌+◌, IfOk, IsTrue};
ghost use Rattle.store_model.specs.Words.{same_place};
ghost use Rattle.store_model.specs.Machine as machine;
ghost use Rattle.store_model.specs.StoreSteps.{act, row_place, Loads};
ghost use Rattle.store_core.specs.NextActs.{act_of};
ghost use Rattle.store_core.specs.Planning.{PlansIf};

use crate::machine::change::{Change, Sight};
use crate::machine::contents::{bucket_of, word_at, words_of};
use crate::machine::creation::{move_on, place_of, written};
use crate::machine::moves::sum;
use faults::Memory;
use store_model::{Call, Place, Sizes, View};

/// What the next action of a creation does to its word.
#[derive(Drop)]
pub(crate) enum NextAct {
    Loads(Place),
    Stores(Place, u64),
    /// The claim is taken, and is then one more.
    Draws,
    /// The new word takes the place of the old one, if that is there.
    Exchanges(Place, u64, u64),
}

/// The next act of a creation.
fn next_act(view: &View) -> Result<NextAct, Memory>
    ensures { IfOk result (λ a. act_of a ≡ act view.now view.now.call) }
{
    match &view.call {
        Call::Idle | Call::Loading(_) | Call::Storing(_, _) => Ok(NextAct::Loads(Place::Base)),
        Call::Comparing(_, _, _, _, at, k) => Ok(NextAct::Loads(Place::RowWord(
            at.saturating_sub(1),
            *k,
        ))),
        Call::Passing(_, _, _, _, at, _) => Ok(NextAct::Loads(Place::Next(at.saturating_sub(1)))),
        Call::Finding(_, _, row) => Ok(NextAct::Loads(Place::Birth(*row))),
        Call::Ended(_, _) => Ok(NextAct::Loads(Place::Claim)),
        Call::Counting(_, _, _) => Ok(NextAct::Loads(Place::FreeCount)),
        Call::Drawing(_, _, _) => Ok(NextAct::Draws),
        Call::Placing(_, _, index) => Ok(NextAct::Loads(Place::FreePlace(*index))),
        Call::Filling(content, _, _, row, k) => Ok(NextAct::Stores(
            Place::RowWord(*row, *k),
            word_at(words_of(content)?.as_slice(), *k),
        )),
        Call::Numbering(_, _, index, row) => Ok(NextAct::Stores(
            Place::Birth(*row),
            sum(view.base, *index)?,
        )),
        Call::Linking(_, from, _, row) => Ok(NextAct::Stores(Place::Next(*row), u64::from(*from))),
        Call::Publishing(content, from, _, row) => Ok(NextAct::Exchanges(
            Place::Bucket(bucket_of(content, view.in_use)?),
            u64::from(*from),
            sum(1, *row)?,
        )),
    }
}

/// Whether two places are one.
pub(crate) fn same_place(one: &Place, other: &Place) -> bool
    ensures { result ≡ same_place one.now other.now }
{
    match (one, other) {
        (Place::Base, Place::Base)
        | (Place::FreeCount, Place::FreeCount)
        | (Place::Claim, Place::Claim)
        | (Place::InUse, Place::InUse) => true,
        (Place::FreePlace(i), Place::FreePlace(j))
        | (Place::Bucket(i), Place::Bucket(j))
        | (Place::Birth(i), Place::Birth(j))
        | (Place::Next(i), Place::Next(j))
        | (Place::RootCount(i), Place::RootCount(j)) => *i == *j,
        (Place::RowWord(r, k), Place::RowWord(q, l)) | (Place::Root(r, k), Place::Root(q, l)) => {
            *r == *q && *k == *l
        }
        _ => false,
    }
}

// Whether two acts are one.
fn same_act(one: &NextAct, other: &NextAct) -> bool
    ensures { IsTrue result ↔ (act_of one.now ≡ act_of other.now) }
{
    match (one, other) {
        (NextAct::Loads(p), NextAct::Loads(q)) => same_place(p, q),
        (NextAct::Stores(p, n), NextAct::Stores(q, m)) => same_place(p, q) && *n == *m,
        (NextAct::Draws, NextAct::Draws) => true,
        (NextAct::Exchanges(p, a, b), NextAct::Exchanges(q, c, d)) => {
            same_place(p, q) && *a == *c && *b == *d
        }
        _ => false,
    }
}

/// The place of a row's word by its number.
pub(crate) fn row_place(sizes: &Sizes, row: u32, word: u32) -> Place
    ensures { result ≡ row_place sizes.now row word }
{
    let widest = sizes.arity.max(2) as u64;
    if u64::from(word) == widest + 2 {
        Place::Birth(row)
    } else if u64::from(word) == widest + 3 {
        Place::Next(row)
    } else {
        Place::RowWord(row, word)
    }
}

/// The next action of a creation, where it is this act.
pub(crate) fn plan_act(
    sight: &Sight,
    view: &mut View,
    wanted: &NextAct,
) -> Result<Option<Change>, Memory>
    requires { view.old ≡ sight.now.view.now }
    ensures { PlansIf sight.now machine.Go
        (act sight.now.view.now sight.now.view.now.call ≡ act_of wanted.now) view.new result }
{
    let next = next_act(sight.view)?;
    if !is_creation(sight.view) || !same_act(&next, wanted) {
        return Ok(None);
    }
    let place = place_of(sight.view)?;
    let found = sight.table.load(&place);
    let word = written(sight.view, found)?;
    move_on(view, found)?;
    if word == found {
        Ok(Some(Change::of_nothing()))
    } else {
        Ok(Some(Change::of_word(place, word)))
    }
}

/// Whether a creation is under way.
pub(crate) fn is_creation(view: &View) -> bool
    ensures { IsTrue result ↔ machine.IsCreation view.now.call }
{
    match &view.call {
        Call::Idle | Call::Loading(_) | Call::Storing(_, _) => false,
        _ => true,
    }
}
