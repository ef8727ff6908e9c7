// A store that runs, on plain data.
ghost use Rattle.std.specs.Prelude.{◌≡◌, IfOk, OnErr, MatchBool, slice_get};
ghost use Rattle.std.specs.Option.{option_copied};
ghost use Rattle.store_model.specs.NewStore.{MaySize};
ghost use Rattle.store_core.specs.StoreValue.{state_of, IsNew, Stepped, Stayed, Replays};

use crate::machine::copies::{copy, copy_step};
use crate::machine::fresh::new_views;
use crate::machine::planning::{commit, planned};
use crate::machine::table::Table;
use faults::Memory;
use lock_core::LockState;
use std::alloc::Global;
use std::marker::Model;
use store_model::{Place, Sizes, StoreStep, View};

/// A store as plain data: its lock, its words, and what each seat knows. What holds of a store
/// after every list of steps holds of each value of this type.
#[derive(Drop)]
pub struct StoreState {
    table: Table,
    lock: LockState,
    views: Vec<View>,
}

impl Model for StoreState {
    ghost use Rattle.store_core.specs.StoreValue.{StoreValue};

    ghost Value = { StoreValue };

    ghost use Rattle.store_core.specs.StoreInside.{value_of, IsHeld};

    ghost view = { value_of };

    ghost invariant = { IsHeld };
}

impl StoreState {
    /// A new store of these sizes: all rows are free, and no seat has done anything.
    pub fn new(alloc: Global, sizes: Sizes) -> Result<StoreState, Memory>
        requires { MaySize sizes }
        ensures { IfOk result (λ store. IsNew sizes store) }
    {
        let table = Table::new(alloc, &sizes)?;
        let views = new_views(alloc, &sizes)?;
        Ok(StoreState {
            table,
            lock: LockState::new(sizes.seats),
            views,
        })
    }

    /// What a seat knows; nothing of one that isn't there.
    pub fn view(&self, seat: u32) -> Option<&View>
        ensures { option_copied result ≡ slice_get self.now.views seat }
    {
        self.views.get(seat as usize)
    }

    /// The lock.
    pub fn lock(&self) -> &LockState
        ensures { result.now ≡ self.now.lock }
    {
        &self.lock
    }

    /// The word at a place; 0 where the store hasn't got it.
    pub fn word(&self, place: Place) -> u64
        ensures { result ≡ (state_of self.now).words place }
    {
        self.table.load(&place)
    }

    /// Makes one step of a seat. False exactly where the step is out of place, as that of a seat
    /// that isn't there; the store is then as it was, and so it is where there is no memory.
    pub fn apply(&mut self, seat: u32, step: StoreStep) -> Result<bool, Memory>
        ensures step { IfOk result
            (λ made. MatchBool made (Stepped seat step self.old self.new)
            (Stayed seat step self.old self.new)) }
        ensures memory { OnErr result (self.new ≡ self.old) }
    {
        if seat >= self.table.sizes.seats {
            return Ok(false);
        }
        let mut view = copy(&self.views[seat as usize])?;
        match planned(&self.table, &self.lock, &self.views, &mut view, seat, step)? {
            None => Ok(false),
            Some(change) => {
                commit(
                    &mut self.table,
                    &mut self.lock,
                    &mut self.views,
                    seat,
                    change,
                    view,
                );
                Ok(true)
            }
        }
    }
}

/// Makes a list of steps, each of a seat, from a new store. `None` exactly where one of them is out
/// of place.
pub fn replay(
    alloc: Global,
    sizes: Sizes,
    steps: &[(u32, StoreStep)],
) -> Result<Option<StoreState>, Memory>
    requires { MaySize sizes }
    ensures { IfOk result (λ store. Replays sizes steps.now store) }
{
    let mut store = StoreState::new(alloc, sizes)?;
    for (seat, step) in steps {
        let made = store.apply(*seat, copy_step(step)?)?;
        if !made {
            return Ok(None);
        }
    }
    Ok(Some(store))
}
