// What the workers need before they begin.
ghost use Rattle.std.specs.Prelude.{◌≡◌, ℕ, ◌+◌, ◌-◌, ◌<◌, ◌≤◌, IfOk, OnOk, length};
ghost use Rattle.worker_crew.specs.Crews.{IsAt, IsUncut, IsCrew};

use crate::draws::{Draws, Extent, Seat, cut, draws_of};
use crate::gather::blank_lines;
use crate::{Share, Traced};
use faults::Memory;
use std::alloc::Global;

/// The draws, the seat to which all others are joined in the end, a share for each worker, and a
/// place for each line.
#[derive(Drop)]
pub struct Crew {
    pub draws: Draws,
    pub all: Seat,
    pub shares: Vec<Share>,
    pub lines: Vec<Traced>,
}

// A share for each worker, cut off a seat that has drawn nothing.
fn shares_of(
    alloc: Global,
    draws: &Draws,
    all: &mut Seat,
    workers: u32,
) -> Result<Vec<Share>, Memory>
    requires all { IsUncut draws.now.shared.table_id all.old.table_id all.old.me all.old.me.0 }
    requires enough { workers ≤ all.old.me.0.shares }
    ensures count { IfOk result (λ v. length v.items ≡ workers) }
    ensures shares { IfOk result (λ v. (k : ℕ) → k < workers
        → IsAt draws.now.shared.table_id all.old.me.0.end k v.items) }
    ensures all { IsUncut draws.now.shared.table_id all.new.table_id all.new.me all.new.me.0 }
    ensures left { OnOk result (all.new.me.0.shares + workers ≡ all.old.me.0.shares) }
{
    let mut shares = Vec::with_capacity(alloc, workers as usize)?;
    'workers: for worker in 0..workers {
        shares.push(Share {
            worker,
            seat: cut(draws, all),
            lines: Vec::new(alloc),
            end: Ok(()),
        })?;
    }
    Ok(shares)
}

/// A crew of so many workers for so many terms.
pub fn crew_of(alloc: Global, workers: u32, terms: u32) -> Result<Crew, Memory>
    ensures { IfOk result (IsCrew workers terms) }
{
    let about = Extent {
        shares: workers as u64,
        end: terms as u64,
    };
    let (draws, mut all) = draws_of(alloc, &about)?;
    let shares = shares_of(alloc, &draws, &mut all, workers)?;
    let lines = blank_lines(alloc, terms as usize)?;
    Ok(Crew {
        draws,
        all,
        shares,
        lines,
    })
}
