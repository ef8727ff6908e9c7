// What the workers leave, put together.
ghost use Rattle.std.specs.Prelude.{◌≡◌, ℕ, ◌+◌, ◌<◌, ◌↔◌, All, Contains, Err, IfErr, IfOk, IsTrue, Some, length, map, sum_by};
ghost use Rattle.worker_crew.specs.Dealt.{IsIn, times};
ghost use Rattle.worker_crew.specs.Gathered.{DrawnOnce, HasOneShare, HasPlaces, IsCollected, IsWorst, Places, PlacesAll, end_of_share};
ghost use Rattle.worker_crew.specs.Crews.{IsUncut, drawn_of};

use crate::draws::{Draws, Seat, count_drawn, join};
use crate::{AllFault, Line, Lines, Numbered, Share, Traced};
use faults::Memory;
use line_ends::{LineKind, LineStop};
use std::alloc::Global;

// Whether a worker stopped so.
fn is_stop(share: &Share, stop: LineStop) -> bool
    ensures { IsTrue result ↔ (share.now.end ≡ Err stop) }
{
    match (share.end, stop) {
        (Err(LineStop::StoreFull), LineStop::StoreFull) => true,
        (Err(LineStop::Worn), LineStop::Worn) => true,
        (Err(LineStop::Memory), LineStop::Memory) => true,
        _ => false,
    }
}

// Whether some worker stopped so.
fn any_stops(shares: &[Share], stop: LineStop) -> bool
    ensures { IsTrue result ↔ Contains (map end_of_share shares.now) (Err stop) }
{
    'shares: for share in shares {
        if is_stop(share, stop) {
            return true;
        }
    }
    false
}

// The worst of the ends of all workers.
fn worst_of(shares: &[Share]) -> Option<AllFault>
    ensures { IsWorst (map end_of_share shares.now) result }
{
    if any_stops(shares, LineStop::Memory) {
        Some(AllFault::Memory)
    } else if any_stops(shares, LineStop::Worn) {
        Some(AllFault::Worn)
    } else if any_stops(shares, LineStop::StoreFull) {
        Some(AllFault::StoreFull)
    } else {
        None
    }
}

/// So many lines that aren't made yet.
pub(crate) fn blank_lines(alloc: Global, count: usize) -> Result<Vec<Traced>, Memory>
    ensures { IfOk result (λ lines. length lines.items ≡ count) }
{
    let mut lines = Vec::with_capacity(alloc, count)?;
    'blank: while lines.len() < count {
        let line = Line {
            kind: LineKind::TooDeep,
            text: Vec::new(alloc),
            spent: 0,
            worker: 0,
        };
        lines.push(Traced {
            line,
            events: Vec::new(alloc),
        })?;
    }
    Ok(lines)
}

// Puts lines at the places of their terms.
fn place(mut made: Vec<Numbered>, lines: &mut Vec<Traced>)
    requires { HasPlaces (length lines.old.items) made.items }
    ensures length { length lines.new.items ≡ length lines.old.items }
    ensures placed { Places made.items lines.old.items lines.new.items }
{
    'lines: while let Some(Numbered { number, line }) = made.pop() {
        lines[number as usize] = line;
    }
}

// Takes in what a worker leaves: what its seat drew, and its lines.
fn take_in(draws: &Draws, all: &mut Seat, share: Share, lines: &mut Vec<Traced>)
    requires all { IsIn draws.now.shared.table_id all.old.table_id all.old.me all.old.me.0 }
    requires share { HasOneShare draws.now.shared.table_id share }
    requires places { HasPlaces (length lines.old.items) share.lines.items }
    ensures all { IsIn draws.now.shared.table_id all.new.table_id all.new.me all.new.me.0 }
    ensures shares { all.new.me.0.shares ≡ all.old.me.0.shares + 1 }
    ensures drawn { (x : ℕ) → times x all.new.me.0.numbers
        ≡ times x all.old.me.0.numbers + times x (drawn_of share) }
    ensures length { length lines.new.items ≡ length lines.old.items }
    ensures placed { Places share.lines.items lines.old.items lines.new.items }
{
    let Share {
        worker: _,
        seat,
        lines: made,
        end: _,
    } = share;
    join(draws, all, seat);
    place(made, lines);
}

// Takes in what all workers leave.
fn gather(draws: &Draws, all: &mut Seat, mut shares: Vec<Share>, lines: &mut Vec<Traced>)
    requires all { IsIn draws.now.shared.table_id all.old.table_id all.old.me all.old.me.0 }
    requires shares { All (HasOneShare draws.now.shared.table_id) shares.items }
    requires places { All (λ s. HasPlaces (length lines.old.items) s.lines.items) shares.items }
    ensures all { IsIn draws.now.shared.table_id all.new.table_id all.new.me all.new.me.0 }
    ensures shares { all.new.me.0.shares ≡ all.old.me.0.shares + length shares.items }
    ensures drawn { (x : ℕ) → times x all.new.me.0.numbers
        ≡ times x all.old.me.0.numbers + sum_by (λ s. times x (drawn_of s)) shares.items }
    ensures length { length lines.new.items ≡ length lines.old.items }
    ensures placed { PlacesAll shares.items lines.old.items lines.new.items }
{
    'shares: while let Some(share) = shares.pop() {
        take_in(draws, all, share, lines);
    }
}

/// The lines of all terms with their events, or the worst of the ends of all workers.
pub fn collect(
    draws: &Draws,
    mut all: Seat,
    shares: Vec<Share>,
    mut lines: Vec<Traced>,
) -> Result<Vec<Traced>, AllFault>
    requires all { IsUncut draws.now.shared.table_id all.table_id all.me all.me.0
        × (all.me.0.shares ≡ 0) }
    requires count { length shares.items ≡ draws.now.shared.key.shares }
    requires shares { All (HasOneShare draws.now.shared.table_id) shares.items }
    requires places { All (λ s. HasPlaces (length lines.items) s.lines.items) shares.items }
    ensures once { DrawnOnce shares.items }
    ensures ok { IfOk result (λ l. IsCollected shares.items lines.items l.items) }
    ensures err { IfErr result (λ fault. IsWorst (map end_of_share shares.items) (Some fault)) }
{
    let worst = worst_of(&shares);
    gather(draws, &mut all, shares, &mut lines);
    count_drawn(draws, &mut all);
    match worst {
        None => Ok(lines),
        Some(fault) => Err(fault),
    }
}

/// The lines, and the events beside them.
pub fn beside(alloc: Global, traced: Vec<Traced>) -> Result<Lines, Memory>
    ensures list { IfOk result (λ l. l.list.items ≡ map (λ t. t.line) traced.items) }
    ensures traces { IfOk result (λ l. l.traces.items ≡ map (λ t. t.events) traced.items) }
{
    let mut list = Vec::with_capacity(alloc, traced.len())?;
    let mut traces = Vec::with_capacity(alloc, traced.len())?;
    for made in traced {
        let Traced { line, events } = made;
        list.push_reserved(line);
        traces.push_reserved(events);
    }
    Ok(Lines { list, traces })
}
