//! The way to the tree that is reduced, and the moves of the cursor along it.

ghost use Rattle.std.specs.Prelude.{◌≡◌, ℕ, ◌+◌, ◌-◌, ◌<◌, ◌≤◌, List, [], ◌∷◌, ◌++◌, length, drop, min, slice_index_or, OnOk, OnErr};
ghost use Rattle.rewrite_model.specs.Trace.{moves as moves_of, ups, downs};
ghost use Rattle.rewrite_model.specs.declared.event.Event.TheVariants as event;
ghost use Rattle.innermost.specs.declared.frames.Frame.{Frame as Frames};
ghost use Rattle.rule_code.specs.declared.step.Step.{Step as Steps};
ghost use Rattle.innermost.specs.Tasks.{KeepsOthers};
ghost use Rattle.innermost.specs.Trail.{HasShared, IsTrail};

use crate::Event;
use crate::frames::Frame;
use crate::places::push_place;
use faults::Memory;
use rule_code::Step;
use std::alloc::Global;

/// Where a rule was used last in a term, and where the tree stands that is reduced.
#[derive(Drop)]
pub(crate) struct Trail {
    /// Where a rule was used last; the root before the first.
    pub cursor: Vec<u32>,
    /// Where the node of the term stands that is evaluated, and the places of frames below it.
    pub way: Vec<u32>,
    /// How long the way is below the place of each frame that it has, from the lowest on.
    pub marks: Vec<usize>,
    /// So many of the first of both positions are the same.
    pub same: usize,
    /// Room for the events of one replacement.
    pub moves: Vec<Event>,
}

/// The events that are told, and the trail that says them.
#[derive(Drop)]
pub(crate) struct Telling {
    pub trail: Trail,
    pub events: Vec<Event>,
}

impl Trail {
    /// A trail at the root.
    pub(crate) fn new(alloc: Global) -> Self {
        Trail {
            cursor: Vec::new(alloc),
            way: Vec::new(alloc),
            marks: Vec::new(alloc),
            same: 0,
            moves: Vec::new(alloc),
        }
    }
}

impl Telling {
    /// No events, and a trail at the root.
    pub(crate) fn new(alloc: Global) -> Self {
        Telling {
            trail: Trail::new(alloc),
            events: Vec::new(alloc),
        }
    }
}

pub(crate) fn lesser(one: usize, other: usize) -> usize
    ensures { result ≡ min one other }
{
    if one < other { one } else { other }
}

/// Goes back to the root.
pub(crate) fn begin(trail: &mut Trail)
    ensures cursor { trail.new.cursor.items ≡ [] }
    ensures trail { (steps : List Steps) (frames : List Frames)
        → IsTrail steps [] frames trail.new }
{
    trail.cursor.clear();
    trail.way.clear();
    trail.marks.clear();
    trail.same = 0;
}

/// Leaves the places of all frames but so many of the first.
pub(crate) fn keep(trail: &mut Trail, count: usize)
    ensures cursor { trail.new.cursor.items ≡ trail.old.cursor.items }
    ensures trail { (steps : List Steps) (base : List ℕ) (old new : List Frames)
        → IsTrail steps base old trail.old → count ≡ length new - 1 → KeepsOthers old new
        → IsTrail steps base new trail.new }
    ensures few { length trail.new.marks.items ≤ count }
{
    if count >= trail.marks.len() {
        return;
    }
    let length = trail.marks[count];
    trail.way.truncate(length);
    trail.marks.truncate(count);
    trail.same = lesser(trail.same, length);
}

fn frame_at(frames: &[Frame], at: usize) -> Frame
    requires { at < length frames.now }
    ensures { result ≡ slice_index_or frames.now at result }
{
    frames[at]
}

/// Goes on to the places of all frames.
pub(crate) fn follow(trail: &mut Trail, steps: &[Step], frames: &[Frame]) -> Result<(), Memory>
    ensures cursor { trail.new.cursor.items ≡ trail.old.cursor.items }
    ensures trail { OnOk result ((base : List ℕ) → IsTrail steps.now base frames.now trail.old
        → IsTrail steps.now base frames.now trail.new) }
    ensures all { OnOk result (length frames.now ≤ length trail.new.marks.items) }
{
    let mut at = trail.marks.len();
    'frames: while at < frames.len() {
        let frame = frame_at(frames, at);
        trail.marks.push(trail.way.len())?;
        push_place(steps, frame.next, &mut trail.way)?;
        at += 1;
    }
    Ok(())
}

/// How many of the first of two positions are the same, where so many are known to be.
fn find_shared(from: &[u32], to: &[u32], same: usize) -> usize
    requires { HasShared from.now to.now same }
    ensures moves { moves_of from.now to.now
        ≡ ups (length from.now - result) ++ downs (drop result to.now) }
    ensures low { result ≤ length from.now }
    ensures high { result ≤ length to.now }
{
    let mut at = same;
    'shared: while at < from.len() && at < to.len() {
        if from[at] != to[at] {
            return at;
        }
        at += 1;
    }
    at
}

/// Appends so many moves up.
fn push_ups(count: usize, moves: &mut Vec<Event>) -> Result<(), Memory>
    ensures { OnOk result (moves.new.items ≡ moves.old.items ++ ups count) }
{
    let mut left = count;
    'ups: while left > 0 {
        moves.push(Event::Up)?;
        left -= 1;
    }
    Ok(())
}

/// Appends moves down to these arguments.
fn push_downs(arguments: &[u32], moves: &mut Vec<Event>) -> Result<(), Memory>
    ensures { OnOk result (moves.new.items ≡ moves.old.items ++ downs arguments.now) }
{
    for argument in arguments {
        moves.push(Event::Down(*argument))?;
    }
    Ok(())
}

/// Appends the fewest moves from a position to another, where so many of the first are the same.
fn push_moves(from: &[u32], to: &[u32], same: usize, moves: &mut Vec<Event>) -> Result<(), Memory>
    requires { HasShared from.now to.now same }
    ensures { OnOk result (moves.new.items ≡ moves.old.items ++ moves_of from.now to.now) }
{
    let shared = find_shared(from, to, same);
    push_ups(from.len() - shared, moves)?;
    push_downs(&to[shared..], moves)
}

/// Makes `moves` the events of a use of the rule at `to`: the moves there from `from`, of which the
/// first `same` numbers agree, and the use.
fn list_use(
    from: &[u32],
    to: &[u32],
    same: usize,
    rule: u32,
    moves: &mut Vec<Event>,
) -> Result<(), Memory>
    requires { HasShared from.now to.now same }
    ensures { OnOk result (moves.new.items ≡ moves_of from.now to.now ++ event.Rule rule ∷ []) }
{
    moves.clear();
    push_moves(from, to, same, moves)?;
    moves.push(Event::Rule(rule))?;
    Ok(())
}

/// Makes the cursor equal to the way. Their first `same` numbers agree already.
fn go_along(cursor: &mut Vec<u32>, way: &[u32], same: usize) -> Result<(), Memory>
    requires { HasShared cursor.old.items way.now same }
    ensures { OnOk result (cursor.new.items ≡ way.now) }
{
    cursor.truncate(same);
    cursor.extend_from_slice(&way[same..])?;
    Ok(())
}

/// Moves the cursor to the end of the way, uses a rule there, and appends these events.
pub(crate) fn tell(trail: &mut Trail, rule: u32, events: &mut Vec<Event>) -> Result<(), Memory>
    requires { HasShared trail.old.cursor.items trail.old.way.items trail.old.same }
    ensures events { OnOk result (events.new.items ≡ events.old.items
        ++ (moves_of trail.old.cursor.items trail.old.way.items ++ event.Rule rule ∷ [])) }
    ensures untold { OnErr result (events.new.items ≡ events.old.items) }
    ensures cursor { OnOk result (trail.new.cursor.items ≡ trail.old.way.items) }
    ensures trail { OnOk result ((steps : List Steps) (base : List ℕ) (frames : List Frames)
        → IsTrail steps base frames trail.old → IsTrail steps base frames trail.new) }
{
    list_use(
        &trail.cursor,
        &trail.way,
        trail.same,
        rule,
        &mut trail.moves,
    )?;
    go_along(&mut trail.cursor, &trail.way, trail.same)?;
    trail.same = trail.way.len();
    events.extend_from_slice(&trail.moves)?;
    Ok(())
}
