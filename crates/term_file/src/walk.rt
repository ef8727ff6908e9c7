//! The walk from a root, with an explicit stack.
ghost use Rattle.std.specs.Prelude.{◌≡◌, ◌<◌, ◌++◌, ◌∷◌, [], length, slice_index, option_and_then, IfOk, IfErr, OnOk};
ghost use Rattle.read_faults.specs.declared.fail.ReadFail.TheVariants.{Memory};
ghost use Rattle.std.specs.List.{AllByRecursion};
ghost use Rattle.term_file.specs.Contents.{arguments_at};
ghost use Rattle.term_file.specs.InOrder as order;
ghost use Rattle.term_file.specs.InOrder.{came_after, visits_at, visits};
ghost use Rattle.term_file.specs.Tables.{AreLesser};
ghost use Rattle.term_file.specs.Walking.{Fits, left_in, work};

use crate::frame::Frame;
use crate::table::Table;
use read_faults::ReadFail;

/// How many records were visited with this one, where those with lesser numbers than `visited`
/// were; None where it comes too early.
fn visited_with(visited: usize, number: usize) -> Option<usize>
    requires { number < usize.MAX }
    ensures { result ≡ order.came_with visited number }
{
    if number < visited {
        Some(visited)
    } else if number == visited {
        Some(visited + 1)
    } else {
        None
    }
}

/// Puts a record back whose next argument is `next`, and on it that argument, unless it was
/// visited.
fn descend(
    table: &Table,
    frame: Frame,
    next: usize,
    visited: usize,
    frames: &mut Vec<Frame>,
) -> Result<(), ReadFail>
    requires lesser { AreLesser table.now }
    requires fit { AllByRecursion (Fits table.now) frames.old.items }
    requires fits { Fits table.now frame }
    requires more { frame.done < length (arguments_at table.now frame.number) }
    requires bound { frame.done < usize.MAX }
    requires next { slice_index (arguments_at table.now frame.number) frame.done ≡ next }
    ensures comes { OnOk result
        (came_after visited (left_in table.now (frames.old.items ++ frame ∷ []))
        ≡ came_after visited (left_in table.now frames.new.items)) }
    ensures fit { OnOk result (AllByRecursion (Fits table.now) frames.new.items) }
    ensures less { OnOk result
        (work table.now frames.new.items < work table.now (frames.old.items ++ frame ∷ [])) }
    ensures memory { IfErr result (λ e. e ≡ Memory) }
{
    frames.push(Frame {
        number: frame.number,
        done: frame.done + 1,
    })?;
    if next < visited {
        return Ok(());
    }
    frames.push(Frame {
        number: next,
        done: 0,
    })?;
    Ok(())
}

/// Goes on with a record that was on the stack; gives how many records were visited then, or None
/// where this one comes too early.
fn step(
    table: &Table,
    frame: Frame,
    visited: usize,
    frames: &mut Vec<Frame>,
) -> Result<Option<usize>, ReadFail>
    requires fit { AllByRecursion (Fits table.now) frames.old.items }
    requires fits { Fits table.now frame }
    ensures comes { IfOk result (λ r.
        came_after visited (left_in table.now (frames.old.items ++ frame ∷ []))
        ≡ option_and_then (λ v. came_after v (left_in table.now frames.new.items)) r) }
    ensures fit { OnOk result (AllByRecursion (Fits table.now) frames.new.items) }
    ensures less { OnOk result
        (work table.now frames.new.items < work table.now (frames.old.items ++ frame ∷ [])) }
    ensures memory { IfErr result (λ e. e ≡ Memory) }
{
    let arguments = table.arguments(frame.number);
    if frame.done == arguments.len() {
        return Ok(visited_with(visited, frame.number));
    }
    let next = arguments[frame.done] as usize;
    descend(table, frame, next, visited, frames)?;
    Ok(Some(visited))
}

/// How many records were visited after a walk from a root, where the first `came` were before; None
/// where one comes too early. A record that was visited isn't walked again, so all walks of a file
/// take time linear in it.
pub(crate) fn visited_from(
    table: &Table,
    root: usize,
    came: usize,
    frames: &mut Vec<Frame>,
) -> Result<Option<usize>, ReadFail>
    requires { root < length table.now }
    ensures came { IfOk result (λ r. r ≡ came_after came (visits_at (visits table.now) root)) }
    ensures memory { IfErr result (λ e. e ≡ Memory) }
{
    let mut visited = came;
    let _arguments = table.arguments(root);
    frames.clear();
    frames.push(Frame {
        number: root,
        done: 0,
    })?;
    while let Some(frame) = frames.pop() {
        match step(table, frame, visited, frames)? {
            Some(count) => visited = count,
            None => return Ok(None),
        }
    }
    Ok(Some(visited))
}
