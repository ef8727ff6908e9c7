//! The roots of a file.
ghost use Rattle.std.specs.Prelude.{◌≡◌, unwrap_or, IfOk};
ghost use Rattle.term_file.specs.InOrder.{came_after, visits_at, visits};
ghost use Rattle.term_file.specs.Reading as spec;
ghost use Rattle.term_file.specs.Outcome.{Gives};
ghost use Rattle.term_file.specs.Parts.{roots_of};

use crate::fields::{bad_at, u32_at};
use crate::frame::Frame;
use crate::table::Table;
use crate::walk::visited_from;
use read_faults::ReadFail;
use std::alloc::Global;

/// A root, how many records were visited after its walk, and the bytes after it.
#[tactic(auto, unfolding(crate::specs::Reading::number_where))]
fn root_at<'a>(
    total: usize,
    table: &Table,
    visited: usize,
    frames: &mut Vec<Frame>,
    bytes: &'a [u8],
) -> Result<(u32, usize, &'a [u8]), ReadFail>
    ensures read { Gives (λ x. (x.0, x.2.now)) result
        (spec.number_where total 4 (spec.may_be_root (visits table.now) visited) bytes.now) }
    ensures came { IfOk result (λ x. x.1
        ≡ unwrap_or (came_after visited (visits_at (visits table.now) x.0)) visited) }
{
    let (root, rest) = u32_at(total, bytes)?;
    if root as usize >= table.len() {
        return Err(bad_at(total, bytes));
    }
    let came = visited_from(table, root as usize, visited, frames)?;
    match came {
        Some(count) => Ok((root, count, rest)),
        None => Err(bad_at(total, bytes)),
    }
}

/// So many roots, how many records a walk from them visits, and the bytes after them.
pub(crate) fn roots_at<'a>(
    alloc: Global,
    total: usize,
    table: &Table,
    count: u32,
    bytes: &'a [u8],
) -> Result<(Vec<u32>, usize, &'a [u8]), ReadFail>
    ensures { Gives (λ x. (roots_of x.0.items x.1, x.2.now)) result
        (spec.roots_at total (visits table.now) count spec.no_roots bytes.now) }
{
    let mut roots = Vec::new(alloc);
    let mut frames = Vec::new(alloc);
    let mut visited = 0;
    let mut rest = bytes;
    for _number in 0..count {
        let (root, came, after) = root_at(total, table, visited, &mut frames, rest)?;
        roots.push(root)?;
        visited = came;
        rest = after;
    }
    Ok((roots, visited, rest))
}
