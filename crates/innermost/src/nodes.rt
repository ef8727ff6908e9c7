//! Where the node of a term stands that is evaluated.

ghost use Rattle.std.specs.Prelude.{◌≡◌, ℕ, ◌+◌, ◌-◌, ◌≤◌, ◌<◌, List, [], ◌∷◌, ◌++◌, length, take, replicate, OnOk, option_to_list, slice_index_or};
ghost use Rattle.term_model.specs.Tree.{IsGround, nodes};
ghost use Rattle.term_model.specs.Postorder.{postorder, arity_of};
ghost use Rattle.term_model.specs.declared.Item.{Item as Items};
ghost use Rattle.rule_match.specs.Planned.{IsPlain};
ghost use Rattle.rule_code.specs.declared.step.Step.{Step as Steps};
ghost use Rattle.innermost.specs.Trail.{IsTrail, IsDownAt, node_place, place_before};

use crate::trail::{Trail, lesser};
use faults::Memory;
use term_model::Flat;

/// A node of a term that is visited, how far down the node before it stands, and how far down it
/// does.
#[derive(Clone, Copy)]
pub(crate) struct Visit {
    pub at: usize,
    pub before: u32,
    pub down: u32,
}

/// Appends so many first arguments.
fn push_firsts(count: u32, way: &mut Vec<u32>) -> Result<(), Memory>
    ensures { OnOk result (way.new.items ≡ way.old.items ++ replicate count 1) }
{
    let mut left = count;
    'firsts: while left > 0 {
        way.push(1)?;
        left -= 1;
    }
    Ok(())
}

/// Goes from a node to the node over it.
fn leave_argument(trail: &mut Trail) -> Option<u32>
    ensures way { trail.old.way.items ≡ trail.new.way.items ++ option_to_list result }
    ensures rest { trail.new.way.items ≡ take (length trail.old.way.items - 1) trail.old.way.items }
    ensures same { trail.new.same ≤ trail.old.same }
    ensures high { trail.new.same ≤ length trail.new.way.items }
    ensures cursor { trail.new.cursor.items ≡ trail.old.cursor.items }
    ensures marks { trail.new.marks.items ≡ trail.old.marks.items }
{
    let argument = trail.way.pop();
    trail.same = lesser(trail.same, trail.way.len());
    argument
}

/// Goes from a node to the first leaf below the next argument.
fn next_leaf(trail: &mut Trail, before: u32, down: u32) -> Result<(), Memory>
    requires order { before < down }
    requires small { (ks : List ℕ) (k : ℕ) → trail.old.way.items ≡ ks ++ k ∷ [] → k < 4294967295 }
    requires shared { trail.old.same ≤ length trail.old.cursor.items }
    ensures way { OnOk result ((ks : List ℕ) (k : ℕ) → trail.old.way.items ≡ ks ++ k ∷ []
        → trail.new.way.items ≡ (ks ++ (k + 1) ∷ []) ++ replicate (down - before - 1) 1) }
    ensures same { trail.new.same ≤ trail.old.same }
    ensures high { trail.new.same ≤ length trail.old.way.items - 1 }
    ensures cursor { trail.new.cursor.items ≡ trail.old.cursor.items }
    ensures marks { trail.new.marks.items ≡ trail.old.marks.items }
{
    if let Some(argument) = leave_argument(trail) {
        trail.way.push(argument + 1)?;
        push_firsts(down - before - 1, &mut trail.way)?;
    }
    Ok(())
}

/// Goes to a node of a term, over so many arguments and so far down, from the node before it.
pub(crate) fn enter_node(
    term: &Flat,
    at: usize,
    count: u32,
    before: u32,
    down: u32,
    trail: &mut Trail,
) -> Result<(), Memory>
    requires plain { (widest : ℕ) × IsPlain widest term.now }
    requires no_variables { IsGround term.now }
    requires node { at < nodes term.now }
    requires count { (item : Items) → item ≡ slice_index_or (postorder term.now) at item
        → count ≡ arity_of item }
    requires down { (limit : ℕ) × IsDownAt limit term.now at before down }
    requires trail { (steps : List Steps) × IsTrail steps (place_before term.now at) [] trail.old }
    ensures trail { OnOk result ((steps : List Steps)
        → IsTrail steps (place_before term.now at) [] trail.old
        → IsTrail steps (node_place term.now at) [] trail.new) }
    ensures cursor { trail.new.cursor.items ≡ trail.old.cursor.items }
{
    let _ = term.node_count();
    if count > 0 {
        let _ = leave_argument(trail);
        Ok(())
    } else if at == 0 {
        push_firsts(down, &mut trail.way)
    } else {
        next_leaf(trail, before, down)
    }
}
