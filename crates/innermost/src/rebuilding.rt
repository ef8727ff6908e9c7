//! Building the trees over a changed argument again, from the inside outwards.

ghost use Rattle.std.specs.Prelude.{◌≡◌, ◌+◌, ◌-◌, ◌<◌, ◌≤◌, List, [], ◌∷◌, ◌++◌, length, take, drop, IfOk, IfErr, true, vec_capacity};
ghost use Rattle.term_model.specs.Tree.{Tree, arguments};
ghost use Rattle.terms_api.specs.Terms.{IsHeld, IsSound, tree_at, trees};
ghost use Rattle.innermost.specs.Outward.{WasGivenUp};
ghost use Rattle.innermost.specs.declared.spots.Spot.{Spot as Spots};
ghost use Rattle.innermost.specs.Walking.{Crumb};
ghost use Rattle.innermost.specs.Rebuilding.{Change, IsChanged, IsRebuilt, IsRebuiltAll, Pushes};

use crate::RunFault;
use crate::building::build_at;
use crate::spots::Spot;
use term_model::Row;
use terms_api::Terms;

/// Puts the rows of the arguments of a held row's tree from a place up to another on the stack.
fn push_arguments<T: Terms>(row: Row, from: u32, to: u32, terms: &mut T)
    requires inside { (T.store terms.old).inside ≡ true }
    requires held { IsHeld (T.store terms.old) row }
    requires order { from ≤ to }
    requires within { to ≤ length (arguments (tree_at (T.store terms.old) row)) }
    requires places { length (T.store terms.old).stack + (to - from) ≤ (T.store terms.old).room }
    requires sound { IsSound (T.store terms.old) }
    ensures pushed { Pushes (T.store terms.old) (T.store terms.new)
        (take (to - from) (drop from (arguments (tree_at (T.store terms.old) row)))) }
    ensures sound { IsSound (T.store terms.new) }
    ensures same { T.same terms.old terms.new }
{
    let mut at = from;
    'arguments: while at < to {
        let argument = terms.child(row, at);
        terms.put(argument);
        at += 1;
    }
}

/// Builds the tree of a spot again with the tree on top in place of the argument that was begun;
/// false where there is no room for it.
fn build_again<T: Terms>(spot: Spot, builds: &mut u32, terms: &mut T) -> Result<bool, RunFault>
    requires inside { (T.store terms.old).inside ≡ true }
    requires state { (change : Change) × (c : Crumb) × (way : List Crumb) × (tree : Tree)
        × (spots : List Spots)
        × IsChanged change (c ∷ way) tree (T.store terms.old) (spots ++ spot ∷ []) }
    ensures state { IfOk result (λ built.
        (change : Change) (c : Crumb) (way : List Crumb) (tree : Tree) (spots : List Spots)
        → IsChanged change (c ∷ way) tree (T.store terms.old) (spots ++ spot ∷ [])
        → IsRebuilt change way (T.store terms.new) spots built) }
    ensures fault { IfErr result (λ fault.
        (change : Change) (c : Crumb) (way : List Crumb) (tree : Tree) (spots : List Spots)
        → IsChanged change (c ∷ way) tree (T.store terms.old) (spots ++ spot ∷ [])
        → WasGivenUp change.start (T.store terms.new) change.whole fault) }
    ensures same { T.same terms.old terms.new }
{
    let count = terms.count(spot.row);
    if spot.room <= count {
        return Ok(false);
    }
    let head = terms.head(spot.row);
    let place = terms.depth() - 1;
    let changed = terms.at(place);
    terms.keep(place, 0);
    push_arguments(spot.row, 0, spot.argument - 1, terms);
    terms.put(changed);
    push_arguments(spot.row, spot.argument, count, terms);
    build_at(head, count, builds, terms)?;
    Ok(true)
}

/// Builds the trees of all spots again, the last one first; false where there is no room for one.
pub(crate) fn rebuild<T: Terms>(
    spots: &mut Vec<Spot>,
    builds: &mut u32,
    terms: &mut T,
) -> Result<bool, RunFault>
    requires inside { (T.store terms.old).inside ≡ true }
    requires state { (change : Change) × (way : List Crumb) × (tree : Tree)
        × IsChanged change way tree (T.store terms.old) spots.old.items }
    ensures state { IfOk result (λ built. (change : Change) (way : List Crumb) (tree : Tree)
        → IsChanged change way tree (T.store terms.old) spots.old.items
        → IsRebuiltAll change (T.store terms.new) built) }
    ensures fault { IfErr result (λ fault. (change : Change) (way : List Crumb) (tree : Tree)
        → IsChanged change way tree (T.store terms.old) spots.old.items
        → WasGivenUp change.start (T.store terms.new) change.whole fault) }
    ensures spots_room { vec_capacity spots.new ≡ vec_capacity spots.old }
    ensures same { T.same terms.old terms.new }
{
    'spots: while let Some(spot) = spots.pop() {
        if !build_again(spot, builds, terms)? {
            return Ok(false);
        }
    }
    Ok(true)
}
