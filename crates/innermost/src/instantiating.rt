//! Building the instance of a pattern, node by node.

ghost use Rattle.std.specs.Prelude.{◌≡◌, ℕ, ◌<◌, ◌≤◌, length, IfOk, IfErr, Contains, true, vec_capacity, slice_index};
ghost use Rattle.term_model.specs.Tree.{Tree, nodes};
ghost use Rattle.terms_api.specs.Terms.{trees};
ghost use Rattle.rule_match.specs.Planned.{IsPlain};
ghost use Rattle.rule_code.specs.Depths.{depths as depths_of};
ghost use Rattle.innermost.specs.Outward.{WasGivenUp, KeepsParts};
ghost use Rattle.innermost.specs.Instances.{Site, IsBegun, IsBuilding, HasBuilt, IsInstance};

use crate::RunFault;
use crate::building::build_at;
use crate::evaluating::item_at;
use crate::windows::{Window, depth_at};
use term_model::{Flat, Item, Row};
use terms_api::Terms;

/// Builds a node of a pattern that stands so far below the room, or puts the row of a variable on
/// the stack; false where there is no room for it.
fn build_node<T: Terms>(
    pattern: &Flat,
    rows: &[Row],
    room: u32,
    at: usize,
    down: u32,
    builds: &mut u32,
    terms: &mut T,
) -> Result<bool, RunFault>
    requires inside { (T.store terms.old).inside ≡ true }
    requires node { at < nodes pattern.now }
    requires down { (limit : ℕ) × (limit ≤ 4294967295) × (room ≤ limit)
        × (down ≡ slice_index (depths_of limit pattern.now 0) at) }
    requires state { (site : Site)
        × IsBuilding site (T.store terms.old) rows.now pattern.now room at }
    ensures state { IfOk result (λ built. (site : Site)
        → IsBuilding site (T.store terms.old) rows.now pattern.now room at
        → HasBuilt site (T.store terms.new) rows.now pattern.now room at built) }
    ensures fault { IfErr result (λ fault. (site : Site)
        → IsBuilding site (T.store terms.old) rows.now pattern.now room at
        → WasGivenUp site.start (T.store terms.new) site.whole fault) }
    ensures keeps { (root : Tree) → Contains (trees (T.store terms.old)) root
        → KeepsParts root (T.store terms.old) (T.store terms.new) }
    ensures same { T.same terms.old terms.new }
{
    if room <= down {
        return Ok(false);
    }
    let item = item_at(pattern.items(), at);
    if let Item::Var(variable) = item {
        terms.put(rows[variable as usize]);
        return Ok(true);
    }
    let Some(head) = item.head() else {
        unreachable!();
    };
    build_at(head, item.arity(), builds, terms)?;
    Ok(true)
}

/// Builds the instance of a pattern in a room, with these rows bound; false where there is no room
/// for a node of it. A limit up to which depths are told apart is no less than the room.
pub(crate) fn instantiate<T: Terms>(
    pattern: &Flat,
    rows: &[Row],
    room: u32,
    limit: u32,
    window: &mut Window,
    builds: &mut u32,
    terms: &mut T,
) -> Result<bool, RunFault>
    requires inside { (T.store terms.old).inside ≡ true }
    requires plain { (widest : ℕ) × IsPlain widest pattern.now }
    requires limit { room ≤ limit }
    requires path_room { limit ≤ vec_capacity window.old.path }
    requires window { 0 < length window.old.depths.items }
    requires state { (site : Site) × IsBegun site (T.store terms.old) rows.now pattern.now room }
    ensures state { IfOk result (λ built. (site : Site)
        → IsBegun site (T.store terms.old) rows.now pattern.now room
        → IsInstance site (T.store terms.new) built) }
    ensures fault { IfErr result (λ fault. (site : Site)
        → IsBegun site (T.store terms.old) rows.now pattern.now room
        → WasGivenUp site.start (T.store terms.new) site.whole fault) }
    ensures keeps { (root : Tree) → Contains (trees (T.store terms.old)) root
        → KeepsParts root (T.store terms.old) (T.store terms.new) }
    ensures path_room { limit ≤ vec_capacity window.new.path }
    ensures window { 0 < length window.new.depths.items }
    ensures same { T.same terms.old terms.new }
{
    let count = pattern.node_count();
    window.from = usize::MAX;
    let mut at = 0usize;
    'nodes: while at < count {
        let down = depth_at(pattern, limit, at, window);
        if !build_node(pattern, rows, room, at, down, builds, terms)? {
            return Ok(false);
        }
        at += 1;
    }
    Ok(true)
}
