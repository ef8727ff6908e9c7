//! How far below the room the nodes of a term stand, found for a part of them at a time.

ghost use Rattle.std.specs.Prelude.{◌≡◌, ℕ, ◌<◌, ◌≤◌, length, IfOk, vec_capacity, slice_index};
ghost use Rattle.term_model.specs.Tree.{nodes};
ghost use Rattle.rule_match.specs.Planned.{IsPlain};
ghost use Rattle.rule_code.specs.Depths.{depths as depths_of};
ghost use Rattle.innermost.specs.Shown.{Shows};

use faults::Memory;
use rule_code::{Pending, find_depths};
use std::alloc::Global;
use term_model::Flat;

/// How many nodes of a term have their depths at hand at a time.
const SHOWN: usize = 4096;

/// The depths of the nodes of a term from one on.
#[derive(Drop)]
pub(crate) struct Window {
    pub depths: Vec<u32>,
    pub from: usize,
    pub path: Vec<Pending>,
}

impl Window {
    /// A window for terms that are evaluated in this room.
    pub(crate) fn of(alloc: Global, room: usize) -> Result<Self, Memory>
        ensures room { IfOk result (λ window. room ≤ vec_capacity window.path) }
        ensures some { IfOk result (λ window. 0 < length window.depths.items) }
    {
        let path = Vec::with_capacity(alloc, room)?;
        Ok(Window {
            depths: vec![in alloc; 0u32; SHOWN]?,
            from: 0,
            path,
        })
    }
}

/// The depth of a node of a term, told apart up to a limit.
pub(crate) fn depth_at(term: &Flat, limit: u32, at: usize, window: &mut Window) -> u32
    requires plain { (widest : ℕ) × IsPlain widest term.now }
    requires node { at < nodes term.now }
    requires some { 0 < length window.old.depths.items }
    requires room { limit ≤ vec_capacity window.old.path }
    requires shows { Shows limit term.now window.old.from window.old.depths.items }
    ensures depth { result ≡ slice_index (depths_of limit term.now 0) at }
    ensures some { 0 < length window.new.depths.items }
    ensures room { limit ≤ vec_capacity window.new.path }
    ensures shows { Shows limit term.now window.new.from window.new.depths.items }
{
    if at < window.from || at - window.from >= window.depths.len() {
        show(term, limit, at, window);
    }
    window.depths[at - window.from]
}

/// Shows the depths from a node on.
fn show(term: &Flat, limit: u32, from: usize, window: &mut Window)
    requires plain { (widest : ℕ) × IsPlain widest term.now }
    requires room { limit ≤ vec_capacity window.old.path }
    ensures from { window.new.from ≡ from }
    ensures size { length window.new.depths.items ≡ length window.old.depths.items }
    ensures room { limit ≤ vec_capacity window.new.path }
    ensures shows { Shows limit term.now window.new.from window.new.depths.items }
{
    let _ = find_depths(term, 0, limit, from, &mut window.path, &mut window.depths);
    window.from = from;
}
