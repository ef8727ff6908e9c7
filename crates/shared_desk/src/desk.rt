// A desk.
ghost use Rattle.std.specs.Prelude.{◌≡◌, IfOk, [], false};

use crate::own_pass::OwnPass;
use crate::pass::SharedPass;
use faults::Memory;
use node_rows::{Pass, Store};
use row_stack::{History, Stack};
use std::alloc::Global;
use std::marker::Model;
use std::sync::Wait;

/// A store of terms for one caller, over a pass of a shared store, with a stack of its own. `apart`
/// is there so that desks which stand side by side share no cache line: each build writes to its
/// desk.
#[derive(Drop)]
pub struct Desk<S: SharedPass> {
    pub(crate) pass: S,
    pub(crate) places: Stack,
    pub(crate) spent: bool,
    pub(crate) refused: History<(), ()>,
    pub(crate) apart: [u64; 16],
}

impl<S: SharedPass> Model for Desk<S> {
    ghost use Rattle.std.specs.Prelude.{length};
    ghost use Rattle.shared_desk.specs.Code.{Contents, contents_code};

    ghost Value = { Contents };

    ghost coded = { contents_code };

    ghost use Rattle.shared_desk.specs.Desk.{IsRight};

    ghost view = { λ d. record { pass = S.view d.pass; stack = d.places.items; refusals = length d.refused.items; spent = d.spent; log = S.log d.pass } };

    ghost invariant = { λ d. IsRight (S.view d.pass) d.places };
}

/// Lets go of a pass that gets no desk.
pub(crate) fn let_go(_pass: Pass) {}

impl<'a, R: Wait> Desk<OwnPass<'a, R>> {
    ghost use Rattle.shared_desk.specs.Desk.{store_of};
    ghost use Rattle.shared_desk.specs.Passes.{seen_of, IsBack};
    ghost use Rattle.node_rows.specs.Belonging.{IsPassOf};
    ghost use Rattle.node_rows.specs.Passes.{IsOut};
    ghost use Rattle.node_rows.specs.Told.{Tells, view_of};
    ghost use Rattle.shared_desk.specs.Held.{IsWhole};

    /// A desk at a pass of this store, which is out and protects nothing: a new one, or one that a
    /// desk gave back. The desk keeps the handle by which its entries wait. Its stack has as many
    /// places as the pass may protect rows.
    pub fn new(
        rt: &'a R,
        alloc: Global,
        store: &'a Store,
        pass: Pass,
    ) -> Result<Desk<OwnPass<'a, R>>, Memory>
        requires of { IsPassOf store.now pass }
        requires out { IsOut (view_of pass) }
        requires told { Tells pass }
        requires whole { IsWhole store.now.sizes (view_of pass).store }
        requires none { (view_of pass).store.root_count ≡ 0 }
        ensures pass { IfOk result (λ desk. desk.pass ≡ seen_of store.now pass) }
        ensures stack { IfOk result (λ desk. desk.stack ≡ []) }
        ensures unspent { IfOk result (λ desk. desk.spent ≡ false) }
        ensures outside { IfOk result (λ desk. (store_of desk).inside ≡ false) }
    {
        match Stack::new(alloc, store.sizes.depth) {
            Ok(places) => Ok(Desk {
                pass: OwnPass::new(rt, store, pass),
                places,
                spent: false,
                refused: History::new(),
                apart: [0; 16],
            }),
            Err(memory) => {
                let_go(pass);
                Err(memory)
            }
        }
    }

    /// The pass of a desk that isn't inside.
    pub fn into_pass(self) -> Pass
        requires { (store_of self).inside ≡ false }
        ensures { IsBack self.entry.pass result }
    {
        let Desk {
            pass,
            places: _,
            spent: _,
            refused: _,
            apart: _,
        } = self;
        pass.into_pass()
    }
}
