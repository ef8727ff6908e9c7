// A desk that writes a log.
ghost use Rattle.std.specs.Prelude.{◌≡◌, [], Some, is_none, IfOk, IfSome, false};
ghost use Rattle.std.specs.Option.{option_map};
ghost use Rattle.log_text.specs.Lines.{lines_of};
ghost use Rattle.shared_desk.specs.Desk.{store_of};
ghost use Rattle.shared_desk.specs.Held.{IsWhole};
ghost use Rattle.shared_desk.specs.Passes.{seen_of, IsBack};
ghost use Rattle.node_rows.specs.Belonging.{IsPassOf};
ghost use Rattle.node_rows.specs.Passes.{IsOut};
ghost use Rattle.node_rows.specs.Told.{Tells, view_of};

use crate::desk::{Desk, let_go};
use crate::logged::LoggedPass;
use crate::own_pass::OwnPass;
use faults::Memory;
use node_rows::{Pass, Store};
use row_stack::{History, Stack};
use std::alloc::Global;
use std::sync::Wait;

/// A desk that also writes each entry of its pass as a line of a log. Its calls may take memory,
/// and none answers that there is none: where it lacks for a line, the log is lost for good.
pub type LogDesk<'a, R> = Desk<LoggedPass<OwnPass<'a, R>>>;

impl<'a, R: Wait> Desk<LoggedPass<OwnPass<'a, R>>> {
    /// A desk at a pass of this store without entries, which is out and protects nothing, as
    /// `Desk::new`.
    pub fn new(
        rt: &'a R,
        alloc: Global,
        store: &'a Store,
        pass: Pass,
    ) -> Result<Desk<LoggedPass<OwnPass<'a, R>>>, Memory>
        requires of { IsPassOf store.now pass }
        requires out { IsOut (view_of pass) }
        requires told { Tells pass }
        requires whole { IsWhole store.now.sizes (view_of pass).store }
        requires none { (view_of pass).store.root_count ≡ 0 }
        requires unnoted { (view_of pass).store.entries ≡ [] }
        ensures pass { IfOk result (λ desk. desk.pass ≡ seen_of store.now pass) }
        ensures stack { IfOk result (λ desk. desk.stack ≡ []) }
        ensures unspent { IfOk result (λ desk. desk.spent ≡ false) }
        ensures outside { IfOk result (λ desk. (store_of desk).inside ≡ false) }
        ensures log { IfOk result (λ desk. desk.log ≡ Some []) }
    {
        match Stack::new(alloc, store.sizes.depth) {
            Ok(places) => Ok(Desk {
                pass: LoggedPass::over(alloc, OwnPass::new(rt, store, pass)),
                places,
                spent: false,
                refused: History::new(),
                apart: [0; 16],
            }),
            Err(memory) => {
                let_go(pass);
                Err(memory)
            }
        }
    }

    /// Whether memory has lacked for the log.
    pub fn lost(&self) -> bool
        ensures { result ≡ is_none self.now.log }
    {
        self.pass.lost()
    }

    /// Where the log isn't lost, the lines of all entries of the pass, in order; else none.
    pub fn lines(&self) -> &[u8]
        ensures lines { IfSome self.now.log (λ lines. result.now ≡ lines) }
        ensures told { IfSome self.now.log (λ lines. result.now ≡ lines_of self.now.pass.entries) }
    {
        self.pass.lines()
    }

    /// The pass of a desk that isn't inside.
    pub fn into_pass(self) -> Pass
        requires { (store_of self).inside ≡ false }
        ensures { IsBack self.entry.pass result }
    {
        let (pass, _) = self.into_parts();
        pass
    }

    /// The pass of a desk that isn't inside, and the lines of all entries of the pass, in order; or
    /// None where the log is lost.
    pub fn into_parts(self) -> (Pass, Option<Vec<u8>>)
        requires { (store_of self).inside ≡ false }
        ensures back { IsBack self.entry.pass result.0 }
        ensures lines { option_map (λ lines. lines.items) result.1 ≡ self.entry.log }
        ensures told { IfSome result.1 (λ lines. lines.items ≡ lines_of self.entry.pass.entries) }
    {
        let Desk {
            pass,
            places: _,
            spent: _,
            refused: _,
            apart: _,
        } = self;
        let (pass, lines) = pass.into_parts();
        (pass.into_pass(), lines)
    }
}
