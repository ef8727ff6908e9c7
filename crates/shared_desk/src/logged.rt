//! A pass of a shared store that writes its entries as the lines of a log.
ghost use Rattle.std.specs.Prelude.{◌≡◌, [], Some, is_none, IfSome};
ghost use Rattle.std.specs.Option.{option_map};
ghost use Rattle.log_text.specs.Lines.{lines_of};

use crate::noting::{note_creation, note_leave, note_sweep};
use crate::pass::SharedPass;
use log_text::Log;
use node_rows::Last;
use std::alloc::Global;
use std::marker::Model;
use sweep_phase::{Kept, Worn};
use term_create::Full;
use term_model::{Head, Row};

/// A pass that writes each of its entries as a line of a log. Where memory lacks for one the log is
/// lost, and nothing else changes.
#[derive(Drop)]
pub struct LoggedPass<S: SharedPass> {
    pass: S,
    log: Log,
    /// The rows that the last collection kept, while its line is written.
    kept: Vec<Row>,
}

impl<S: SharedPass> Model for LoggedPass<S> {
    ghost use Rattle.shared_desk.specs.Code.{LoggedView, logged_code};
    ghost use Rattle.shared_desk.specs.Logged.{AreTold};

    ghost Value = { LoggedView };

    ghost coded = { logged_code };

    ghost view = { λ l. record { pass = S.view l.pass; log = l.log } };

    ghost invariant = { λ l. AreTold l.log (S.view l.pass).entries };
}

impl<S: SharedPass> LoggedPass<S> {
    /// A pass without entries, with an empty log.
    pub(crate) fn over(alloc: Global, pass: S) -> LoggedPass<S>
        requires { (S.view pass).entries ≡ [] }
        ensures pass { result.pass ≡ S.view pass }
        ensures log { result.log ≡ Some [] }
    {
        LoggedPass {
            pass,
            log: Log::new(alloc),
            kept: Vec::new(alloc),
        }
    }

    /// Whether memory has lacked for the log.
    pub(crate) fn lost(&self) -> bool
        ensures { result ≡ is_none self.now.log }
    {
        self.log.lost()
    }

    /// The lines of all entries; none where the log is lost.
    pub(crate) fn lines(&self) -> &[u8]
        ensures lines { IfSome self.now.log (λ lines. result.now ≡ lines) }
        ensures told { IfSome self.now.log (λ lines. result.now ≡ lines_of self.now.pass.entries) }
    {
        self.log.lines()
    }

    /// The pass, and the lines of all entries; None where the log is lost.
    pub(crate) fn into_parts(self) -> (S, Option<Vec<u8>>)
        ensures pass { S.view result.0 ≡ self.pass }
        ensures lines { option_map (λ lines. lines.items) result.1 ≡ self.log }
        ensures told { IfSome result.1 (λ lines. lines.items ≡ lines_of self.pass.entries) }
    {
        let LoggedPass { pass, log, kept: _ } = self;
        (pass, log.into_lines())
    }
}

impl<S: SharedPass> SharedPass for LoggedPass<S> {
    ghost view = { λ l. l.pass };

    ghost log = { λ l. l.log };

    fn enter_shared(&mut self) {
        self.pass.enter_shared();
    }

    fn leave_shared(&mut self, rows: &[Row]) {
        self.pass.leave_shared(rows);
        note_leave(&mut self.log, self.pass.last(), rows);
    }

    fn enter_exclusive(&mut self) {
        self.pass.enter_exclusive();
    }

    fn leave_exclusive(&mut self, rows: &[Row]) {
        self.pass.leave_exclusive(rows);
        note_leave(&mut self.log, self.pass.last(), rows);
    }

    fn store_roots(&mut self, rows: &[Row]) {
        self.pass.store_roots(rows);
    }

    fn create(&mut self, head: Head, rows: &[Row]) -> Result<Row, Full> {
        match self.pass.create(head, rows) {
            Ok(row) => {
                note_creation(&mut self.log, self.pass.last(), head, rows, row);
                Ok(row)
            }
            Err(full) => Err(full),
        }
    }

    fn collect(&mut self) -> Result<Kept, Worn> {
        match self.pass.collect() {
            Ok(kept) => {
                note_sweep(&self.pass, &mut self.kept, &mut self.log);
                Ok(kept)
            }
            Err(worn) => Err(worn),
        }
    }

    fn create_exclusive(&mut self, head: Head, rows: &[Row]) -> Result<Row, Full> {
        match self.pass.create_exclusive(head, rows) {
            Ok(row) => {
                note_creation(&mut self.log, self.pass.last(), head, rows, row);
                Ok(row)
            }
            Err(full) => Err(full),
        }
    }

    fn head(&mut self, row: Row) -> Head {
        self.pass.head(row)
    }

    fn count(&mut self, row: Row) -> u32 {
        self.pass.count(row)
    }

    fn child(&mut self, row: Row, j: u32) -> Row {
        self.pass.child(row, j)
    }

    fn node(&mut self, row: Row) -> (Head, u32) {
        self.pass.node(row)
    }

    fn pair(&mut self, row: Row) -> (Row, Row) {
        self.pass.pair(row)
    }

    fn is_asked(&self) -> bool {
        self.pass.is_asked()
    }

    fn base(&self) -> u64 {
        self.pass.base()
    }

    fn last(&self) -> Last {
        self.pass.last()
    }

    fn kept(&self, row: Row) -> bool {
        self.pass.kept(row)
    }

    fn rows(&self) -> u32 {
        self.pass.rows()
    }

    fn depth(&self) -> u32 {
        self.pass.depth()
    }
}
