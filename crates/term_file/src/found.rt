//! The records that were read so far.
ghost use Rattle.std.specs.Prelude.{◌≡◌, ◌<◌, ◌≤◌, ◌+◌, ◌^◌, ◌∷◌, [], length, is_some, unwrap_or, All, OnOk, IfErr, true};
ghost use Rattle.read_faults.specs.declared.fail.ReadFail.TheVariants.{Memory};
ghost use Rattle.term_file.specs.InOrder.{came_after, used_by};
ghost use Rattle.term_file.specs.Reading as spec;
ghost use Rattle.term_file.specs.Right as right;
ghost use Rattle.term_file.specs.Outcome.{Gives, view, head_of};

use crate::fields::bad_at;
use crate::record::{Kind, Record};
use crate::table::Table;
use read_faults::ReadFail;

/// Records, and how many symbols they use: those with the numbers below.
#[derive(Drop)]
pub(crate) struct Found {
    pub(crate) table: Table,
    pub(crate) used: usize,
}

/// Whether a symbol is used in order where so many were used.
pub(crate) fn comes_in_order(used: usize, symbol: u32) -> bool
    ensures { result ≡ is_some (came_after used (symbol ∷ [])) }
{
    symbol as usize <= used
}

/// How many symbols are used after one more record with this root.
fn used_after(used: usize, kind: Kind) -> usize
    requires { used < 2 ^ 32 }
    ensures used { result ≡ unwrap_or (came_after used (used_by (head_of kind))) used }
    ensures one_more { result ≤ used + 1 }
{
    match kind {
        Kind::Call(symbol) if symbol as usize == used => used + 1,
        _ => used,
    }
}

impl Found {
    ghost use Rattle.term_file.specs.Found.{records_of};

    /// Puts a record that isn't there behind the others.
    fn put(&mut self, entry: Record) -> Result<(), ReadFail>
        requires absent { right.is_new_record self.old.table (view entry) ≡ true }
        requires before { All (λ i. i < length self.old.table) entry.arguments.items }
        requires used { self.old.used < 2 ^ 32 }
        ensures put { OnOk result
            (records_of self.new ≡ spec.with_record (records_of self.old) (view entry)) }
        ensures memory { IfErr result (λ e. e ≡ Memory) }
        ensures one_more { self.new.used ≤ self.old.used + 1 }
    {
        let used = used_after(self.used, entry.kind);
        self.table.push(entry)?;
        self.used = used;
        Ok(())
    }

    /// Puts a record behind the others, or refuses the bytes from its last field on where it is
    /// one of them.
    pub(crate) fn take(&mut self, total: usize, entry: Record, last: &[u8]) -> Result<(), ReadFail>
        requires before { All (λ i. i < length self.old.table) entry.arguments.items }
        requires used { self.old.used < 2 ^ 32 }
        ensures taken { Gives (λ _. records_of self.new) result
            (spec.checked total last.now (right.is_new_record self.old.table (view entry))
            (spec.with_record (records_of self.old) (view entry))) }
        ensures one_more { self.new.used ≤ self.old.used + 1 }
    {
        match self.table.find(&entry) {
            Some(_) => Err(bad_at(total, last)),
            None => self.put(entry),
        }
    }
}
