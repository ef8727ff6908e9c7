//! Reads a file.
ghost use Rattle.std.specs.Prelude.{◌≡◌, ◌==◌, ◌&&◌, List, length, IfOk, IfErr};
ghost use Rattle.read_faults.specs.declared.fail.ReadFail.TheVariants.{Memory};
ghost use Rattle.read_faults.specs.Fault.{IsDue};
ghost use Rattle.term_file.specs.File.{Terms, IsFile};
ghost use Rattle.term_file.specs.Reading as spec;
ghost use Rattle.term_file.specs.Outcome.{Gives};
ghost use Rattle.term_file.specs.Parts.{contents_of_parts};
ghost use Rattle.term_file.specs.Found.{records_of};
ghost use Rattle.symbol_pool.specs.Pool.{Named};

use crate::fields::{after_magic, bad_at, count_at, u32_at};
use crate::found::Found;
use crate::records::records_at;
use crate::roots::roots_at;
use crate::shared::Shared;
use crate::symbols::symbols_at;
use crate::table::Table;
use read_faults::ReadFail;
use std::alloc::Global;
use symbol_pool::{MOST_SYMBOLS, Symbols};

/// How many records a file may have.
const MOST_RECORDS: u32 = 262_144;

/// The count of the roots, before which all symbols must be used, and the bytes after it.
#[tactic(auto, unfolding(crate::specs::Reading::number_where))]
fn root_count_at(
    total: usize,
    used: usize,
    symbols: u32,
    bytes: &[u8],
) -> Result<(u32, &[u8]), ReadFail>
    ensures { Gives (λ x. (x.0, x.1.now)) result
        (spec.number_where total 4 (λ n. used == symbols) bytes.now) }
{
    let (count, rest) = u32_at(total, bytes)?;
    if used != symbols as usize {
        return Err(bad_at(total, bytes));
    }
    Ok((count, rest))
}

/// The end of a file whose roots visit all records.
fn ended(total: usize, visited: usize, table: &Table, rest: &[u8]) -> Result<(), ReadFail>
    ensures { Gives (λ x. x) result
        (spec.checked total rest.now (visited == length table.now && spec.is_nil rest.now) tt) }
{
    if visited != table.len() || !rest.is_empty() {
        return Err(bad_at(total, rest));
    }
    Ok(())
}

/// The roots behind the records, up to the end of the file.
fn roots_to_end(
    alloc: Global,
    total: usize,
    symbol_count: u32,
    found: &Found,
    bytes: &[u8],
) -> Result<Vec<u32>, ReadFail>
    ensures { (symbols : List Named) → symbol_count ≡ length symbols
        → Gives (λ roots. contents_of_parts symbols found.now.table roots.items) result
        (spec.roots_to_end total symbols (records_of found.now) bytes.now) }
{
    let (count, rest) = root_count_at(total, found.used, symbol_count, bytes)?;
    let (roots, visited, rest) = roots_at(alloc, total, &found.table, count, rest)?;
    ended(total, visited, &found.table, rest)?;
    Ok(roots)
}

/// The records and the roots behind the symbols, up to the end of the file.
#[tactic(auto, unfolding(crate::specs::Reading::records_to_end))]
fn records_to_end(
    alloc: Global,
    total: usize,
    symbols: &Symbols,
    symbol_count: u32,
    bytes: &[u8],
) -> Result<(Table, Vec<u32>), ReadFail>
    requires { symbol_count ≡ length symbols.now }
    ensures { Gives (λ x. contents_of_parts symbols.now x.0 x.1.items) result
        (spec.records_to_end total symbols.now bytes.now) }
{
    let (count, rest) = count_at(total, MOST_RECORDS, bytes)?;
    let (found, rest) = records_at(alloc, total, symbols, symbol_count, count, rest)?;
    match roots_to_end(alloc, total, symbol_count, &found, rest) {
        Ok(roots) => Ok((found.table, roots)),
        Err(fault) => {
            // Dropped by name: one step of the proof; `?` takes one for each of its lists.
            drop(found);
            Err(fault)
        }
    }
}

/// What the bytes hold, where they are a right file.
#[tactic(auto, unfolding(crate::specs::Reading::read_file))]
fn parts(alloc: Global, bytes: &[u8]) -> Result<(Symbols, u32, Table, Vec<u32>), ReadFail>
    ensures read { Gives (λ x. contents_of_parts x.0 x.2 x.3.items) result
        (spec.read_file bytes.now) }
    ensures count { IfOk result (λ x. x.1 ≡ length x.0) }
{
    let total = bytes.len();
    let rest = after_magic(total, bytes)?;
    let (symbol_count, rest) = count_at(total, MOST_SYMBOLS as u32, rest)?;
    let (symbols, rest) = symbols_at(alloc, total, symbol_count, rest)?;
    match records_to_end(alloc, total, &symbols, symbol_count, rest) {
        Ok((table, roots)) => Ok((symbols, symbol_count, table, roots)),
        Err(fault) => {
            drop(symbols);
            Err(fault)
        }
    }
}

/// The terms of a file.
///
/// Refused with kind 18 at the first byte of the first field that breaks a rule, or with kind 3 at
/// the length of the bytes where a field is cut and none before it breaks a rule. No more memory is
/// taken than is linear in the bytes.
pub fn decode(alloc: Global, bytes: &[u8]) -> Result<Shared, ReadFail>
    // What is read is a right file with these terms.
    ensures found { IfOk result (λ s. IsFile bytes.now s) }
    // A right file is read, unless memory runs out.
    ensures accepted { IfErr result (λ e. (s : Terms) → IsFile bytes.now s → e ≡ Memory) }
    // A refusal is the first fault.
    ensures refused { IfErr result (IsDue (spec.read_file bytes.now)) }
{
    let (symbols, symbol_count, table, roots) = parts(alloc, bytes)?;
    Ok(Shared {
        symbols,
        symbol_count,
        table,
        roots,
    })
}
