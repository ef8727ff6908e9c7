//! The symbols of a file.
ghost use Rattle.std.specs.Prelude.{true, ◌≡◌, ◌++◌, ◌∷◌, ◌+◌, ◌<◌, ◌≤◌, [], length, Ok, OnOk, ◌&&◌, nat_le, IfErr, IfOk};
ghost use Rattle.symbol_pool.specs.Pool.{named};
ghost use Rattle.term_file.specs.Reading as spec;
ghost use Rattle.term_file.specs.Right.{is_new_symbol};
ghost use Rattle.term_file.specs.Outcome.{Gives};
ghost use Rattle.read_faults.specs.declared.fail.ReadFail.TheVariants.{Memory};

use crate::fields::{bad_at, byte_at, name_at};
use read_faults::ReadFail;
use std::alloc::Global;
use symbol_pool::{MOST_SYMBOLS, PoolFault, Symbols};

/// How many arguments a symbol may have.
const MOST_ARGUMENTS: u8 = 16;

/// Whether no symbol is this.
fn is_new(symbols: &Symbols, name: &[u8], arity: u8) -> bool
    ensures { result ≡ is_new_symbol symbols.now (named name.now arity) }
{
    symbols.find(name, arity as u32).is_none()
}

/// Takes up a symbol that isn't there.
fn take_up(symbols: &mut Symbols, name: &[u8], arity: u8) -> Result<(), ReadFail>
    requires room { length symbols.old < MOST_SYMBOLS }
    requires absent { is_new_symbol symbols.old (named name.now arity) ≡ true }
    ensures added { OnOk result (symbols.new ≡ symbols.old ++ named name.now arity ∷ []) }
    ensures memory { IfErr result (λ e. e ≡ Memory) }
{
    match symbols.intern(name, arity as u32) {
        Ok(_) => Ok(()),
        Err(PoolFault::Memory) => Err(ReadFail::Memory),
        Err(PoolFault::Full) => unreachable!(),
    }
}

/// The number of arguments of a name, with which it is a symbol behind those before it.
#[tactic(auto, unfolding(crate::specs::Reading::number_where))]
fn arity_at<'a>(
    total: usize,
    symbols: &Symbols,
    name: &[u8],
    bytes: &'a [u8],
) -> Result<(u8, &'a [u8]), ReadFail>
    ensures read { Gives (λ x. (x.0, x.1.now)) result
        (spec.number_where total 1
        (λ n. nat_le n 16 && is_new_symbol symbols.now (named name.now n)) bytes.now) }
    ensures absent { IfOk result (λ x. is_new_symbol symbols.now (named name.now x.0) ≡ true) }
{
    let (arity, rest) = byte_at(total, bytes)?;
    if arity > MOST_ARGUMENTS || !is_new(symbols, name, arity) {
        return Err(bad_at(total, bytes));
    }
    Ok((arity, rest))
}

/// Reads a symbol behind those before it; gives the bytes after it.
#[tactic(auto, unfolding(crate::specs::Reading::symbol_at))]
fn symbol_at<'a>(total: usize, symbols: &mut Symbols, bytes: &'a [u8]) -> Result<&'a [u8], ReadFail>
    requires { length symbols.old < MOST_SYMBOLS }
    ensures read { Gives (λ rest. (symbols.new, rest.now)) result
        (spec.symbol_at total symbols.old bytes.now) }
    ensures grown { OnOk result (length symbols.new ≡ length symbols.old + 1) }
{
    let (size, rest) = byte_at(total, bytes)?;
    let (name, rest) = name_at(total, size as usize, rest)?;
    let (arity, rest) = arity_at(total, symbols, name, rest)?;
    take_up(symbols, name, arity)?;
    Ok(rest)
}

/// So many symbols, and the bytes after them.
pub(crate) fn symbols_at(
    alloc: Global,
    total: usize,
    count: u32,
    bytes: &[u8],
) -> Result<(Symbols, &[u8]), ReadFail>
    requires { count ≤ MOST_SYMBOLS }
    ensures read { Gives (λ x. (x.0, x.1.now)) result (spec.symbols_at total count [] bytes.now) }
    ensures size { IfOk result (λ x. length x.0 ≡ count) }
{
    let mut symbols = Symbols::new(alloc);
    let mut rest = bytes;
    for _number in 0..count {
        match symbol_at(total, &mut symbols, rest) {
            Ok(after) => rest = after,
            Err(fault) => {
                // Dropped by name: one step of the proof; `?` takes one for each of its lists.
                drop(symbols);
                return Err(fault);
            }
        }
    }
    Ok((symbols, rest))
}
