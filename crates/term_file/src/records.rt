//! The records of a file.
ghost use Rattle.std.specs.Prelude.{◌≡◌, ◌<◌, ◌≤◌, ◌+◌, ◌^◌, ◌∷◌, [], length, nat_le, nat_lt, is_some, ◌&&◌, All, IfOk, true};
ghost use Rattle.term_file.specs.InOrder.{came_after};
ghost use Rattle.term_file.specs.Reading as spec;
ghost use Rattle.term_file.specs.Right as right;
ghost use Rattle.term_file.specs.Outcome.{Gives, head_of};
ghost use Rattle.term_file.specs.Found.{body_of, records_of};

use crate::fields::{bad_at, byte_at, u32_at, u64_at};
use crate::found::{Found, comes_in_order};
use crate::record::{Kind, Record};
use crate::table::Table;
use read_faults::ReadFail;
use std::alloc::Global;
use symbol_pool::Symbols;
use term_model::Symbol;

/// The tag of a record, and the bytes after it.
#[tactic(auto, unfolding(crate::specs::Reading::number_where))]
fn tag_at(total: usize, bytes: &[u8]) -> Result<(u8, &[u8]), ReadFail>
    ensures { Gives (λ x. (x.0, x.1.now)) result
        (spec.number_where total 1 (λ n. nat_le n 3) bytes.now) }
{
    let (tag, rest) = byte_at(total, bytes)?;
    if tag > 3 {
        return Err(bad_at(total, bytes));
    }
    Ok((tag, rest))
}

/// A symbol of so many, of which the first `used` were used, and the bytes after it.
#[tactic(auto, unfolding(crate::specs::Reading::number_where))]
fn symbol_number_at(
    total: usize,
    count: u32,
    used: usize,
    bytes: &[u8],
) -> Result<(u32, &[u8]), ReadFail>
    ensures read { Gives (λ x. (x.0, x.1.now)) result
        (spec.number_where total 4 (λ n. nat_lt n count && is_some (came_after used (n ∷ [])))
        bytes.now) }
    ensures below { IfOk result (λ x. x.0 < count) }
{
    let (symbol, rest) = u32_at(total, bytes)?;
    if symbol >= count || !comes_in_order(used, symbol) {
        return Err(bad_at(total, bytes));
    }
    Ok((symbol, rest))
}

/// A root that is a symbol; the bytes from the symbol on, and the bytes after it.
#[tactic(auto, unfolding(crate::specs::Reading::head_at))]
fn call_at<'a>(
    total: usize,
    symbols: &Symbols,
    count: u32,
    used: usize,
    tag: &[u8],
    bytes: &'a [u8],
) -> Result<(Kind, &'a [u8], &'a [u8]), ReadFail>
    requires { count ≡ length symbols.now }
    ensures right { IfOk result (λ x. right.is_right_head symbols.now (head_of x.0) ≡ true) }
    ensures read { Gives (λ x. spec.body (head_of x.0) x.1.now x.2.now) result
        (spec.head_at total symbols.now used tag.now (0, bytes.now)) }
{
    let (symbol, rest) = symbol_number_at(total, count, used, bytes)?;
    Ok((Kind::Call(symbol), bytes, rest))
}

/// A root that is an integer; the bytes from the integer on, and the bytes after it.
#[tactic(auto, unfolding(crate::specs::Reading::head_at))]
fn integer_at<'a>(
    total: usize,
    symbols: &Symbols,
    used: usize,
    tag: &[u8],
    bytes: &'a [u8],
) -> Result<(Kind, &'a [u8], &'a [u8]), ReadFail>
    ensures right { IfOk result (λ x. right.is_right_head symbols.now (head_of x.0) ≡ true) }
    ensures read { Gives (λ x. spec.body (head_of x.0) x.1.now x.2.now) result
        (spec.head_at total symbols.now used tag.now (1, bytes.now)) }
{
    let (value, rest) = u64_at(total, bytes)?;
    Ok((Kind::Integer(value), bytes, rest))
}

/// What a tag stands for, with its symbol or integer; the bytes from the last field on, and the
/// bytes after it.
#[tactic(auto, unfolding(crate::specs::Reading::head_at))]
fn kind_at<'a>(
    total: usize,
    symbols: &Symbols,
    count: u32,
    used: usize,
    bytes: &'a [u8],
    tag: u8,
    rest: &'a [u8],
) -> Result<(Kind, &'a [u8], &'a [u8]), ReadFail>
    requires { count ≡ length symbols.now }
    ensures right { IfOk result (λ x. right.is_right_head symbols.now (head_of x.0) ≡ true) }
    ensures read { Gives (λ x. spec.body (head_of x.0) x.1.now x.2.now) result
        (spec.head_at total symbols.now used bytes.now (tag, rest.now)) }
{
    match tag {
        0 => call_at(total, symbols, count, used, bytes, rest),
        1 => integer_at(total, symbols, used, bytes, rest),
        2 => Ok((Kind::Empty, bytes, rest)),
        _ => Ok((Kind::Cell, bytes, rest)),
    }
}

/// How many arguments a root takes.
pub(crate) fn arity_of(symbols: &Symbols, kind: Kind) -> u32
    requires { right.is_right_head symbols.now (head_of kind) ≡ true }
    ensures { result ≡ right.arity_in symbols.now (head_of kind) }
{
    match kind {
        Kind::Call(symbol) => symbols.arity(Symbol(symbol)),
        Kind::Integer(_) | Kind::Empty => 0,
        Kind::Cell => 2,
    }
}

/// Whether a record may be an argument with so many more after it: it has a lesser number, and the
/// last argument of a cell is a list.
fn may_be_argument(table: &Table, kind: Kind, more: u32, number: u32) -> bool
    ensures { result ≡ right.may_be_argument table.now (head_of kind) more number }
{
    match kind {
        Kind::Cell if more == 0 => table.is_list(number),
        _ => (number as usize) < table.len(),
    }
}

/// An argument with so many more after it, and the bytes after it.
#[tactic(auto, unfolding(crate::specs::Reading::number_where))]
fn argument_at<'a>(
    total: usize,
    table: &Table,
    kind: Kind,
    more: u32,
    bytes: &'a [u8],
) -> Result<(u32, &'a [u8]), ReadFail>
    ensures read { Gives (λ x. (x.0, x.1.now)) result
        (spec.number_where total 4 (right.may_be_argument table.now (head_of kind) more)
        bytes.now) }
    ensures before { IfOk result (λ x. x.0 < length table.now) }
{
    let (number, rest) = u32_at(total, bytes)?;
    if !may_be_argument(table, kind, more, number) {
        return Err(bad_at(total, bytes));
    }
    Ok((number, rest))
}

/// So many arguments of a root behind the bytes from its last field on; the record, the bytes from
/// the last argument on, and the bytes after it.
fn arguments_at<'a>(
    alloc: Global,
    total: usize,
    table: &Table,
    kind: Kind,
    arity: u32,
    last: &'a [u8],
    bytes: &'a [u8],
) -> Result<(Record, &'a [u8], &'a [u8]), ReadFail>
    ensures read { Gives (λ x. body_of x.0 x.1.now x.2.now) result
        (spec.arguments_at total table.now arity (spec.body (head_of kind) last.now bytes.now)) }
    ensures before { IfOk result (λ x. All (λ i. i < length table.now) x.0.arguments.items) }
{
    let mut arguments = Vec::new(alloc);
    let mut from = last;
    let mut rest = bytes;
    for index in 0..arity {
        let (number, after) = argument_at(total, table, kind, arity - 1 - index, rest)?;
        arguments.push(number)?;
        from = rest;
        rest = after;
    }
    Ok((Record { kind, arguments }, from, rest))
}

/// Reads a record behind those before it; gives the bytes after it.
#[tactic(auto, unfolding(crate::specs::Reading::record_at))]
fn record_at<'a>(
    alloc: Global,
    total: usize,
    symbols: &Symbols,
    symbol_count: u32,
    found: &mut Found,
    bytes: &'a [u8],
) -> Result<&'a [u8], ReadFail>
    requires count { symbol_count ≡ length symbols.now }
    requires used { found.old.used < 2 ^ 32 }
    ensures read { Gives (λ rest. (records_of found.new, rest.now)) result
        (spec.record_at total symbols.now (records_of found.old) bytes.now) }
    ensures one_more { found.new.used ≤ found.old.used + 1 }
{
    let (tag, rest) = tag_at(total, bytes)?;
    let (kind, last, rest) = kind_at(total, symbols, symbol_count, found.used, bytes, tag, rest)?;
    let arity = arity_of(symbols, kind);
    let (record, last, rest) = arguments_at(alloc, total, &found.table, kind, arity, last, rest)?;
    found.take(total, record, last)?;
    Ok(rest)
}

/// So many records, and the bytes after them.
pub(crate) fn records_at<'a>(
    alloc: Global,
    total: usize,
    symbols: &Symbols,
    symbol_count: u32,
    count: u32,
    bytes: &'a [u8],
) -> Result<(Found, &'a [u8]), ReadFail>
    requires { symbol_count ≡ length symbols.now }
    ensures { Gives (λ x. (records_of x.0, x.1.now)) result
        (spec.records_at total symbols.now count spec.no_records bytes.now) }
{
    let mut found = Found {
        table: Table::new(alloc),
        used: 0,
    };
    let mut rest = bytes;
    for _number in 0..count {
        match record_at(alloc, total, symbols, symbol_count, &mut found, rest) {
            Ok(after) => rest = after,
            Err(fault) => {
                // Dropped by name: one step of the proof; `?` takes one for each of its lists.
                drop(found);
                return Err(fault);
            }
        }
    }
    Ok((found, rest))
}
