//! Writes a file.
ghost use Rattle.std.specs.Prelude.{◌≡◌, ◌++◌, ◌<◌, ◌≤◌, ◌^◌, length, OnOk, OnErr};
ghost use Rattle.std.specs.List.{flat_map, AllByRecursion};
ghost use Rattle.byteorder.specs.Endian.{big_bytes};
ghost use Rattle.term_file.specs.File as file;
ghost use Rattle.term_file.specs.Outcome.{head_of, view};
ghost use Rattle.term_file.specs.Parts.{contents_of_parts};
ghost use Rattle.term_file.specs.Written.{AppendsFile, IsShort};
ghost use Rattle.symbol_pool.specs.Pool.{named};

use crate::fields::MAGIC;
use crate::record::{Kind, Record};
use crate::shared::Shared;
use crate::table::Table;
use byteorder::{BigEndian, ByteOrder};
use faults::Memory;
use std::alloc::AllocError;
use symbol_pool::Symbols;
use term_model::Symbol;

/// Puts a number of four bytes behind what `out` has.
fn put_u32(out: &mut Vec<u8>, number: u32) -> Result<(), AllocError>
    ensures { OnOk result (out.new.items ≡ out.old.items ++ big_bytes 4 number) }
{
    let mut bytes = [0; 4];
    BigEndian::write_u32(&mut bytes, number);
    out.extend_from_slice(&bytes)?;
    Ok(())
}

/// Puts a number of eight bytes behind what `out` has.
fn put_u64(out: &mut Vec<u8>, number: u64) -> Result<(), AllocError>
    ensures { OnOk result (out.new.items ≡ out.old.items ++ big_bytes 8 number) }
{
    let mut bytes = [0; 8];
    BigEndian::write_u64(&mut bytes, number);
    out.extend_from_slice(&bytes)?;
    Ok(())
}

/// Puts a number of one byte behind what `out` has.
fn put_byte(out: &mut Vec<u8>, number: u8) -> Result<(), AllocError>
    ensures { OnOk result (out.new.items ≡ out.old.items ++ big_bytes 1 number) }
{
    out.push(number)?;
    Ok(())
}

/// Puts numbers of four bytes each behind what `out` has.
fn put_numbers(out: &mut Vec<u8>, numbers: &[u32]) -> Result<(), AllocError>
    ensures { OnOk result (out.new.items ≡ out.old.items ++ file.numbers_bytes numbers.now) }
{
    for number in numbers {
        put_u32(out, *number)?;
    }
    Ok(())
}

/// Puts the tag of a root, and its symbol or its integer.
fn put_kind(out: &mut Vec<u8>, kind: Kind) -> Result<(), AllocError>
    ensures { OnOk result (out.new.items ≡ out.old.items ++ file.head_bytes (head_of kind)) }
{
    match kind {
        Kind::Call(symbol) => {
            put_byte(out, 0)?;
            put_u32(out, symbol)
        }
        Kind::Integer(value) => {
            put_byte(out, 1)?;
            put_u64(out, value)
        }
        Kind::Empty => put_byte(out, 2),
        Kind::Cell => put_byte(out, 3),
    }
}

fn put_record(out: &mut Vec<u8>, entry: &Record) -> Result<(), AllocError>
    ensures { OnOk result (out.new.items ≡ out.old.items ++ file.record_bytes (view entry.now)) }
{
    put_kind(out, entry.kind)?;
    put_numbers(out, &entry.arguments)
}

fn put_records(out: &mut Vec<u8>, table: &Table) -> Result<(), AllocError>
    ensures { OnOk result (out.new.items ≡ out.old.items ++ flat_map file.record_bytes table.now) }
{
    for number in 0..table.len() {
        put_record(out, table.at(number))?;
    }
    Ok(())
}

fn put_symbol(out: &mut Vec<u8>, name: &[u8], arity: u32) -> Result<(), AllocError>
    requires name { length name.now ≤ 255 }
    requires arity { arity ≤ 16 }
    ensures { OnOk result
        (out.new.items ≡ out.old.items ++ file.symbol_bytes (named name.now arity)) }
{
    put_byte(out, name.len() as u8)?;
    out.extend_from_slice(name)?;
    put_byte(out, arity as u8)
}

fn put_symbols(out: &mut Vec<u8>, symbols: &Symbols, count: u32) -> Result<(), AllocError>
    requires count { count ≡ length symbols.now }
    requires short { AllByRecursion IsShort symbols.now }
    ensures { OnOk result
        (out.new.items ≡ out.old.items ++ flat_map file.symbol_bytes symbols.now) }
{
    for number in 0..count {
        let symbol = Symbol(number);
        put_symbol(out, symbols.name(symbol), symbols.arity(symbol))?;
    }
    Ok(())
}

/// Puts the bytes of symbols, records and roots behind what `out` has.
fn put_file(
    out: &mut Vec<u8>,
    symbols: &Symbols,
    symbol_count: u32,
    table: &Table,
    roots: &[u32],
) -> Result<(), AllocError>
    requires count { symbol_count ≡ length symbols.now }
    requires short { AllByRecursion IsShort symbols.now }
    requires few_records { length table.now < 2 ^ 32 }
    requires few_roots { length roots.now < 2 ^ 32 }
    ensures { OnOk result (out.new.items
        ≡ out.old.items ++ file.file_bytes (contents_of_parts symbols.now table.now roots.now)) }
{
    out.extend_from_slice(MAGIC)?;
    put_u32(out, symbol_count)?;
    put_symbols(out, symbols, symbol_count)?;
    put_u32(out, table.len() as u32)?;
    put_records(out, table)?;
    put_u32(out, roots.len() as u32)?;
    put_numbers(out, roots)?;
    Ok(())
}

/// Puts the one file of the terms behind what `out` has. An error changes nothing. Memory is linear
/// in the file.
pub fn encode(shared: &Shared, out: &mut Vec<u8>) -> Result<(), Memory>
    ensures written { OnOk result (AppendsFile out.old.items out.new.items shared.now) }
    ensures unchanged { OnErr result (out.new.items ≡ out.old.items) }
{
    let mut bytes = Vec::new(*out.allocator());
    put_file(
        &mut bytes,
        &shared.symbols,
        shared.symbol_count,
        &shared.table,
        &shared.roots,
    )?;
    out.extend_from_slice(&bytes)?;
    Ok(())
}
