//! Takes up the symbols of parts in the order of the text.
ghost use Rattle.std.specs.Prelude.{◌≡◌, ◌≤◌, length, map, Ok, IfOk, IfErr, OnOk, OnErr, All};
ghost use Rattle.read_faults.specs.Fault.{IsDue};
ghost use Rattle.term_syntax.specs.Parts.{taken_up, symbols_of_parts};
ghost use Rattle.term_syntax.specs.TakenUp.{TookFront};
ghost use Rattle.term_syntax.specs.Items.{item_in, IsTakenUp, IsPartFault, IsThere};
ghost use Rattle.symbol_pool.specs.Taking.{GrowsPool};
ghost use Rattle.term_syntax.specs.Named.{IsSymbolTaken, IsSymbolRefused};
ghost use Rattle.term_syntax.specs.Known.{AreKnown};
ghost use Rattle.term_syntax.specs.Shown.{part_in, parts_in, quoted_at};

use crate::lately::{Lately, SHORT};
use crate::machine::Entry;
use crate::scanner::{integer_at, plain_name_at, quoted_name_at};
use crate::token::Shape;
use faults::kinds;
use read_faults::{ReadFail, refused};
use std::alloc::Global;
use symbol_pool::{PoolFault, Symbols};
use term_model::{Item, Symbol};

/// How many bytes a name may have.
const LONGEST_NAME: usize = 255;

/// The symbol that is a name with a number of arguments, taken up if there is none yet.
///
/// Refuses with kind 13, at the place that is given, a name of more than 255 bytes and a symbol too
/// many, or has no memory. After an error the symbols are as before.
#[inline(always)]
pub fn take_symbol(
    name: &[u8],
    count: u32,
    place: usize,
    lately: &mut Lately,
    symbols: &mut Symbols,
) -> Result<Symbol, ReadFail>
    requires { AreKnown lately.old symbols.old }
    ensures taken { IfOk result (λ s. IsSymbolTaken symbols.old name.now count s symbols.new) }
    ensures refused { IfErr result (IsSymbolRefused symbols.old name.now count place) }
    ensures unchanged { OnErr result (symbols.new ≡ symbols.old) }
    ensures known { OnOk result (AreKnown lately.new symbols.new) }
{
    if name.len() > SHORT {
        return take_long(name, count, place, lately, symbols);
    }
    if let Some(symbol) = lately.find_short(name, count) {
        return Ok(symbol);
    }
    take_anew(name, count, place, lately, symbols)
}

// The same, of a long name.
#[inline(never)]
fn take_long(
    name: &[u8],
    count: u32,
    place: usize,
    lately: &mut Lately,
    symbols: &mut Symbols,
) -> Result<Symbol, ReadFail>
    requires { AreKnown lately.old symbols.old }
    ensures taken { IfOk result (λ s. IsSymbolTaken symbols.old name.now count s symbols.new) }
    ensures refused { IfErr result (IsSymbolRefused symbols.old name.now count place) }
    ensures unchanged { OnErr result (symbols.new ≡ symbols.old) }
    ensures known { OnOk result (AreKnown lately.new symbols.new) }
{
    if name.len() > LONGEST_NAME {
        return Err(refused(kinds::LIMIT, place));
    }
    if let Some(symbol) = lately.find(symbols, name, count) {
        return Ok(symbol);
    }
    take_anew(name, count, place, lately, symbols)
}

// The same, of a name that isn't known. It stands apart, so that the look-up is inlined alone.
#[inline(never)]
fn take_anew(
    name: &[u8],
    count: u32,
    place: usize,
    lately: &mut Lately,
    symbols: &mut Symbols,
) -> Result<Symbol, ReadFail>
    requires short { length name.now ≤ 255 }
    requires known { AreKnown lately.old symbols.old }
    ensures taken { IfOk result (λ s. IsSymbolTaken symbols.old name.now count s symbols.new) }
    ensures refused { IfErr result (IsSymbolRefused symbols.old name.now count place) }
    ensures unchanged { OnErr result (symbols.new ≡ symbols.old) }
    ensures known { OnOk result (AreKnown lately.new symbols.new) }
{
    match symbols.intern(name, count) {
        Ok(symbol) => {
            lately.note(name, count, symbol);
            Ok(symbol)
        }
        Err(PoolFault::Full) => Err(refused(kinds::LIMIT, place)),
        Err(PoolFault::Memory) => Err(ReadFail::Memory),
    }
}

// Takes up the name in quotes that stands at a place, with a number of arguments.
fn take_quoted(
    alloc: Global,
    text: &[u8],
    place: usize,
    count: u32,
    lately: &mut Lately,
    symbols: &mut Symbols,
) -> Result<Symbol, ReadFail>
    requires { AreKnown lately.old symbols.old }
    ensures taken { IfOk result (λ s.
        IsSymbolTaken symbols.old (quoted_at text.now place) count s symbols.new) }
    ensures refused { IfErr result
        (IsSymbolRefused symbols.old (quoted_at text.now place) count place) }
    ensures unchanged { OnErr result (symbols.new ≡ symbols.old) }
    ensures known { OnOk result (AreKnown lately.new symbols.new) }
{
    let name = quoted_name_at(alloc, text, place)?;
    take_symbol(name.as_slice(), count, place, lately, symbols)
}

// Takes up the symbol of a part of the text, if it is one.
fn take_part(
    alloc: Global,
    text: &[u8],
    part: Entry,
    lately: &mut Lately,
    symbols: &mut Symbols,
) -> Result<Item, ReadFail>
    requires { AreKnown lately.old symbols.old }
    ensures taken { IfOk result (λ i.
        IsTakenUp symbols.old (part_in text.now part) i symbols.new) }
    ensures refused { IfErr result (IsPartFault symbols.old (part_in text.now part)) }
    ensures unchanged { OnErr result (symbols.new ≡ symbols.old) }
    ensures known { OnOk result (AreKnown lately.new symbols.new) }
{
    let place = part.place as usize;
    if part.over {
        return Err(refused(kinds::LIMIT, place));
    }
    match part.shape {
        Shape::Word => {
            let name = plain_name_at(text, place);
            let symbol = take_symbol(name, part.count, place, lately, symbols)?;
            Ok(Item::App(symbol, part.count))
        }
        Shape::Quoted => {
            let symbol = take_quoted(alloc, text, place, part.count, lately, symbols)?;
            Ok(Item::App(symbol, part.count))
        }
        Shape::Number => match integer_at(text, place) {
            Some(value) => Ok(Item::Int(value)),
            None => Err(refused(kinds::BAD_NUMBER, place)),
        },
        Shape::At(_) => Ok(Item::Nil),
    }
}

/// The items of parts of the text, whose symbols are taken up in order.
///
/// Refuses the first part with a fault at its place: with kind 13 a 17th argument, a name of more
/// than 255 bytes and a symbol too many, with kind 17 a number that isn't an integer.
pub(crate) fn items_of(
    alloc: Global,
    text: &[u8],
    parts: &[Entry],
    symbols: &mut Symbols,
) -> Result<Vec<Item>, ReadFail>
    ensures taken { OnOk result
        (taken_up symbols.old (parts_in text.now parts.now) ≡ Ok symbols.new) }
    ensures items { IfOk result (λ i.
        i.items ≡ map (item_in symbols.new) (parts_in text.now parts.now)) }
    ensures there { OnOk result (All (IsThere symbols.new) (parts_in text.now parts.now)) }
    ensures refused { IfErr result (IsDue (taken_up symbols.old (parts_in text.now parts.now))) }
    ensures grows { GrowsPool symbols.old symbols.new }
    ensures front { TookFront (symbols_of_parts (parts_in text.now parts.now))
        symbols.old symbols.new }
{
    let mut lately = Lately::new();
    let mut items = Vec::with_capacity(alloc, parts.len())?;
    for part in parts {
        let item = take_part(alloc, text, *part, &mut lately, symbols)?;
        items.push(item)?;
    }
    Ok(items)
}
