//! Which symbol a name with a number of arguments was lately.
ghost use Rattle.std.specs.Prelude.{◌≡◌, ◌+◌, ◌*◌, ◌<◌, ◌≤◌, List, IfSome, length, slice_index};
ghost use Rattle.symbol_pool.specs.Pool.{Holds, IsPool, Named, named};
ghost use Rattle.term_syntax.specs.Known.{AreKnown, name_of};

use std::marker::Model;
use symbol_pool::Symbols;
use term_model::Symbol;

/// How many places there are.
const PLACES: usize = 4096;

/// How many bytes a short name may have.
pub(crate) const SHORT: usize = 8;

/// How many bytes a name may have that is noted.
const LONGEST: usize = 255;

/// With how many arguments a name may be noted.
const MOST_ARGUMENTS: u32 = 65_535;

/// The sizes of no name.
const NO_SIZES: u32 = u32::MAX;

/// A name as a number, its size and its number of arguments in one, and the symbol that they are.
/// Of a long name the number tells only some bytes.
#[derive(Clone, Copy)]
pub(crate) struct Noted {
    pub(crate) number: u64,
    pub(crate) sizes: u32,
    pub(crate) symbol: u32,
}

/// A name with its symbol at each of some places, one of which a name with a number of arguments
/// has. Many have the same place, so the last that was noted stands there. A text has many more
/// names than most lists of names, so there are more places here than in `Symbols`. A short name is
/// a number, so that it is compared at once, and nothing else is looked at.
#[derive(Drop)]
pub struct Lately {
    noted: [Noted; PLACES],
}

impl Model for Lately {
    ghost use Rattle.std.specs.Prelude.{List};
    ghost use Rattle.term_syntax.specs.declared.lately.Noted.{Noted};

    ghost Value = { List Noted };

    ghost view = { λ s. s.noted };
}

// Two bytes of a name as one number.
#[inline(always)]
fn two_bytes(name: &[u8], at: usize) -> u64
    requires { at + 1 < length name.now }
    ensures is { result ≡ slice_index name.now at + slice_index name.now (at + 1) * 256 }
    ensures bound { result < 65536 }
{
    u64::from(name[at]) + u64::from(name[at + 1]) * 256
}

// Four bytes of a name as one number.
#[inline(always)]
fn four_bytes(name: &[u8], at: usize) -> u64
    requires { at + 3 < length name.now }
    ensures is { result ≡ slice_index name.now at + slice_index name.now (at + 1) * 256
        + (slice_index name.now (at + 2) + slice_index name.now (at + 3) * 256) * 65536 }
    ensures bound { result < 4294967296 }
{
    two_bytes(name, at) + two_bytes(name, at + 2) * 65_536
}

// Bytes that tell most of a long name: both ends, and some between.
#[inline(always)]
fn telling(name: &[u8]) -> u64
    requires { 8 < length name.now }
{
    let size = name.len();
    let ends = four_bytes(name, 0) + four_bytes(name, size - 4) * 4_294_967_296;
    ends.wrapping_add(four_bytes(name, size / 2).wrapping_mul(1_000_000_007))
}

// A name as a number. Of a short one it is the first four bytes and the last four, some of which
// may be the same; where it has two or three, the first two and the last two; else its one byte,
// or 0.
#[inline(always)]
fn number_of(name: &[u8]) -> u64
    ensures { length name.now ≤ 8 → name_of (length name.now) result ≡ name.now }
{
    let size = name.len();
    if size > SHORT {
        return telling(name);
    }
    if size >= 4 {
        return four_bytes(name, 0) + four_bytes(name, size - 4) * 4_294_967_296;
    }
    if size >= 2 {
        return two_bytes(name, 0) + two_bytes(name, size - 2) * 65_536;
    }
    if size == 1 { u64::from(name[0]) } else { 0 }
}

// The size of a name and its number of arguments.
#[inline(always)]
fn sizes_of(name: &[u8], count: u32) -> u32
    requires name { length name.now ≤ 255 }
    requires count { count ≤ 65535 }
    ensures { result ≡ length name.now + count * 256 }
{
    name.len() as u32 + count * 256
}

// The place of a name by its number and its sizes. A factor spreads them over the high bits, the
// highest 12 of which are the place.
#[inline(always)]
fn place(number: u64, sizes: u32) -> usize
    ensures { result < 4096 }
{
    let mixed = number.wrapping_add(u64::from(sizes));
    (mixed.wrapping_mul(11_400_714_819_323_198_485) >> 52) as usize % PLACES
}

impl Lately {
    /// Nothing was noted.
    pub fn new() -> Self
        ensures { (pool : List Named) → AreKnown result pool }
    {
        Lately {
            noted: [Noted {
                number: 0,
                sizes: NO_SIZES,
                symbol: 0,
            }; PLACES],
        }
    }

    /// The symbol that a short name with a number of arguments is, where it was noted last at its
    /// place.
    #[inline(always)]
    pub(crate) fn find_short(&self, name: &[u8], count: u32) -> Option<Symbol>
        requires { length name.now ≤ 8 }
        ensures { IfSome result (λ s. (pool : List Named) → AreKnown self.now pool
            → Holds pool s (named name.now count) × IsPool pool) }
    {
        if count > MOST_ARGUMENTS {
            return None;
        }
        let number = number_of(name);
        let sizes = sizes_of(name, count);
        let noted = self.noted[place(number, sizes)];
        if noted.number == number && noted.sizes == sizes {
            Some(Symbol(noted.symbol))
        } else {
            None
        }
    }

    /// The same of any name: what was noted is compared with the symbol's name.
    #[tactic(auto, using(crate::proofs::Known::held_by, crate::proofs::Known::noted_there))]
    pub(crate) fn find(&self, symbols: &Symbols, name: &[u8], count: u32) -> Option<Symbol>
        requires name { length name.now ≤ 255 }
        requires known { AreKnown self.now symbols.now }
        ensures held { IfSome result (λ s. Holds symbols.now s (named name.now count)) }
        ensures is_pool { IfSome result (λ _. IsPool symbols.now) }
    {
        if count > MOST_ARGUMENTS {
            return None;
        }
        let number = number_of(name);
        let sizes = sizes_of(name, count);
        let noted = self.noted[place(number, sizes)];
        if noted.number != number || noted.sizes != sizes {
            return None;
        }
        let symbol = Symbol(noted.symbol);
        if symbols.arity(symbol) == count && symbols.name(symbol) == name {
            Some(symbol)
        } else {
            None
        }
    }

    /// Notes a symbol at its place.
    pub(crate) fn note(&mut self, name: &[u8], count: u32, symbol: Symbol)
        ensures { (pool : List Named) → AreKnown self.old pool → symbol.0 < length pool
            → Holds pool symbol (named name.now count) → IsPool pool → AreKnown self.new pool }
    {
        if name.len() > LONGEST || count > MOST_ARGUMENTS {
            return;
        }
        let number = number_of(name);
        let sizes = sizes_of(name, count);
        self.noted[place(number, sizes)] = Noted {
            number,
            sizes,
            symbol: symbol.0,
        };
    }
}
