//! Which symbol was taken up lately.
ghost use Rattle.std.specs.Prelude.{◌<◌};

use term_model::Symbol;

/// How many places there are.
const PLACES: usize = 256;

/// A symbol at each of some places, one of which a name with a number of arguments has. It is only
/// a guess, since many have the same place: whoever asks looks whether the symbol is the right one.
#[derive(Clone, Copy)]
pub(crate) struct Recent {
    symbols: [u32; PLACES],
}

// The place of a name with a number of arguments, by the ends of the name and by both sizes.
fn place(name: &[u8], arity: u32) -> usize
    ensures { result < 256 }
{
    let first = name.first().copied().unwrap_or(0);
    let last = name.last().copied().unwrap_or(0);
    let size = (name.len() % 16) as u8;
    let count = (arity % 16) as u8;
    let ends = first.wrapping_mul(31).wrapping_add(last.wrapping_mul(7));
    let sizes = size.wrapping_mul(16).wrapping_add(count);
    usize::from(ends.wrapping_add(sizes))
}

impl Recent {
    /// The first symbol at each place.
    pub(crate) fn new() -> Self {
        Recent {
            symbols: [0; PLACES],
        }
    }

    /// The symbol that was noted last at the place of a name with a number of arguments.
    pub(crate) fn guess(&self, name: &[u8], arity: u32) -> Symbol {
        Symbol(self.symbols[place(name, arity)])
    }

    /// Notes a symbol at its place.
    pub(crate) fn note(&mut self, name: &[u8], arity: u32, symbol: Symbol) {
        self.symbols[place(name, arity)] = symbol.0;
    }
}
