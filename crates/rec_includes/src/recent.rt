//! Which entry a name had lately.
ghost use Rattle.std.specs.Prelude.{◌<◌};

/// How many places there are.
const PLACES: usize = 64;

/// The number of an entry at each of some places, one of which a name has. It is only a guess,
/// since many names have the same place, and of a number past 65,535 only its rest is kept: whoever
/// asks looks whether the entry is that of the name.
#[derive(Clone, Copy)]
pub(crate) struct Recent {
    entries: [u16; PLACES],
}

// The place of a name, by its ends and its size.
#[inline(always)]
fn place(name: &[u8]) -> usize
    ensures { result < 64 }
{
    let first = name.first().copied().unwrap_or(0);
    let last = name.last().copied().unwrap_or(0);
    let size = (name.len() % 16) as u8;
    let ends = first.wrapping_mul(31).wrapping_add(last.wrapping_mul(7));
    usize::from(ends.wrapping_add(size.wrapping_mul(5))) % PLACES
}

impl Recent {
    /// The first entry at each place.
    pub(crate) fn new() -> Self {
        Recent {
            entries: [0; PLACES],
        }
    }

    /// The entry that was noted last at the place of a name.
    #[inline(always)]
    pub(crate) fn guess(&self, name: &[u8]) -> usize {
        usize::from(self.entries[place(name)])
    }

    /// Notes an entry at the place of its name.
    pub(crate) fn note(&mut self, name: &[u8], entry: usize) {
        self.entries[place(name)] = (entry % 65_536) as u16;
    }
}
