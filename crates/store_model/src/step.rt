//! The atomic actions of the seats.
use crate::view::{Content, Place};
use lock_core::LockStep;

/// One atomic action of a seat on one word. Where it stores, loads or exchanges, its place and
/// value are numbers; a draw is one fetch and add.
#[derive(Clone, Drop)]
pub enum StoreStep {
    Lock(LockStep),
    LoadBase,
    LoadFreeCount,
    LoadClaim,
    LoadInUse,
    Draw,
    LoadFreePlace(u32),
    /// A word of the own drawn row: the symbol word is 0, the count of arguments 1, then the
    /// arguments, the birth number and the next row of the chain.
    StoreDrawn { row: u32, word: u32, value: u64 },
    /// The load that begins a creation of this content.
    LoadBucket { bucket: u32, content: Content },
    /// A word of a row, counted in the same way.
    LoadRow { row: u32, word: u32 },
    /// The exchange on a bucket that makes a drawn row stand in its chain.
    Publish { bucket: u32, old: u32, new: u32 },
    /// A row as the own protected row of this place.
    StoreRoot { place: u32, row: u32 },
    StoreRootCount(u32),
    LoadRoot(u32),
    /// A collection's load of any word.
    LoadAny(Place),
    StoreNext { row: u32, value: u64 },
    StoreBucket { bucket: u32, value: u64 },
    StoreFreePlace { index: u32, value: u64 },
    StoreFreeCount(u64),
    StoreBase(u64),
    StoreInUse(u64),
    StoreClaim(u64),
}
