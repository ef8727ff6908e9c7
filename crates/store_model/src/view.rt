//! What a seat knows, and where the words of a store stand.
use history_core::Entry;
use std::collections::LinkedList;
use term_model::Head;

/// The counts of a store. The buckets in use are `start` at first, and `first` is the first base.
#[derive(Clone, Copy, Debug, PartialEq, Eq)]
pub struct Sizes {
    pub rows: u32,
    pub buckets: u32,
    pub start: u32,
    pub seats: u32,
    pub depth: u32,
    pub arity: u32,
    pub first: u64,
}

/// A word of a store past those of the lock.
#[derive(Clone, Copy, Debug, PartialEq, Eq)]
pub enum Place {
    Base,
    FreeCount,
    Claim,
    /// The number of buckets in use.
    InUse,
    FreePlace(u32),
    Bucket(u32),
    /// A row's symbol word, its count of arguments, and its arguments.
    RowWord(u32, u32),
    Birth(u32),
    Next(u32),
    RootCount(u32),
    Root(u32, u32),
}

/// A head over rows.
#[derive(Debug, Clone, Drop)]
pub struct Content {
    pub head: Head,
    pub arguments: LinkedList<u32>,
}

/// What a seat has under way. In a creation: the content, the drawn index with its row, the head
/// that was read last, the word that its walk ends at, where the walk is, and how many words were
/// compared or stored. Words of chains are 0 at the end, else the row and 1.
#[derive(Debug, Drop)]
pub enum Call {
    Idle,
    Comparing(Content, Option<(u32, u32)>, u32, u32, u32, u32),
    /// A word of the row differs: which one, and what it was found to be.
    Passing(Content, Option<(u32, u32)>, u32, u32, u32, (u32, u64)),
    Finding(Content, Option<(u32, u32)>, u32),
    Ended(Content, u32),
    Counting(Content, u32, u64),
    Drawing(Content, u32, u64),
    Placing(Content, u32, u32),
    Filling(Content, u32, u32, u32, u32),
    Numbering(Content, u32, u32, u32),
    Linking(Content, u32, u32, u32),
    Publishing(Content, u32, u32, u32),
    /// A collection, with the words that it has loaded, in order.
    Loading(LinkedList<(Place, u64)>),
    /// And those that it has stored, the last one first.
    Storing(LinkedList<(Place, u64)>, LinkedList<(Place, u64)>),
}

/// How far a granted access has come: nothing loaded, the base, the buckets in use too; the end of
/// an exclusive one.
#[derive(Clone, Copy, Debug, PartialEq, Eq)]
pub enum Stay {
    Away,
    Based,
    Ready,
    Leaving,
}

/// A word of a row that stays.
#[derive(Clone, Copy, Debug, PartialEq, Eq)]
pub struct KnownWord {
    pub row: u32,
    /// 0 for the symbol word, 1 for the count, then the arguments.
    pub word: u32,
    pub value: u64,
}

/// A row that a walk has passed: which of its words differed, what that was, and the word of the
/// chain after it.
#[derive(Clone, Copy, Debug, PartialEq, Eq)]
pub struct Passed {
    pub row: u32,
    pub word: u32,
    pub found: u64,
    pub next: u32,
}

/// A creation that ended with Full: the head of the chain that it read, the rows that it passed up
/// to the chain's end, and the claim that it read or drew with the free count.
#[derive(Debug, Clone, Drop)]
pub struct Refusal {
    pub content: Content,
    pub head: u32,
    pub path: LinkedList<Passed>,
    pub claim: u64,
    pub count: u64,
}

/// What a seat knows of the store.
#[derive(Debug, Drop)]
pub struct View {
    pub call: Call,
    pub stay: Stay,
    /// The base that it has last loaded or stored, and so the one of its epoch; 0 before the first.
    pub base: u64,
    /// The number of buckets in use that it has last loaded or stored.
    pub in_use: u32,
    /// Its own words of protected rows, of which the first `root_count` count.
    pub roots: LinkedList<u32>,
    pub root_count: u32,
    /// The rows that it got, read, or had protected in its epoch, and those that it kept from the
    /// one before.
    pub got: LinkedList<u32>,
    /// The words that it has read or stored of such rows.
    pub knows: LinkedList<KnownWord>,
    pub seen: u64,
    /// The base at which it has last drawn past the free count.
    pub overdraw: Option<u64>,
    pub entries: LinkedList<Entry>,
    /// A collection of this access has ended.
    pub fresh: bool,
    /// How many rows the walks of the call have passed.
    pub passed: u32,
    /// The rows that they have passed, in order.
    pub path: LinkedList<Passed>,
    pub refused: LinkedList<Refusal>,
}
