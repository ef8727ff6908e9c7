// What a command line comes to.
use std::alloc::AllocError;
use thiserror::Error;

/// What the program is to do.
#[derive(Clone, Copy, Debug, PartialEq, Eq)]
pub enum Command {
    /// Rewrites the terms of a specification to their values.
    Rewrite,
    /// Rewrites the terms of a large specification that is made from a number.
    Drill,
    /// Runs a schedule of steps of the lock.
    Schedule,
    /// Writes terms in their canonical text, and how many nodes they have.
    Terms,
    /// Writes terms as a file, in which each different one stands once.
    Pack,
    /// Writes the terms of such a file in their canonical text.
    Unpack,
    /// Rewrites the terms of a specification at the leftmost outermost place.
    Outermost,
    /// Checks the log of a run.
    CheckLog,
    /// Checks the traces of a run.
    CheckTrace,
}

/// How the program is to do it. A field that the command does not use has its default.
#[derive(Clone, Copy, Debug, PartialEq, Eq)]
pub struct Settings {
    pub command: Command,
    /// Threads that rewrite terms, 1 to 16. By default 1.
    pub workers: u32,
    /// Rules that may be applied to one term, 0 to 1,000,000,000. By default 1,000,000.
    pub fuel: u64,
    /// Trees that the store of all workers can hold at a time, or different trees that terms may
    /// have, 1 to 262,144. By default 65,536.
    pub rows: u32,
    /// Places on each worker's stack, the room that a term is rewritten in, 1 to 65,536. By default
    /// 4,096.
    pub depth: u32,
    /// Results that each worker remembers of innermost rewriting, 0 to 65,535. By default 0.
    pub cache: u32,
    /// Whether a value's sizes are written in place of its text.
    pub sizes: bool,
    /// Whether the log of the store's callers is written too.
    pub log: bool,
    /// Whether the steps that lead to each value are written too. Never together with `sizes` or
    /// `log`, or with a `cache` above 0.
    pub trace: bool,
    /// The number that a drill is made from, 1 to 65,535; 0 where the command is no drill.
    pub count: u32,
    /// Seats of the lock, 1 to 16. By default 2.
    pub seats: u32,
}

/// Why words give no settings, each with a text. The top call's lines for such words are its own.
#[derive(Clone, Copy, Debug, PartialEq, Eq, Error)]
pub enum WordsFault {
    /// The words are not accepted.
    #[error("usage: rec COMMAND [OPTIONS]")]
    Usage,
    /// There is no memory.
    #[error("out of memory")]
    Memory,
}

impl From<AllocError> for WordsFault {
    ghost use Rattle.std.specs.Prelude.{◌≡◌};
    ghost use Rattle.settings.specs.declared.parts.WordsFault.TheVariants.{Memory};

    ghost from_gives = { λ _ fault. fault ≡ Memory };

    fn from(_: AllocError) -> Self {
        WordsFault::Memory
    }
}
