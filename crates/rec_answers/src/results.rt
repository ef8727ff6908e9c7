// What a run answers.
ghost use Rattle.std.specs.Prelude.{◌≡◌, [], ◌∷◌, ◌++◌, OnOk};

use node_rows::Chronicle;
use std::alloc::{AllocError, Global};
use std::marker::Model;

/// The worker of each term, from 0, in the order of the terms.
#[derive(Drop)]
pub struct Workers {
    numbers: Vec<u32>,
}

impl Model for Workers {
    ghost use Rattle.std.specs.Prelude.{ℕ, List};

    ghost Value = { List ℕ };

    ghost view = { λ w. w.numbers.items };
}

impl Workers {
    /// No term was rewritten.
    pub fn none(alloc: Global) -> Self
        ensures { result ≡ [] }
    {
        Workers {
            numbers: Vec::new(alloc),
        }
    }

    /// One more term was rewritten, by this worker.
    pub(crate) fn add(&mut self, worker: u32) -> Result<(), AllocError>
        ensures { OnOk result (self.new ≡ self.old ++ worker ∷ []) }
    {
        self.numbers.push(worker)?;
        Ok(())
    }

    /// The workers in the order of the terms.
    pub fn as_slice(&self) -> &[u32]
        ensures { result.now ≡ self.now }
    {
        &self.numbers
    }
}

/// How a run ended.
#[derive(Drop)]
pub struct Outcome {
    /// The exit status.
    pub status: u8,
    /// The creations and collections of its workers on their store, those of worker k under the
    /// number k. Where no terms were rewritten it has none.
    pub chronicle: Chronicle,
    /// The worker of each term that was rewritten, where the output was made; else none.
    pub workers: Workers,
}
