//! How much room a reduction has to spare.

ghost use Rattle.std.specs.Prelude.{◌≡◌, ℕ, min};

/// Notes how much room the steps of a reduction have to spare, or doesn't.
pub(crate) trait Spare {
    /// No more than any step had that was noted.
    ghost least: { Self → ℕ };

    /// A step had so much room to spare.
    fn note(&mut self, spare: u32)
        ensures least { least self.new ≡ min (least self.old) spare };
}

/// The least room to spare of any step.
#[derive(Clone, Copy)]
pub(crate) struct LeastSpare {
    pub least: u32,
}

impl Spare for LeastSpare {
    ghost least = { λ s. s.least };

    #[inline(always)]
    fn note(&mut self, spare: u32) {
        if spare < self.least {
            self.least = spare;
        }
    }
}

/// Notes nothing: no room is taken to be spare.
#[derive(Clone, Copy)]
pub(crate) struct NoSpare;

impl Spare for NoSpare {
    ghost least = { λ s. 0 };

    #[inline(always)]
    fn note(&mut self, _spare: u32) {}
}
