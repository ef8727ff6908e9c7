//! Takes tokens one at a time: builds each whole term, and copies its canonical text.
ghost use Rattle.std.specs.Prelude.{◌≡◌, ◌≤◌, ◌<◌, [], Some, IfOk, OnOk, length};
ghost use Rattle.terms_api.specs.Terms.{Store};
ghost use Rattle.term_syntax.specs.Known.{AreKnown};
ghost use Rattle.term_building.specs.declared.builder.Stage.TheVariants as stage;
ghost use Rattle.term_building.specs.Ready.{IsReady, state_in};
ghost use Rattle.term_building.specs.Stages.{stage_of};
ghost use Rattle.term_building.specs.State as steps;

use crate::given_up::GivenUp;
use crate::groups::{Groups, Heading};
use crate::lines::Lines;
use std::alloc::Global;
use symbol_pool::Symbols;
use term_syntax::{Lately, Token};
use terms_api::Terms;

mod beginning;
mod ending;
mod following;
mod passing;

/// Where reading stands: after a whole term or at the start, behind an opening bracket, where a
/// term must come, or behind a name.
#[derive(Clone, Copy)]
pub(crate) enum Stage {
    Settled,
    Bracketed,
    Expected,
    Headed,
}

/// Where reading stands, the name behind which it stands where it is `Headed`, the open groups, the
/// text so far, the names that were noted with their symbols, the symbols so far, and the most
/// arguments that a symbol may have here. The whole terms stand on the store's stack.
#[derive(Drop)]
pub(crate) struct Builder {
    pub(crate) stage: Stage,
    pub(crate) heading: Heading,
    pub(crate) groups: Groups,
    pub(crate) lines: Lines,
    pub(crate) lately: Lately,
    pub(crate) symbols: Symbols,
    pub(crate) most: u32,
}

impl Builder {
    /// Nothing was read.
    pub(crate) fn start(alloc: Global, text: &[u8], most: u32) -> Result<Self, GivenUp>
        ensures stage { IfOk result (λ b. b.stage ≡ stage.Settled) }
        ensures groups { IfOk result (λ b. b.groups ≡ []) }
        ensures written { IfOk result (λ b. b.lines.written.items ≡ []) }
        ensures from { IfOk result (λ b. b.lines.from ≡ 0) }
        ensures symbols { IfOk result (λ b. b.symbols ≡ []) }
        ensures known { IfOk result (λ b. AreKnown b.lately b.symbols) }
        ensures most { IfOk result (λ b. b.most ≡ most) }
    {
        let lines = Lines::new(alloc, text)?;
        Ok(Builder {
            stage: Stage::Settled,
            heading: Heading {
                place: 0,
                end: 0,
                quoted: false,
            },
            groups: Groups::new(alloc),
            lines,
            lately: Lately::new(),
            symbols: Symbols::new(alloc),
            most,
        })
    }

    /// Takes a token of the text, which ends at a place.
    #[inline(always)]
    pub(crate) fn take<T: Terms>(
        &mut self,
        alloc: Global,
        text: &[u8],
        token: Token,
        end: usize,
        store: &mut T,
    ) -> Result<(), GivenUp>
        requires ready { IsReady (T.store store.old) self.old }
        requires place { token.place ≤ end }
        requires end { end ≤ length text.now }
        ensures built { OnOk result
            (steps.step text.now token.place end token.shape (state_in self.old (T.store store.old))
            ≡ Some (state_in self.new (T.store store.new))) }
        ensures ready { OnOk result (IsReady (T.store store.new) self.new) }
        ensures same { OnOk result (T.same store.old store.new) }
    {
        match self.stage {
            Stage::Settled => self.after_term(alloc, text, token, end, store),
            Stage::Bracketed => self.in_brackets(alloc, text, token, end, store),
            Stage::Expected => self.on_term(alloc, text, token, end, store),
            Stage::Headed => self.after_name(alloc, text, self.heading, token, end, store),
        }
    }

    /// Ends a name that stands last.
    pub(crate) fn settle_last<T: Terms>(
        &mut self,
        alloc: Global,
        text: &[u8],
        store: &mut T,
    ) -> Result<(), GivenUp>
        requires ready { IsReady (T.store store.old) self.old }
        ensures built { OnOk result
            (steps.settled_at (stage_of self.old.stage self.old.heading) text.now
            (state_in self.old (T.store store.old))
            ≡ Some (state_in self.new (T.store store.new))) }
        ensures ready { OnOk result (IsReady (T.store store.new) self.new) }
        ensures same { OnOk result (T.same store.old store.new) }
    {
        match self.stage {
            Stage::Headed => self.settle(alloc, text, self.heading, text.len(), store),
            _ => Ok(()),
        }
    }

    /// Leaves out the byte at a place.
    #[inline(always)]
    pub(crate) fn leave_out(&mut self, text: &[u8], at: usize) -> Result<(), GivenUp>
        requires at { at < length text.now }
        ensures left_out { OnOk result ((store : Store) → state_in self.new store
            ≡ steps.left_out text.now at (state_in self.old store)) }
        ensures known { OnOk result (AreKnown self.old.lately self.old.symbols
            → AreKnown self.new.lately self.new.symbols) }
        ensures most { OnOk result (self.new.most ≡ self.old.most) }
    {
        self.lines.leave_out(text, at)?;
        Ok(())
    }
}
