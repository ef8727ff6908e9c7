//! What may come behind a whole term, a name or an opening bracket.
ghost use Rattle.std.specs.Prelude.{◌≡◌, ◌≤◌, Some, OnOk, length};
ghost use Rattle.term_building.specs.Ready.{IsReady, state_in};
ghost use Rattle.term_building.specs.State as steps;

use crate::builder::{Builder, Stage};
use crate::given_up::GivenUp;
use crate::groups::{Group, Heading};
use std::alloc::Global;
use term_syntax::{Mark, Shape, Token};
use terms_api::Terms;

impl Builder {
    // What may come after a term in this group, the innermost.
    #[inline(always)]
    pub(super) fn in_group<T: Terms>(
        &mut self,
        alloc: Global,
        text: &[u8],
        group: Group,
        shape: Shape,
        end: usize,
        store: &mut T,
    ) -> Result<(), GivenUp>
        requires ready { IsReady (T.store store.old) self.old }
        requires end { end ≤ length text.now }
        ensures built { OnOk result
            (steps.in_group text.now end group shape (state_in self.old (T.store store.old))
            ≡ Some (state_in self.new (T.store store.new))) }
        ensures ready { OnOk result (IsReady (T.store store.new) self.new) }
        ensures same { OnOk result (T.same store.old store.new) }
    {
        match shape {
            Shape::At(Mark::Comma) => {
                self.stage = Stage::Expected;
                Ok(())
            }
            Shape::At(Mark::Close) => self.close_call(alloc, text, group, end, store),
            Shape::At(Mark::CloseList) => self.close_list(text, group, end, store),
            _ => Err(GivenUp::Otherwise),
        }
    }

    // What may come after a whole term, or at the start.
    #[inline(always)]
    pub(super) fn after_term<T: Terms>(
        &mut self,
        alloc: Global,
        text: &[u8],
        token: Token,
        end: usize,
        store: &mut T,
    ) -> Result<(), GivenUp>
        requires ready { IsReady (T.store store.old) self.old }
        requires place { token.place ≤ end }
        requires end { end ≤ length text.now }
        ensures built { OnOk result
            (steps.after_term text.now token.place end token.shape
            (state_in self.old (T.store store.old))
            ≡ Some (state_in self.new (T.store store.new))) }
        ensures ready { OnOk result (IsReady (T.store store.new) self.new) }
        ensures same { OnOk result (T.same store.old store.new) }
    {
        match self.groups.innermost() {
            None => self.on_term(alloc, text, token, end, store),
            Some(group) => self.in_group(alloc, text, group, token.shape, end, store),
        }
    }

    // What may come behind an opening bracket.
    #[inline(always)]
    pub(super) fn in_brackets<T: Terms>(
        &mut self,
        alloc: Global,
        text: &[u8],
        token: Token,
        end: usize,
        store: &mut T,
    ) -> Result<(), GivenUp>
        requires ready { IsReady (T.store store.old) self.old }
        requires place { token.place ≤ end }
        requires end { end ≤ length text.now }
        ensures built { OnOk result
            (steps.in_brackets text.now token.place end token.shape
            (state_in self.old (T.store store.old))
            ≡ Some (state_in self.new (T.store store.new))) }
        ensures ready { OnOk result (IsReady (T.store store.new) self.new) }
        ensures same { OnOk result (T.same store.old store.new) }
    {
        match token.shape {
            Shape::At(Mark::CloseList) => self.after_term(alloc, text, token, end, store),
            _ => self.on_term(alloc, text, token, end, store),
        }
    }

    // What may come behind a name.
    #[inline(always)]
    pub(super) fn after_name<T: Terms>(
        &mut self,
        alloc: Global,
        text: &[u8],
        heading: Heading,
        token: Token,
        end: usize,
        store: &mut T,
    ) -> Result<(), GivenUp>
        requires ready { IsReady (T.store store.old) self.old }
        requires place { token.place ≤ end }
        requires end { end ≤ length text.now }
        ensures built { OnOk result
            (steps.after_name text.now heading token.place end token.shape
            (state_in self.old (T.store store.old))
            ≡ Some (state_in self.new (T.store store.new))) }
        ensures ready { OnOk result (IsReady (T.store store.new) self.new) }
        ensures same { OnOk result (T.same store.old store.new) }
    {
        match token.shape {
            Shape::At(Mark::Open) => self.open(Some(heading), Stage::Expected, store),
            _ => {
                self.settle(alloc, text, heading, token.place, store)?;
                self.after_term(alloc, text, token, end, store)
            }
        }
    }
}
