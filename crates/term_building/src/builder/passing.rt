//! What stands at a place of the text is taken, and the place after it given.
ghost use Rattle.std.specs.Prelude.{◌≡◌, ◌+◌, ◌<◌, ◌≤◌, Some, IfOk, OnOk, length, slice_index};
ghost use Rattle.term_syntax.specs.Tokens.{mark_of};
ghost use Rattle.term_building.specs.Reached.{Passes, Reaches};
ghost use Rattle.term_building.specs.Ready.{IsReady, state_in};
ghost use Rattle.term_building.specs.Stages.{Settled};
ghost use Rattle.term_building.specs.Taken.{Begins, IsBehind, stage_behind};

use crate::builder::Builder;
use crate::given_up::GivenUp;
use std::alloc::Global;
use term_syntax::{Cut, Mark, Shape, Token, piece_at};
use terms_api::Terms;

/// What was taken where a term may begin: a whole term, a name with the parenthesis behind it, a
/// name or nothing.
#[derive(Clone, Copy)]
pub(super) enum Begun {
    Whole,
    Group,
    Name,
    Nothing,
}

/// What stands behind a whole term: a mark that closed a group, a comma, or anything else, which
/// wasn't taken.
#[derive(Clone, Copy)]
enum Behind {
    Closed,
    Comma,
    Other,
}

impl Builder {
    // Takes a piece of any kind. Few are taken so.
    #[inline(never)]
    fn pass_any<T: Terms>(
        &mut self,
        alloc: Global,
        text: &[u8],
        at: usize,
        store: &mut T,
    ) -> Result<usize, GivenUp>
        requires ready { IsReady (T.store store.old) self.old }
        requires at { at < length text.now }
        ensures passes { IfOk result (λ next.
            Passes text.now at (state_in self.old (T.store store.old))
            next (state_in self.new (T.store store.new))) }
        ensures ready { OnOk result (IsReady (T.store store.new) self.new) }
        ensures same { OnOk result (T.same store.old store.new) }
    {
        match piece_at(alloc, text, at)? {
            Cut::Blank => {
                self.leave_out(text, at)?;
                Ok(at + 1)
            }
            Cut::Whole(token, end) => {
                self.take(alloc, text, token, end, store)?;
                Ok(end)
            }
        }
    }

    // Takes a comma, or a parenthesis or bracket that closes, behind a whole term.
    #[inline(always)]
    fn pass_mark<T: Terms>(
        &mut self,
        alloc: Global,
        text: &[u8],
        mark: Mark,
        at: usize,
        store: &mut T,
    ) -> Result<(), GivenUp>
        requires ready { IsReady (T.store store.old) self.old }
        requires at { at < length text.now }
        requires mark { mark_of (slice_index text.now at) ≡ Some mark }
        requires stage { (state_in self.old (T.store store.old)).stage ≡ Settled }
        ensures passes { OnOk result (Passes text.now at (state_in self.old (T.store store.old))
            (at + 1) (state_in self.new (T.store store.new))) }
        ensures stage { OnOk result
            ((state_in self.new (T.store store.new)).stage ≡ stage_behind mark) }
        ensures ready { OnOk result (IsReady (T.store store.new) self.new) }
        ensures same { OnOk result (T.same store.old store.new) }
    {
        match self.groups.innermost() {
            Some(group) => {
                self.in_group(alloc, text, group, Shape::At(mark), at + 1, store)?;
                Ok(())
            }
            None => Err(GivenUp::Otherwise),
        }
    }

    // Takes what stands behind a whole term, if it is such a mark.
    #[inline(always)]
    fn on_mark<T: Terms>(
        &mut self,
        alloc: Global,
        text: &[u8],
        at: usize,
        store: &mut T,
    ) -> Result<Behind, GivenUp>
        requires ready { IsReady (T.store store.old) self.old }
        requires at { at < length text.now }
        requires stage { (state_in self.old (T.store store.old)).stage ≡ Settled }
        ensures behind { IfOk result (λ b.
            IsBehind b text.now at (state_in self.old (T.store store.old))
            (state_in self.new (T.store store.new))) }
        ensures ready { OnOk result (IsReady (T.store store.new) self.new) }
        ensures same { OnOk result (T.same store.old store.new) }
    {
        match text[at] {
            b',' => {
                self.pass_mark(alloc, text, Mark::Comma, at, store)?;
                Ok(Behind::Comma)
            }
            b')' => {
                self.pass_mark(alloc, text, Mark::Close, at, store)?;
                Ok(Behind::Closed)
            }
            b']' => {
                self.pass_mark(alloc, text, Mark::CloseList, at, store)?;
                Ok(Behind::Closed)
            }
            _ => Ok(Behind::Other),
        }
    }

    // Takes the marks that stand behind a whole term: those that close, and a comma behind them.
    #[inline(always)]
    fn pass_behind<T: Terms>(
        &mut self,
        alloc: Global,
        text: &[u8],
        at: usize,
        store: &mut T,
    ) -> Result<usize, GivenUp>
        requires ready { IsReady (T.store store.old) self.old }
        requires at { at ≤ length text.now }
        requires stage { (state_in self.old (T.store store.old)).stage ≡ Settled }
        ensures reaches { IfOk result (λ next.
            Reaches text.now at (state_in self.old (T.store store.old))
            next (state_in self.new (T.store store.new))) }
        ensures ready { OnOk result (IsReady (T.store store.new) self.new) }
        ensures same { OnOk result (T.same store.old store.new) }
    {
        let mut next = at;
        while next < text.len() {
            match self.on_mark(alloc, text, next, store)? {
                Behind::Closed => next += 1,
                Behind::Comma => return Ok(next + 1),
                Behind::Other => return Ok(next),
            }
        }
        Ok(next)
    }

    // A term begins with a name or a number, if one may begin here.
    #[inline(always)]
    fn begin<T: Terms>(
        &mut self,
        alloc: Global,
        text: &[u8],
        token: Token,
        end: usize,
        store: &mut T,
    ) -> Result<Begun, GivenUp>
        requires ready { IsReady (T.store store.old) self.old }
        requires place { token.place ≤ end }
        requires end { end ≤ length text.now }
        ensures begun { IfOk result (λ b. Begins b text.now token.place end token.shape
            (state_in self.old (T.store store.old)) (state_in self.new (T.store store.new))) }
        ensures ready { OnOk result (IsReady (T.store store.new) self.new) }
        ensures same { OnOk result (T.same store.old store.new) }
    {
        match token.shape {
            Shape::Word if self.begins_term() => self.on_word(text, token.place, end, store),
            Shape::Number if self.begins_term() => {
                self.on_number(text, token.place, end, store)?;
                Ok(Begun::Whole)
            }
            Shape::Quoted if self.begins_term() => {
                self.on_quoted(alloc, text, token.place, end, store)?;
                Ok(Begun::Name)
            }
            _ => Ok(Begun::Nothing),
        }
    }

    /// Takes what stands at a place, and gives a later place up to which it was taken. A name or a
    /// number that is a whole term at once is taken with the marks behind it. What is no name,
    /// number or white space where a term may begin is cut once more by `pass_any`.
    #[inline(always)]
    pub(crate) fn pass<T: Terms>(
        &mut self,
        alloc: Global,
        text: &[u8],
        at: usize,
        store: &mut T,
    ) -> Result<usize, GivenUp>
        requires ready { IsReady (T.store store.old) self.old }
        requires at { at < length text.now }
        ensures passes { IfOk result (λ next.
            Passes text.now at (state_in self.old (T.store store.old))
            next (state_in self.new (T.store store.new))) }
        ensures ready { OnOk result (IsReady (T.store store.new) self.new) }
        ensures same { OnOk result (T.same store.old store.new) }
    {
        match piece_at(alloc, text, at)? {
            Cut::Blank => {
                self.leave_out(text, at)?;
                Ok(at + 1)
            }
            Cut::Whole(token, end) => match self.begin(alloc, text, token, end, store)? {
                Begun::Whole => self.pass_behind(alloc, text, end, store),
                Begun::Group => Ok(end + 1),
                Begun::Name => Ok(end),
                Begun::Nothing => {
                    let next = self.pass_any(alloc, text, at, store)?;
                    Ok(next)
                }
            },
        }
    }
}
