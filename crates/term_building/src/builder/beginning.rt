//! Tokens with which a term begins: names, numbers and opening brackets.
ghost use Rattle.std.specs.Prelude.{◌≡◌, ◌≤◌, ◌⊎◌, false, Some, IfOk, OnOk, length, slice_get};
ghost use Rattle.term_syntax.specs.Shown.{value_at};
ghost use Rattle.term_building.specs.declared.builder.beginning.Follows.TheVariants as follows;
ghost use Rattle.term_building.specs.Ready.{IsReady, state_in};
ghost use Rattle.term_building.specs.Stages.{Expected, stage_of};
ghost use Rattle.term_building.specs.State as steps;
ghost use Rattle.term_building.specs.Taken.{HasBegun};

use crate::builder::passing::Begun;
use crate::builder::{Builder, Stage};
use crate::building::{build_integer, count_all};
use crate::given_up::GivenUp;
use crate::groups::{Group, Heading, in_32_bits};
use crate::names::is_plain;
use std::alloc::Global;
use term_syntax::{Mark, Shape, Token, integer_at, quoted_name_at};
use terms_api::Terms;

/// What follows right behind a name: a parenthesis that opens, or a mark before which the name is
/// a whole term, or anything else.
#[derive(Clone, Copy)]
enum Follows {
    Opens,
    Ends,
    Other,
}

// What follows right behind a name.
#[inline(always)]
fn what_follows(text: &[u8], end: usize) -> Follows
    ensures opens { result ≡ follows.Opens → slice_get text.now end ≡ Some 40 }
    ensures ends { result ≡ follows.Ends → (slice_get text.now end ≡ Some 44)
        ⊎ ((slice_get text.now end ≡ Some 41) ⊎ (slice_get text.now end ≡ Some 93)) }
{
    if end >= text.len() {
        return Follows::Other;
    }
    match text[end] {
        b'(' => Follows::Opens,
        b',' | b')' | b']' => Follows::Ends,
        _ => Follows::Other,
    }
}

// The name between two places. A text in which these have more than 32 bits is given up.
#[inline(always)]
fn heading_at(place: usize, end: usize, quoted: bool) -> Result<Heading, GivenUp>
    requires { place ≤ end }
    ensures { IfOk result (λ h. h ≡ record { place = place; end = end; quoted = quoted }) }
{
    let end = in_32_bits(end)?;
    Ok(Heading {
        place: place as u32,
        end,
        quoted,
    })
}

impl Builder {
    // A name was read.
    #[inline(always)]
    fn head<T: Terms>(
        &mut self,
        place: usize,
        end: usize,
        quoted: bool,
        store: &mut T,
    ) -> Result<(), GivenUp>
        requires ready { IsReady (T.store store.old) self.old }
        requires place { place ≤ end }
        ensures built { OnOk result
            (Some (steps.headed place end quoted (state_in self.old (T.store store.old)))
            ≡ Some (state_in self.new (T.store store.new))) }
        ensures ready { OnOk result (IsReady (T.store store.new) self.new) }
        ensures same { OnOk result (T.same store.old store.new) }
    {
        // Only the contract reads the store.
        let _ = &store;
        self.heading = heading_at(place, end, quoted)?;
        self.stage = Stage::Headed;
        Ok(())
    }

    // A name in quotes comes. It is rarer than a plain one, so it is a call.
    #[inline(never)]
    pub(super) fn on_quoted<T: Terms>(
        &mut self,
        alloc: Global,
        text: &[u8],
        place: usize,
        end: usize,
        store: &mut T,
    ) -> Result<(), GivenUp>
        requires ready { IsReady (T.store store.old) self.old }
        requires place { place ≤ end }
        requires end { end ≤ length text.now }
        ensures built { OnOk result
            (Some (steps.on_quoted text.now place end (state_in self.old (T.store store.old)))
            ≡ Some (state_in self.new (T.store store.new))) }
        ensures ready { OnOk result (IsReady (T.store store.new) self.new) }
        ensures same { OnOk result (T.same store.old store.new) }
    {
        let name = quoted_name_at(alloc, text, place)?;
        if is_plain(name.as_slice()) {
            self.lines.put(text, place, name.as_slice(), end)?;
        }
        self.head(place, end, true, store)
    }

    // An integer comes.
    #[inline(always)]
    fn on_value<T: Terms>(
        &mut self,
        text: &[u8],
        value: u64,
        end: usize,
        store: &mut T,
    ) -> Result<(), GivenUp>
        requires ready { IsReady (T.store store.old) self.old }
        requires end { end ≤ length text.now }
        ensures built { OnOk result
            (steps.on_value text.now end (Some value) (state_in self.old (T.store store.old))
            ≡ Some (state_in self.new (T.store store.new))) }
        ensures ready { OnOk result (IsReady (T.store store.new) self.new) }
        ensures same { OnOk result (T.same store.old store.new) }
    {
        build_integer(store, value)?;
        self.end(text, end, store)
    }

    // A number comes.
    #[inline(always)]
    pub(super) fn on_number<T: Terms>(
        &mut self,
        text: &[u8],
        place: usize,
        end: usize,
        store: &mut T,
    ) -> Result<(), GivenUp>
        requires ready { IsReady (T.store store.old) self.old }
        requires place { place ≤ end }
        requires end { end ≤ length text.now }
        ensures built { OnOk result
            (steps.on_value text.now end (value_at text.now place)
            (state_in self.old (T.store store.old))
            ≡ Some (state_in self.new (T.store store.new))) }
        ensures ready { OnOk result (IsReady (T.store store.new) self.new) }
        ensures same { OnOk result (T.same store.old store.new) }
    {
        match integer_at(text, place) {
            Some(value) => self.on_value(text, value, end, store),
            None => Err(GivenUp::Otherwise),
        }
    }

    // A group opens.
    #[inline(always)]
    pub(super) fn open<T: Terms>(
        &mut self,
        heading: Option<Heading>,
        stage: Stage,
        store: &mut T,
    ) -> Result<(), GivenUp>
        requires ready { IsReady (T.store store.old) self.old }
        ensures built { OnOk result
            (Some (steps.opened heading (stage_of stage self.old.heading)
            (state_in self.old (T.store store.old)))
            ≡ Some (state_in self.new (T.store store.new))) }
        ensures ready { OnOk result (IsReady (T.store store.new) self.new) }
        ensures same { OnOk result (T.same store.old store.new) }
    {
        let base = count_all(store);
        self.groups.open(Group { heading, base })?;
        self.stage = stage;
        Ok(())
    }

    // A token comes with which a term begins.
    #[inline(always)]
    pub(super) fn on_term<T: Terms>(
        &mut self,
        alloc: Global,
        text: &[u8],
        token: Token,
        end: usize,
        store: &mut T,
    ) -> Result<(), GivenUp>
        requires ready { IsReady (T.store store.old) self.old }
        requires place { token.place ≤ end }
        requires end { end ≤ length text.now }
        ensures built { OnOk result
            (steps.on_term text.now token.place end token.shape
            (state_in self.old (T.store store.old))
            ≡ Some (state_in self.new (T.store store.new))) }
        ensures ready { OnOk result (IsReady (T.store store.new) self.new) }
        ensures same { OnOk result (T.same store.old store.new) }
    {
        match token.shape {
            Shape::Word => self.head(token.place, end, false, store),
            Shape::Quoted => self.on_quoted(alloc, text, token.place, end, store),
            Shape::Number => self.on_number(text, token.place, end, store),
            Shape::At(Mark::OpenList) => self.open(None, Stage::Bracketed, store),
            Shape::At(_) => Err(GivenUp::Otherwise),
        }
    }

    // Whether a term may begin here.
    #[inline(always)]
    pub(super) fn begins_term(&self) -> bool
        ensures { result
            ≡ steps.may_begin (stage_of self.now.stage self.now.heading) self.now.groups }
    {
        match self.stage {
            Stage::Expected | Stage::Bracketed => true,
            Stage::Settled => self.groups.is_empty(),
            Stage::Headed => false,
        }
    }

    // Parentheses open right behind a plain name.
    #[inline(always)]
    fn open_behind<T: Terms>(
        &mut self,
        place: usize,
        end: usize,
        store: &mut T,
    ) -> Result<(), GivenUp>
        requires ready { IsReady (T.store store.old) self.old }
        requires place { place ≤ end }
        ensures built { OnOk result
            (Some (steps.opened (Some (steps.name_at place end)) Expected
            (state_in self.old (T.store store.old)))
            ≡ Some (state_in self.new (T.store store.new))) }
        ensures ready { OnOk result (IsReady (T.store store.new) self.new) }
        ensures same { OnOk result (T.same store.old store.new) }
    {
        let heading = heading_at(place, end, false)?;
        self.open(Some(heading), Stage::Expected, store)
    }

    // A plain name comes. It is taken with a parenthesis that opens right behind it, and is a whole
    // term at once before a mark behind which none can open.
    #[inline(always)]
    pub(super) fn on_word<T: Terms>(
        &mut self,
        text: &[u8],
        place: usize,
        end: usize,
        store: &mut T,
    ) -> Result<Begun, GivenUp>
        requires ready { IsReady (T.store store.old) self.old }
        requires place { place ≤ end }
        requires end { end ≤ length text.now }
        ensures begun { IfOk result (λ b. HasBegun b text.now end
            (steps.headed place end false (state_in self.old (T.store store.old)))
            (state_in self.new (T.store store.new))) }
        ensures ready { OnOk result (IsReady (T.store store.new) self.new) }
        ensures same { OnOk result (T.same store.old store.new) }
    {
        match what_follows(text, end) {
            Follows::Opens => {
                self.open_behind(place, end, store)?;
                Ok(Begun::Group)
            }
            Follows::Ends => {
                self.settle_plain(text, place, end, store)?;
                Ok(Begun::Whole)
            }
            Follows::Other => {
                self.head(place, end, false, store)?;
                Ok(Begun::Name)
            }
        }
    }
}
