//! Where a term is whole: a name that takes up its arguments, and groups that close.
ghost use Rattle.std.specs.Prelude.{◌≡◌, ◌≤◌, Some, OnOk, length};
ghost use Rattle.terms_api.specs.Terms.{trees};
ghost use Rattle.term_syntax.specs.Shown.{quoted_at};
ghost use Rattle.term_building.specs.Ready.{IsReady, state_in};
ghost use Rattle.term_building.specs.State as steps;

use crate::builder::{Builder, Stage};
use crate::building::{build_list, build_symbol, count_from};
use crate::given_up::GivenUp;
use crate::groups::{Group, Heading};
use std::alloc::Global;
use term_syntax::{quoted_name_at, take_symbol};
use terms_api::Terms;

/// How many arguments a symbol may have.
const MOST_ARGUMENTS: u32 = 16;

impl Builder {
    // A term is whole, which ends before a place.
    #[inline(always)]
    pub(super) fn end<T: Terms>(
        &mut self,
        text: &[u8],
        at: usize,
        store: &mut T,
    ) -> Result<(), GivenUp>
        requires ready { IsReady (T.store store.old) self.old }
        requires at { at ≤ length text.now }
        ensures built { OnOk result
            (Some (steps.ended text.now at (state_in self.old (T.store store.old)))
            ≡ Some (state_in self.new (T.store store.new))) }
        ensures ready { OnOk result (IsReady (T.store store.new) self.new) }
        ensures same { OnOk result (T.same store.old store.new) }
    {
        // Only the contract reads the store.
        let _ = &store;
        self.stage = Stage::Settled;
        if self.groups.is_empty() {
            self.lines.end_line(text, at)?;
        }
        Ok(())
    }

    // A name, by its bytes, is a tree over the last so many, if it may be a symbol.
    #[inline(always)]
    fn call_name<T: Terms>(&mut self, name: &[u8], count: u32, store: &mut T) -> Result<(), GivenUp>
        requires ready { IsReady (T.store store.old) self.old }
        requires there { count ≤ length (trees (T.store store.old)) }
        ensures built { OnOk result
            (steps.call_named name.now count (state_in self.old (T.store store.old))
            ≡ Some (state_in self.new (T.store store.new))) }
        ensures ready { OnOk result (IsReady (T.store store.new) self.new) }
        ensures same { OnOk result (T.same store.old store.new) }
    {
        if count > MOST_ARGUMENTS {
            return Err(GivenUp::Otherwise);
        }
        if count > self.most {
            return Err(GivenUp::TooSmall);
        }
        let symbol = take_symbol(name, count, 0, &mut self.lately, &mut self.symbols)?;
        build_symbol(store, symbol, count)
    }

    // The same, of the name in quotes that begins at a place of the text.
    #[inline(never)]
    fn call_quoted<T: Terms>(
        &mut self,
        alloc: Global,
        text: &[u8],
        place: usize,
        count: u32,
        store: &mut T,
    ) -> Result<(), GivenUp>
        requires ready { IsReady (T.store store.old) self.old }
        requires there { count ≤ length (trees (T.store store.old)) }
        ensures built { OnOk result
            (steps.call_named (quoted_at text.now place) count
            (state_in self.old (T.store store.old))
            ≡ Some (state_in self.new (T.store store.new))) }
        ensures ready { OnOk result (IsReady (T.store store.new) self.new) }
        ensures same { OnOk result (T.same store.old store.new) }
    {
        let name = quoted_name_at(alloc, text, place)?;
        self.call_name(name.as_slice(), count, store)
    }

    // The same, of the plain name between two places of the text.
    #[inline(always)]
    fn call_plain<T: Terms>(
        &mut self,
        text: &[u8],
        place: usize,
        end: usize,
        count: u32,
        store: &mut T,
    ) -> Result<(), GivenUp>
        requires ready { IsReady (T.store store.old) self.old }
        requires there { count ≤ length (trees (T.store store.old)) }
        ensures built { OnOk result
            (steps.call text.now (steps.name_at place end) count
            (state_in self.old (T.store store.old))
            ≡ Some (state_in self.new (T.store store.new))) }
        ensures ready { OnOk result (IsReady (T.store store.new) self.new) }
        ensures same { OnOk result (T.same store.old store.new) }
    {
        if place <= end && end <= text.len() {
            self.call_name(&text[place..end], count, store)
        } else {
            Err(GivenUp::Otherwise)
        }
    }

    // The same, of a name that stands in the text.
    #[inline(always)]
    fn call<T: Terms>(
        &mut self,
        alloc: Global,
        text: &[u8],
        heading: Heading,
        count: u32,
        store: &mut T,
    ) -> Result<(), GivenUp>
        requires ready { IsReady (T.store store.old) self.old }
        requires there { count ≤ length (trees (T.store store.old)) }
        ensures built { OnOk result
            (steps.call text.now heading count (state_in self.old (T.store store.old))
            ≡ Some (state_in self.new (T.store store.new))) }
        ensures ready { OnOk result (IsReady (T.store store.new) self.new) }
        ensures same { OnOk result (T.same store.old store.new) }
    {
        let place = heading.place as usize;
        if heading.quoted {
            self.call_quoted(alloc, text, place, count, store)
        } else {
            self.call_plain(text, place, heading.end as usize, count, store)
        }
    }

    // A plain name was a whole term, which ends where the name does.
    #[inline(always)]
    pub(super) fn settle_plain<T: Terms>(
        &mut self,
        text: &[u8],
        place: usize,
        end: usize,
        store: &mut T,
    ) -> Result<(), GivenUp>
        requires ready { IsReady (T.store store.old) self.old }
        requires place { place ≤ end }
        requires end { end ≤ length text.now }
        ensures built { OnOk result
            (steps.settled text.now (steps.name_at place end) end
            (state_in self.old (T.store store.old))
            ≡ Some (state_in self.new (T.store store.new))) }
        ensures ready { OnOk result (IsReady (T.store store.new) self.new) }
        ensures same { OnOk result (T.same store.old store.new) }
    {
        self.call_name(&text[place..end], 0, store)?;
        self.end(text, end, store)
    }

    // A name was a whole term, which ends before a place.
    #[inline(always)]
    pub(super) fn settle<T: Terms>(
        &mut self,
        alloc: Global,
        text: &[u8],
        heading: Heading,
        at: usize,
        store: &mut T,
    ) -> Result<(), GivenUp>
        requires ready { IsReady (T.store store.old) self.old }
        requires at { at ≤ length text.now }
        ensures built { OnOk result
            (steps.settled text.now heading at (state_in self.old (T.store store.old))
            ≡ Some (state_in self.new (T.store store.new))) }
        ensures ready { OnOk result (IsReady (T.store store.new) self.new) }
        ensures same { OnOk result (T.same store.old store.new) }
    {
        self.call(alloc, text, heading, 0, store)?;
        self.end(text, at, store)
    }

    // Parentheses close.
    #[inline(always)]
    pub(super) fn close_call<T: Terms>(
        &mut self,
        alloc: Global,
        text: &[u8],
        group: Group,
        end: usize,
        store: &mut T,
    ) -> Result<(), GivenUp>
        requires ready { IsReady (T.store store.old) self.old }
        requires end { end ≤ length text.now }
        ensures built { OnOk result
            (steps.close_call text.now end group.heading
            (steps.count_in group (state_in self.old (T.store store.old)))
            (state_in self.old (T.store store.old))
            ≡ Some (state_in self.new (T.store store.new))) }
        ensures ready { OnOk result (IsReady (T.store store.new) self.new) }
        ensures same { OnOk result (T.same store.old store.new) }
    {
        let count = count_from(store, group.base);
        match group.heading {
            Some(heading) => {
                self.groups.close();
                self.call(alloc, text, heading, count, store)?;
                self.end(text, end, store)
            }
            None => Err(GivenUp::Otherwise),
        }
    }

    // Brackets close.
    #[inline(always)]
    pub(super) fn close_list<T: Terms>(
        &mut self,
        text: &[u8],
        group: Group,
        end: usize,
        store: &mut T,
    ) -> Result<(), GivenUp>
        requires ready { IsReady (T.store store.old) self.old }
        requires end { end ≤ length text.now }
        ensures built { OnOk result
            (steps.close_list text.now end group.heading
            (steps.count_in group (state_in self.old (T.store store.old)))
            (state_in self.old (T.store store.old))
            ≡ Some (state_in self.new (T.store store.new))) }
        ensures ready { OnOk result (IsReady (T.store store.new) self.new) }
        ensures same { OnOk result (T.same store.old store.new) }
    {
        let count = count_from(store, group.base);
        match group.heading {
            Some(_) => Err(GivenUp::Otherwise),
            None => {
                build_list(store, count)?;
                self.groups.close();
                self.end(text, end, store)
            }
        }
    }
}
