//! A place in a term that moves and is rewritten.

ghost use Rattle.std.specs.Prelude.{◌≡◌, ◌<◌, ℕ, length, slice_set, IfOk};
ghost use Rattle.log_check.specs.Words.{capped};
ghost use Rattle.run_checks.specs.Held.{IsPut, IsThere, term_at};
ghost use Rattle.run_checks.specs.Rules.{ArePut};
ghost use Rattle.run_checks.specs.Standing.{IsStanding, Leads, at_root, down, place_of, up, used, whole_of};

use crate::building::put_instance;
use crate::matching::matched;
use crate::table::TermTable;
use faults::Memory;
use rule_match::Plan;
use std::alloc::{AllocError, Global};

/// A node above the place, and the number of its argument below, from 0.
#[derive(Clone, Copy)]
pub(crate) struct Frame {
    pub(crate) number: u32,
    pub(crate) argument: usize,
}

/// A place in a term: the nodes from the root on, and the term that stands there. A node has its
/// argument of before, until the place moves back to it.
#[derive(Drop)]
pub(crate) struct Cursor {
    pub(crate) frames: Vec<Frame>,
    pub(crate) number: u32,
}

impl Cursor {
    /// The root of a term. It takes no memory.
    pub(crate) fn new(alloc: Global, table: &TermTable, number: u32) -> Self
        requires { IsThere table.now number }
        ensures standing { IsStanding table.now result }
        ensures place { place_of table.now result ≡ at_root (term_at table.now number) }
    {
        let _ = table;
        Cursor {
            frames: Vec::new(alloc),
            number,
        }
    }

    /// To the argument with this number, counted from 1, where there is one. It takes constant
    /// time.
    pub(crate) fn down(&mut self, table: &TermTable, argument: u128) -> Result<bool, Memory>
        requires { IsStanding table.now self.old }
        ensures { (n : ℕ) → argument ≡ capped n → IfOk result
            (Leads table.now table.now self.new (down n (place_of table.now self.old))) }
    {
        let (_, arguments) = table.at(self.number);
        let Some(place) = argument.checked_sub(1) else {
            return Ok(false);
        };
        if place >= arguments.len() as u128 {
            return Ok(false);
        }
        let place = place as usize;
        let below = arguments[place];
        self.frames.push(Frame {
            number: self.number,
            argument: place,
        })?;
        self.number = below;
        Ok(true)
    }

    /// To the node above, where there is one, which gets what stands here as its argument. It takes
    /// time linear in the node's arguments.
    pub(crate) fn up(&mut self, alloc: Global, table: &mut TermTable) -> Result<bool, Memory>
        requires { IsStanding table.old self.old }
        ensures { IfOk result (Leads table.old table.new self.new
            (up (place_of table.old self.old))) }
    {
        let Some(frame) = self.frames.pop() else {
            return Ok(false);
        };
        let (symbol, arguments) = table.at(frame.number);
        let arguments = with_number(alloc, arguments, frame.argument, self.number)?;
        self.number = table.put(symbol, arguments)?;
        Ok(true)
    }

    /// Uses a rule here, where there is one with this number and it matches. It takes time linear
    /// in the rule.
    pub(crate) fn rewrite(
        &mut self,
        alloc: Global,
        table: &mut TermTable,
        plan: &Plan,
        rule: u128,
    ) -> Result<bool, Memory>
        requires standing { IsStanding table.old self.old }
        requires rules { ArePut table.old.symbols plan.now.rules }
        ensures { (k : ℕ) → rule ≡ capped k → IfOk result (Leads table.old table.new self.new
            (used plan.now.rules k (place_of table.old self.old))) }
    {
        let rules = plan.rules();
        if rule >= rules.len() as u128 {
            return Ok(false);
        }
        match matched(alloc, plan, rule as u32, table, self.number)? {
            Some(bound) => {
                let right = rules[rule as usize].right();
                self.number = put_instance(alloc, table, right, &bound)?;
                Ok(true)
            }
            None => Ok(false),
        }
    }

    /// The whole term.
    pub(crate) fn whole(mut self, alloc: Global, table: &mut TermTable) -> Result<u32, Memory>
        requires { IsStanding table.old self }
        ensures { IfOk result (λ n. IsPut table.old table.new n (whole_of table.old self)) }
    {
        'frames: while !self.frames.is_empty() {
            self.up(alloc, table)?;
        }
        Ok(self.number)
    }
}

/// Numbers with another one at a place.
fn with_number(
    alloc: Global,
    numbers: &[u32],
    place: usize,
    number: u32,
) -> Result<Vec<u32>, AllocError>
    requires { place < length numbers.now }
    ensures { IfOk result (λ made. made.items ≡ slice_set numbers.now place number) }
{
    let mut made = numbers.to_vec(alloc)?;
    made[place] = number;
    Ok(made)
}
