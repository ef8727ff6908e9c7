//! Rules, grouped by the head of their left side.

ghost use Rattle.std.specs.Prelude.{◌≡◌, ◌+◌, ◌-◌, ◌<◌, ◌≤◌, length, take, drop, Some, IfOk};
ghost use Rattle.rule_match.specs.Planned.{planned, IsPlan};
ghost use Rattle.rule_match.specs.Groups.{head_at, IsNext, MatchNone};
ghost use Rattle.rule_match.specs.Preorder.{left_at, preorder};

use crate::compiling::{Compiled, compile};
use crate::linking::{link, symbol_count};
use faults::Memory;
use rewrite_model::Rule;
use std::alloc::Global;
use std::marker::Model;
use term_model::{Head, Item};

/// The rules of a specification in written order, ready for matching: those whose left side has
/// one head are found one after another.
#[derive(Drop)]
pub struct Plan {
    rules: Vec<Rule>,
    widest: u32,
    // the first rule of each symbol, by the symbol's number
    firsts: Vec<Option<u32>>,
    // after each rule the next of the same symbol
    nexts: Vec<Option<u32>>,
    // the left sides for matching
    compiled: Compiled,
}

impl Model for Plan {
    ghost use Rattle.rule_match.specs.Planned.{Planned, planned_code, planned};
    ghost use Rattle.rule_match.specs.Groups.{IsIndexed};
    ghost use Rattle.rule_match.specs.Preorder.{IsCompiled};

    ghost Value = { Planned };

    ghost coded = { planned_code };

    ghost view = { λ p. planned p.rules.items p.widest };

    ghost invariant = { λ p. IsIndexed p.rules.items p.widest p.firsts.items p.nexts.items
        × IsCompiled p.rules.items p.compiled.items.items p.compiled.starts.items };
}

impl Plan {
    /// The plan of rules in written order, over symbols of which the greatest arity is `widest`.
    /// It takes a place for each symbol up to the greatest number of a left side's.
    pub fn of(alloc: Global, rules: Vec<Rule>, widest: u32) -> Result<Self, Memory>
        requires { IsPlan (planned rules.items widest) }
        ensures { IfOk result (λ plan. plan ≡ planned rules.items widest) }
    {
        let compiled = compile(alloc, &rules)?;
        let mut firsts = vec![in alloc; None; symbol_count(&rules)]?;
        let mut nexts = vec![in alloc; None; rules.len()]?;
        link(&rules, &mut firsts, &mut nexts);
        Ok(Plan {
            rules,
            widest,
            firsts,
            nexts,
            compiled,
        })
    }

    /// The greatest arity of a symbol, 0 where there is none.
    pub fn widest(&self) -> u32
        ensures widest { result ≡ self.now.widest }
        ensures plan { IsPlan self.now }
    {
        self.widest
    }

    /// The rules in written order. A rule is named by its place among them.
    pub fn rules(&self) -> &[Rule]
        ensures rules { result.now ≡ self.now.rules }
        ensures plan { IsPlan self.now }
    {
        &self.rules
    }

    /// The left side of a rule in preorder: each symbol before its arguments, from left to right.
    pub fn program(&self, rule: u32) -> &[Item]
        requires { rule < length self.now.rules }
        ensures program { result.now ≡ preorder (left_at self.now.rules rule) }
        ensures plan { IsPlan self.now }
    {
        let from = self.compiled.starts[rule as usize];
        let to = self.compiled.starts[rule as usize + 1];
        part(&self.compiled.items, from, to)
    }

    /// The first rule whose left side has this head; None where there is none.
    pub fn first(&self, head: Head) -> Option<u32>
        ensures first { IsNext self.now.rules head 0 result }
        ensures none { MatchNone self.now.rules head 0 result }
    {
        let symbols = self.firsts.len();
        let Head::App(symbol) = head else {
            return None;
        };
        let at = symbol.0 as usize;
        if at < symbols { self.firsts[at] } else { None }
    }

    /// The next rule whose left side has the head of this one's; None where there is none.
    pub fn next(&self, rule: u32) -> Option<u32>
        requires { rule < length self.now.rules }
        ensures next { (head : Head) → head_at self.now.rules rule ≡ Some head
            → IsNext self.now.rules head (rule + 1) result }
        ensures none { (head : Head) → head_at self.now.rules rule ≡ Some head
            → MatchNone self.now.rules head (rule + 1) result }
    {
        self.nexts[rule as usize]
    }
}

/// The items from one place up to another.
fn part(items: &[Item], from: usize, to: usize) -> &[Item]
    requires order { from ≤ to }
    requires within { to ≤ length items.now }
    ensures { result.now ≡ take (to - from) (drop from items.now) }
{
    &items[from..to]
}
