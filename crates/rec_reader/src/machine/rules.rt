//! Rules with their conditions, and terms to be evaluated.
ghost use Rattle.rec_reader.specs.Steps as steps;
ghost use Rattle.read_faults.specs.Taking.{Takes};

use crate::machine::{Machine, Part, Place, Purpose};
use crate::syntax_tree::{Condition, Rule};
use crate::token::{Sign, Token};
use read_faults::NotTaken;
use sequences::Sequence;
use std::alloc::Global;
use std::mem;

impl Machine {
    pub(super) fn before_rule(&mut self, alloc: Global, token: Token) -> Result<(), NotTaken>
        ensures { Takes (steps.before_rule self.old token) result self.new }
    {
        match token {
            Token::Named(name) => self.begin_term(alloc, Purpose::Left, name),
            _ => self.after_rules(alloc, token),
        }
    }

    pub(super) fn after_left(&mut self, alloc: Global, token: Token) -> Result<(), NotTaken>
        ensures { Takes (steps.after_left self.old token) result self.new }
    {
        match token {
            Token::At(Sign::Arrow, _) => {
                self.rule = Rule::blank(alloc);
                self.rule.left = self.whole_term(alloc);
                self.go(Place::Within(Purpose::Right, Part::Expected))
            }
            _ => Err(NotTaken::Unexpected),
        }
    }

    pub(super) fn after_right(&mut self, alloc: Global, token: Token) -> Result<(), NotTaken>
        ensures { Takes (steps.after_right self.old token) result self.new }
    {
        self.rule.right = self.whole_term(alloc);
        match token {
            Token::At(Sign::If, at) => {
                self.rule.condition_at = Some(at);
                self.go(Place::Within(Purpose::First, Part::Expected))
            }
            _ => self.after_rule(alloc, token),
        }
    }

    // A condition's sign comes, with what it says of the sides.
    pub(super) fn begin_second(&mut self, alloc: Global, equal: bool) -> Result<(), NotTaken>
        ensures { Takes (steps.begin_second equal self.old) result self.new }
    {
        self.first = self.whole_term(alloc);
        self.equal = equal;
        self.go(Place::Within(Purpose::Second, Part::Expected))
    }

    pub(super) fn after_first(&mut self, alloc: Global, token: Token) -> Result<(), NotTaken>
        ensures { Takes (steps.after_first self.old token) result self.new }
    {
        match token {
            Token::At(Sign::Joins, _) => self.begin_second(alloc, true),
            Token::At(Sign::Equal, _) => self.begin_second(alloc, true),
            Token::At(Sign::Parts, _) => self.begin_second(alloc, false),
            Token::At(Sign::Unequal, _) => self.begin_second(alloc, false),
            _ => Err(NotTaken::Unexpected),
        }
    }

    pub(super) fn after_second(&mut self, alloc: Global, token: Token) -> Result<(), NotTaken>
        ensures { Takes (steps.after_second self.old token) result self.new }
    {
        let first = mem::replace(&mut self.first, Sequence::new(alloc));
        let second = self.whole_term(alloc);
        let equal = self.equal;
        self.rule.conditions.push(Condition {
            first,
            second,
            equal,
        })?;
        match token {
            Token::At(Sign::Comma, _) => self.go(Place::Within(Purpose::First, Part::Expected)),
            Token::At(Sign::AndIf, _) => self.go(Place::Within(Purpose::First, Part::Expected)),
            _ => self.after_rule(alloc, token),
        }
    }

    // What may come after a rule.
    pub(super) fn after_rule(&mut self, alloc: Global, token: Token) -> Result<(), NotTaken>
        ensures { Takes (steps.after_rule self.old token) result self.new }
    {
        let rule = mem::replace(&mut self.rule, Rule::blank(alloc));
        self.current.rules.push(rule)?;
        self.before_rule(alloc, token)
    }

    pub(super) fn before_terms(&mut self, alloc: Global, token: Token) -> Result<(), NotTaken>
        ensures { Takes (steps.before_terms self.old token) result self.new }
    {
        match token {
            Token::Named(name) => self.begin_term(alloc, Purpose::Value, name),
            _ => self.on_end(alloc, token),
        }
    }

    pub(super) fn after_value(&mut self, alloc: Global, token: Token) -> Result<(), NotTaken>
        ensures { Takes (steps.after_value self.old token) result self.new }
    {
        let term = self.whole_term(alloc);
        self.current.terms.push(term)?;
        match token {
            Token::At(Sign::Comma, _) => self.go(Place::Within(Purpose::Value, Part::Expected)),
            _ => self.before_terms(alloc, token),
        }
    }

    // What may come after a whole term that is no argument.
    #[inline(never)]
    pub(super) fn after_term(
        &mut self,
        alloc: Global,
        purpose: Purpose,
        token: Token,
    ) -> Result<(), NotTaken>
        ensures { Takes (steps.after_term purpose self.old token) result self.new }
    {
        match purpose {
            Purpose::Left => self.after_left(alloc, token),
            Purpose::Right => self.after_right(alloc, token),
            Purpose::First => self.after_first(alloc, token),
            Purpose::Second => self.after_second(alloc, token),
            Purpose::Value => self.after_value(alloc, token),
        }
    }
}
