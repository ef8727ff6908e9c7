//! The order of sections.
ghost use Rattle.rec_reader.specs.Steps as steps;
ghost use Rattle.read_faults.specs.Taking.{Takes};

use crate::machine::{Group, Machine, NameList, Place};
use crate::syntax_tree::Specification;
use crate::token::{Sign, Token};
use read_faults::NotTaken;
use std::alloc::Global;
use std::mem;

impl Machine {
    pub(super) fn on_start(&mut self, token: Token) -> Result<(), NotTaken>
        ensures { Takes (steps.on_start self.old token) result self.new }
    {
        match token {
            Token::At(Sign::RecSpec, _) => self.go(Place::Heading),
            _ => Err(NotTaken::Unexpected),
        }
    }

    pub(super) fn on_heading(&mut self, alloc: Global, token: Token) -> Result<(), NotTaken>
        ensures { Takes (steps.on_heading self.old token) result self.new }
    {
        match token {
            Token::Named(name) => {
                self.current = Specification::blank(alloc, name);
                self.go(Place::AfterHeading)
            }
            _ => Err(NotTaken::Unexpected),
        }
    }

    pub(super) fn after_heading(&mut self, alloc: Global, token: Token) -> Result<(), NotTaken>
        ensures { Takes (steps.after_heading self.old token) result self.new }
    {
        match token {
            Token::At(Sign::Colon, _) => self.go(Place::BeforeNames(NameList::IncludeNames)),
            _ => self.after_header(alloc, token),
        }
    }

    pub(super) fn after_header(&mut self, alloc: Global, token: Token) -> Result<(), NotTaken>
        ensures { Takes (steps.after_header self.old token) result self.new }
    {
        match token {
            Token::At(Sign::Sorts, _) => self.go(Place::BeforeNames(NameList::SortNames)),
            _ => self.after_sorts(alloc, token),
        }
    }

    pub(super) fn after_sorts(&mut self, alloc: Global, token: Token) -> Result<(), NotTaken>
        ensures { Takes (steps.after_sorts self.old token) result self.new }
    {
        match token {
            Token::At(Sign::Cons, _) => {
                self.go(Place::BeforeNames(NameList::DeclaredNames(Group::Constructors)))
            }
            _ => self.after_constructors(alloc, token),
        }
    }

    pub(super) fn after_constructors(&mut self, alloc: Global, token: Token) -> Result<(), NotTaken>
        ensures { Takes (steps.after_constructors self.old token) result self.new }
    {
        match token {
            Token::At(Sign::Opns, _) => {
                self.go(Place::BeforeNames(NameList::DeclaredNames(Group::Operations)))
            }
            _ => self.after_operations(alloc, token),
        }
    }

    pub(super) fn after_operations(&mut self, alloc: Global, token: Token) -> Result<(), NotTaken>
        ensures { Takes (steps.after_operations self.old token) result self.new }
    {
        match token {
            Token::At(Sign::Vars, _) => self.go(Place::BeforeNames(NameList::VariableNames)),
            _ => self.after_variables(alloc, token),
        }
    }

    pub(super) fn after_declarations(
        &mut self,
        alloc: Global,
        group: Group,
        token: Token,
    ) -> Result<(), NotTaken>
        ensures { Takes (steps.after_declarations group self.old token) result self.new }
    {
        match group {
            Group::Constructors => self.after_constructors(alloc, token),
            Group::Operations => self.after_operations(alloc, token),
        }
    }

    pub(super) fn after_variables(&mut self, alloc: Global, token: Token) -> Result<(), NotTaken>
        ensures { Takes (steps.after_variables self.old token) result self.new }
    {
        match token {
            Token::At(Sign::Rules, _) => self.go(Place::BeforeRule),
            _ => self.after_rules(alloc, token),
        }
    }

    pub(super) fn after_rules(&mut self, alloc: Global, token: Token) -> Result<(), NotTaken>
        ensures { Takes (steps.after_rules self.old token) result self.new }
    {
        match token {
            Token::At(Sign::Eval, _) => self.go(Place::BeforeTerms),
            _ => self.on_end(alloc, token),
        }
    }

    pub(super) fn on_end(&mut self, alloc: Global, token: Token) -> Result<(), NotTaken>
        ensures { Takes (steps.on_end self.old token) result self.new }
    {
        match token {
            Token::At(Sign::EndSpec, _) => {
                let blank = Specification::blank(alloc, self.current.name);
                let whole = mem::replace(&mut self.current, blank);
                self.done.push(whole)?;
                self.go(Place::Between)
            }
            _ => Err(NotTaken::Unexpected),
        }
    }
}
