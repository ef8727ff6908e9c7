//! Lists of names: includes, sorts, declarations and variables.
ghost use Rattle.rec_reader.specs.Steps as steps;
ghost use Rattle.read_faults.specs.Taking.{Takes};

use crate::machine::{Group, Machine, NameList, Place};
use crate::syntax_tree::{Declaration, Variables};
use crate::token::{Name, Sign, Token};
use read_faults::NotTaken;
use sequences::Sequence;
use std::alloc::Global;
use std::mem;

impl Machine {
    // One more name of a list.
    pub(super) fn take_name(&mut self, list: NameList, name: Name) -> Result<(), NotTaken>
        ensures { Takes (steps.take_name list name self.old) result self.new }
    {
        match list {
            NameList::IncludeNames => self.current.includes.push(name)?,
            NameList::SortNames => self.current.sorts.push(name)?,
            NameList::DeclaredNames(_) | NameList::VariableNames => self.names.push(name)?,
            NameList::ArgumentSorts(_) => self.arguments.push(name)?,
        }
        self.go(Place::AfterName(list))
    }

    // The first name of a list.
    pub(super) fn take_first_name(
        &mut self,
        alloc: Global,
        list: NameList,
        name: Name,
    ) -> Result<(), NotTaken>
        ensures { Takes (steps.take_first_name list name self.old) result self.new }
    {
        match list {
            NameList::DeclaredNames(_) | NameList::VariableNames => {
                self.names = Sequence::new(alloc);
            }
            _ => {}
        }
        self.take_name(list, name)
    }

    pub(super) fn before_names(
        &mut self,
        alloc: Global,
        list: NameList,
        token: Token,
    ) -> Result<(), NotTaken>
        ensures { Takes (steps.before_names list self.old token) result self.new }
    {
        match token {
            Token::Named(name) => self.take_first_name(alloc, list, name),
            _ => self.without_names(alloc, list, token),
        }
    }

    // What may come in place of a list's first name.
    pub(super) fn without_names(
        &mut self,
        alloc: Global,
        list: NameList,
        token: Token,
    ) -> Result<(), NotTaken>
        ensures { Takes (steps.without_names list self.old token) result self.new }
    {
        match list {
            NameList::IncludeNames => self.after_header(alloc, token),
            NameList::SortNames => self.after_sorts(alloc, token),
            NameList::DeclaredNames(group) => self.after_declarations(alloc, group, token),
            NameList::ArgumentSorts(group) => self.on_arrow(group, token),
            NameList::VariableNames => self.after_variables(alloc, token),
        }
    }

    pub(super) fn after_name(
        &mut self,
        alloc: Global,
        list: NameList,
        token: Token,
    ) -> Result<(), NotTaken>
        ensures { Takes (steps.after_name list self.old token) result self.new }
    {
        match token {
            Token::Named(name) => self.take_name(list, name),
            Token::At(Sign::Comma, _) => self.go(Place::AfterComma(list)),
            _ => self.after_names(alloc, list, token),
        }
    }

    // What may come after a whole list of names.
    pub(super) fn after_names(
        &mut self,
        alloc: Global,
        list: NameList,
        token: Token,
    ) -> Result<(), NotTaken>
        ensures { Takes (steps.after_names list self.old token) result self.new }
    {
        match list {
            NameList::IncludeNames => self.after_header(alloc, token),
            NameList::SortNames => self.after_sorts(alloc, token),
            NameList::DeclaredNames(group) => self.on_colon(alloc, group, token),
            NameList::ArgumentSorts(group) => self.on_arrow(group, token),
            NameList::VariableNames => self.on_variable_colon(token),
        }
    }

    pub(super) fn after_comma(&mut self, list: NameList, token: Token) -> Result<(), NotTaken>
        ensures { Takes (steps.after_comma list self.old token) result self.new }
    {
        match token {
            Token::Named(name) => self.take_name(list, name),
            _ => Err(NotTaken::Unexpected),
        }
    }

    // The colon after declared names.
    pub(super) fn on_colon(
        &mut self,
        alloc: Global,
        group: Group,
        token: Token,
    ) -> Result<(), NotTaken>
        ensures { Takes (steps.on_colon group self.old token) result self.new }
    {
        match token {
            Token::At(Sign::Colon, _) => {
                self.arguments = Sequence::new(alloc);
                self.go(Place::BeforeNames(NameList::ArgumentSorts(group)))
            }
            _ => Err(NotTaken::Unexpected),
        }
    }

    // The arrow after argument sorts.
    pub(super) fn on_arrow(&mut self, group: Group, token: Token) -> Result<(), NotTaken>
        ensures { Takes (steps.on_arrow group self.old token) result self.new }
    {
        match token {
            Token::At(Sign::Arrow, _) => self.go(Place::DeclarationSort(group)),
            _ => Err(NotTaken::Unexpected),
        }
    }

    pub(super) fn on_declaration_sort(
        &mut self,
        alloc: Global,
        group: Group,
        token: Token,
    ) -> Result<(), NotTaken>
        ensures { Takes (steps.on_declaration_sort group self.old token) result self.new }
    {
        match token {
            Token::Named(sort) => {
                let names = mem::replace(&mut self.names, Sequence::new(alloc));
                let arguments = mem::replace(&mut self.arguments, Sequence::new(alloc));
                self.current.declarations.push(Declaration {
                    names,
                    arguments,
                    sort,
                })?;
                self.go(Place::BeforeNames(NameList::DeclaredNames(group)))
            }
            _ => Err(NotTaken::Unexpected),
        }
    }

    // The colon after names of variables.
    pub(super) fn on_variable_colon(&mut self, token: Token) -> Result<(), NotTaken>
        ensures { Takes (steps.on_variable_colon self.old token) result self.new }
    {
        match token {
            Token::At(Sign::Colon, _) => self.go(Place::VariableSort),
            _ => Err(NotTaken::Unexpected),
        }
    }

    pub(super) fn on_variable_sort(&mut self, alloc: Global, token: Token) -> Result<(), NotTaken>
        ensures { Takes (steps.on_variable_sort self.old token) result self.new }
    {
        match token {
            Token::Named(sort) => {
                let names = mem::replace(&mut self.names, Sequence::new(alloc));
                self.current.variables.push(Variables { names, sort })?;
                self.go(Place::BeforeNames(NameList::VariableNames))
            }
            _ => Err(NotTaken::Unexpected),
        }
    }
}
