//! Reads tokens one at a time: where in a sentence it stands, and what was read so far.
ghost use Rattle.std.specs.Prelude.{◌≡◌};
ghost use Rattle.rec_reader.specs.Steps as steps;
ghost use Rattle.read_faults.specs.Taking.{Takes};
ghost use Rattle.rec_reader.specs.Few.{AreCountsFew};

use crate::syntax_tree::{Node, Rule, Specification};
use crate::token::{Name, Token};

mod names;
mod rules;
mod sections;
mod terms;

use read_faults::NotTaken;
use sequences::{Sequence, Stack};
use std::alloc::Global;
use std::mem;

/// Of two sections of declarations, which.
#[derive(Clone, Copy)]
pub(crate) enum Group {
    Constructors,
    Operations,
}

/// Of lists of names, which.
#[derive(Clone, Copy)]
pub(crate) enum NameList {
    IncludeNames,
    SortNames,
    DeclaredNames(Group),
    ArgumentSorts(Group),
    VariableNames,
}

/// What a term is: a side of a rule, a side of a condition, or a term to be evaluated.
#[derive(Clone, Copy)]
pub(crate) enum Purpose {
    Left,
    Right,
    First,
    Second,
    Value,
}

/// Within a term: a term must come, a head came last, or a whole term came last.
#[derive(Clone, Copy)]
pub(crate) enum Part {
    Expected,
    Headed,
    Whole,
}

/// A place in a sentence, by what came last.
#[derive(Clone, Copy)]
pub(crate) enum Place {
    Start,
    Between,
    Heading,
    AfterHeading,
    BeforeNames(NameList),
    AfterName(NameList),
    AfterComma(NameList),
    DeclarationSort(Group),
    VariableSort,
    BeforeRule,
    BeforeTerms,
    Within(Purpose, Part),
}

/// The place, and what was read so far: whole specifications, the one that is being read, and of
/// its unfinished part the names, the rule, and the term with its open heads and their counts of
/// arguments.
#[derive(Drop)]
pub(crate) struct Machine {
    pub(crate) place: Place,
    pub(crate) done: Sequence<Specification>,
    pub(crate) current: Specification,
    pub(crate) names: Sequence<Name>,
    pub(crate) arguments: Sequence<Name>,
    pub(crate) rule: Rule,
    pub(crate) first: Sequence<Node>,
    pub(crate) equal: bool,
    pub(crate) head: Name,
    pub(crate) nodes: Sequence<Node>,
    pub(crate) heads: Stack<Node>,
}

impl Machine {
    pub(crate) fn start(alloc: Global) -> Self
        ensures { result ≡ steps.start }
    {
        let name = Name { start: 0, end: 0 };
        Machine {
            place: Place::Start,
            done: Sequence::new(alloc),
            current: Specification::blank(alloc, name),
            names: Sequence::new(alloc),
            arguments: Sequence::new(alloc),
            rule: Rule::blank(alloc),
            first: Sequence::new(alloc),
            equal: false,
            head: name,
            nodes: Sequence::new(alloc),
            heads: Stack::new(alloc),
        }
    }

    pub(crate) fn step(&mut self, alloc: Global, token: Token) -> Result<(), NotTaken>
        requires { AreCountsFew self.old.heads }
        ensures { Takes (steps.step self.old token) result self.new }
    {
        match self.place {
            Place::Start | Place::Between => self.on_start(token),
            Place::Heading => self.on_heading(alloc, token),
            Place::AfterHeading => self.after_heading(alloc, token),
            Place::BeforeNames(list) => self.before_names(alloc, list, token),
            Place::AfterName(list) => self.after_name(alloc, list, token),
            Place::AfterComma(list) => self.after_comma(list, token),
            Place::DeclarationSort(group) => self.on_declaration_sort(alloc, group, token),
            Place::VariableSort => self.on_variable_sort(alloc, token),
            Place::BeforeRule => self.before_rule(alloc, token),
            Place::BeforeTerms => self.before_terms(alloc, token),
            Place::Within(purpose, part) => self.within_term(alloc, purpose, part, token),
        }
    }

    /// Takes out the specifications that were read, where they may end here.
    pub(crate) fn finish(&mut self, alloc: Global) -> Option<Sequence<Specification>>
        ensures { result ≡ steps.accepted self.old }
    {
        match self.place {
            Place::Between => Some(mem::replace(&mut self.done, Sequence::new(alloc))),
            _ => None,
        }
    }

    pub(super) fn go(&mut self, place: Place) -> Result<(), NotTaken>
        ensures { Takes (steps.at self.old place) result self.new }
    {
        self.place = place;
        Ok(())
    }
}
