//! What tokens spell: specifications with their declarations, rules and terms, and every name with
//! its place.
ghost use Rattle.std.specs.Prelude.{◌≡◌, All};
ghost use Rattle.rec_reader.specs.Whole.{HasWholeTerms};
ghost use Rattle.rec_reader.specs.Few.{HasFewLeftNodes};
ghost use Rattle.rec_reader.specs.Syntax.{blank_specification, blank_rule};

use crate::token::Name;
use sequences::Sequence;
use std::alloc::Global;
use std::marker::Model;

/// A head with the number of its arguments. A term is a list of nodes, each after its arguments.
#[derive(Clone, Copy, Debug, PartialEq, Eq)]
pub struct Node {
    pub head: Name,
    pub count: usize,
}

/// `names : arguments -> sort`
#[derive(Drop)]
pub struct Declaration {
    pub names: Sequence<Name>,
    pub arguments: Sequence<Name>,
    pub sort: Name,
}

/// `names : sort`
#[derive(Drop)]
pub struct Variables {
    pub names: Sequence<Name>,
    pub sort: Name,
}

/// Both sides have the same value (`equal`), or they have different values.
#[derive(Drop)]
pub struct Condition {
    pub first: Sequence<Node>,
    pub second: Sequence<Node>,
    pub equal: bool,
}

/// `left -> right`, with its conditions and the place of its `if`, if it has any.
#[derive(Drop)]
pub struct Rule {
    pub left: Sequence<Node>,
    pub right: Sequence<Node>,
    pub condition_at: Option<usize>,
    pub conditions: Sequence<Condition>,
}

impl Rule {
    pub(crate) fn blank(alloc: Global) -> Self
        ensures { result ≡ blank_rule }
    {
        Rule {
            left: Sequence::new(alloc),
            right: Sequence::new(alloc),
            condition_at: None,
            conditions: Sequence::new(alloc),
        }
    }
}

/// One specification. `declarations` are those of `CONS` and then those of `OPNS`.
#[derive(Drop)]
pub struct Specification {
    pub name: Name,
    pub includes: Sequence<Name>,
    pub sorts: Sequence<Name>,
    pub declarations: Sequence<Declaration>,
    pub variables: Sequence<Variables>,
    pub rules: Sequence<Rule>,
    pub terms: Sequence<Sequence<Node>>,
}

impl Specification {
    pub(crate) fn blank(alloc: Global, name: Name) -> Self
        ensures { result ≡ blank_specification name }
    {
        Specification {
            name,
            includes: Sequence::new(alloc),
            sorts: Sequence::new(alloc),
            declarations: Sequence::new(alloc),
            variables: Sequence::new(alloc),
            rules: Sequence::new(alloc),
            terms: Sequence::new(alloc),
        }
    }
}

/// The specifications of an input, which they borrow: in its bytes the names stand.
#[derive(Drop)]
pub struct Syntax<'a> {
    pub(crate) text: &'a [u8],
    pub(crate) items: Sequence<Specification>,
}

impl<'a> Model for Syntax<'a> {
    ghost use Rattle.std.specs.Prelude.{All};
    ghost use Rattle.rec_reader.specs.Parsed.{Parsed};
    ghost use Rattle.rec_reader.specs.Whole.{HasWholeTerms};

    ghost Value = { Parsed };

    ghost view = { λ s. record { bytes = s.text.now; specifications = s.items } };

    ghost use Rattle.rec_reader.specs.Few.{HasFewLeftNodes};

    ghost invariant = { λ s. All HasWholeTerms s.items × All HasFewLeftNodes s.items };
}

impl<'a> Syntax<'a> {
    /// The input's bytes.
    pub fn text(&self) -> &'a [u8]
        ensures { result.now ≡ self.now.bytes }
    {
        self.text
    }

    /// The specifications in order. Each list of nodes in them is that of one whole term, and a
    /// left side has fewer than 2^32 nodes.
    pub fn as_slice(&self) -> &[Specification]
        ensures specifications { result.now ≡ self.now.specifications }
        ensures whole { All HasWholeTerms self.now.specifications }
        ensures few { All HasFewLeftNodes self.now.specifications }
    {
        self.items.as_slice()
    }
}
