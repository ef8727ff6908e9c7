//! Terms, with an explicit stack of open heads.
ghost use Rattle.std.specs.Prelude.{◌≡◌, ◌<◌, ◌^◌, []};
ghost use Rattle.rec_reader.specs.Steps as steps;
ghost use Rattle.read_faults.specs.Taking.{Takes};
ghost use Rattle.rec_reader.specs.Few.{AreCountsFew};

use crate::machine::{Machine, Part, Place, Purpose};
use crate::syntax_tree::Node;
use crate::token::{Name, Sign, Token};
use read_faults::NotTaken;
use sequences::{Sequence, Stack};
use std::alloc::Global;
use std::mem;

impl Machine {
    // A head comes, with which a term begins.
    pub(super) fn begin_term(
        &mut self,
        alloc: Global,
        purpose: Purpose,
        head: Name,
    ) -> Result<(), NotTaken>
        ensures { Takes (steps.begin_term purpose head self.old) result self.new }
    {
        self.nodes = Sequence::new(alloc);
        self.heads = Stack::new(alloc);
        self.head = head;
        self.go(Place::Within(purpose, Part::Headed))
    }

    // The nodes of the whole term that was read.
    pub(super) fn whole_term(&mut self, alloc: Global) -> Sequence<Node>
        ensures value { result ≡ self.old.nodes }
        ensures after { self.new ≡ record self.old { nodes = [] } }
    {
        mem::replace(&mut self.nodes, Sequence::new(alloc))
    }

    pub(super) fn on_term(&mut self, purpose: Purpose, token: Token) -> Result<(), NotTaken>
        ensures { Takes (steps.on_term purpose self.old token) result self.new }
    {
        match token {
            Token::Named(name) => {
                self.head = name;
                self.go(Place::Within(purpose, Part::Headed))
            }
            _ => Err(NotTaken::Unexpected),
        }
    }

    // What may come after a head.
    pub(super) fn after_head(
        &mut self,
        alloc: Global,
        purpose: Purpose,
        token: Token,
    ) -> Result<(), NotTaken>
        requires { AreCountsFew self.old.heads }
        ensures { Takes (steps.after_head purpose self.old token) result self.new }
    {
        let node = Node {
            head: self.head,
            count: 0,
        };
        match token {
            Token::At(Sign::Open, _) => {
                self.heads.push(node)?;
                self.go(Place::Within(purpose, Part::Expected))
            }
            _ => {
                self.nodes.push(node)?;
                self.place = Place::Within(purpose, Part::Whole);
                self.after_whole(alloc, purpose, token)
            }
        }
    }

    // What may come after a term.
    #[inline(always)]
    pub(super) fn after_whole(
        &mut self,
        alloc: Global,
        purpose: Purpose,
        token: Token,
    ) -> Result<(), NotTaken>
        requires { AreCountsFew self.old.heads }
        ensures { Takes (steps.after_whole purpose self.old token) result self.new }
    {
        match self.heads.pop() {
            None => self.after_term(alloc, purpose, token),
            Some(head) => self.after_argument(purpose, head, token),
        }
    }

    // What may come after an argument of this head, of which as many as its count came before.
    pub(super) fn after_argument(
        &mut self,
        purpose: Purpose,
        head: Node,
        token: Token,
    ) -> Result<(), NotTaken>
        requires { head.count < 2 ^ 32 }
        ensures { Takes (steps.after_argument purpose head self.old token) result self.new }
    {
        let head = Node {
            head: head.head,
            count: head.count + 1,
        };
        match token {
            Token::At(Sign::Comma, _) => {
                self.heads.push(head)?;
                self.go(Place::Within(purpose, Part::Expected))
            }
            Token::At(Sign::Close, _) => {
                self.nodes.push(head)?;
                self.go(Place::Within(purpose, Part::Whole))
            }
            _ => Err(NotTaken::Unexpected),
        }
    }

    pub(super) fn within_term(
        &mut self,
        alloc: Global,
        purpose: Purpose,
        part: Part,
        token: Token,
    ) -> Result<(), NotTaken>
        requires { AreCountsFew self.old.heads }
        ensures { Takes (steps.within_term purpose part self.old token) result self.new }
    {
        match part {
            Part::Expected => self.on_term(purpose, token),
            Part::Headed => self.after_head(alloc, purpose, token),
            Part::Whole => self.after_whole(alloc, purpose, token),
        }
    }
}
