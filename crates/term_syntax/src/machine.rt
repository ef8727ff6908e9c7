//! Reads tokens one at a time: where in an input it stands, and what was read so far.
ghost use Rattle.std.specs.Prelude.{◌≡◌, Some, None, IfSome, IfNone, IfOk, IfErr};
ghost use Rattle.term_syntax.specs.Steps as steps;
ghost use Rattle.read_faults.specs.Taking.{Takes};
ghost use Rattle.term_syntax.specs.Shown.{machine_in, parts_in, token_in, kind_at};
ghost use Rattle.term_syntax.specs.Few.{AreCountsFew};
ghost use Rattle.term_syntax.specs.Groups.{without};
ghost use Rattle.sequences.specs.Lists.{first_of};
ghost use Rattle.read_faults.specs.declared.not_taken.NotTaken.TheVariants.{Memory};

use crate::groups::Groups;
use crate::list::Parts;
use crate::nodes::Nodes;
use crate::token::{Mark, Shape, Token};
use read_faults::NotTaken;
use std::alloc::Global;

/// A term of the input, in the order of the text: the place of its first byte, how many terms stand
/// in its parentheses or brackets, whether it is the 17th argument of a name, and the shape of its
/// first token. What that token says stands in the text.
#[derive(Clone, Copy)]
pub(crate) struct Entry {
    pub(crate) place: u32,
    pub(crate) count: u32,
    pub(crate) over: bool,
    pub(crate) shape: Shape,
}

/// A whole term, by the number of its part; a list ends in as many cells.
#[derive(Clone, Copy)]
pub(crate) struct Node {
    pub(crate) part: u32,
    pub(crate) cells: u32,
}

/// Parentheses or brackets that are open: of which part, and how many whole terms stand in them.
#[derive(Clone, Copy)]
pub(crate) struct Group {
    pub(crate) called: bool,
    pub(crate) part: u32,
    pub(crate) count: u32,
}

/// A place in an input: after a whole term or at the start, behind an opening bracket, where a term
/// must come, or behind a name, the part of this number.
#[derive(Clone, Copy)]
pub(crate) enum Place {
    Settled,
    Bracketed,
    Expected,
    Headed(u32),
}

/// The place, and what was read so far: open groups, all parts, and the whole terms as nodes, each
/// after the terms in it; those of the term that is being read, and those of the terms before it.
#[derive(Drop)]
pub(crate) struct Machine {
    pub(crate) place: Place,
    pub(crate) groups: Groups,
    pub(crate) parts: Parts,
    pub(crate) nodes: Nodes,
}

// The number in 32 bits, which hold each place and each number of a part of a text that is read.
#[inline(always)]
fn in_32_bits(n: usize) -> Result<u32, NotTaken>
    ensures number { IfOk result (λ number. number ≡ n) }
    ensures memory { IfErr result (λ cause. cause ≡ Memory) }
{
    if n > u32::MAX as usize {
        return Err(NotTaken::Memory);
    }
    Ok(n as u32)
}

impl Machine {
    pub(crate) fn start(alloc: Global, text: &[u8]) -> Self
        ensures { machine_in text.now result ≡ steps.start }
    {
        let _ = text;
        Machine {
            place: Place::Settled,
            groups: Groups::new(alloc),
            parts: Parts::new(alloc),
            nodes: Nodes::new(alloc),
        }
    }

    /// Takes a token of the text.
    #[inline(always)]
    pub(crate) fn step(&mut self, text: &[u8], token: Token) -> Result<(), NotTaken>
        requires { AreCountsFew 2 self.old.groups }
        ensures { Takes (steps.step (machine_in text.now self.old) (token_in text.now token))
            result (machine_in text.now self.new) }
    {
        match self.place {
            Place::Settled => self.after_term(text, token),
            Place::Bracketed => self.in_brackets(text, token),
            Place::Expected => self.on_term(text, token),
            Place::Headed(part) => self.after_name(text, part, token),
        }
    }

    #[inline(always)]
    fn go(&mut self, text: &[u8], place: Place) -> Result<(), NotTaken>
        ensures { Takes (steps.at (machine_in text.now self.old) place)
            result (machine_in text.now self.new) }
    {
        let _ = text;
        self.place = place;
        Ok(())
    }

    // A token comes with which a term begins.
    #[inline(always)]
    fn on_term(&mut self, text: &[u8], token: Token) -> Result<(), NotTaken>
        requires { AreCountsFew 1 self.old.groups }
        ensures { Takes (steps.on_term (machine_in text.now self.old) (token_in text.now token))
            result (machine_in text.now self.new) }
    {
        match token.shape {
            Shape::Word => self.on_name(text, token),
            Shape::Quoted => self.on_name(text, token),
            Shape::Number => {
                let part = self.begin(text, token)?;
                self.end(text, part, 0)
            }
            Shape::At(Mark::OpenList) => {
                let part = self.begin(text, token)?;
                self.open_group(text, false, part, Place::Bracketed)
            }
            Shape::At(_) => Err(NotTaken::Unexpected),
        }
    }

    // A name comes.
    #[inline(always)]
    fn on_name(&mut self, text: &[u8], token: Token) -> Result<(), NotTaken>
        ensures { Takes (steps.headed (machine_in text.now self.old) token.place
            (kind_at text.now token.place token.shape)) result (machine_in text.now self.new) }
    {
        let part = self.begin(text, token)?;
        self.go(text, Place::Headed(part))
    }

    // A term begins; its part has this number.
    #[tactic(auto, using(crate::proofs::Keeping::parts_push, crate::proofs::Keeping::parts_many))]
    #[inline(always)]
    fn begin(&mut self, text: &[u8], token: Token) -> Result<u32, NotTaken>
        ensures { steps.Begins (machine_in text.now self.old) token.place
            (kind_at text.now token.place token.shape) result (machine_in text.now self.new) }
    {
        let _ = text;
        let over = match self.groups.innermost() {
            Some(group) => group.called && group.count == 16,
            None => false,
        };
        let part = in_32_bits(self.parts.len())?;
        let place = in_32_bits(token.place)?;
        self.parts.push(Entry {
            place,
            count: 0,
            over,
            shape: token.shape,
        })?;
        Ok(part)
    }

    #[inline(always)]
    fn open_group(
        &mut self,
        text: &[u8],
        called: bool,
        part: u32,
        place: Place,
    ) -> Result<(), NotTaken>
        ensures { Takes (steps.open_group called part place (machine_in text.now self.old))
            result (machine_in text.now self.new) }
    {
        self.groups.open(Group {
            called,
            part,
            count: 0,
        })?;
        self.go(text, place)
    }

    // A term is whole: a list of so many cells, or none.
    #[tactic(auto, using(crate::proofs::Opened::end_last, crate::proofs::Opened::end_inner))]
    #[inline(always)]
    fn end(&mut self, text: &[u8], part: u32, cells: u32) -> Result<(), NotTaken>
        requires { AreCountsFew 1 self.old.groups }
        ensures { Takes (steps.end part cells (machine_in text.now self.old))
            result (machine_in text.now self.new) }
    {
        let _ = text;
        self.nodes.push(Node { part, cells })?;
        self.place = Place::Settled;
        if self.groups.is_empty() {
            self.nodes.end_term()?;
        } else {
            self.groups.count_one();
        }
        Ok(())
    }

    // What may come after a whole term, or at the start.
    #[tactic(auto, using(crate::proofs::Opened::after_none, crate::proofs::Opened::after_some))]
    #[inline(always)]
    fn after_term(&mut self, text: &[u8], token: Token) -> Result<(), NotTaken>
        requires { AreCountsFew 1 self.old.groups }
        ensures { Takes (steps.after_term (machine_in text.now self.old) (token_in text.now token))
            result (machine_in text.now self.new) }
    {
        match self.groups.innermost() {
            None => self.on_term(text, token),
            Some(group) => self.in_group(text, group, token),
        }
    }

    // What may come after a term in this group, the innermost.
    #[tactic(auto, using(crate::proofs::Opened::put_back))]
    #[inline(always)]
    fn in_group(&mut self, text: &[u8], group: Group, token: Token) -> Result<(), NotTaken>
        requires few { AreCountsFew 1 self.old.groups }
        requires innermost { first_of self.old.groups ≡ Some group }
        ensures { Takes (steps.in_group group (without (machine_in text.now self.old))
            (token_in text.now token)) result (machine_in text.now self.new) }
    {
        match token.shape {
            Shape::At(Mark::Comma) => self.go(text, Place::Expected),
            Shape::At(Mark::Close) if group.called => self.close(text, group, 0),
            Shape::At(Mark::CloseList) if !group.called => self.close(text, group, group.count),
            _ => Err(NotTaken::Unexpected),
        }
    }

    // The innermost group closes.
    #[inline(always)]
    fn close(&mut self, text: &[u8], group: Group, cells: u32) -> Result<(), NotTaken>
        requires { AreCountsFew 1 self.old.groups }
        ensures { Takes (steps.close group cells (without (machine_in text.now self.old)))
            result (machine_in text.now self.new) }
    {
        self.groups.close();
        self.tell_count(text, group);
        self.end(text, group.part, cells)
    }

    // Tells how many terms stand in a group.
    #[tactic(auto, using(crate::proofs::Keeping::parts_counted))]
    #[inline(always)]
    fn tell_count(&mut self, text: &[u8], group: Group)
        ensures counted { machine_in text.now self.new
            ≡ steps.counted group (machine_in text.now self.old) }
        ensures groups { self.new.groups ≡ self.old.groups }
    {
        let _ = text;
        self.parts.set_count(group.part as usize, group.count);
    }

    // What may come behind an opening bracket.
    #[inline(always)]
    fn in_brackets(&mut self, text: &[u8], token: Token) -> Result<(), NotTaken>
        requires { AreCountsFew 1 self.old.groups }
        ensures { Takes (steps.in_brackets (machine_in text.now self.old) (token_in text.now token))
            result (machine_in text.now self.new) }
    {
        match token.shape {
            Shape::At(Mark::CloseList) => self.after_term(text, token),
            _ => self.on_term(text, token),
        }
    }

    // What may come behind a name.
    #[inline(always)]
    fn after_name(&mut self, text: &[u8], part: u32, token: Token) -> Result<(), NotTaken>
        requires { AreCountsFew 2 self.old.groups }
        ensures { Takes (steps.after_name part (machine_in text.now self.old)
            (token_in text.now token)) result (machine_in text.now self.new) }
    {
        match token.shape {
            Shape::At(Mark::Open) => self.open_group(text, true, part, Place::Expected),
            _ => {
                self.end(text, part, 0)?;
                self.after_term(text, token)
            }
        }
    }

    /// Ends a name that stands last.
    pub(crate) fn settle(&mut self, text: &[u8]) -> Result<(), NotTaken>
        requires { AreCountsFew 1 self.old.groups }
        ensures { Takes (steps.settled (machine_in text.now self.old))
            result (machine_in text.now self.new) }
    {
        match self.place {
            Place::Headed(part) => self.end(text, part, 0),
            _ => Ok(()),
        }
    }

    /// The parts and the terms that were read, where the input may end here.
    pub(crate) fn finish(self, text: &[u8]) -> Option<(Parts, Nodes)>
        ensures some { IfSome result (λ r.
            steps.accepted (machine_in text.now self) ≡ Some (parts_in text.now r.0, r.1.terms)) }
        ensures none { IfNone result (steps.accepted (machine_in text.now self) ≡ None) }
    {
        let _ = text;
        let Machine {
            place,
            groups,
            parts,
            nodes,
        } = self;
        match place {
            Place::Settled if groups.is_empty() => Some((parts, nodes)),
            _ => None,
        }
    }
}
