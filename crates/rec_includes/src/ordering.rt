//! The order in which specifications are checked.
ghost use Rattle.std.specs.Prelude.{◌≡◌, ◌<◌, ℕ, List, [], All, Contains, IfOk, IfSome};
ghost use Rattle.std.specs.Prelude.{length, nat_eq};
ghost use Rattle.std.specs.List.{IsDistinct};
ghost use Rattle.rec_includes.specs.Numbered.{first_target};
ghost use Rattle.rec_includes.specs.Forest.{Follows, Leads, parent_of, preorder, put};

use crate::directory::Directory;
use faults::Memory;
use rec_reader::{Name, Specification};
use std::alloc::Global;

/// Numbers in a row: the first, and for each the next.
#[derive(Drop)]
struct Chain {
    first: Option<usize>,
    next: Vec<Option<usize>>,
}

impl Chain {
    /// Puts a number right after its parent, or first where it has none.
    fn put(&mut self, number: usize, parent: Option<usize>)
        requires number { number < length self.old.next.items }
        requires parent { IfSome parent (λ p. p < number) }
        ensures count { length self.new.next.items ≡ length self.old.next.items }
        ensures put { (ns : List ℕ) → IsDistinct nat_eq ns → All (λ n. n < number) ns
            → Leads self.old.next.items self.old.first ns
            → Leads self.new.next.items self.new.first (put parent number ns) }
    {
        match parent {
            Some(parent) => {
                self.next[number] = self.next[parent];
                self.next[parent] = Some(number);
            }
            None => {
                self.next[number] = self.first;
                self.first = Some(number);
            }
        }
    }
}

/// The first specification that entries of the one with this number include.
pub fn first_target(headers: &Directory, number: usize, entries: &[Name]) -> Option<usize>
    ensures { result ≡ first_target headers.now.bytes headers.now.names number entries.now }
{
    for entry in entries {
        if let Some(place) = headers.place_before(number, *entry) {
            return Some(place);
        }
    }
    None
}

/// The numbers of all specifications in a row, each put right after the first one that it includes,
/// in rising order.
fn chained(
    alloc: Global,
    headers: &Directory,
    specifications: &[Specification],
) -> Result<Chain, Memory>
    ensures { IfOk result (λ c. Leads c.next.items c.first
        (preorder (parent_of headers.now.bytes headers.now.names specifications.now)
        (length specifications.now))) }
{
    let next = vec![in alloc; None; specifications.len()]?;
    let mut chain = Chain { first: None, next };
    for number in 0..specifications.len() {
        let entries = specifications[number].includes.as_slice();
        chain.put(number, first_target(headers, number, entries));
    }
    Ok(chain)
}

/// The numbers of all specifications, each once, and each after the first one that it includes:
/// only others that hang under this one stand between the two.
pub fn order(
    alloc: Global,
    headers: &Directory,
    specifications: &[Specification],
) -> Result<Vec<usize>, Memory>
    ensures all { IfOk result (λ v.
        (n : ℕ) → n < length specifications.now → Contains v.items n) }
    ensures no_others { IfOk result (λ v. All (λ n. n < length specifications.now) v.items) }
    ensures once { IfOk result (λ v. IsDistinct nat_eq v.items) }
    ensures near { IfOk result (λ v. Follows
        (parent_of headers.now.bytes headers.now.names specifications.now) [] v.items) }
{
    let chain = chained(alloc, headers, specifications)?;
    let mut order = Vec::new(alloc);
    let mut rest = chain.first;
    while let Some(number) = rest {
        order.push(number)?;
        rest = chain.next[number];
    }
    Ok(order)
}
