//! Reads standard input as specifications, checks them, and says how many symbols they declare, and
//! how many rules and terms are to be run: a benchmark of the check, which docs/PERFORMANCE.md says
//! how to run.
#![tactic(auto)]

use rec_check::{Spec, check};
use rec_reader::{ReadFail, Syntax};
use std::alloc::Global;
use std::io;
use std::io::Read;

/// How many symbols all specifications declare.
fn declared(syntax: &Syntax) -> usize {
    let mut symbols: usize = 0;
    for specification in syntax.as_slice() {
        for declaration in specification.declarations.as_slice() {
            symbols = symbols.saturating_add(declaration.names.as_slice().len());
        }
    }
    symbols
}

/// What the bytes spell, and how many symbols they declare.
fn read(alloc: Global, bytes: &[u8]) -> Result<(Spec, usize), ReadFail> {
    let syntax = rec_reader::read(alloc, bytes)?;
    Ok((check(alloc, &syntax)?, declared(&syntax)))
}

fn main(rt: HostRuntime) -> io::Result<()> {
    let mut bytes = Vec::new(rt.alloc());
    rt.reader().read_to_end(&mut bytes)?;
    match read(rt.alloc(), &bytes) {
        Ok((spec, symbols)) => {
            let rules = spec.rules.len();
            let terms = spec.terms.len();
            println!(rt; "symbols {symbols}")?;
            println!(rt; "rules {rules}")?;
            println!(rt; "terms {terms}")
        }
        Err(ReadFail::Refused { kind, offset }) => println!(rt; "fault {kind} at {offset}"),
        Err(ReadFail::Memory) => println!(rt; "out of memory"),
    }
}
