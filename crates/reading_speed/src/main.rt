//! Reads standard input as specifications and says how many tokens, specifications and terms it
//! has: a benchmark of the reader, which docs/PERFORMANCE.md says how to run.
#![tactic(auto)]

use rec_reader::{ReadFail, syntax, tokens};
use std::io;
use std::io::Read;

fn main(rt: HostRuntime) -> io::Result<()> {
    let mut bytes = Vec::new(rt.alloc());
    rt.reader().read_to_end(&mut bytes)?;
    let tokens = match tokens(rt.alloc(), &bytes) {
        Ok(tokens) => tokens,
        Err(ReadFail::Refused { kind, offset }) => return println!(rt; "fault {kind} at {offset}"),
        Err(ReadFail::Memory) => return println!(rt; "out of memory"),
    };
    let count = tokens.as_slice().len();
    println!(rt; "tokens {count}")?;
    match syntax(rt.alloc(), &tokens) {
        Ok(syntax) => {
            let count = syntax.as_slice().len();
            println!(rt; "specifications {count}")
        }
        Err(ReadFail::Refused { kind, offset }) => println!(rt; "fault {kind} at {offset}"),
        Err(ReadFail::Memory) => println!(rt; "out of memory"),
    }
}
