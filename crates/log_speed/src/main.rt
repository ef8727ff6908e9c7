//! Reads standard input as a log and says what is found of it: a benchmark of the checker of logs,
//! which docs/PERFORMANCE.md says how to run.
#![tactic(auto)]

use log_check::{LogVerdict, ReadFail, check_log};
use std::io;
use std::io::Read;

fn main(rt: HostRuntime) -> io::Result<()> {
    let mut bytes = Vec::new(rt.alloc());
    rt.reader().read_to_end(&mut bytes)?;
    match check_log(rt.alloc(), &bytes) {
        Ok(LogVerdict::Legal(entries)) => println!(rt; "legal {entries}"),
        Ok(LogVerdict::Illegal(line)) => println!(rt; "illegal {line}"),
        Err(ReadFail::Refused { kind, offset }) => println!(rt; "fault {kind} at {offset}"),
        Err(ReadFail::Memory) => println!(rt; "out of memory"),
    }
}
