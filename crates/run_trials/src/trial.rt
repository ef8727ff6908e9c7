// Runs of the program on bytes, and what comes of them.
use ends::OpenGate;
use memory_ends::{MemSink, MemSource};
use rec_top::{Outcome, run};
use std::alloc::Global;
use std::process::Abort;
use std::sync::Wait;
use std::test::Fail;
use std::thread::Threads;

/// The sum of one and one.
pub const SUM: &[u8] =
    b"REC-SPEC NAT SORTS Nat CONS z : -> Nat  s : Nat -> Nat OPNS plus : Nat Nat -> Nat VARS X Y : Nat RULES plus(X, z) -> X plus(X, s(Y)) -> s(plus(X, Y)) EVAL plus(s(z), s(z)) END-SPEC";

/// Four times that sum.
pub const FOUR_SUMS: &[u8] =
    b"REC-SPEC NAT SORTS Nat CONS z : -> Nat  s : Nat -> Nat OPNS plus : Nat Nat -> Nat VARS X Y : Nat RULES plus(X, z) -> X plus(X, s(Y)) -> s(plus(X, Y)) EVAL plus(s(z), s(z)) plus(s(z), s(z)) plus(s(z), s(z)) plus(s(z), s(z)) END-SPEC";

/// A constant under a symbol.
pub const PAIR: &[u8] = b"REC-SPEC A SORTS S CONS a : -> S f : S -> S EVAL f(a) END-SPEC";

pub const USAGE: &[u8] = b"usage: rec COMMAND [OPTIONS]\n";

/// The words behind the program's name, the input, how the ends behave, and what comes of it. The
/// status 0, 1 and 9 are those of so many terms and workers.
#[derive(Clone, Copy)]
pub struct Row {
    pub words: &'static [&'static str],
    pub input: &'static [u8],
    pub read_most: usize,
    pub failing_reads: &'static [u64],
    pub write_most: usize,
    pub failing_writes: &'static [u64],
    pub failing_lines: &'static [u64],
    pub status: u8,
    pub out: &'static [u8],
    pub err: &'static [u8],
    pub terms: usize,
    pub workers: u32,
}

/// The sum under `rewrite`, between ends that never fail.
pub const ROW: Row = Row {
    words: &["rewrite"],
    input: SUM,
    read_most: 4096,
    failing_reads: &[],
    write_most: 4096,
    failing_writes: &[],
    failing_lines: &[],
    status: 0,
    out: b"s(s(z))\n",
    err: b"",
    terms: 1,
    workers: 1,
};

/// The program's name and these words.
pub fn words_of(alloc: Global, given: &[&str]) -> Result<Vec<String>, Fail> {
    let mut words = vec![in alloc; String::from_str(alloc, "rec")?]?;
    for word in given {
        words.push(String::from_str(alloc, word)?)?;
    }
    Ok(words)
}

/// Runs a row, and compares what comes of it.
pub fn check<R: Abort + Alloc<A = Global> + Threads + Wait + Sync>(
    rt: &R,
    number: usize,
    row: &Row,
) -> Result<(), Fail> {
    let alloc = rt.alloc();
    let words = words_of(alloc, row.words)?;
    assert!(rt; row.read_most > 0 && row.write_most > 0);
    let mut source = MemSource::new(alloc, row.input, row.read_most, row.failing_reads)?;
    let mut out = MemSink::new(alloc, 10_000, row.write_most, row.failing_writes)?;
    let mut err = MemSink::new(alloc, 100, 7, row.failing_lines)?;
    let outcome = run(
        rt,
        alloc,
        &words,
        &mut source,
        &mut out,
        &mut err,
        &OpenGate,
    );
    assert_eq!(rt; outcome.status, row.status, "status of row {number}");
    assert_eq!(rt; out.taken(), row.out, "output of row {number}");
    assert_eq!(rt; err.taken(), row.err, "line of row {number}");
    check_workers(rt, number, &outcome, row)
}

// Each term has one of the workers, where the output was made.
fn check_workers<R: Abort>(
    rt: &R,
    number: usize,
    outcome: &Outcome,
    row: &Row,
) -> Result<(), Fail> {
    let made = matches!(outcome.status, 0 | 1 | 6 | 9);
    let count = if made { row.terms } else { 0 };
    assert_eq!(rt;
        outcome.workers.as_slice().len(),
        count,
        "workers of row {number}"
    );
    for worker in outcome.workers.as_slice() {
        assert!(rt; *worker < row.workers, "worker in row {number}");
    }
    Ok(())
}

/// Checks each row of a table.
pub fn check_all<R: Abort + Alloc<A = Global> + Threads + Wait + Sync>(
    rt: &R,
    rows: &[Row],
) -> Result<(), Fail> {
    for (number, row) in rows.iter().enumerate() {
        check(rt, number, row)?;
    }
    Ok(())
}
