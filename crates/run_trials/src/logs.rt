// Logs behind lines, and their checks.
use crate::trial::{FOUR_SUMS, PAIR, ROW, Row, SUM, USAGE, check_all, words_of};
use ends::OpenGate;
use memory_ends::{MemSink, MemSource};
use rec_top::run;
use std::alloc::Global;
use std::process::Abort;
use std::sync::Wait;
use std::test::Fail;
use std::thread::Threads;

/// A constant under a symbol: two trees are made, and the worker leaves.
const LOGGED: Row = Row {
    words: &["rewrite", "--log"],
    input: PAIR,
    out: b"f(a)\n# log 65536 1\n# caller 0\n# make 1 0 s0\n# make 2 1 s1 0\n# roots 2\n# end\n",
    ..ROW
};

static WHOLE: [Row; 6] = [
    LOGGED,
    Row {
        words: &["rewrite", "--rows", "3", "--log", "--sizes"],
        out: b"distinct 2 nodes 2\n# log 3 1\n# caller 0\n# make 1 0 s0\n# make 2 1 s1 0\n# roots 2\n# end\n",
        ..LOGGED
    },
    Row {
        words: &["outermost", "--log", "--depth=2"],
        ..LOGGED
    },
    // A term that is too deep: what was built until then, and the leave.
    Row {
        words: &["rewrite", "--log", "--depth", "1"],
        status: 1,
        out: b"too deep\n# log 65536 1\n# caller 0\n# roots 0\n# end\n",
        ..LOGGED
    },
    // No terms: a worker enters nothing.
    Row {
        input: b"REC-SPEC A SORTS S CONS a : -> S END-SPEC",
        out: b"# log 65536 1\n# caller 0\n# end\n",
        terms: 0,
        ..LOGGED
    },
    Row {
        words: &["rewrite", "--log", "--workers", "2"],
        input: b"REC-SPEC A SORTS S CONS a : -> S END-SPEC",
        out: b"# log 65536 2\n# caller 0\n# caller 1\n# end\n",
        terms: 0,
        workers: 2,
        ..LOGGED
    },
];

#[test]
fn a_log_stands_behind_the_lines(rt: HostRuntime) -> Result<(), Fail> {
    check_all(&rt, &WHOLE)
}

static STOPPED: [Row; 6] = [
    Row {
        words: &["rewrite", "--log", "--trace"],
        status: 2,
        out: b"",
        err: USAGE,
        ..LOGGED
    },
    Row {
        words: &["check", "log", "--log"],
        status: 2,
        out: b"",
        err: USAGE,
        ..LOGGED
    },
    // Nothing is written where the rows are too few.
    Row {
        words: &["rewrite", "--rows", "1", "--log"],
        status: 4,
        out: b"",
        err: b"store full\n",
        ..LOGGED
    },
    // A failed write at the end of the lines, at the log's beginning, and within it.
    Row {
        write_most: 3,
        failing_writes: &[2],
        status: 6,
        out: b"f(a",
        err: b"write fault\n",
        ..LOGGED
    },
    Row {
        write_most: 5,
        failing_writes: &[2],
        status: 6,
        out: b"f(a)\n",
        err: b"write fault\n",
        ..LOGGED
    },
    Row {
        write_most: 5,
        failing_writes: &[4],
        status: 6,
        out: b"f(a)\n# log 6553",
        err: b"write fault\n",
        ..LOGGED
    },
];

#[test]
fn logs_that_stop(rt: HostRuntime) -> Result<(), Fail> {
    check_all(&rt, &STOPPED)
}

/// What a run with these words writes for an input, with this status.
pub fn written<R: Abort + Alloc<A = Global> + Threads + Wait + Sync>(
    rt: &R,
    given: &[&str],
    input: &[u8],
    status: u8,
) -> Result<MemSink, Fail> {
    let alloc = rt.alloc();
    let words = words_of(alloc, given)?;
    let mut source = MemSource::new(alloc, input, 4096, &[])?;
    let mut out = MemSink::new(alloc, 1_000_000, 4096, &[])?;
    let mut err = MemSink::new(alloc, 100, 7, &[])?;
    let outcome = run(
        rt,
        alloc,
        &words,
        &mut source,
        &mut out,
        &mut err,
        &OpenGate,
    );
    assert_eq!(rt; outcome.status, status);
    Ok(out)
}

// Words that ask for a log, the same without it, an input, and the status.
type Twice = (
    &'static [&'static str],
    &'static [&'static str],
    &'static [u8],
    u8,
);

static TWICE: [Twice; 11] = [
    (&["rewrite", "--log", "--rows", "3"], &["rewrite"], SUM, 0),
    (
        &["rewrite", "--log", "--fuel=1"],
        &["rewrite", "--fuel=1"],
        SUM,
        1,
    ),
    (
        &["rewrite", "--log", "--workers", "4", "--rows", "12"],
        &["rewrite"],
        FOUR_SUMS,
        0,
    ),
    (
        &["rewrite", "--workers", "16", "--rows", "40", "--log"],
        &["rewrite"],
        FOUR_SUMS,
        0,
    ),
    (
        &["outermost", "--log", "--rows", "40", "--workers=3"],
        &["outermost"],
        FOUR_SUMS,
        0,
    ),
    (
        &["rewrite", "--cache", "1", "--log", "--rows=12"],
        &["rewrite"],
        FOUR_SUMS,
        0,
    ),
    (
        &["rewrite", "--workers", "4", "--log", "--cache", "16"],
        &["rewrite"],
        FOUR_SUMS,
        0,
    ),
    (&["drill", "1", "--log"], &["drill", "1"], b"", 0),
    (
        &["drill", "3", "--cache=16", "--log"],
        &["drill", "3"],
        b"",
        0,
    ),
    (
        &["drill", "3", "--workers", "4", "--log"],
        &["drill", "3"],
        b"",
        0,
    ),
    (
        &["drill", "4", "--log", "--workers=2", "--fuel", "80"],
        &["drill", "4", "--fuel", "80"],
        b"",
        1,
    ),
];

#[test]
fn logs_are_found_legal_and_change_no_line(rt: HostRuntime) -> Result<(), Fail> {
    for (logged, plain, input, status) in TWICE {
        let with_log = written(&rt, logged, input, status)?;
        let without = written(&rt, plain, input, status)?;
        assert!(rt; with_log.taken().starts_with(without.taken()));
        assert!(rt; with_log.taken().ends_with(b"# end\n"));
        let verdict = written(&rt, &["check", "log"], with_log.taken(), 0)?;
        assert!(rt; verdict.taken().starts_with(b"legal "));
    }
    Ok(())
}
