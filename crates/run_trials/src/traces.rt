// Traces behind lines, and their checks.
use crate::trial::{FOUR_SUMS, PAIR, ROW, Row, USAGE, check, check_all, words_of};
use ends::OpenGate;
use memory_ends::{MemSink, MemSource};
use rec_top::run;
use std::alloc::{AllocError, Global};
use std::process::Abort;
use std::sync::Wait;
use std::test::Fail;
use std::thread::Threads;

/// The sum of one and one, with its trace.
const TRACED: Row = Row {
    words: &["rewrite", "--trace"],
    out: b"s(s(z))\n# trace 0 r1 d1 r0\n# end\n",
    ..ROW
};

/// A sum of two sums beside a constant.
const SUM_OF_SUMS: Row = Row {
    input: b"REC-SPEC NAT SORTS Nat CONS z : -> Nat  s : Nat -> Nat OPNS plus : Nat Nat -> Nat VARS X Y : Nat RULES plus(X, z) -> X plus(X, s(Y)) -> s(plus(X, Y)) EVAL plus(plus(z, z), plus(z, z)) z END-SPEC",
    out: b"z\nz\n# trace 0 d1 r0 u d2 r0 u r0\n# trace 1\n# end\n",
    terms: 2,
    ..TRACED
};

// Each with the number of its values.
static WITH_VALUES: [(Row, &[u8]); 8] = [
    (TRACED, b"derived 1\n"),
    // Up from one argument and down to the next.
    (SUM_OF_SUMS, b"derived 2\n"),
    // A line without a value has no trace.
    (
        Row {
            words: &["rewrite", "--fuel", "2", "--trace"],
            status: 1,
            out: b"out of fuel\nz\n# trace 1\n# end\n",
            ..SUM_OF_SUMS
        },
        b"derived 1\n",
    ),
    (
        Row {
            words: &["rewrite", "--trace", "--depth=5"],
            status: 1,
            out: b"too deep\n# end\n",
            ..TRACED
        },
        b"derived 0\n",
    ),
    // No rules, and no terms.
    (
        Row {
            input: PAIR,
            out: b"f(a)\n# trace 0\n# end\n",
            ..TRACED
        },
        b"derived 1\n",
    ),
    (
        Row {
            input: b"REC-SPEC A SORTS S CONS a : -> S END-SPEC",
            out: b"# end\n",
            terms: 0,
            ..TRACED
        },
        b"derived 0\n",
    ),
    // The rules of two specifications are numbered on, and the term of the later stands below one
    // rule's use.
    (
        Row {
            input: b"REC-SPEC A SORTS S CONS a b c : -> S f : S -> S RULES a -> b END-SPEC REC-SPEC B : A RULES b -> c EVAL f(a) END-SPEC",
            out: b"f(c)\n# trace 0 d1 r0 r1\n# end\n",
            ..TRACED
        },
        b"derived 1\n",
    ),
    // Rows: what isn't kept is collected.
    (
        Row {
            words: &["rewrite", "--rows", "3", "--trace"],
            ..TRACED
        },
        b"derived 1\n",
    ),
];

// The input of a check of this row's output.
fn to_check(alloc: Global, row: &Row) -> Result<Vec<u8>, AllocError> {
    let mut bytes = Vec::new(alloc);
    let heading = format!(in alloc; "spec {}\n", row.input.len())?;
    bytes.extend_from_slice(heading.as_bytes())?;
    bytes.extend_from_slice(row.input)?;
    bytes.push(b'\n')?;
    bytes.extend_from_slice(row.out)?;
    Ok(bytes)
}

// Gives this row's output to `check trace`, which tells how many values are derived.
fn check_derived<R: Abort + Alloc<A = Global> + Threads + Wait + Sync>(
    rt: &R,
    number: usize,
    row: &Row,
    derived: &[u8],
) -> Result<(), Fail> {
    let alloc = rt.alloc();
    let input = to_check(alloc, row)?;
    let words = words_of(alloc, &["check", "trace"])?;
    let mut source = MemSource::new(alloc, input.as_slice(), 4096, &[])?;
    let mut out = MemSink::new(alloc, 100, 4096, &[])?;
    let mut err = MemSink::new(alloc, 100, 7, &[])?;
    let outcome = run(
        rt,
        alloc,
        &words,
        &mut source,
        &mut out,
        &mut err,
        &OpenGate,
    );
    assert_eq!(rt; outcome.status, 0, "status of the check of row {number}");
    assert_eq!(rt; out.taken(), derived, "verdict of row {number}");
    assert!(rt; err.taken().is_empty(), "line of the check of row {number}");
    Ok(())
}

#[test]
fn traces_lead_to_the_values_before_them(rt: HostRuntime) -> Result<(), Fail> {
    for (number, (row, derived)) in WITH_VALUES.iter().enumerate() {
        check(&rt, number, row)?;
        check_derived(&rt, number, row, *derived)?;
    }
    Ok(())
}

// Words for one, two, four and sixteen workers.
const WORKERS: [(&[&str], u32); 4] = [
    (&["rewrite", "--trace"], 1),
    (&["rewrite", "--workers", "2", "--trace"], 2),
    (&["rewrite", "--trace", "--workers=4"], 4),
    (&["rewrite", "--trace", "--workers", "16"], 16),
];

#[test]
fn the_traces_are_the_same_for_any_number_of_workers(rt: HostRuntime) -> Result<(), Fail> {
    for (words, workers) in WORKERS {
        let row = Row {
            words,
            workers,
            input: FOUR_SUMS,
            out: b"s(s(z))\ns(s(z))\ns(s(z))\ns(s(z))\n# trace 0 r1 d1 r0\n# trace 1 r1 d1 r0\n# trace 2 r1 d1 r0\n# trace 3 r1 d1 r0\n# end\n",
            terms: 4,
            ..TRACED
        };
        check(&rt, workers as usize, &row)?;
    }
    Ok(())
}

static STOPPED: [Row; 7] = [
    // Conditions are refused, those of included rules too, and after all other faults.
    Row {
        input: b"REC-SPEC C SORTS S CONS a b c : -> S OPNS f : S -> S VARS X : S RULES f(X) -> a if f(X) = b EVAL f(c) END-SPEC",
        status: 3,
        out: b"",
        err: b"fault 19 at 80\n",
        ..TRACED
    },
    Row {
        input: b"REC-SPEC A SORTS S CONS a b : -> S OPNS f : S -> S VARS X : S RULES f(X) -> a if X = b END-SPEC REC-SPEC B : A EVAL f(f(a)) END-SPEC",
        status: 3,
        out: b"",
        err: b"fault 19 at 78\n",
        ..TRACED
    },
    Row {
        input: b"REC-SPEC C SORTS S CONS a b c : -> S OPNS f : S -> S VARS X : S RULES f(X) -> a if f(X) = b EVAL q END-SPEC",
        status: 3,
        out: b"",
        err: b"fault 5 at 97\n",
        ..TRACED
    },
    // Sizes in the place of the texts that traces lead to.
    Row {
        words: &["rewrite", "--trace", "--sizes"],
        status: 2,
        out: b"",
        err: USAGE,
        ..TRACED
    },
    Row {
        words: &["outermost", "--trace"],
        status: 2,
        out: b"",
        err: USAGE,
        ..TRACED
    },
    Row {
        words: &["rewrite", "--rows", "2", "--trace"],
        status: 4,
        out: b"",
        err: b"store full\n",
        ..TRACED
    },
    // A failed write among the traces.
    Row {
        write_most: 10,
        failing_writes: &[2],
        status: 6,
        out: b"s(s(z))\n# ",
        err: b"write fault\n",
        ..TRACED
    },
];

#[test]
fn traces_that_stop(rt: HostRuntime) -> Result<(), Fail> {
    check_all(&rt, &STOPPED)
}
