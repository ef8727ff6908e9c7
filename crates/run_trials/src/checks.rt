use crate::trial::{ROW, Row, USAGE, check_all};
use std::test::Fail;

/// A log of one caller that makes a constant and a term over it, and leaves with the second
/// protected.
const LOG: &[u8] = b"# log 2 1\n# caller 0\n# make 1 0 s0\n# make 2 1 s1 0\n# roots 2 1\n# end\n";

/// That log under `check log`.
const CHECK: Row = Row {
    words: &["check", "log"],
    input: LOG,
    out: b"legal 3\n",
    terms: 0,
    ..ROW
};

static CHECKED: [Row; 7] = [
    CHECK,
    // Other lines are passed over, and counted.
    Row {
        input: b"s(s(z))\n# log 2 1\n# caller 0\n# make 1 1 s0\nz\n# end",
        out: b"legal 1\n",
        ..CHECK
    },
    // A key that doesn't rise, a name that is taken, and a term that is found before it is made.
    Row {
        input: b"# log 2 1\n# caller 0\n# make 1 0 s0\n# make 1 1 s1 0\n# roots 2 1\n# end\n",
        status: 9,
        out: b"illegal 4\n",
        ..CHECK
    },
    Row {
        input: b"# log 2 1\n# caller 0\n# make 1 0 s0\n# make 2 0 s1 0\n# roots 2 1\n# end\n",
        status: 9,
        out: b"illegal 4\n",
        ..CHECK
    },
    Row {
        input: b"# log 2 2\n# caller 0\n# make 1 0 s0\n# caller 1\n# find 0 0 s0\n# end\n",
        status: 9,
        out: b"illegal 5\n",
        ..CHECK
    },
    // A log without its end, and an input without a log.
    Row {
        input: b"# log 2 1\n# caller 0\n# make 1 0 s0\n# make 2 1 s1 0\n# roots 2 1\n",
        status: 3,
        out: b"",
        err: b"fault 15 at 6\n",
        ..CHECK
    },
    Row {
        input: b"",
        status: 3,
        out: b"",
        err: b"fault 15 at 1\n",
        ..CHECK
    },
];

#[test]
fn logs_are_checked(rt: HostRuntime) -> Result<(), Fail> {
    check_all(&rt, &CHECKED)
}

static STOPPED: [Row; 4] = [
    Row {
        read_most: 10,
        failing_reads: &[2],
        status: 5,
        out: b"",
        err: b"read fault\n",
        ..CHECK
    },
    // A failed write goes before an illegal log.
    Row {
        input: b"# log 1 1\n# caller 0\n# find 0 0 s0\n# end\n",
        write_most: 4,
        failing_writes: &[2],
        status: 6,
        out: b"ille",
        err: b"write fault\n",
        ..CHECK
    },
    Row {
        words: &["check"],
        status: 2,
        out: b"",
        err: USAGE,
        ..CHECK
    },
    Row {
        words: &["check", "log", "--rows", "2"],
        status: 2,
        out: b"",
        err: USAGE,
        ..CHECK
    },
];

#[test]
fn checks_of_logs_that_stop(rt: HostRuntime) -> Result<(), Fail> {
    check_all(&rt, &STOPPED)
}

/// The sum of one and one with its trace, under `check trace`.
const TRACE: Row = Row {
    words: &["check", "trace"],
    input: b"spec 180\nREC-SPEC NAT SORTS Nat CONS z : -> Nat  s : Nat -> Nat OPNS plus : Nat Nat -> Nat VARS X Y : Nat RULES plus(X, z) -> X plus(X, s(Y)) -> s(plus(X, Y)) EVAL plus(s(z), s(z)) END-SPEC\ns(s(z))\n# trace 0 r1 d1 r0\n# end\n",
    out: b"derived 1\n",
    terms: 0,
    ..ROW
};

static TRACED: [Row; 9] = [
    TRACE,
    // The first rule doesn't match where the second does.
    Row {
        input: b"spec 180\nREC-SPEC NAT SORTS Nat CONS z : -> Nat  s : Nat -> Nat OPNS plus : Nat Nat -> Nat VARS X Y : Nat RULES plus(X, z) -> X plus(X, s(Y)) -> s(plus(X, Y)) EVAL plus(s(z), s(z)) END-SPEC\ns(s(z))\n# trace 0 r0 d1 r0\n# end\n",
        status: 9,
        out: b"underived 0\n",
        ..TRACE
    },
    Row {
        input: b"spec 63\nREC-SPEC A SORTS S CONS a b : -> S RULES a -> b EVAL a END-SPEC\nb\n# trace 0 r0\n# end\n",
        ..TRACE
    },
    // A trace that leads elsewhere.
    Row {
        input: b"spec 63\nREC-SPEC A SORTS S CONS a b : -> S RULES a -> b EVAL a END-SPEC\nb\n# trace 0\n# end\n",
        status: 9,
        out: b"underived 0\n",
        ..TRACE
    },
    // A term without a value has no trace.
    Row {
        input: b"spec 63\nREC-SPEC A SORTS S CONS a b : -> S RULES a -> b EVAL a END-SPEC\nout of fuel\n# end\n",
        out: b"derived 0\n",
        ..TRACE
    },
    // The line of the specification, the specification, and the lines after it.
    Row {
        input: b"spec 62\nREC-SPEC A SORTS S CONS a b : -> S RULES a -> b EVAL a END-SPEC\nb\n# trace 0 r0\n# end\n",
        status: 3,
        out: b"",
        err: b"fault 15 at 0\n",
        ..TRACE
    },
    Row {
        input: b"spec 63\nREC-SPEC A SORTS S CONS a b : -> S RULES a -> c EVAL a END-SPEC\nb\n# trace 0 r0\n# end\n",
        status: 3,
        out: b"",
        err: b"fault 5 at 46\n",
        ..TRACE
    },
    Row {
        input: b"spec 63\nREC-SPEC A SORTS S CONS a b : -> S RULES a -> b EVAL a END-SPEC\nb\n# trace 1 r0\n# end\n",
        status: 3,
        out: b"",
        err: b"fault 15 at 2\n",
        ..TRACE
    },
    Row {
        input: b"spec 63\nREC-SPEC A SORTS S CONS a b : -> S RULES a -> b EVAL a END-SPEC\nb\n# trace 0 r0\n",
        status: 3,
        out: b"",
        err: b"fault 15 at 3\n",
        ..TRACE
    },
];

#[test]
fn traces_are_checked(rt: HostRuntime) -> Result<(), Fail> {
    check_all(&rt, &TRACED)
}
