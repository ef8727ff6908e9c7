use crate::trial::{FOUR_SUMS, PAIR, ROW, Row, USAGE, check_all};
use std::test::Fail;

static VALUES: [Row; 22] = [
    // Fuel: a rule that is tried without matching costs nothing.
    Row {
        words: &["rewrite", "--fuel", "2"],
        ..ROW
    },
    Row {
        words: &["rewrite", "--fuel", "1"],
        status: 1,
        out: b"out of fuel\n",
        ..ROW
    },
    Row {
        words: &["rewrite", "--fuel=+0"],
        input: b"REC-SPEC NAT SORTS Nat CONS z : -> Nat  s : Nat -> Nat OPNS plus : Nat Nat -> Nat VARS X Y : Nat RULES plus(X, z) -> X plus(X, s(Y)) -> s(plus(X, Y)) EVAL z END-SPEC",
        out: b"z\n",
        ..ROW
    },
    // Room.
    Row {
        words: &["rewrite", "--depth", "6"],
        ..ROW
    },
    Row {
        words: &["rewrite", "--depth", "5"],
        status: 1,
        out: b"too deep\n",
        ..ROW
    },
    Row {
        words: &["rewrite", "--depth", "2"],
        input: PAIR,
        out: b"f(a)\n",
        ..ROW
    },
    Row {
        words: &["rewrite", "--depth", "1"],
        input: PAIR,
        status: 1,
        out: b"too deep\n",
        ..ROW
    },
    // No terms.
    Row {
        input: b"REC-SPEC NAT SORTS Nat CONS z : -> Nat  s : Nat -> Nat OPNS plus : Nat Nat -> Nat VARS X Y : Nat RULES plus(X, z) -> X plus(X, s(Y)) -> s(plus(X, Y)) EVAL  END-SPEC",
        out: b"",
        terms: 0,
        ..ROW
    },
    Row {
        input: b"REC-SPEC NAT SORTS Nat CONS z : -> Nat  s : Nat -> Nat OPNS plus : Nat Nat -> Nat VARS X Y : Nat RULES plus(X, z) -> X plus(X, s(Y)) -> s(plus(X, Y)) END-SPEC",
        out: b"",
        terms: 0,
        ..ROW
    },
    // Four terms.
    Row {
        input: b"REC-SPEC NAT SORTS Nat CONS z : -> Nat  s : Nat -> Nat OPNS plus : Nat Nat -> Nat VARS X Y : Nat RULES plus(X, z) -> X plus(X, s(Y)) -> s(plus(X, Y)) EVAL plus(s(z), s(z)) plus(s(z), s(z)) plus(s(z), s(z)) plus(s(z), s(z)) END-SPEC",
        out: b"s(s(z))\ns(s(z))\ns(s(z))\ns(s(z))\n",
        terms: 4,
        ..ROW
    },
    // A variable that stands twice.
    Row {
        input: b"REC-SPEC E SORTS N B CONS z : -> N s : N -> N t : -> B OPNS eq : N N -> B VARS X : N RULES eq(X, X) -> t EVAL eq(s(z), s(z)) END-SPEC",
        out: b"t\n",
        ..ROW
    },
    Row {
        input: b"REC-SPEC E SORTS N B CONS z : -> N s : N -> N t : -> B OPNS eq : N N -> B VARS X : N RULES eq(X, X) -> t EVAL eq(s(z), z) END-SPEC",
        out: b"eq(s(z),z)\n",
        ..ROW
    },
    // Conditions: a rule that is left for one has cost its fuel.
    Row {
        words: &["rewrite", "--fuel", "3"],
        input: b"REC-SPEC C SORTS S CONS a b c e : -> S OPNS f g : S -> S VARS X : S RULES g(X) -> b f(X) -> a if g(X) -><- b and-if X <> c f(X) -> e EVAL f(c) f(a) END-SPEC",
        out: b"e\na\n",
        terms: 2,
        ..ROW
    },
    Row {
        words: &["rewrite", "--fuel", "2"],
        input: b"REC-SPEC C SORTS S CONS a b c e : -> S OPNS f g : S -> S VARS X : S RULES g(X) -> b f(X) -> a if g(X) -><- b and-if X <> c f(X) -> e EVAL f(c) f(a) END-SPEC",
        status: 1,
        out: b"out of fuel\na\n",
        terms: 2,
        ..ROW
    },
    Row {
        words: &["rewrite", "--fuel", "3"],
        input: b"REC-SPEC C SORTS S CONS a b c : -> S OPNS f : S -> S VARS X : S RULES f(X) -> a if f(X) = b EVAL f(c) END-SPEC",
        status: 1,
        out: b"out of fuel\n",
        ..ROW
    },
    // The first rule that fits.
    Row {
        input: b"REC-SPEC C SORTS S CONS a b c : -> S OPNS f : S -> S VARS X : S RULES f(X) -> a f(b) -> c EVAL f(b) END-SPEC",
        out: b"a\n",
        ..ROW
    },
    // Innermost: the argument has no value.
    Row {
        words: &["rewrite", "--fuel", "5"],
        input: b"REC-SPEC C SORTS S CONS a l : -> S OPNS f : S -> S VARS X : S RULES f(X) -> a l -> l EVAL f(l) END-SPEC",
        status: 1,
        out: b"out of fuel\n",
        ..ROW
    },
    // Rows: what isn't kept is collected.
    Row {
        words: &["rewrite", "--rows", "3"],
        ..ROW
    },
    Row {
        words: &["rewrite", "--rows", "2"],
        status: 4,
        out: b"",
        err: b"store full\n",
        ..ROW
    },
    Row {
        words: &["rewrite", "--rows", "2"],
        input: b"REC-SPEC C SORTS S CONS a b c d e : -> S EVAL a b c d e END-SPEC",
        out: b"a\nb\nc\nd\ne\n",
        terms: 5,
        ..ROW
    },
    // Sizes.
    Row {
        words: &["rewrite", "--sizes"],
        out: b"distinct 3 nodes 3\n",
        ..ROW
    },
    // Several specifications.
    Row {
        input: b"REC-SPEC A SORTS S CONS a : -> S OPNS f : S -> S VARS X : S RULES f(X) -> X EVAL f(a) END-SPEC REC-SPEC B : A EVAL f(f(a)) END-SPEC",
        out: b"a\n",
        ..ROW
    },
];

#[test]
fn each_specification_gives_its_lines(rt: HostRuntime) -> Result<(), Fail> {
    check_all(&rt, &VALUES)
}

static REFUSALS: [Row; 21] = [
    // Bytes and words.
    Row {
        input: b"REC-SPEC A EVAL",
        status: 3,
        out: b"",
        err: b"fault 3 at 15\n",
        ..ROW
    },
    Row {
        input: b"",
        status: 3,
        out: b"",
        err: b"fault 3 at 0\n",
        ..ROW
    },
    Row {
        input: b"REC-SPEC A EVAL ( END-SPEC",
        status: 3,
        out: b"",
        err: b"fault 2 at 16\n",
        ..ROW
    },
    Row {
        input: b"REC-SPEC A EVAL \x80 END-SPEC",
        status: 3,
        out: b"",
        err: b"fault 1 at 16\n",
        ..ROW
    },
    Row {
        input: b"REC-SPEC A EVAL f() END-SPEC",
        status: 3,
        out: b"",
        err: b"fault 2 at 18\n",
        ..ROW
    },
    Row {
        input: b"REC-SPEC A END-SPEC x",
        status: 3,
        out: b"",
        err: b"fault 2 at 20\n",
        ..ROW
    },
    // Names and sorts.
    Row {
        input: b"REC-SPEC A EVAL q END-SPEC",
        status: 3,
        out: b"",
        err: b"fault 5 at 16\n",
        ..ROW
    },
    Row {
        input: b"REC-SPEC A RULES a -> b END-SPEC",
        status: 3,
        out: b"",
        err: b"fault 5 at 17\n",
        ..ROW
    },
    Row {
        input: b"REC-SPEC A : B END-SPEC",
        status: 3,
        out: b"",
        err: b"fault 12 at 13\n",
        ..ROW
    },
    Row {
        input: b"REC-SPEC A SORTS S T CONS a : -> S b : -> T f : S -> S EVAL f(b) END-SPEC",
        status: 3,
        out: b"",
        err: b"fault 8 at 62\n",
        ..ROW
    },
    Row {
        input: b"REC-SPEC A END-SPEC REC-SPEC A END-SPEC",
        status: 3,
        out: b"",
        err: b"fault 6 at 29\n",
        ..ROW
    },
    Row {
        input: b"REC-SPEC A SORTS S CONS a : -> S END-SPEC REC-SPEC B SORTS S CONS a : -> S END-SPEC REC-SPEC C : A B EVAL a END-SPEC",
        status: 3,
        out: b"",
        err: b"fault 6 at 99\n",
        ..ROW
    },
    // Words of the command line, whatever the input.
    Row {
        words: &["rewrite", "--workers", "0"],
        status: 2,
        out: b"",
        err: USAGE,
        ..ROW
    },
    Row {
        words: &["rewrite", "--fuel", "1000000001"],
        status: 2,
        out: b"",
        err: USAGE,
        ..ROW
    },
    Row {
        words: &[],
        status: 2,
        out: b"",
        err: USAGE,
        ..ROW
    },
    Row {
        words: &["--help"],
        status: 2,
        out: b"",
        err: USAGE,
        failing_reads: &[1],
        ..ROW
    },
    Row {
        words: &["rewrite", "--workers", "17"],
        status: 2,
        out: b"",
        err: USAGE,
        ..ROW
    },
    Row {
        words: &["drill"],
        status: 2,
        out: b"",
        err: USAGE,
        ..ROW
    },
    Row {
        words: &["drill", "0"],
        status: 2,
        out: b"",
        err: USAGE,
        ..ROW
    },
    Row {
        words: &["drill", "65536"],
        status: 2,
        out: b"",
        err: USAGE,
        ..ROW
    },
    Row {
        words: &["drill", "1", "--workers=17"],
        status: 2,
        out: b"",
        err: USAGE,
        ..ROW
    },
];

#[test]
fn each_refusal_has_its_line(rt: HostRuntime) -> Result<(), Fail> {
    check_all(&rt, &REFUSALS)
}

static SCHEDULES: [Row; 8] = [
    Row {
        words: &["schedule"],
        input: b"",
        out: b"seat 0 out busy 0 forbidden 0 free\nseat 1 out busy 0 forbidden 0 free\nmutex free\n",
        terms: 0,
        ..ROW
    },
    Row {
        words: &["schedule"],
        input: b"0 raise\n0 look\n1 take\n1 ask 0\n1 peek 0\n",
        out: b"seat 0 shared busy 1 forbidden 1 seen\nseat 1 holder busy 0 forbidden 0 free\nmutex 1\n",
        terms: 0,
        ..ROW
    },
    Row {
        words: &["schedule"],
        input: b"0 raise\n0 look\n1 take\n1 ask 0\n1 peek 0\n1 give\n",
        status: 3,
        out: b"",
        err: b"fault 16 at 6\n",
        ..ROW
    },
    Row {
        words: &["schedule"],
        input: b"1 take\n1 ask 0\n1 peek 0\n0 raise\n0 look",
        out: b"seat 0 blocked busy 1 forbidden 1 held\nseat 1 holder busy 0 forbidden 0 free\nmutex 1\n",
        terms: 0,
        ..ROW
    },
    Row {
        words: &["schedule"],
        input: b"1 take\n0 take\n",
        out: b"seat 0 out busy 0 forbidden 0 free\nseat 1 holder busy 0 forbidden 0 free\nmutex 1\n",
        terms: 0,
        ..ROW
    },
    Row {
        words: &["schedule"],
        input: b"0 look\n",
        status: 3,
        out: b"",
        err: b"fault 16 at 1\n",
        ..ROW
    },
    Row {
        words: &["schedule"],
        input: b"2 raise\n",
        status: 3,
        out: b"",
        err: b"fault 15 at 1\n",
        ..ROW
    },
    Row {
        words: &["schedule", "--seats", "1"],
        input: b"",
        out: b"seat 0 out busy 0 forbidden 0 free\nmutex free\n",
        terms: 0,
        ..ROW
    },
];

#[test]
fn each_schedule_comes_to_its_lock(rt: HostRuntime) -> Result<(), Fail> {
    check_all(&rt, &SCHEDULES)
}

static ENDS: [Row; 13] = [
    // A read fails.
    Row {
        read_most: 10,
        failing_reads: &[2],
        status: 5,
        out: b"",
        err: b"read fault\n",
        ..ROW
    },
    Row {
        input: PAIR,
        read_most: 10,
        failing_reads: &[2],
        status: 5,
        out: b"",
        err: b"read fault\n",
        ..ROW
    },
    // A write fails.
    Row {
        write_most: 3,
        failing_writes: &[1],
        status: 6,
        out: b"",
        err: b"write fault\n",
        ..ROW
    },
    Row {
        write_most: 3,
        failing_writes: &[2],
        status: 6,
        out: b"s(s",
        err: b"write fault\n",
        ..ROW
    },
    Row {
        write_most: 3,
        failing_writes: &[3],
        status: 6,
        out: b"s(s(z)",
        err: b"write fault\n",
        ..ROW
    },
    Row {
        input: PAIR,
        write_most: 3,
        failing_writes: &[2],
        status: 6,
        out: b"f(a",
        err: b"write fault\n",
        ..ROW
    },
    // The ends are slow.
    Row {
        read_most: 1,
        write_most: 1,
        ..ROW
    },
    // A fault of the error output changes nothing else.
    Row {
        input: b"REC-SPEC A EVAL q END-SPEC",
        failing_lines: &[1],
        status: 3,
        out: b"",
        err: b"",
        ..ROW
    },
    Row {
        input: b"REC-SPEC A EVAL q END-SPEC",
        failing_lines: &[2],
        status: 3,
        out: b"",
        err: b"fault 5",
        ..ROW
    },
    Row {
        failing_reads: &[1],
        failing_lines: &[1],
        status: 5,
        out: b"",
        err: b"",
        ..ROW
    },
    Row {
        failing_writes: &[1],
        failing_lines: &[1],
        status: 6,
        out: b"",
        err: b"",
        ..ROW
    },
    Row {
        words: &["rewrite", "--rows", "2"],
        failing_lines: &[1],
        status: 4,
        out: b"",
        err: b"",
        ..ROW
    },
    Row {
        failing_lines: &[1],
        ..ROW
    },
];

#[test]
fn each_end_that_fails_gives_its_status(rt: HostRuntime) -> Result<(), Fail> {
    check_all(&rt, &ENDS)
}

/// A function that doesn't look at its argument, over a constant that has no value.
const LOOP: &[u8] =
    b"REC-SPEC C SORTS S CONS a l : -> S OPNS f : S -> S VARS X : S RULES f(X) -> a l -> l EVAL f(l) END-SPEC";

static OUTERMOST: [Row; 14] = [
    // The argument isn't looked at.
    Row {
        words: &["outermost"],
        input: LOOP,
        out: b"a\n",
        ..ROW
    },
    // Room: the argument is built in one less.
    Row {
        words: &["outermost", "--depth", "2"],
        input: LOOP,
        out: b"a\n",
        ..ROW
    },
    Row {
        words: &["outermost", "--depth", "1"],
        input: LOOP,
        status: 1,
        out: b"too deep\n",
        ..ROW
    },
    // Fuel: a unit a step.
    Row {
        words: &["outermost", "--fuel", "2"],
        ..ROW
    },
    Row {
        words: &["outermost", "--fuel=1"],
        status: 1,
        out: b"out of fuel\n",
        ..ROW
    },
    Row {
        words: &["outermost", "--sizes"],
        out: b"distinct 3 nodes 3\n",
        ..ROW
    },
    // Rows: l, f(l) and a are built.
    Row {
        words: &["outermost", "--rows", "3"],
        input: LOOP,
        out: b"a\n",
        ..ROW
    },
    Row {
        words: &["outermost", "--rows", "1"],
        input: LOOP,
        status: 4,
        out: b"",
        err: b"store full\n",
        ..ROW
    },
    // Several workers.
    Row {
        words: &["outermost", "--workers", "3"],
        input: FOUR_SUMS,
        out: b"s(s(z))\ns(s(z))\ns(s(z))\ns(s(z))\n",
        terms: 4,
        workers: 3,
        ..ROW
    },
    // Conditions are refused, those of included rules too, and after all other faults.
    Row {
        words: &["outermost"],
        input: b"REC-SPEC C SORTS S CONS a b c : -> S OPNS f : S -> S VARS X : S RULES f(X) -> a if f(X) = b EVAL f(c) END-SPEC",
        status: 3,
        out: b"",
        err: b"fault 19 at 80\n",
        ..ROW
    },
    Row {
        words: &["outermost"],
        input: b"REC-SPEC A SORTS S CONS a b : -> S OPNS f : S -> S VARS X : S RULES f(X) -> a if X = b END-SPEC REC-SPEC B : A EVAL f(f(a)) END-SPEC",
        status: 3,
        out: b"",
        err: b"fault 19 at 78\n",
        ..ROW
    },
    Row {
        words: &["outermost"],
        input: b"REC-SPEC A SORTS S CONS a b : -> S OPNS f : S -> S VARS X : S RULES f(X) -> a if X = b END-SPEC REC-SPEC B SORTS S CONS c : -> S EVAL c END-SPEC",
        out: b"c\n",
        ..ROW
    },
    Row {
        words: &["outermost"],
        input: b"REC-SPEC A SORTS S CONS a b : -> S OPNS f : S -> S VARS X : S RULES f(X) -> a if X = b EVAL q END-SPEC",
        status: 3,
        out: b"",
        err: b"fault 5 at 92\n",
        ..ROW
    },
    Row {
        words: &["outermost", "--cache", "1"],
        status: 2,
        out: b"",
        err: USAGE,
        ..ROW
    },
];

#[test]
fn each_term_is_rewritten_from_outside(rt: HostRuntime) -> Result<(), Fail> {
    check_all(&rt, &OUTERMOST)
}
