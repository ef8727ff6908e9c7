use crate::trial::{ROW, Row, USAGE, check_all};
use std::test::Fail;

/// Term text under `terms`.
const TERMS: Row = Row {
    words: &["terms"],
    input: b"f(a, \"b c\")  f(a,a)",
    terms: 0,
    ..ROW
};

static TOLD: [Row; 8] = [
    Row {
        out: b"f(a,\"b c\")\nf(a,a)\ndistinct 4 nodes 6\n",
        ..TERMS
    },
    // As many rows as different subterms, and one fewer.
    Row {
        words: &["terms", "--rows", "4"],
        out: b"f(a,\"b c\")\nf(a,a)\ndistinct 4 nodes 6\n",
        ..TERMS
    },
    Row {
        words: &["terms", "--rows", "3"],
        status: 4,
        out: b"",
        err: b"store full\n",
        ..TERMS
    },
    Row {
        input: b"",
        out: b"distinct 0 nodes 0\n",
        ..TERMS
    },
    // A name is plain where it can be.
    Row {
        input: b"\"f\"(a) \"1\"",
        out: b"f(a)\n\"1\"\ndistinct 3 nodes 3\n",
        ..TERMS
    },
    // Integers and lists.
    Row {
        input: b"[1,f(2)] [] [[],1]",
        out: b"[1,f(2)]\n[]\n[[],1]\ndistinct 8 nodes 12\n",
        ..TERMS
    },
    // Ends that fail.
    Row {
        read_most: 10,
        failing_reads: &[2],
        status: 5,
        out: b"",
        err: b"read fault\n",
        ..TERMS
    },
    Row {
        write_most: 3,
        failing_writes: &[2],
        status: 6,
        out: b"f(a",
        err: b"write fault\n",
        ..TERMS
    },
];

#[test]
fn terms_are_told_in_canonical_form(rt: HostRuntime) -> Result<(), Fail> {
    check_all(&rt, &TOLD)
}

/// An input that is refused.
const REFUSED: Row = Row {
    words: &["terms"],
    status: 3,
    out: b"",
    terms: 0,
    ..ROW
};

static REFUSALS: [Row; 11] = [
    Row {
        input: b"f(a",
        err: b"fault 3 at 3\n",
        ..REFUSED
    },
    Row {
        input: b"f()",
        err: b"fault 2 at 2\n",
        ..REFUSED
    },
    Row {
        input: b"a\"",
        err: b"fault 3 at 2\n",
        ..REFUSED
    },
    Row {
        input: b"\"\\x\"",
        err: b"fault 1 at 2\n",
        ..REFUSED
    },
    Row {
        input: b"01",
        err: b"fault 17 at 0\n",
        ..REFUSED
    },
    Row {
        input: b"18446744073709551616",
        err: b"fault 17 at 0\n",
        ..REFUSED
    },
    Row {
        input: b"[1,",
        err: b"fault 3 at 3\n",
        ..REFUSED
    },
    Row {
        input: b"[,]",
        err: b"fault 2 at 1\n",
        ..REFUSED
    },
    // `pack` refuses the same.
    Row {
        words: &["pack"],
        input: b"f(a",
        err: b"fault 3 at 3\n",
        ..REFUSED
    },
    // The sizes are always told, and no option asks for them.
    Row {
        words: &["terms", "--sizes"],
        status: 2,
        err: USAGE,
        ..REFUSED
    },
    Row {
        words: &["unpack", "--rows", "3"],
        status: 2,
        err: USAGE,
        ..REFUSED
    },
];

#[test]
fn other_texts_are_refused(rt: HostRuntime) -> Result<(), Fail> {
    check_all(&rt, &REFUSALS)
}

/// f(a,a): the magic; two symbols, a of no arguments and f of two; two records, a, and f over
/// records 0 and 0; one root, record 1. By offsets: 8 the count of the symbols, 12 and 15 the
/// symbols, 18 the count of the records, 22 and 27 the records, 40 the count of the roots, 44 the
/// root.
pub(crate) const PAIR_FILE: &[u8] =
    b"RECTERM1\0\0\0\x02\x01a\0\x01f\x02\0\0\0\x02\0\0\0\0\0\0\0\0\0\x01\0\0\0\0\0\0\0\0\0\0\0\x01\0\0\0\x01";

/// The same without its last byte, and with another last byte.
const CUT_FILE: &[u8] =
    b"RECTERM1\0\0\0\x02\x01a\0\x01f\x02\0\0\0\x02\0\0\0\0\0\0\0\0\0\x01\0\0\0\0\0\0\0\0\0\0\0\x01\0\0\0";

const BAD_FILE: &[u8] =
    b"RECTERM1\0\0\0\x02\x01a\0\x01f\x02\0\0\0\x02\0\0\0\0\0\0\0\0\0\x01\0\0\0\0\0\0\0\0\0\0\0\x01\0\0\0\0";

static FILES: [Row; 8] = [
    Row {
        words: &["pack"],
        input: b"f(a,a)",
        out: PAIR_FILE,
        ..TERMS
    },
    // As many rows as different subterms, and one fewer.
    Row {
        words: &["pack", "--rows=2"],
        input: b" f ( a,a )",
        out: PAIR_FILE,
        ..TERMS
    },
    Row {
        words: &["pack", "--rows=1"],
        input: b"f(a,a)",
        status: 4,
        out: b"",
        err: b"store full\n",
        ..TERMS
    },
    Row {
        words: &["pack"],
        input: b"",
        out: b"RECTERM1\0\0\0\0\0\0\0\0\0\0\0\0",
        ..TERMS
    },
    Row {
        words: &["unpack"],
        input: PAIR_FILE,
        out: b"f(a,a)\n",
        ..TERMS
    },
    Row {
        words: &["unpack"],
        input: CUT_FILE,
        err: b"fault 3 at 47\n",
        ..REFUSED
    },
    Row {
        words: &["unpack"],
        input: BAD_FILE,
        err: b"fault 18 at 48\n",
        ..REFUSED
    },
    Row {
        words: &["unpack"],
        input: b"RECTERM1\0\0\0\0\0\0\0\0\0\0\0\0",
        out: b"",
        ..TERMS
    },
];

#[test]
fn terms_are_packed_and_unpacked(rt: HostRuntime) -> Result<(), Fail> {
    check_all(&rt, &FILES)
}
