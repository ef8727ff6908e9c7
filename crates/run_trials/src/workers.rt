// Runs with several workers, and drills.
use crate::trial::{FOUR_SUMS, ROW, Row, check};
use std::alloc::Global;
use std::process::Abort;
use std::sync::Wait;
use std::test::Fail;
use std::thread::Threads;

const CONSTANTS: &[u8] = b"REC-SPEC C SORTS S CONS a b c d e : -> S EVAL a b c d e END-SPEC";

// Words for one, two, four and sixteen workers.
type Numbers = [(&'static [&'static str], u32); 4];

const REWRITES: Numbers = [
    (&["rewrite"], 1),
    (&["rewrite", "--workers", "2"], 2),
    (&["rewrite", "--workers=4"], 4),
    (&["rewrite", "--workers", "16"], 16),
];

// Words, and how many workers they ask for.
type Asked = (&'static [&'static str], u32);

const TOO_FEW_ROWS: [Asked; 6] = [
    (&["rewrite", "--rows", "1"], 1),
    (&["rewrite", "--rows", "1", "--workers", "2"], 2),
    (&["rewrite", "--workers", "16", "--rows", "1"], 16),
    (&["rewrite", "--rows", "2"], 1),
    (&["rewrite", "--rows", "2", "--workers", "2"], 2),
    (&["rewrite", "--rows", "2", "--workers", "16"], 16),
];

const ROWS_FOR_ONE_WORKER: [Asked; 2] = [
    (&["rewrite", "--rows", "3"], 1),
    (&["rewrite", "--rows", "4"], 1),
];

const JUST_ENOUGH_ROWS: [Asked; 6] = [
    (&["rewrite", "--rows", "5"], 1),
    (&["rewrite", "--rows", "5", "--workers", "2"], 2),
    (&["rewrite", "--workers", "16", "--rows", "5"], 16),
    (&["rewrite", "--rows", "6"], 1),
    (&["rewrite", "--rows", "6", "--workers", "2"], 2),
    (&["rewrite", "--rows", "6", "--workers", "16"], 16),
];

const SOME_MORE_ROWS: [Asked; 6] = [
    (&["rewrite", "--rows", "7"], 1),
    (&["rewrite", "--rows", "7", "--workers", "2"], 2),
    (&["rewrite", "--workers", "16", "--rows", "7"], 16),
    (&["rewrite", "--rows", "8"], 1),
    (&["rewrite", "--rows", "8", "--workers", "2"], 2),
    (&["rewrite", "--rows", "8", "--workers", "16"], 16),
];

const ROWS_FOR_CONSTANTS: [Asked; 3] = [
    (&["rewrite", "--rows", "1"], 1),
    (&["rewrite", "--rows", "2", "--workers", "2"], 2),
    (&["rewrite", "--rows", "5", "--workers", "16"], 16),
];

#[test]
fn the_lines_are_the_same_for_any_number_of_workers(rt: HostRuntime) -> Result<(), Fail> {
    for (words, workers) in REWRITES {
        let row = Row {
            words,
            workers,
            input: FOUR_SUMS,
            out: b"s(s(z))\ns(s(z))\ns(s(z))\ns(s(z))\n",
            terms: 4,
            ..ROW
        };
        check(&rt, workers as usize, &row)?;
    }
    Ok(())
}

// What the four sums come to on a store that has rows enough.
const FOUR_LINES: Row = Row {
    input: FOUR_SUMS,
    out: b"s(s(z))\ns(s(z))\ns(s(z))\ns(s(z))\n",
    terms: 4,
    ..ROW
};

// Runs a row with each of these words.
fn check_each<R: Abort + Alloc<A = Global> + Threads + Wait + Sync>(
    rt: &R,
    asked: &[Asked],
    row: &Row,
) -> Result<(), Fail> {
    for (number, (words, workers)) in asked.iter().enumerate() {
        let row = Row {
            words: *words,
            workers: *workers,
            ..*row
        };
        check(rt, number, &row)?;
    }
    Ok(())
}

// Each sum has three trees in hand at once, so two rows suffice for no worker.
#[test]
fn too_few_rows_are_told_for_any_number_of_workers(rt: HostRuntime) -> Result<(), Fail> {
    let full = Row {
        input: FOUR_SUMS,
        status: 4,
        err: b"store full\n",
        out: b"",
        ..ROW
    };
    check_each(&rt, &TOO_FEW_ROWS, &full)
}

// With three or four rows several workers may end at status 4 or not, as they happen to meet.
#[test]
fn what_one_term_needs_suffices_for_one_worker(rt: HostRuntime) -> Result<(), Fail> {
    check_each(&rt, &ROWS_FOR_ONE_WORKER, &FOUR_LINES)
}

// The sums build five different trees: z, s(z), plus(s(z),s(z)), plus(s(z),z) and s(s(z)).
#[test]
fn rows_for_all_that_is_built_suffice_for_any_number_of_workers(
    rt: HostRuntime,
) -> Result<(), Fail> {
    check_each(&rt, &JUST_ENOUGH_ROWS, &FOUR_LINES)?;
    check_each(&rt, &SOME_MORE_ROWS, &FOUR_LINES)
}

// A constant needs one row, so as many rows as workers suffice, or five.
#[test]
fn as_many_rows_as_workers_suffice_for_constants(rt: HostRuntime) -> Result<(), Fail> {
    let names = Row {
        input: CONSTANTS,
        out: b"a\nb\nc\nd\ne\n",
        terms: 5,
        ..ROW
    };
    check_each(&rt, &ROWS_FOR_CONSTANTS, &names)
}

#[test]
fn a_line_without_a_value_gives_status_1_for_any_number_of_workers(
    rt: HostRuntime,
) -> Result<(), Fail> {
    let row = Row {
        words: &["rewrite", "--workers", "4", "--depth", "5"],
        workers: 4,
        input: FOUR_SUMS,
        status: 1,
        out: b"too deep\ntoo deep\ntoo deep\ntoo deep\n",
        terms: 4,
        ..ROW
    };
    check(&rt, 0, &row)
}

#[test]
fn more_workers_than_terms_do_no_harm(rt: HostRuntime) -> Result<(), Fail> {
    let one = Row {
        words: &["rewrite", "--workers", "16"],
        workers: 16,
        ..ROW
    };
    check(&rt, 0, &one)?;
    let none = Row {
        words: &["rewrite", "--workers", "16"],
        workers: 16,
        input: b"REC-SPEC A END-SPEC",
        out: b"",
        terms: 0,
        ..ROW
    };
    check(&rt, 1, &none)
}

#[test]
fn a_write_that_fails_after_all_workers_are_done_gives_status_6(
    rt: HostRuntime,
) -> Result<(), Fail> {
    let row = Row {
        words: &["rewrite", "--workers", "2"],
        workers: 2,
        input: FOUR_SUMS,
        write_most: 3,
        failing_writes: &[4],
        status: 6,
        out: b"s(s(z))\ns",
        err: b"write fault\n",
        terms: 4,
        ..ROW
    };
    check(&rt, 0, &row)
}

// A drill of so many terms, with its words for one, two, four and sixteen workers.
#[derive(Clone, Copy)]
struct Drilled {
    terms: usize,
    words: Numbers,
    out: &'static [u8],
}

// The terms take 6, 73 and 89 units of fuel.
const DRILLS: [Drilled; 3] = [
    Drilled {
        terms: 1,
        words: [
            (&["drill", "1"], 1),
            (&["drill", "1", "--workers", "2"], 2),
            (&["drill", "--workers", "4", "1"], 4),
            (&["drill", "1", "--workers=16"], 16),
        ],
        out: b"terms 1\nvalues 1\nspent 6\n",
    },
    Drilled {
        terms: 2,
        words: [
            (&["drill", "2"], 1),
            (&["drill", "2", "--workers", "2"], 2),
            (&["drill", "--workers", "4", "2"], 4),
            (&["drill", "2", "--workers=16"], 16),
        ],
        out: b"terms 2\nvalues 2\nspent 79\n",
    },
    Drilled {
        terms: 3,
        words: [
            (&["drill", "3"], 1),
            (&["drill", "3", "--workers", "2"], 2),
            (&["drill", "--workers", "4", "3"], 4),
            (&["drill", "3", "--workers=16"], 16),
        ],
        out: b"terms 3\nvalues 3\nspent 168\n",
    },
];

#[test]
fn a_drill_counts_terms_values_and_fuel(rt: HostRuntime) -> Result<(), Fail> {
    for drill in DRILLS {
        for (words, workers) in drill.words {
            let row = Row {
                words,
                workers,
                out: drill.out,
                terms: drill.terms,
                ..ROW
            };
            check(&rt, drill.terms, &row)?;
        }
    }
    Ok(())
}

// Of 72 units the first term takes 6, and the second would take 73.
#[test]
fn a_drill_with_too_little_fuel_counts_the_values_alone(rt: HostRuntime) -> Result<(), Fail> {
    let row = Row {
        words: &["drill", "2", "--fuel", "72"],
        status: 1,
        out: b"terms 2\nvalues 1\nspent 6\n",
        terms: 2,
        ..ROW
    };
    check(&rt, 0, &row)
}

#[test]
fn a_drill_with_too_few_rows_is_told_as_full(rt: HostRuntime) -> Result<(), Fail> {
    let row = Row {
        words: &["drill", "1", "--rows", "2"],
        status: 4,
        out: b"",
        err: b"store full\n",
        ..ROW
    };
    check(&rt, 0, &row)
}

#[test]
fn a_drill_reads_nothing(rt: HostRuntime) -> Result<(), Fail> {
    let row = Row {
        words: &["drill", "1"],
        input: b"no specification",
        failing_reads: &[1],
        out: b"terms 1\nvalues 1\nspent 6\n",
        ..ROW
    };
    check(&rt, 0, &row)
}
