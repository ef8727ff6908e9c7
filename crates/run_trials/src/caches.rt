// Runs with a memory of results.
use crate::logs::written;
use crate::trial::{FOUR_SUMS, ROW, Row, check_all};
use std::test::Fail;

static REMEMBERED: [Row; 4] = [
    Row {
        words: &["rewrite", "--fuel", "2", "--cache", "16"],
        ..ROW
    },
    Row {
        words: &["rewrite", "--fuel", "1", "--cache", "16"],
        status: 1,
        out: b"out of fuel\n",
        ..ROW
    },
    Row {
        words: &["rewrite", "--cache=16", "--depth", "6"],
        ..ROW
    },
    Row {
        words: &["rewrite", "--cache=16", "--depth", "5"],
        status: 1,
        out: b"too deep\n",
        ..ROW
    },
];

#[test]
fn a_memory_changes_no_line(rt: HostRuntime) -> Result<(), Fail> {
    check_all(&rt, &REMEMBERED)
}

// How many lines of a text begin so.
fn lines_with(text: &[u8], beginning: &[u8]) -> usize {
    text.split(|byte| *byte == b'\n')
        .filter(|line| line.starts_with(beginning))
        .count()
}

#[test]
fn a_worker_builds_less_of_a_sum_that_it_remembers(rt: HostRuntime) -> Result<(), Fail> {
    let words = ["rewrite", "--workers", "1", "--log"];
    let whole = written(&rt, &words, FOUR_SUMS, 0)?;
    assert_eq!(rt; lines_with(whole.taken(), b"# make "), 5);
    assert_eq!(rt; lines_with(whole.taken(), b"# find "), 23);
    let words = ["rewrite", "--workers", "1", "--cache", "16", "--log"];
    let cached = written(&rt, &words, FOUR_SUMS, 0)?;
    assert_eq!(rt; lines_with(cached.taken(), b"# make "), 5);
    assert_eq!(rt; lines_with(cached.taken(), b"# find "), 17);
    Ok(())
}
