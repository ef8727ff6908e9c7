use crate::trial::{SUM, words_of};
use ends::OpenGate;
use memory_ends::{MemSink, MemSource};
use rec_top::run;
use std::alloc::Global;
use std::process::Abort;
use std::sync::Wait;
use std::test::Fail;
use std::thread::Threads;

/// Runs on an input, and compares the status and both outputs.
pub(crate) fn expect<R: Abort + Alloc<A = Global> + Threads + Wait + Sync>(
    rt: &R,
    words: &[&str],
    input: &[u8],
    status: u8,
    out: &[u8],
    err: &[u8],
) -> Result<(), Fail> {
    let alloc = rt.alloc();
    let words = words_of(alloc, words)?;
    let mut source = MemSource::new(alloc, input, 1_000_000, &[])?;
    let space = out.len().saturating_add(100);
    let mut output = MemSink::new(alloc, space, 1_000_000, &[])?;
    let mut errors = MemSink::new(alloc, 100, 100, &[])?;
    let outcome = run(
        rt,
        alloc,
        &words,
        &mut source,
        &mut output,
        &mut errors,
        &OpenGate,
    );
    assert_eq!(rt; outcome.status, status);
    assert_eq!(rt; output.taken(), out);
    assert_eq!(rt; errors.taken(), err);
    Ok(())
}

/// A symbol so many times round a constant.
pub(crate) fn nested(
    alloc: Global,
    before: &[u8],
    symbol: &[u8],
    times: usize,
    constant: &[u8],
    after: &[u8],
) -> Result<Vec<u8>, Fail> {
    let mut bytes = before.to_vec(alloc)?;
    for _ in 0..times {
        bytes.extend_from_slice(symbol)?;
        bytes.push(b'(')?;
    }
    bytes.extend_from_slice(constant)?;
    for _ in 0..times {
        bytes.push(b')')?;
    }
    bytes.extend_from_slice(after)?;
    Ok(bytes)
}

const BEFORE_CHAIN: &[u8] = b"REC-SPEC A SORTS S CONS a : -> S f : S -> S EVAL ";

const BEFORE_DOUBLES: &[u8] =
    b"REC-SPEC D SORTS S CONS z : -> S p : S S -> S OPNS d : S -> S VARS X : S RULES d(X) -> p(X,X) EVAL ";

const END: &[u8] = b" END-SPEC";

#[test]
fn a_deep_term_is_a_line_or_too_deep(rt: HostRuntime) -> Result<(), Fail> {
    let alloc = rt.alloc();
    let input = nested(alloc, BEFORE_CHAIN, b"f", 5_000, b"a", END)?;
    let line = nested(alloc, b"", b"f", 5_000, b"a", b"\n")?;
    expect(&rt, &["rewrite"], &input, 1, b"too deep\n", b"")?;
    expect(&rt, &["rewrite", "--depth", "5001"], &input, 0, &line, b"")?;
    let deepest = nested(alloc, BEFORE_CHAIN, b"f", 1_000_000, b"a", END)?;
    expect(&rt, &["rewrite"], &deepest, 1, b"too deep\n", b"")
}

#[test]
fn shared_values_are_counted_and_not_walked(rt: HostRuntime) -> Result<(), Fail> {
    let alloc = rt.alloc();
    let nineteen = nested(alloc, BEFORE_DOUBLES, b"d", 19, b"z", END)?;
    let twenty = nested(alloc, BEFORE_DOUBLES, b"d", 20, b"z", END)?;
    let many = nested(alloc, BEFORE_DOUBLES, b"d", 64, b"z", END)?;
    let sizes = ["rewrite", "--sizes"];
    expect(
        &rt,
        &sizes,
        &nineteen,
        0,
        b"distinct 20 nodes 1048575\n",
        b"",
    )?;
    expect(&rt, &["rewrite"], &twenty, 1, b"too large\n", b"")?;
    expect(&rt, &["rewrite"], &many, 1, b"too large\n", b"")?;
    let most = b"distinct 65 nodes 18446744073709551615\n";
    expect(&rt, &sizes, &many, 0, most, b"")
}

/// The text of a constant that was doubled so many times.
pub(crate) fn doubled(alloc: Global, times: usize) -> Result<Vec<u8>, Fail> {
    let mut text = b"z".to_vec(alloc)?;
    for _ in 0..times {
        let mut twice = b"p(".to_vec(alloc)?;
        twice.extend_from_slice(&text)?;
        twice.push(b',')?;
        twice.extend_from_slice(&text)?;
        twice.push(b')')?;
        text = twice;
    }
    Ok(text)
}

#[test]
fn an_output_past_four_mebibytes_is_written_whole(rt: HostRuntime) -> Result<(), Fail> {
    let alloc = rt.alloc();
    let mut input = nested(alloc, BEFORE_DOUBLES, b"d", 19, b"z", b" ")?;
    input.extend_from_slice(&nested(alloc, b"", b"d", 19, b"z", END)?)?;
    let mut lines = doubled(alloc, 19)?;
    lines.push(b'\n')?;
    let second = lines.clone()?;
    lines.extend_from_slice(&second)?;
    assert!(rt; lines.len() > 4 * 1_048_576);
    expect(&rt, &["rewrite"], &input, 0, &lines, b"")
}

#[test]
fn the_longest_input_is_read_and_one_byte_more_is_refused(rt: HostRuntime) -> Result<(), Fail> {
    let alloc = rt.alloc();
    let spaces = vec![in alloc; b' '; 16_777_216]?;
    expect(&rt, &["rewrite"], &spaces, 3, b"", b"fault 3 at 16777216\n")?;
    let more = vec![in alloc; b' '; 16_777_217]?;
    expect(&rt, &["rewrite"], &more, 3, b"", b"fault 14 at 16777216\n")?;
    expect(&rt, &["schedule"], &more, 3, b"", b"fault 14 at 16777216\n")
}

#[test]
fn the_longest_name_is_read_and_one_letter_more_is_refused(rt: HostRuntime) -> Result<(), Fail> {
    let alloc = rt.alloc();
    for (letters, status, err) in [(255, 0, b"".as_slice()), (256, 3, b"fault 13 at 9\n")] {
        let mut input = b"REC-SPEC ".to_vec(alloc)?;
        for _ in 0..letters {
            input.push(b'n')?;
        }
        input.extend_from_slice(END)?;
        expect(&rt, &["rewrite"], &input, status, b"", err)?;
    }
    Ok(())
}

#[test]
fn the_most_terms_are_rewritten_and_one_more_is_refused(rt: HostRuntime) -> Result<(), Fail> {
    let alloc = rt.alloc();
    let mut input = b"REC-SPEC A SORTS S CONS a : -> S EVAL".to_vec(alloc)?;
    let mut lines = Vec::new(alloc);
    for _ in 0..65_535 {
        input.extend_from_slice(b" a")?;
        lines.extend_from_slice(b"a\n")?;
    }
    let mut more = input.clone()?;
    input.extend_from_slice(END)?;
    expect(&rt, &["rewrite"], &input, 0, &lines, b"")?;
    more.extend_from_slice(b" a END-SPEC")?;
    expect(&rt, &["rewrite"], &more, 3, b"", b"fault 13 at 131108\n")
}

#[test]
fn each_front_of_an_input_is_refused(rt: HostRuntime) -> Result<(), Fail> {
    let alloc = rt.alloc();
    let words = words_of(alloc, &["rewrite"])?;
    for length in 0..SUM.len() {
        let mut source = MemSource::new(alloc, &SUM[..length], 1_000, &[])?;
        let mut output = MemSink::new(alloc, 100, 100, &[])?;
        let mut errors = MemSink::new(alloc, 100, 100, &[])?;
        let outcome = run(
            &rt,
            alloc,
            &words,
            &mut source,
            &mut output,
            &mut errors,
            &OpenGate,
        );
        assert_eq!(rt; outcome.status, 3);
        assert_eq!(rt; output.taken().len(), 0);
        let line = errors.taken();
        assert!(rt; line.starts_with(b"fault 2 at ") || line.starts_with(b"fault 3 at "));
    }
    Ok(())
}

#[test]
fn each_read_that_fails_is_told(rt: HostRuntime) -> Result<(), Fail> {
    let alloc = rt.alloc();
    let words = words_of(alloc, &["rewrite"])?;
    // Eighteen reads of ten bytes each, and the one that meets the end.
    for number in 1..20 {
        let mut source = MemSource::new(alloc, SUM, 10, &[number])?;
        let mut output = MemSink::new(alloc, 100, 100, &[])?;
        let mut errors = MemSink::new(alloc, 100, 100, &[])?;
        let outcome = run(
            &rt,
            alloc,
            &words,
            &mut source,
            &mut output,
            &mut errors,
            &OpenGate,
        );
        assert_eq!(rt; outcome.status, 5);
        assert_eq!(rt; errors.taken(), b"read fault\n".as_slice());
        assert!(rt; output.taken().is_empty());
    }
    Ok(())
}

// After 143 terms each of the 11 first numbers has met each of the 13 second ones, so these take
// 143 + 78 * (55 + 22) = 6,149 units of fuel. 65,535 terms are 458 such turns and 41 terms more,
// which take 41 + 2 * 241 + 1,230 = 1,753: their second numbers add up to 241, and their products
// to 1,230.
#[test]
fn the_largest_drill_has_a_value_for_each_term(rt: HostRuntime) -> Result<(), Fail> {
    let counts: &[u8] = b"terms 65535\nvalues 65535\nspent 2817995\n";
    expect(&rt, &["drill", "65535"], b"", 0, counts, b"")?;
    expect(
        &rt,
        &["drill", "65535", "--workers", "4"],
        b"",
        0,
        counts,
        b"",
    )
}
