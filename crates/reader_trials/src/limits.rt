//! Inputs at the limits and past them, and their faults.

use crate::offences::fault_of;
use std::alloc::Global;
use std::ops::Range;
use std::test::Fail;

/// The front, so many times the middle, and the back.
fn repeat(
    alloc: Global,
    front: &[u8],
    middle: &[u8],
    count: usize,
    back: &[u8],
) -> Result<Vec<u8>, Fail> {
    let mut text = Vec::from_slice(alloc, front)?;
    for _ in 0..count {
        text.extend_from_slice(middle)?;
    }
    text.extend_from_slice(back)?;
    Ok(text)
}

// A front, a middle with how often it stands, a back, and the kind and the place of the fault, or
// twice 0.
static REPEATED: [(&[u8], &[u8], usize, &[u8], u8, u64); 18] = [
    (b"REC-SPEC ", b"a", 255, b" END-SPEC", 0, 0),
    (b"REC-SPEC ", b"a", 256, b" END-SPEC", 13, 9),
    (
        b"REC-SPEC A SORTS S CONS ",
        b"a",
        255,
        b" : -> S END-SPEC",
        0,
        0,
    ),
    (
        b"REC-SPEC A SORTS S CONS ",
        b"a",
        256,
        b" : -> S END-SPEC",
        13,
        24,
    ),
    // two offences at one place: an unknown name, and an unknown include, that are too long
    (b"REC-SPEC A EVAL ", b"a", 256, b" END-SPEC", 5, 16),
    (b"REC-SPEC A : ", b"a", 256, b" END-SPEC", 12, 13),
    (
        b"REC-SPEC A SORTS S CONS f :",
        b" S",
        16,
        b" -> S END-SPEC",
        0,
        0,
    ),
    (
        b"REC-SPEC A SORTS S CONS f :",
        b" S",
        17,
        b" -> S END-SPEC",
        13,
        60,
    ),
    (
        b"REC-SPEC A SORTS S CONS a : -> S EVAL",
        b" a",
        65_535,
        b" END-SPEC",
        0,
        0,
    ),
    (
        b"REC-SPEC A SORTS S CONS a : -> S EVAL",
        b" a",
        65_536,
        b" END-SPEC",
        13,
        131_108,
    ),
    // terms are counted in each specification
    (
        b"REC-SPEC A SORTS S CONS a : -> S EVAL",
        b" a",
        65_535,
        b" END-SPEC REC-SPEC B : A EVAL a END-SPEC",
        0,
        0,
    ),
    (
        b"REC-SPEC A SORTS S CONS a : -> S RULES",
        b" a -> a",
        65_535,
        b" END-SPEC",
        0,
        0,
    ),
    (
        b"REC-SPEC A SORTS S CONS a : -> S RULES",
        b" a -> a",
        65_536,
        b" END-SPEC",
        13,
        458_784,
    ),
    // included rules are counted first, each once
    (
        b"REC-SPEC A SORTS S CONS a : -> S RULES",
        b" a -> a",
        65_535,
        b" END-SPEC REC-SPEC B : A A EVAL a END-SPEC",
        0,
        0,
    ),
    (
        b"REC-SPEC A SORTS S CONS a : -> S RULES",
        b" a -> a",
        65_534,
        b" END-SPEC REC-SPEC B : A RULES a -> a END-SPEC",
        0,
        0,
    ),
    (
        b"REC-SPEC A SORTS S CONS a : -> S RULES",
        b" a -> a",
        65_535,
        b" END-SPEC REC-SPEC B : A RULES a -> a END-SPEC",
        13,
        458_814,
    ),
    // the entry with which the included rules pass the limit
    (
        b"REC-SPEC A SORTS S CONS a : -> S RULES",
        b" a -> a",
        65_535,
        b" END-SPEC REC-SPEC B SORTS S CONS b : -> S RULES b -> b END-SPEC REC-SPEC C : A B END-SPEC",
        13,
        458_863,
    ),
    (
        b"REC-SPEC A SORTS S CONS a : -> S RULES",
        b" a -> a",
        65_534,
        b" END-SPEC REC-SPEC B SORTS S CONS b : -> S RULES b -> b END-SPEC REC-SPEC C : A B END-SPEC",
        0,
        0,
    ),
];

#[test]
fn limits_are_taken_and_no_more(rt: HostRuntime) -> Result<(), Fail> {
    for (front, middle, count, back, kind, offset) in REPEATED {
        let text = repeat(rt.alloc(), front, middle, count, back)?;
        assert_eq!(rt;
            fault_of(rt.alloc(), &text)?,
            (kind, offset),
            "at {front:?}"
        );
    }
    Ok(())
}

/// Adds the names with these numbers: a space and four letters each.
fn add_names(text: &mut Vec<u8>, numbers: Range<u32>) -> Result<(), Fail> {
    for number in numbers {
        text.push(b' ')?;
        for place in [1, 26, 676, 17_576] {
            text.push(b'a' + (number / place % 26) as u8)?;
        }
    }
    Ok(())
}

/// Fronts of specifications with the numbers of the symbols that each declares.
type Declaring = &'static [(&'static [u8], Range<u32>)];

// Specifications that declare symbols, those that come after them, and the kind and the place of
// the fault, or twice 0.
static SYMBOLS: [(Declaring, &[u8], u8, u64); 8] = [
    (&[(b"REC-SPEC A SORTS S CONS", 0..65_535)], b"", 0, 0),
    (&[(b"REC-SPEC A SORTS S CONS", 0..65_536)], b"", 13, 327_699),
    // included symbols are counted first, each once
    (
        &[
            (b"REC-SPEC A SORTS S CONS", 0..65_534),
            (b"REC-SPEC B : A CONS", 65_534..65_535),
        ],
        b"",
        0,
        0,
    ),
    (
        &[
            (b"REC-SPEC A SORTS S CONS", 0..65_535),
            (b"REC-SPEC B : A CONS", 65_535..65_536),
        ],
        b"",
        13,
        327_735,
    ),
    (
        &[(b"REC-SPEC A SORTS S CONS", 0..65_535)],
        b"REC-SPEC B : A END-SPEC REC-SPEC C : A END-SPEC REC-SPEC D : B C END-SPEC",
        0,
        0,
    ),
    // those of another specification that includes the same one aren't counted
    (
        &[
            (b"REC-SPEC A SORTS S CONS", 0..40_000),
            (b"REC-SPEC B : A CONS", 40_000..65_535),
            (b"REC-SPEC C : A CONS", 40_000..65_535),
        ],
        b"",
        0,
        0,
    ),
    // the entry with which the included symbols pass the limit
    (
        &[
            (b"REC-SPEC A SORTS S CONS", 0..40_000),
            (b"REC-SPEC B SORTS S CONS", 40_000..65_535),
        ],
        b"REC-SPEC C : A B END-SPEC",
        0,
        0,
    ),
    (
        &[
            (b"REC-SPEC A SORTS S CONS", 0..40_000),
            (b"REC-SPEC B SORTS S CONS", 40_000..65_536),
        ],
        b"REC-SPEC C : A B END-SPEC",
        13,
        327_775,
    ),
];

#[test]
fn symbols_are_taken_up_to_the_limit(rt: HostRuntime) -> Result<(), Fail> {
    for (declaring, back, kind, offset) in &SYMBOLS {
        let mut text = Vec::new(rt.alloc());
        for (front, numbers) in *declaring {
            text.extend_from_slice(front)?;
            add_names(&mut text, numbers.start..numbers.end)?;
            text.extend_from_slice(b" : -> S END-SPEC ")?;
        }
        text.extend_from_slice(back)?;
        assert_eq!(rt;
            fault_of(rt.alloc(), &text)?,
            (*kind, *offset),
            "at {back:?}"
        );
    }
    Ok(())
}
