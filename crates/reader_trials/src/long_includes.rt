//! Many specifications that include others, and their faults.

use crate::offences::fault_of;
use std::test::Fail;

/// How many specifications there are.
const COUNT: u32 = 20_000;

/// Which of the specifications before it each includes.
#[derive(Clone, Copy, Debug)]
enum Shape {
    /// The one before.
    Chain,
    /// The one before the one before.
    TwoChains,
    /// The one with half its number.
    Tree,
}

/// The specification that the one with this number includes, if any.
fn included(shape: Shape, number: u32) -> Option<u32> {
    match shape {
        Shape::Chain => number.checked_sub(1),
        Shape::TwoChains => number.checked_sub(2),
        Shape::Tree if number == 0 => None,
        Shape::Tree => Some(number / 2),
    }
}

/// Adds a word, and a number in four letters.
fn add(text: &mut Vec<u8>, word: &[u8], number: u32) -> Result<(), Fail> {
    text.extend_from_slice(word)?;
    for place in [1, 26, 676, 17_576] {
        text.push(b'a' + (number / place % 26) as u8)?;
    }
    Ok(())
}

/// Adds a specification with a symbol of its own, or with a sort and a symbol where it includes
/// none.
fn add_specification(text: &mut Vec<u8>, shape: Shape, number: u32) -> Result<(), Fail> {
    add(text, b"REC-SPEC S", number)?;
    match included(shape, number) {
        Some(other) => add(text, b" : S", other)?,
        None => text.extend_from_slice(b" SORTS s")?,
    }
    add(text, b" CONS c", number)?;
    add(text, b" : -> s EVAL c", number % 2)?;
    text.extend_from_slice(b" END-SPEC\n")?;
    Ok(())
}

// A shape, the number of a symbol that the last specification's material has, and of one that it
// hasn't.
static SHAPES: [(Shape, u32, u32); 3] = [
    (Shape::Chain, 0, COUNT),
    (Shape::TwoChains, 1, 0),
    (Shape::Tree, 4_999, 5_000),
];

#[test]
fn names_are_found_along_the_includes(rt: HostRuntime) -> Result<(), Fail> {
    for (shape, known, unknown) in SHAPES {
        let mut text = Vec::new(rt.alloc());
        for number in 0..COUNT {
            add_specification(&mut text, shape, number)?;
        }
        add(&mut text, b"REC-SPEC Z : S", COUNT - 1)?;
        add(&mut text, b" EVAL c", known)?;
        text.push(b' ')?;
        let place = text.len() as u64;
        let mut faulty = text.clone()?;
        add(&mut faulty, b"c", unknown)?;
        text.extend_from_slice(b"END-SPEC")?;
        faulty.extend_from_slice(b" END-SPEC")?;
        assert_eq!(rt; fault_of(rt.alloc(), &text)?, (0, 0), "{shape:?}");
        assert_eq!(rt; fault_of(rt.alloc(), &faulty)?, (5, place), "{shape:?}");
    }
    Ok(())
}
