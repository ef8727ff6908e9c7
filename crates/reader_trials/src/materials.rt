//! The materials of specifications.

use rec_includes::material_of;
use rec_reader::{syntax, tokens};
use std::alloc::Global;
use std::test::Fail;

fn material(alloc: Global, text: &[u8], number: usize) -> Result<Vec<usize>, Fail> {
    let syntax = syntax(alloc, &tokens(alloc, text)?)?;
    Ok(material_of(alloc, &syntax, number)?)
}

// Inputs, the number of a specification, and its material.
static MATERIALS: [(&[u8], usize, &[usize]); 8] = [
    (b"REC-SPEC A END-SPEC", 0, &[0]),
    // no such specification
    (b"REC-SPEC A END-SPEC", 1, &[]),
    // what several include is there once, in the order of its first mention
    (
        b"REC-SPEC A END-SPEC REC-SPEC B : A END-SPEC REC-SPEC C : A END-SPEC REC-SPEC D : C B END-SPEC",
        3,
        &[0, 2, 1, 3],
    ),
    (
        b"REC-SPEC A END-SPEC REC-SPEC B END-SPEC REC-SPEC C : B END-SPEC REC-SPEC D : A B A C END-SPEC",
        3,
        &[0, 1, 2, 3],
    ),
    // a chain
    (
        b"REC-SPEC A END-SPEC REC-SPEC B : A END-SPEC REC-SPEC C : B END-SPEC REC-SPEC D : C END-SPEC",
        2,
        &[0, 1, 2],
    ),
    // the first of a name counts
    (
        b"REC-SPEC A END-SPEC REC-SPEC B END-SPEC REC-SPEC A : B END-SPEC REC-SPEC D : A END-SPEC",
        3,
        &[0, 3],
    ),
    // neither a name that no header has nor one that only a later header has brings anything
    (
        b"REC-SPEC A : C B END-SPEC REC-SPEC B : B A END-SPEC",
        0,
        &[0],
    ),
    (
        b"REC-SPEC A : C B END-SPEC REC-SPEC B : B A END-SPEC",
        1,
        &[0, 1],
    ),
];

#[test]
fn specifications_have_their_materials(rt: HostRuntime) -> Result<(), Fail> {
    for (text, number, numbers) in MATERIALS {
        assert_eq!(rt;
            material(rt.alloc(), text, number)?.as_slice(),
            numbers,
            "at {text:?}"
        );
    }
    Ok(())
}
