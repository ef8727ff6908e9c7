//! The order in which specifications are checked.

use rec_includes::{header_names, order};
use rec_reader::{syntax, tokens};
use std::test::Fail;

#[test]
fn specifications_follow_the_first_that_each_includes(rt: HostRuntime) -> Result<(), Fail> {
    let text =
        b"REC-SPEC A END-SPEC REC-SPEC B : A END-SPEC REC-SPEC C : X B A END-SPEC REC-SPEC D : A END-SPEC REC-SPEC E : C D END-SPEC REC-SPEC A : D END-SPEC REC-SPEC F : F END-SPEC REC-SPEC G : A END-SPEC";
    let syntax = syntax(rt.alloc(), &tokens(rt.alloc(), text)?)?;
    let headers = header_names(rt.alloc(), syntax.text(), syntax.as_slice())?;
    let order = order(rt.alloc(), &headers, syntax.as_slice())?;
    assert_eq!(rt; order.as_slice(), &[6, 0, 7, 3, 5, 1, 2, 4][..]);
    Ok(())
}
