//! Texts written out by hand, and a large one by its length.
use rec_drill::drill_text;
use std::test::Fail;

#[test]
fn one_and_two_terms_have_their_texts(rt: HostRuntime) -> Result<(), Fail> {
    let one = drill_text(rt.alloc(), 1)?;
    let want_one: &[u8] =
        b"REC-SPEC DRILL\nSORTS Nat\nCONS z : -> Nat\ns : Nat -> Nat\nOPNS plus mult : Nat Nat -> Nat\nVARS X Y : Nat\nRULES\nplus(X,z) -> X\nplus(X,s(Y)) -> s(plus(X,Y))\nmult(X,z) -> z\nmult(X,s(Y)) -> plus(mult(X,Y),X)\nEVAL\nmult(s(s(s(z))),s(z))\nEND-SPEC\n";
    assert_eq!(rt; one.as_slice(), want_one);
    let two = drill_text(rt.alloc(), 2)?;
    let want_two: &[u8] =
        b"REC-SPEC DRILL\nSORTS Nat\nCONS z : -> Nat\ns : Nat -> Nat\nOPNS plus mult : Nat Nat -> Nat\nVARS X Y : Nat\nRULES\nplus(X,z) -> X\nplus(X,s(Y)) -> s(plus(X,Y))\nmult(X,z) -> z\nmult(X,s(Y)) -> plus(mult(X,Y),X)\nEVAL\nmult(s(s(s(z))),s(z))\nmult(s(s(s(s(s(s(s(s(s(s(z)))))))))),s(s(s(s(s(s(z)))))))\nEND-SPEC\n";
    assert_eq!(rt; two.as_slice(), want_two);
    Ok(())
}

// 216 bytes stand round the terms. A term has 10 bytes and three for each `s(`. Of 65,535 terms the
// first numbers come to 5957 * 55 + 44 = 327,679, and the second to 5041 * 78 + 7 = 393,205.
#[test]
fn many_terms_have_the_length_worked_out(rt: HostRuntime) -> Result<(), Fail> {
    assert_eq!(rt; drill_text(rt.alloc(), 0)?.len(), 216);
    assert_eq!(rt; drill_text(rt.alloc(), 65_535)?.len(), 2_818_218);
    Ok(())
}
