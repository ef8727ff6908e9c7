//! Inputs of specifications that include others, and their faults.

use crate::offences::fault_of;
use std::alloc::Global;
use std::test::Fail;

/// An input in two parts, and between them the kind of the fault, which is where the second part
/// begins. Where the kind is 0 there is no fault.
type Row = (&'static [u8], u8, &'static [u8]);

/// The fault that a row wants, and the one that its input has.
fn faults_of(alloc: Global, row: Row) -> Result<((u8, u64), (u8, u64)), Fail> {
    let (front, kind, back) = row;
    let mut text = Vec::from_slice(alloc, front)?;
    text.extend_from_slice(back)?;
    let place = if kind == 0 { 0 } else { front.len() as u64 };
    Ok(((kind, place), fault_of(alloc, &text)?))
}

// Chains, in which each specification includes the one before.
static CHAINS: [Row; 18] = [
    // at the end, the names of all of them
    (
        b"REC-SPEC A SORTS S CONS a : -> S END-SPEC REC-SPEC B : A SORTS T CONS b : S -> T END-SPEC REC-SPEC C : B CONS c : S T -> T END-SPEC REC-SPEC D : C VARS X : S RULES c(X, b(a)) -> b(X) EVAL c(a, c(a, b(a))) END-SPEC",
        0,
        b"",
    ),
    // a fault at the end, of each kind that looks at what is included
    (
        b"REC-SPEC A SORTS S CONS a : -> S END-SPEC REC-SPEC B : A SORTS T END-SPEC REC-SPEC C : B CONS b : S -> ",
        4,
        b"U END-SPEC",
    ),
    (
        b"REC-SPEC A SORTS S CONS a : -> S END-SPEC REC-SPEC B : A CONS b : -> S END-SPEC REC-SPEC C : B EVAL a b ",
        5,
        b"c END-SPEC",
    ),
    (
        b"REC-SPEC A SORTS S CONS a : -> S END-SPEC REC-SPEC B : A CONS b : -> S END-SPEC REC-SPEC C : B CONS c ",
        6,
        b"a : -> S END-SPEC",
    ),
    (
        b"REC-SPEC A SORTS S CONS a : -> S END-SPEC REC-SPEC B : A CONS b : -> S END-SPEC REC-SPEC C : B EVAL b ",
        7,
        b"a(b) END-SPEC",
    ),
    (
        b"REC-SPEC A SORTS S T CONS a : -> S f : T -> T END-SPEC REC-SPEC B : A CONS b : -> T END-SPEC REC-SPEC C : B EVAL f(b) f(",
        8,
        b"a) END-SPEC",
    ),
    // a fault at the middle
    (
        b"REC-SPEC A SORTS S CONS a : -> S END-SPEC REC-SPEC B : A EVAL a ",
        5,
        b"c END-SPEC REC-SPEC C : B CONS c : -> S EVAL c END-SPEC",
    ),
    // faults at the middle and at the end: the least place, of whatever kind
    (
        b"REC-SPEC A SORTS S CONS a : -> S END-SPEC REC-SPEC B : A VARS X : S EVAL ",
        11,
        b"X END-SPEC REC-SPEC C : B CONS c : -> T END-SPEC",
    ),
    // a fault at the beginning, where a later one declares the name
    (
        b"REC-SPEC A SORTS S CONS a : -> S EVAL a ",
        5,
        b"b END-SPEC REC-SPEC B : A CONS b : -> S END-SPEC REC-SPEC C : B EVAL b END-SPEC",
    ),
    // a variable isn't included: neither is it declared after, nor is its name taken
    (
        b"REC-SPEC A SORTS S CONS f : S -> S VARS X : S RULES f(X) -> X END-SPEC REC-SPEC B : A RULES f(",
        5,
        b"X) -> X END-SPEC",
    ),
    (
        b"REC-SPEC A SORTS S CONS f : S -> S VARS X : S RULES f(X) -> X END-SPEC REC-SPEC B : A CONS X : -> S RULES X -> f(X) END-SPEC REC-SPEC C : B EVAL f(X) END-SPEC",
        0,
        b"",
    ),
    (
        b"REC-SPEC A SORTS S CONS f : S -> S VARS X : S END-SPEC REC-SPEC B : A VARS Y : S RULES f(Y) -> Y END-SPEC REC-SPEC C : B VARS X : S RULES f(X) -> ",
        5,
        b"Y END-SPEC",
    ),
    // two chains that alternate have the same names for different symbols
    (
        b"REC-SPEC A SORTS S CONS a : -> S END-SPEC REC-SPEC B SORTS T CONS b : -> T a : T -> T END-SPEC REC-SPEC C : A CONS b : S -> S END-SPEC REC-SPEC D : B CONS c : -> T END-SPEC REC-SPEC E : C CONS c : S -> S EVAL c(b(a)) END-SPEC REC-SPEC F : D EVAL a(a(b)) a(c) END-SPEC",
        0,
        b"",
    ),
    // a name, the number of arguments and a sort of the other chain
    (
        b"REC-SPEC A SORTS S CONS a : -> S END-SPEC REC-SPEC B SORTS S CONS b : -> S END-SPEC REC-SPEC C : A CONS c : -> S END-SPEC REC-SPEC D : B EVAL b END-SPEC REC-SPEC E : C EVAL a c END-SPEC REC-SPEC F : D EVAL b ",
        5,
        b"c END-SPEC",
    ),
    (
        b"REC-SPEC A SORTS S CONS a : -> S END-SPEC REC-SPEC B SORTS S CONS b : -> S a : S -> S END-SPEC REC-SPEC C : A EVAL a END-SPEC REC-SPEC D : B EVAL a(b) END-SPEC REC-SPEC E : C EVAL ",
        7,
        b"a(a) END-SPEC REC-SPEC F : D EVAL a END-SPEC",
    ),
    (
        b"REC-SPEC A SORTS S CONS a : -> S END-SPEC REC-SPEC B SORTS T CONS b : -> T END-SPEC REC-SPEC C : A CONS c : -> S END-SPEC REC-SPEC D : B CONS d : -> T e : -> ",
        4,
        b"S END-SPEC REC-SPEC E : C CONS d : -> T END-SPEC",
    ),
    // faults in both: the least place, in the chain that begins first, and in the other one
    (
        b"REC-SPEC A SORTS S CONS a : -> S END-SPEC REC-SPEC B SORTS S CONS b : -> S END-SPEC REC-SPEC C : A EVAL ",
        5,
        b"b END-SPEC REC-SPEC D : B EVAL a END-SPEC REC-SPEC E : C EVAL b END-SPEC",
    ),
    (
        b"REC-SPEC A SORTS S CONS a : -> S END-SPEC REC-SPEC B SORTS S CONS b : -> S END-SPEC REC-SPEC C : A EVAL a END-SPEC REC-SPEC D : B EVAL ",
        7,
        b"b(b) END-SPEC REC-SPEC E : C EVAL b END-SPEC REC-SPEC F : D EVAL a END-SPEC",
    ),
];

// Specifications that include the same one, and specifications that include nothing.
static TREES: [Row; 13] = [
    // each has a symbol, a sort and a variable of its own with the same names
    (
        b"REC-SPEC A SORTS S CONS a : -> S END-SPEC REC-SPEC B : A SORTS T CONS b : -> T VARS X : T EVAL b END-SPEC REC-SPEC C : A SORTS T CONS b : S -> T VARS X : S EVAL b(a) END-SPEC REC-SPEC D : A SORTS T CONS b : S S -> S VARS X : T EVAL b(a, b(a, a)) END-SPEC",
        0,
        b"",
    ),
    // a symbol, a sort and a variable that another has
    (
        b"REC-SPEC A SORTS S CONS a : -> S END-SPEC REC-SPEC B : A CONS b : -> S END-SPEC REC-SPEC C : A EVAL a ",
        5,
        b"b END-SPEC",
    ),
    (
        b"REC-SPEC A SORTS S CONS a : -> S END-SPEC REC-SPEC B : A SORTS T CONS b : -> T END-SPEC REC-SPEC C : A CONS b : -> S c : -> ",
        4,
        b"T END-SPEC",
    ),
    (
        b"REC-SPEC A SORTS S CONS f : S -> S END-SPEC REC-SPEC B : A VARS X : S RULES f(X) -> X END-SPEC REC-SPEC C : A VARS Y : S RULES f(Y) -> Y f(",
        5,
        b"X) -> Y END-SPEC",
    ),
    // two levels, the last branch of which has no name of the first
    (
        b"REC-SPEC A SORTS S CONS a : -> S END-SPEC REC-SPEC B : A CONS b : -> S END-SPEC REC-SPEC C : A CONS c : -> S END-SPEC REC-SPEC D : B CONS c d : -> S EVAL a b c d END-SPEC REC-SPEC E : B CONS c : S -> S EVAL c(b) END-SPEC REC-SPEC F : C CONS b : S -> S EVAL b(c) END-SPEC REC-SPEC G : C CONS d : -> S EVAL a c d ",
        5,
        b"b END-SPEC",
    ),
    // a fault of an earlier one in the input, but of a later branch
    (
        b"REC-SPEC A SORTS S CONS a : -> S END-SPEC REC-SPEC B : A CONS b : -> S END-SPEC REC-SPEC C : A EVAL ",
        5,
        b"b END-SPEC REC-SPEC D : B CONS d : -> T END-SPEC",
    ),
    // a fault of one that includes nothing, after which come others that hang under the first
    (
        b"REC-SPEC A SORTS S CONS a : -> S END-SPEC REC-SPEC B SORTS S VARS X : S EVAL ",
        11,
        b"X END-SPEC REC-SPEC C : A CONS c : -> T END-SPEC",
    ),
    // a specification that includes nothing, after one that includes much: a symbol, and a sort
    (
        b"REC-SPEC A SORTS S CONS a : -> S END-SPEC REC-SPEC B : A CONS b : -> S END-SPEC REC-SPEC C : B CONS c : -> S END-SPEC REC-SPEC D EVAL ",
        5,
        b"c END-SPEC",
    ),
    (
        b"REC-SPEC A SORTS S CONS a : -> S END-SPEC REC-SPEC B : A SORTS T CONS b : -> S END-SPEC REC-SPEC C SORTS T CONS c : -> T d : -> ",
        4,
        b"S END-SPEC",
    ),
    // the names are free there, and known again where they are included
    (
        b"REC-SPEC A SORTS S CONS a : -> S END-SPEC REC-SPEC B : A CONS b : -> S END-SPEC REC-SPEC C SORTS S CONS a : S -> S VARS b : S END-SPEC REC-SPEC D : B EVAL a b END-SPEC REC-SPEC E : C VARS b : S RULES a(b) -> b END-SPEC",
        0,
        b"",
    ),
    // a sort of an included specification, after one that doesn't include it
    (
        b"REC-SPEC A SORTS S END-SPEC REC-SPEC B SORTS T CONS b : -> T END-SPEC REC-SPEC C : A CONS c : -> S END-SPEC REC-SPEC D : B A CONS d : S -> T END-SPEC REC-SPEC E : A CONS e : S -> S f : -> ",
        4,
        b"T END-SPEC",
    ),
    // sorts that are listed again: one of the included specification, and one of the branch beside
    (
        b"REC-SPEC A SORTS S END-SPEC REC-SPEC B : A SORTS T S CONS b : -> T END-SPEC REC-SPEC C : A SORTS S CONS c : -> S d : -> ",
        4,
        b"T END-SPEC",
    ),
    // a header's name a second time, and one that includes the first
    (
        b"REC-SPEC A SORTS S CONS a : -> S END-SPEC REC-SPEC B : A EVAL a END-SPEC REC-SPEC ",
        6,
        b"A : B CONS b : -> S END-SPEC REC-SPEC C : A EVAL b END-SPEC",
    ),
];

// Lists of several entries.
static ENTRIES: [Row; 17] = [
    // a later entry brings a symbol that an earlier one brought from another declaration
    (
        b"REC-SPEC A SORTS S CONS a : -> S END-SPEC REC-SPEC B : A CONS b : -> S END-SPEC REC-SPEC C SORTS S CONS a : -> S END-SPEC REC-SPEC D : C END-SPEC REC-SPEC E : B ",
        6,
        b"D END-SPEC",
    ),
    (
        b"REC-SPEC A SORTS S CONS a : -> S END-SPEC REC-SPEC B : A CONS b : -> S END-SPEC REC-SPEC C SORTS S CONS a : -> S END-SPEC REC-SPEC D : C END-SPEC REC-SPEC E : D ",
        6,
        b"B END-SPEC",
    ),
    // the last of three with the first, and the second of three, which stands twice
    (
        b"REC-SPEC A SORTS S CONS a : -> S END-SPEC REC-SPEC B SORTS S CONS b : -> S END-SPEC REC-SPEC C SORTS S CONS c a : S -> S END-SPEC REC-SPEC D : A, B, ",
        6,
        b"C END-SPEC",
    ),
    (
        b"REC-SPEC A SORTS S CONS a : -> S END-SPEC REC-SPEC B SORTS S CONS a : -> S END-SPEC REC-SPEC C : A ",
        6,
        b"B B A EVAL a(a) END-SPEC",
    ),
    // both bring the same declaration: no offence, but where each has another one with the same
    // name
    (
        b"REC-SPEC A SORTS S CONS a : -> S END-SPEC REC-SPEC B : A CONS b : -> S END-SPEC REC-SPEC C : A CONS c : -> S END-SPEC REC-SPEC D : B C CONS d : S -> S EVAL a b c d(a) END-SPEC REC-SPEC E : C D B A EVAL d(b) END-SPEC",
        0,
        b"",
    ),
    (
        b"REC-SPEC A SORTS S CONS a : -> S END-SPEC REC-SPEC B : A CONS b : -> S END-SPEC REC-SPEC C : A CONS b : -> S END-SPEC REC-SPEC D : A B ",
        6,
        b"C END-SPEC",
    ),
    // a later entry that is included by an earlier one brings nothing, one that includes it brings
    // the rest
    (
        b"REC-SPEC A SORTS S CONS a : -> S END-SPEC REC-SPEC B : A CONS b : -> S END-SPEC REC-SPEC C : B A CONS c : -> S END-SPEC REC-SPEC D : A C CONS d : -> S EVAL a b c d END-SPEC",
        0,
        b"",
    ),
    // sorts and variables of two entries with the same names, which symbols have too
    (
        b"REC-SPEC A SORTS S CONS a : -> S VARS X : S END-SPEC REC-SPEC B SORTS S CONS S : -> S VARS X a : S END-SPEC REC-SPEC C : A B VARS X : S EVAL a S END-SPEC",
        0,
        b"",
    ),
    // a symbol and a variable with the name that the second entry brought
    (
        b"REC-SPEC A SORTS S CONS a : -> S END-SPEC REC-SPEC B SORTS S CONS b : -> S END-SPEC REC-SPEC C : A B CONS c ",
        6,
        b"b : S -> S END-SPEC",
    ),
    (
        b"REC-SPEC A SORTS S CONS a : -> S END-SPEC REC-SPEC B SORTS S CONS b : -> S END-SPEC REC-SPEC C : A B VARS c ",
        6,
        b"b : S END-SPEC",
    ),
    // an entry that no earlier header has: after a known one, and before
    (
        b"REC-SPEC A SORTS S CONS a : -> S END-SPEC REC-SPEC B : A ",
        12,
        b"X EVAL b END-SPEC",
    ),
    (
        b"REC-SPEC A SORTS S CONS a : -> S END-SPEC REC-SPEC B : ",
        12,
        b"X A EVAL a b END-SPEC",
    ),
    // its own, and that of a later one, before a known one
    (
        b"REC-SPEC A SORTS S CONS a : -> S END-SPEC REC-SPEC B : A EVAL a END-SPEC REC-SPEC C : A ",
        12,
        b"C B END-SPEC",
    ),
    (
        b"REC-SPEC A SORTS S CONS a : -> S END-SPEC REC-SPEC B : ",
        12,
        b"C A END-SPEC REC-SPEC C : A CONS c : -> S END-SPEC",
    ),
    // before and after an entry that clashes
    (
        b"REC-SPEC A SORTS S CONS a : -> S END-SPEC REC-SPEC B SORTS S CONS a : -> S END-SPEC REC-SPEC C : A ",
        12,
        b"X B END-SPEC",
    ),
    (
        b"REC-SPEC A SORTS S CONS a : -> S END-SPEC REC-SPEC B SORTS S CONS a : -> S END-SPEC REC-SPEC C : A ",
        6,
        b"B X END-SPEC",
    ),
    // a later one, which includes what is known
    (
        b"REC-SPEC A SORTS S CONS a : -> S END-SPEC REC-SPEC B : A CONS b : -> S END-SPEC REC-SPEC C : B ",
        12,
        b"D END-SPEC REC-SPEC D : A CONS b : -> S END-SPEC REC-SPEC E : C D END-SPEC",
    ),
];

#[test]
fn chains_of_includes_have_their_faults(rt: HostRuntime) -> Result<(), Fail> {
    for row in CHAINS {
        let (wanted, found) = faults_of(rt.alloc(), row)?;
        assert_eq!(rt; found, wanted, "at {row:?}");
    }
    Ok(())
}

#[test]
fn trees_of_includes_have_their_faults(rt: HostRuntime) -> Result<(), Fail> {
    for row in TREES {
        let (wanted, found) = faults_of(rt.alloc(), row)?;
        assert_eq!(rt; found, wanted, "at {row:?}");
    }
    Ok(())
}

#[test]
fn lists_of_several_includes_have_their_faults(rt: HostRuntime) -> Result<(), Fail> {
    for row in ENTRIES {
        let (wanted, found) = faults_of(rt.alloc(), row)?;
        assert_eq!(rt; found, wanted, "at {row:?}");
    }
    Ok(())
}
