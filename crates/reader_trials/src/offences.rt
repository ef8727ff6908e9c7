//! Inputs, and their faults.

use rec_offences::{Refusal, fault};
use rec_reader::{syntax, tokens};
use std::alloc::Global;
use std::test::Fail;

/// The fault of an input as a kind and a place, or twice 0.
pub(crate) fn fault_of(alloc: Global, text: &[u8]) -> Result<(u8, u64), Fail> {
    let syntax = syntax(alloc, &tokens(alloc, text)?)?;
    match fault(alloc, &syntax)? {
        Some(Refusal { kind, place }) => Ok((kind, place)),
        None => Ok((0, 0)),
    }
}

// Inputs of one specification, with the kind and the place of the fault, or twice 0.
static SINGLE: [(&[u8], u8, u64); 42] = [
    (b"REC-SPEC A END-SPEC", 0, 0),
    (
        b"REC-SPEC A SORTS S CONS a : -> S OPNS f : S -> S VARS X : S RULES f(X) -> X EVAL f(a) END-SPEC",
        0,
        0,
    ),
    // a sort of CONS, of OPNS and of VARS that isn't listed
    (b"REC-SPEC A CONS a : -> S END-SPEC", 4, 23),
    (b"REC-SPEC A SORTS S OPNS f : S T -> S END-SPEC", 4, 30),
    (b"REC-SPEC A SORTS S VARS X : T END-SPEC", 4, 28),
    (
        b"REC-SPEC A SORTS S T CONS a : -> S f : T -> S END-SPEC",
        0,
        0,
    ),
    // a head that isn't declared
    (b"REC-SPEC A EVAL a END-SPEC", 5, 16),
    (
        b"REC-SPEC A SORTS S CONS f : S -> S EVAL f(b) END-SPEC",
        5,
        42,
    ),
    // a sort that is listed twice, and names that are declared twice
    (b"REC-SPEC A SORTS S T S END-SPEC", 6, 21),
    (b"REC-SPEC A SORTS S CONS a a : -> S END-SPEC", 6, 26),
    (
        b"REC-SPEC A SORTS S CONS a : -> S OPNS a : S -> S END-SPEC",
        6,
        38,
    ),
    (
        b"REC-SPEC A SORTS S CONS a : -> S VARS a : S END-SPEC",
        6,
        38,
    ),
    (b"REC-SPEC A SORTS S VARS X X : S END-SPEC", 6, 26),
    (b"REC-SPEC A SORTS A CONS A : -> A EVAL A END-SPEC", 0, 0),
    // another number of arguments, and a variable with arguments
    (
        b"REC-SPEC A SORTS S CONS a : -> S EVAL a(a) END-SPEC",
        7,
        38,
    ),
    (
        b"REC-SPEC A SORTS S CONS a : -> S f : S S -> S EVAL f(a) END-SPEC",
        7,
        51,
    ),
    (
        b"REC-SPEC A SORTS S OPNS f : S -> S VARS X : S RULES f(X(X)) -> X END-SPEC",
        7,
        54,
    ),
    // a name that is declared twice counts as first declared
    (
        b"REC-SPEC A SORTS S CONS a : -> S a : S -> S EVAL a(a) END-SPEC",
        6,
        33,
    ),
    // an argument, a right side and the second side of a condition with another sort
    (
        b"REC-SPEC A SORTS S T CONS a : -> S b : -> T f : S -> S EVAL f(b) END-SPEC",
        8,
        62,
    ),
    (
        b"REC-SPEC A SORTS S T CONS a : -> S b : -> T f : S T -> S EVAL f(a,a) END-SPEC",
        8,
        66,
    ),
    (
        b"REC-SPEC A SORTS S T CONS a : -> S b : -> T f : S T -> S EVAL f(a,b) END-SPEC",
        0,
        0,
    ),
    (
        b"REC-SPEC A SORTS S T CONS a : -> S b : -> T RULES a -> b END-SPEC",
        8,
        55,
    ),
    (
        b"REC-SPEC A SORTS S T CONS a : -> S b : -> T RULES a -> a if a = b END-SPEC",
        8,
        64,
    ),
    (
        b"REC-SPEC A SORTS S T CONS a : -> S b : -> T RULES a -> a if b <> b END-SPEC",
        0,
        0,
    ),
    // one sort named at several places, and another of the same length that ends in another byte
    (
        b"REC-SPEC A SORTS Sa Sb CONS a : -> Sa b : -> Sb f : Sa Sb -> Sa EVAL f(a,a) END-SPEC",
        8,
        73,
    ),
    // a head that isn't declared has no sort
    (
        b"REC-SPEC A SORTS S CONS f : S -> S RULES f(b) -> f(b) END-SPEC",
        5,
        43,
    ),
    // surplus arguments have no sort to clash with
    (
        b"REC-SPEC A SORTS S T CONS a : -> S b : -> T f : S -> S EVAL f(a,b) END-SPEC",
        7,
        60,
    ),
    // a left side that is a variable
    (
        b"REC-SPEC A SORTS S VARS X : S RULES X -> X END-SPEC",
        9,
        36,
    ),
    // variables of a right side and of both sides of a condition that aren't on the left
    (
        b"REC-SPEC A SORTS S OPNS f : S -> S VARS X Y : S RULES f(X) -> Y END-SPEC",
        10,
        62,
    ),
    (
        b"REC-SPEC A SORTS S OPNS f : S -> S VARS X Y : S RULES f(X) -> X if Y = X END-SPEC",
        10,
        67,
    ),
    (
        b"REC-SPEC A SORTS S OPNS f : S -> S VARS X Y : S RULES f(X) -> X if X = f(Y) END-SPEC",
        10,
        73,
    ),
    // a variable in EVAL
    (
        b"REC-SPEC A SORTS S OPNS f : S -> S VARS X : S EVAL f(X) END-SPEC",
        11,
        53,
    ),
    // two offences at one place: the least kind
    (b"REC-SPEC A SORTS S VARS X : S EVAL X(X) END-SPEC", 7, 35),
    // two offences at different places: the least place, of whatever kind
    (
        b"REC-SPEC A SORTS S VARS X : S RULES X -> b EVAL c END-SPEC",
        9,
        36,
    ),
    (b"REC-SPEC A : A SORTS S S END-SPEC", 12, 13),
    // an entry where no header comes before
    (b"REC-SPEC A : B END-SPEC", 12, 13),
    // heads of a condition and of a right side that aren't declared
    (
        b"REC-SPEC A SORTS S CONS a : -> S RULES a -> a if a = b END-SPEC",
        5,
        53,
    ),
    (
        b"REC-SPEC A SORTS S CONS a : -> S RULES a -> b END-SPEC",
        5,
        44,
    ),
    // variables have sorts too: of an argument, a right side and a second side
    (
        b"REC-SPEC A SORTS S T OPNS f : S -> S VARS X : T RULES f(X) -> f(X) END-SPEC",
        8,
        56,
    ),
    (
        b"REC-SPEC A SORTS S T OPNS f : T -> S VARS X : T RULES f(X) -> X END-SPEC",
        8,
        62,
    ),
    (
        b"REC-SPEC A SORTS S T OPNS f : T -> S VARS X : T RULES f(X) -> f(X) if f(X) <> X END-SPEC",
        8,
        78,
    ),
    // a constructor at the head of a rule
    (
        b"REC-SPEC A SORTS S CONS a b : -> S RULES a -> b END-SPEC",
        0,
        0,
    ),
];

// Inputs of several specifications, with the kind and the place of the fault, or twice 0.
static SEVERAL: [(&[u8], u8, u64); 22] = [
    (
        b"REC-SPEC A SORTS S CONS a : -> S OPNS f : S -> S VARS X : S RULES f(X) -> X EVAL f(a) END-SPEC REC-SPEC B : A EVAL f(f(a)) END-SPEC",
        0,
        0,
    ),
    (b"REC-SPEC A END-SPEC REC-SPEC A END-SPEC", 6, 29),
    (
        b"REC-SPEC A SORTS S CONS a : -> S END-SPEC REC-SPEC B SORTS S CONS a : -> S END-SPEC REC-SPEC C : A B EVAL a END-SPEC",
        6,
        99,
    ),
    // two specifications that don't include each other may declare one name
    (
        b"REC-SPEC A SORTS S CONS a : -> S END-SPEC REC-SPEC B SORTS S CONS a : -> S END-SPEC",
        0,
        0,
    ),
    // specifications before the last are checked
    (b"REC-SPEC A EVAL a END-SPEC REC-SPEC B END-SPEC", 5, 16),
    // an entry that no earlier header has: its own, a later one's, and none's
    (b"REC-SPEC A : B END-SPEC REC-SPEC B END-SPEC", 12, 13),
    (b"REC-SPEC A END-SPEC REC-SPEC B : C A END-SPEC", 12, 33),
    // what isn't included isn't declared
    (
        b"REC-SPEC A SORTS S CONS a : -> S END-SPEC REC-SPEC B EVAL a END-SPEC",
        5,
        58,
    ),
    // an entry twice, and one specification by two ways
    (
        b"REC-SPEC A SORTS S CONS a : -> S END-SPEC REC-SPEC B : A A EVAL a END-SPEC",
        0,
        0,
    ),
    (
        b"REC-SPEC A SORTS S CONS a : -> S END-SPEC REC-SPEC B : A END-SPEC REC-SPEC C : A END-SPEC REC-SPEC D : B C EVAL a END-SPEC",
        0,
        0,
    ),
    // a variable, and a symbol, named as an included symbol
    (
        b"REC-SPEC A SORTS S CONS a : -> S END-SPEC REC-SPEC B : A VARS a : S END-SPEC",
        6,
        62,
    ),
    (
        b"REC-SPEC A SORTS S CONS a : -> S END-SPEC REC-SPEC B : A SORTS S OPNS a : -> S END-SPEC",
        6,
        70,
    ),
    // variables aren't included
    (
        b"REC-SPEC A SORTS S VARS X : S END-SPEC REC-SPEC B : A VARS X : S END-SPEC",
        0,
        0,
    ),
    // a cycle of includes isn't possible
    (b"REC-SPEC A : B END-SPEC REC-SPEC B : A END-SPEC", 12, 13),
    // what is included by what is included counts as declared
    (
        b"REC-SPEC A SORTS S CONS a : -> S END-SPEC REC-SPEC B : A END-SPEC REC-SPEC C : B CONS b : -> S RULES a -> b EVAL a END-SPEC",
        0,
        0,
    ),
    // a sort that isn't included, and one that is listed again
    (
        b"REC-SPEC A SORTS S END-SPEC REC-SPEC B VARS X : S END-SPEC",
        4,
        48,
    ),
    (
        b"REC-SPEC A SORTS S END-SPEC REC-SPEC B : A SORTS S END-SPEC",
        0,
        0,
    ),
    // included symbols have their arguments and their sorts
    (
        b"REC-SPEC A SORTS S CONS a : -> S END-SPEC REC-SPEC B : A EVAL a(a) END-SPEC",
        7,
        62,
    ),
    (
        b"REC-SPEC A SORTS S T CONS a : -> S f : T -> S END-SPEC REC-SPEC B : A EVAL f(a) END-SPEC",
        8,
        77,
    ),
    // an included specification's variable isn't declared
    (
        b"REC-SPEC A SORTS S VARS X : S END-SPEC REC-SPEC B : A EVAL X END-SPEC",
        5,
        59,
    ),
    // a symbol with another number of arguments has the name of an included one
    (
        b"REC-SPEC A SORTS S CONS a : -> S END-SPEC REC-SPEC B : A CONS a : S -> S END-SPEC",
        6,
        62,
    ),
    // a name from two declarations, one of them included by an entry
    (
        b"REC-SPEC A SORTS S CONS a : -> S END-SPEC REC-SPEC B SORTS S CONS a : -> S END-SPEC REC-SPEC C : A END-SPEC REC-SPEC D : C B END-SPEC",
        6,
        123,
    ),
];

#[test]
fn single_specifications_have_their_faults(rt: HostRuntime) -> Result<(), Fail> {
    for (text, kind, offset) in SINGLE {
        assert_eq!(rt; fault_of(rt.alloc(), text)?, (kind, offset), "at {text:?}");
    }
    Ok(())
}

#[test]
fn several_specifications_have_their_fault(rt: HostRuntime) -> Result<(), Fail> {
    for (text, kind, offset) in SEVERAL {
        assert_eq!(rt; fault_of(rt.alloc(), text)?, (kind, offset), "at {text:?}");
    }
    Ok(())
}
