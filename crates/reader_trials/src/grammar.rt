//! Inputs, and what reading them comes to.
use rec_reader::{Name, Node, ReadFail, Sign, Syntax, Token, syntax, tokens};
use std::alloc::Global;
use std::test::Fail;

const NATURALS: &[u8] = b"REC-SPEC NAT
SORTS Nat
CONS z : -> Nat  s : Nat -> Nat
OPNS plus : Nat Nat -> Nat
VARS X Y : Nat
RULES
plus(X, z) -> X
plus(X, s(Y)) -> s(plus(X, Y))
EVAL plus(s(z), s(z))
END-SPEC";

// Inputs, with the kind and the place of the refusal, or twice 0.
static ROWS: [(&[u8], u8, u64); 47] = [
    (NATURALS, 0, 0),
    (b"REC-SPEC A SORTS A CONS A : -> A EVAL A END-SPEC\n", 0, 0),
    (
        b"REC-SPEC A SORTS S CONS  a : -> S EVAL a( a) END-SPEC",
        0,
        0,
    ),
    (b"REC-SPEC A SORTS S CONS a : -> S EVAL a END-SPE", 3, 47),
    (b"REC-SPEC A SORTS S CONS \xc3\xa9 : -> S END-SPEC", 1, 24),
    (b"REC-SPEC A EVAL", 3, 15),
    (b"", 3, 0),
    (b"REC-SPEC A EVAL ( END-SPEC", 2, 16),
    (b"REC-SPEC A EVAL \x80 END-SPEC", 1, 16),
    (b"REC-SPEC A EVAL f() END-SPEC", 2, 18),
    (b"REC-SPEC A : B END-SPEC", 0, 0),
    (b"REC-SPEC A : END-SPEC", 0, 0),
    (b"REC-SPEC A END-SPEC x", 2, 20),
    (b"REC-SPEC A END-SPEC REC-SPEC A END-SPEC", 0, 0),
    (b"REC-SPEC A END-SPEC REC-SPEC", 3, 28),
    (b"REC-SPEC A RULES a -> b END-SPEC", 0, 0),
    (b"REC-SPEC A RULES a -> b if END-SPEC", 2, 27),
    (
        b"REC-SPEC A RULES a -> b if c = d, e <> f and-if g ->/<- h i -> j END-SPEC",
        0,
        0,
    ),
    (b"REC-SPEC A RULES a -> b if c -> d END-SPEC", 2, 29),
    (
        b"REC-SPEC A SORTS S,T U CONS a b,c : S,T U -> S EVAL a b,c END-SPEC",
        0,
        0,
    ),
    (b"REC-SPEC A SORTS S, END-SPEC", 2, 20),
    (b"REC-SPEC A CONS a -> S END-SPEC", 2, 18),
    (b"REC-SPEC A OPNS CONS END-SPEC", 2, 16),
    (b"REC-SPEC A SORTS SORTS END-SPEC", 2, 17),
    (b"REC-SPEC A VARS X : END-SPEC", 2, 20),
    (b"REC-SPEC A EVAL f (a)(b) END-SPEC", 2, 21),
    (b"REC-SPEC A EVAL f(a b) END-SPEC", 2, 20),
    (b"REC-SPEC A EVAL f(g(a),", 3, 23),
    (b"%\xff > %\nREC-SPEC%\r\n\tA END-SPEC%", 0, 0),
    (b"%REC-SPEC A END-SPEC", 3, 20),
    (b"END-SPEC <", 1, 9),
    (b"REC-SPEC <A", 1, 9),
    (b"REC-SPEC >", 1, 9),
    (b"REC-SPEC A-> ->/<", 1, 16),
    (b"REC-SPEC A", 3, 10),
    (b"REC-SPEC iffy END-SPEC", 0, 0),
    (b"REC-SPEC REC-SPEC END-SPEC", 2, 9),
    (b"REC-SPEC SORTS END-SPEC", 2, 9),
    (b"REC-SPEC CONS END-SPEC", 2, 9),
    (b"REC-SPEC OPNS END-SPEC", 2, 9),
    (b"REC-SPEC VARS END-SPEC", 2, 9),
    (b"REC-SPEC RULES END-SPEC", 2, 9),
    (b"REC-SPEC EVAL END-SPEC", 2, 9),
    (b"REC-SPEC END-SPEC END-SPEC", 2, 9),
    (b"REC-SPEC if END-SPEC", 2, 9),
    (b"REC-SPEC and-if END-SPEC", 2, 9),
    (b"REC-SPEC and-if- END-SPEC", 0, 0),
];

// Bytes and their tokens.
static CUTS: [(&[u8], [Token; 3]); 4] = [
    (
        b"a->b",
        [
            Token::Named(Name { start: 0, end: 1 }),
            Token::At(Sign::Arrow, 1),
            Token::Named(Name { start: 3, end: 4 }),
        ],
    ),
    (
        b"a-->b",
        [
            Token::Named(Name { start: 0, end: 2 }),
            Token::At(Sign::Arrow, 2),
            Token::Named(Name { start: 4, end: 5 }),
        ],
    ),
    (
        b"X-><-Y",
        [
            Token::Named(Name { start: 0, end: 1 }),
            Token::At(Sign::Joins, 1),
            Token::Named(Name { start: 5, end: 6 }),
        ],
    ),
    (
        b"if iffy-\tand-if%",
        [
            Token::At(Sign::If, 0),
            Token::Named(Name { start: 3, end: 8 }),
            Token::At(Sign::AndIf, 9),
        ],
    ),
];

// The kind and the place of a refusal, or twice 0.
fn outcome_of(read: Result<Syntax<'_>, ReadFail>) -> Result<(u8, u64), ReadFail> {
    match read {
        Ok(_) => Ok((0, 0)),
        Err(ReadFail::Refused { kind, offset }) => Ok((kind, offset)),
        Err(ReadFail::Memory) => Err(ReadFail::Memory),
    }
}

// The kind and the place of the refusal, or twice 0 where the bytes spell specifications.
fn read(alloc: Global, bytes: &[u8]) -> Result<(u8, u64), ReadFail> {
    let read = match tokens(alloc, bytes) {
        Ok(tokens) => syntax(alloc, &tokens),
        Err(fail) => Err(fail),
    };
    outcome_of(read)
}

// The same of bytes that are read at once.
fn read_at_once(alloc: Global, bytes: &[u8]) -> Result<(u8, u64), ReadFail> {
    outcome_of(rec_reader::read(alloc, bytes))
}

#[test]
fn inputs_are_read_or_refused_at_their_places(rt: HostRuntime) -> Result<(), Fail> {
    for (bytes, kind, offset) in &ROWS {
        assert_eq!(rt; read(rt.alloc(), bytes)?, (*kind, *offset));
        assert_eq!(rt; read_at_once(rt.alloc(), bytes)?, (*kind, *offset));
    }
    Ok(())
}

/// A term with so many letters in its names and so many heads over one another.
fn text_of(alloc: Global, letters: usize, depth: usize) -> Result<Vec<u8>, Fail> {
    let mut text = Vec::from_slice(alloc, b"REC-SPEC A EVAL ")?;
    for _ in 0..depth {
        text.extend_from_slice(b"f(")?;
    }
    for _ in 0..letters {
        text.push(b'a')?;
    }
    for _ in 0..depth {
        text.push(b')')?;
    }
    text.extend_from_slice(b" END-SPEC")?;
    Ok(text)
}

#[test]
fn long_names_and_deep_terms_are_read(rt: HostRuntime) -> Result<(), Fail> {
    for (letters, depth) in [(256, 1), (65_536, 0), (1, 4096), (1, 100_000)] {
        let text = text_of(rt.alloc(), letters, depth)?;
        assert_eq!(rt; read(rt.alloc(), &text)?, (0, 0));
        assert_eq!(rt; read_at_once(rt.alloc(), &text)?, (0, 0));
    }
    Ok(())
}

#[test]
fn each_front_of_an_input_is_refused(rt: HostRuntime) -> Result<(), Fail> {
    for length in 0..NATURALS.len() {
        let (kind, offset) = read(rt.alloc(), &NATURALS[..length])?;
        assert!(rt; kind == 2 || kind == 3);
        assert!(rt; offset <= length as u64);
    }
    Ok(())
}

#[test]
fn bytes_are_cut_into_the_longest_tokens(rt: HostRuntime) -> Result<(), Fail> {
    for (bytes, expected) in &CUTS {
        let found = tokens(rt.alloc(), bytes)?;
        assert_eq!(rt; found.as_slice(), expected.as_slice());
    }
    Ok(())
}

#[test]
fn a_rule_keeps_its_parts_and_their_places(rt: HostRuntime) -> Result<(), Fail> {
    let bytes = b"REC-SPEC A RULES f(X,a) -> X if X ->/<- a EVAL f(a) END-SPEC";
    let tokens = tokens(rt.alloc(), bytes)?;
    let syntax = syntax(rt.alloc(), &tokens)?;
    let node = |start: usize, count: usize| Node {
        head: Name {
            start,
            end: start + 1,
        },
        count,
    };
    for specification in syntax.as_slice() {
        for rule in specification.rules.as_slice() {
            assert_eq!(rt;
                rule.left.as_slice(),
                [node(19, 0), node(21, 0), node(17, 2)].as_slice()
            );
            assert_eq!(rt; rule.right.as_slice(), [node(27, 0)].as_slice());
            assert_eq!(rt; rule.condition_at, Some(29));
            for condition in rule.conditions.as_slice() {
                assert_eq!(rt; condition.first.as_slice(), [node(32, 0)].as_slice());
                assert_eq!(rt; condition.second.as_slice(), [node(40, 0)].as_slice());
                assert!(rt; !condition.equal);
            }
            assert_eq!(rt; rule.conditions.as_slice().len(), 1);
        }
        assert_eq!(rt; specification.rules.as_slice().len(), 1);
        for term in specification.terms.as_slice() {
            assert_eq!(rt; term.as_slice(), [node(49, 0), node(47, 1)].as_slice());
        }
        assert_eq!(rt; specification.terms.as_slice().len(), 1);
    }
    assert_eq!(rt; syntax.as_slice().len(), 1);
    Ok(())
}
